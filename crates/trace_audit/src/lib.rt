//! A checker of traces that trusts nobody: it reads the text of a trace by a grammar of its own and says whether it is safe.
#![tactic(auto)]

mod audit_of;
mod fault;
mod pass;
mod role;

pub use audit_of::{BAD_TRACE, OUTSIDE, OVERLAP, Report, SPACING, audit};
pub use fault::AuditFault;
