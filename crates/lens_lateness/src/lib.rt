//! How late each pod was evicted, of a document and its trace: the command `summary --document`, as tables and as JSON, from bytes to
//! text.
#![tactic(auto)]

mod answering;
mod clocks;
pub mod figures;
mod input;
mod late;
mod table;
mod timing;
mod trace;

pub use answering::lateness_of;
