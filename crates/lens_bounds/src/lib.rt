//! How long nobody leads, at least and at most, and how long after a node's death its pods are gone: the numbers of the laws on calm spans,
//! for a document's settings or others. The numbers alone.
#![tactic(auto)]

mod beats;
mod calm;
mod elections;
mod outages;
mod reach;

pub use calm::{Calm, Waits};
pub use elections::{Election, Handover, Span, crash_most, election_of, leads, stays, stays_by};
pub use outages::{Marked, Outage, Since, Tainted, until_gone, until_tainted, until_unknown};
pub use reach::{Reach, calm_of, outage_of};
