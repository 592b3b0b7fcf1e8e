//! The nodes of a zone that wait to be tainted.
#![tactic(auto)]

mod pushes;
mod queue;
mod tournament;
mod waiting;

pub use pushes::Pushes;
pub use queue::Queue;
