//! A world runs a document: one after the other its beats with entries are done, up to a last one.
#![tactic(auto)]

mod runs;

pub use runs::{next_deeds, run_up_to};
