//! What a term of a leader has seen of the store. A sync takes over what changed since the last one.
#![tactic(auto)]

mod cache;
mod faults;
mod index;
mod listing;
mod objects;
mod taint_changes;

pub use cache::Cache;
pub use faults::{ListFault, NotSynced};

#[cfg(test)]
mod tests;
