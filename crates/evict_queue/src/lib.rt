//! Pods by the time at which they are due to be evicted.
#![tactic(auto)]

mod change;
mod dues;
mod queue;
mod rows;
mod timed;

pub use queue::EvictQueue;
pub use rows::{Going, Row, Rows, next_row};

#[cfg(test)]
mod tests;
