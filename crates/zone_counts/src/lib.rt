//! The zones of nodes: how many nodes of each are ready, their states and rates.
#![tactic(auto)]

mod counts;
mod rates;

pub use counts::{Counts, ZoneCount};
pub use rates::all_full;
