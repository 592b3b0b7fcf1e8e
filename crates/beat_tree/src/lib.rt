//! Which of some places has a beat that has come, and which has the least one.
#![tactic(auto)]

mod tree;

pub use tree::BeatTree;
