//! The next beat of a world at which an entry of the history stands.
#![tactic(auto)]

mod agenda;

pub use agenda::next_beat;
