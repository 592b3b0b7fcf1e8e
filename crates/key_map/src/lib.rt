//! A map from the keys of objects, by the numbers of their names.
#![tactic(auto)]

mod map;
mod shelf;

pub use map::KeyMap;
