//! A clock whose rate changes at beats, read without a walk over the beats.
#![tactic(auto)]

mod clock;

pub use clock::Clock;
