//! A leader's term: what it has seen of the cluster, and its tick.
#![tactic(auto)]

mod acts;
mod clean;
mod evict;
mod judging;
mod pass;
mod pushing;
mod ready;
mod sync;
mod taint;
mod term;
mod trying;
mod wakes;

pub use pass::due::picoseconds;
pub use term::Term;
