//! When each node was last heard of, and which nodes are to be marked Unknown.
#![tactic(auto)]

mod grace;
mod health;
mod known;
mod known_nodes;
mod listed;
mod verdict;

pub use grace::Grace;
pub use health::Health;
pub use verdict::Verdict;

#[cfg(test)]
mod tests;
