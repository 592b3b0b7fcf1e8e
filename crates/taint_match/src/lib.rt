//! Which toleration tolerates a taint, when a pod is due to be evicted from a node, and how long it bears the node's taints. Nothing here takes memory.
#![tactic(auto)]

mod bearing;
mod due_time;
mod tolerate;

pub use bearing::bears;
pub use due_time::{due, first_tolerating};
pub use tolerate::{first_match, tolerates};

#[cfg(test)]
mod tests;
