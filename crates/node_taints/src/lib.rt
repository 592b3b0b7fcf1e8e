//! Which condition taint a node wants, and nodes with such taints added or taken away.
#![tactic(auto)]

mod edits;
mod wants;

pub use edits::{new_taint, with_only, with_restamp, with_swap, with_taint, without_condition};
pub use wants::{Wants, has_condition, has_opposite, has_taint, lacks, ready_wants, want_of};
