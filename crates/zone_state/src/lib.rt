//! Zone states, and the rates at which the nodes of a zone are tainted. Nothing here takes memory.
#![tactic(auto)]

mod by_policy;
mod policies;
mod state;
mod view;

pub use by_policy::{full, partial};
pub use policies::{FullRate, PartialRate, Policies};
pub use state::state_of;
pub use view::ZoneView;

#[cfg(test)]
mod tests;
