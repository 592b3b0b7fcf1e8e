//! Requests and replies in flight between processes and the store.
#![tactic(auto)]

mod flight;
mod link;
mod message;
mod queues;
#[cfg(test)]
mod tests;
mod wire;

pub use message::{Back, Fate, Sent};
pub use wire::Wire;
