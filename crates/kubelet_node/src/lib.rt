//! A kubelet's rounds: it posts its node's status, and then creates or renews the node's Lease.
//!
//! One call of a round follows the other. `Kubelet::on_timer` begins a round where it is time, `on_reply` sends what follows a
//! reply, and `wake` tells when `on_timer` next does anything. Source: KEP-589, node heartbeats; the order of a round's calls,
//! and that a post without a reply is followed by the Get, are the profile's.
#![tactic(auto)]

mod kubelet;
mod timing;
mod waiting;

pub use kubelet::Kubelet;

#[cfg(test)]
mod tests;
