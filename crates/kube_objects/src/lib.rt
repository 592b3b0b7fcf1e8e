//! The plain types of the cluster, and the history that every contract speaks of.
#![tactic(auto)]

mod call;
mod call_slot;
mod deed;
mod feed;
mod key;
mod lease;
mod node;
mod object;
mod pod;
mod rules;
mod script;
mod settings;
#[cfg(test)]
mod tests;

pub use call::{Answer, Ask, Reply, Request};
pub use call_slot::CallSlot;
pub use deed::{Act, Actor, Deed, Deeds};
pub use feed::{Changed, Feed};
pub use key::{Key, KeyList, Kind, NumberList, order};
pub use lease::{Holder, Lease};
pub use node::{Effect, Node, Ready, ReadyStatus, Taint, Taints, ZoneState};
pub use object::{Items, Object};
pub use pod::{Bears, Due, DueList, Operator, Pod, Toleration, TolerationList, Tolerations};
pub use rules::{
    BucketRule, EvictRule, JudgeRule, ProbeRule, QueueRule, ReleaseActing, ReleaseRule,
    RespectRule, RetryRule, Rules, SightRule,
};
pub use script::{Event, Events, Proc, Procs, WaitLists, What};
pub use settings::{RatePolicy, Settings, TickSettings};
