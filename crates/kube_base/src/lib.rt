//! Numbers with names of their own, names as bytes, lists, and want of memory.
#![tactic(auto)]

mod fixed;
mod list_of;
mod memory;
mod name;
mod name_hash;
mod names;
mod numbers;
mod shared_list;
mod steps;
mod text;
mod times;

pub use fixed::{
    KUBE_CONTROLLER_MANAGER, KUBE_NODE_LEASE, KUBE_SYSTEM, KUBELET_NOT_READY, KUBELET_READY,
    NODE_STATUS_NEVER_UPDATED, NODE_STATUS_UNKNOWN, NOT_READY, UNREACHABLE,
};
pub use list_of::ListOf;
pub use memory::NoMemory;
pub use name::Name;
pub use name_hash::NameHash;
pub use names::Names;
pub use numbers::{Beat, Local, NodeId, ProcId, Version, Wall};
pub use shared_list::SharedList;
pub use steps::Steps;
pub use times::{read_time, whole_second, write_micros, write_seconds};
