// What the two questions are asked of.
use kube_base::{ListOf, Names, Wall};
use kube_objects::{Key, Node, Pod, Taints};

/// A Pod with the fields that decide whether it is collected. It is terminated in the phases Succeeded and Failed, was created in a
/// whole second, and is terminating if it has a deletion time.
#[derive(Debug, Drop)]
pub struct PodRow {
    pub key: Key,
    pub pod: Pod,
    pub terminated: bool,
    pub created: Wall,
    pub terminating: bool,
}

/// Pods in input order.
pub type PodRows = ListOf<PodRow>;

/// A Node by the number of its name, with the taints that follow from its conditions and from `spec.unschedulable`.
#[derive(Debug, Drop)]
pub struct NodeRow {
    pub name: u32,
    pub node: Node,
    pub derived: Taints,
}

/// Nodes in input order.
pub type NodeRows = ListOf<NodeRow>;

/// A node that is known to be gone, by the number of its name, and since when.
#[derive(Clone, Copy, Debug, PartialEq, Eq)]
pub struct MissingRow {
    pub node: u32,
    pub since: Wall,
}

/// Nodes that are known to be gone, in input order.
pub type MissingRows = ListOf<MissingRow>;

/// What `collect` is asked of. `threshold` is how many terminated pods are kept, 0 for all.
#[derive(Drop)]
pub struct CollectInput {
    pub names: Names,
    pub now: Wall,
    pub threshold: u32,
    pub missing: MissingRows,
    pub nodes: NodeRows,
    pub pods: PodRows,
}

/// What `place` is asked of.
#[derive(Drop)]
pub struct PlaceInput {
    pub names: Names,
    pub nodes: NodeRows,
    pub pods: PodRows,
}
