// A write of a node that is to be tried.
use crate::NodeWrite;
use kube_base::Version;
use kube_objects::Node;

/// A write of a node that is to be tried, in the place of the one with that version.
#[derive(Drop)]
pub struct NodeTry {
    pub name: u32,
    pub given: Version,
    pub written: Node,
    pub write: NodeWrite,
}
