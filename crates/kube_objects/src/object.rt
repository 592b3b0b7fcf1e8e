// Objects of all kinds.
ghost use Rattle.std.specs.Prelude.{◌≡◌, IfOk};

use crate::{Key, Lease, Node, Pod};
use kube_base::{ListOf, NoMemory};

/// What is stored under a key.
#[derive(Debug, Drop)]
pub enum Object {
    Node(Node),
    Lease(Lease),
    Pod(Pod),
}

impl Object {
    /// A copy equals its source.
    pub fn copy(&self) -> Result<Object, NoMemory>
        ensures { IfOk result (λ copy. copy ≡ self.now) }
    {
        match self {
            Object::Node(node) => Ok(Object::Node(node.copy()?)),
            Object::Lease(lease) => Ok(Object::Lease(*lease)),
            Object::Pod(pod) => Ok(Object::Pod(pod.copy()?)),
        }
    }
}

/// Objects with their keys, in order.
pub type Items = ListOf<(Key, Object)>;
