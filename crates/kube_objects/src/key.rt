// Keys of objects, in their order.
ghost use Rattle.std.specs.Prelude.{◌≡◌};
ghost use Rattle.kube_objects.specs.Keys.{key_cmp};
ghost use Rattle.kube_objects.specs.Stored.{node_key};

use kube_base::{KUBE_CONTROLLER_MANAGER, KUBE_SYSTEM, ListOf};
use std::cmp::Ordering;

/// The kinds of objects, in their order.
#[derive(Clone, Copy, Debug, PartialEq, Eq, PartialOrd, Ord)]
pub enum Kind {
    Node,
    Lease,
    Pod,
}

/// Where an object is stored: its kind, and the numbers of its namespace and name. A Node has namespace 0.
#[derive(Clone, Copy, Debug, PartialEq, Eq, PartialOrd, Ord)]
pub struct Key {
    pub kind: Kind,
    pub space: u32,
    pub name: u32,
}

impl Key {
    /// The key of the election Lease, `kube-system/kube-controller-manager`.
    pub const ELECTION: Key = Key {
        kind: Kind::Lease,
        space: KUBE_SYSTEM,
        name: KUBE_CONTROLLER_MANAGER,
    };

    /// The key of the node of that name.
    pub fn node(name: u32) -> Key
        ensures { result ≡ node_key name }
    {
        Key {
            kind: Kind::Node,
            space: 0,
            name,
        }
    }
}

/// Keys in order.
pub type KeyList = ListOf<Key>;

/// Numbers of names in order.
pub type NumberList = ListOf<u32>;

/// How keys are ordered: by kind, then namespace, then name.
pub fn order(a: &Key, b: &Key) -> Ordering
    ensures { result ≡ key_cmp a.now b.now }
{
    a.cmp(b)
}
