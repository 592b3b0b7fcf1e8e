// Requests that travel to the store, and what it answers.
ghost use Rattle.std.specs.Prelude.{◌≡◌, true};
ghost use Rattle.kube_objects.specs.Kinds.{keeps_kind};

use crate::{Key, Lease, ReadyStatus};
use kube_base::{Version, Wall};

/// A call on the store. An update names the version that it replaces; a status is posted for a node.
#[derive(Clone, Copy, Debug, PartialEq, Eq)]
pub enum Request {
    Get(Key),
    Create(Key, Lease),
    Update(Key, Version, Lease),
    PostStatus(u32, ReadyStatus, Wall),
}

/// The store's reply to a request.
#[derive(Clone, Copy, Debug, PartialEq, Eq)]
pub enum Reply {
    Found(Version, Lease),
    Done(Version),
    Absent,
    Exists,
    Conflict(Version),
    Unchanged,
}

/// A request with its number in the incarnation. It writes a Lease under the key of a Lease alone.
#[derive(Clone, Copy, Debug, PartialEq, Eq)]
pub struct Ask {
    pub number: u64,
    pub request: Request,
    ghost kinds: { keeps_kind request ≡ true },
}

/// How a write was answered. A conflict tells the version that is stored.
#[derive(Clone, Copy, Debug, PartialEq, Eq)]
pub enum Answer {
    Done(Version),
    Absent,
    Exists,
    Conflict(Version),
}
