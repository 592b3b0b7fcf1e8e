// The call that waits for its reply.
ghost use Rattle.std.specs.Prelude.{◌≡◌, true};
ghost use Rattle.kubelet_node.specs.Requests.{awaited_in, finds_lease};

use kube_base::Local;
use kube_objects::{Key, Request};

/// A reply to what kind of request is awaited. The rest of a request isn't looked at again.
#[derive(Clone, Copy)]
pub(crate) enum Awaited {
    Post,
    Get(Key),
    Write,
}

impl Awaited {
    /// What is awaited after this request.
    pub(crate) fn of(request: &Request) -> Awaited
        ensures { result ≡ awaited_in request.now }
    {
        match *request {
            Request::PostStatus(..) => Awaited::Post,
            Request::Get(key) => Awaited::Get(key),
            Request::Create(..) => Awaited::Write,
            Request::Update(..) => Awaited::Write,
        }
    }
}

/// What is awaited, and the least reading at which it has expired. A Get asks for a Lease.
#[derive(Clone, Copy)]
pub(crate) struct Waiting {
    pub(crate) awaited: Awaited,
    pub(crate) late: Local,
    ghost lease: { finds_lease awaited ≡ true },
}
