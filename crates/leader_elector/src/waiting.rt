// The request that waits for its reply.
use kube_base::Local;
use kube_objects::Request;

/// The request, whether it is an update without a Get, and the least reading at which it has expired.
#[derive(Clone, Copy)]
pub(crate) struct Waiting {
    pub(crate) request: Request,
    pub(crate) fast: bool,
    pub(crate) late: Local,
}
