// Leases.
use kube_base::{ProcId, Wall};

/// The text in a Lease's `holderIdentity`.
#[derive(Clone, Copy, Debug, PartialEq, Eq)]
pub enum Holder {
    Nobody,
    /// A process of the document, with its incarnation.
    Proc(ProcId, u32),
    /// Any other text, by its number.
    Foreign(u32),
}

/// The fields of a `coordination.k8s.io/v1` Lease. The duration is in seconds.
#[derive(Clone, Copy, Debug, PartialEq, Eq)]
pub struct Lease {
    pub holder: Holder,
    pub duration: Option<u32>,
    pub acquired: Option<Wall>,
    pub renewed: Option<Wall>,
    pub transitions: Option<u32>,
}
