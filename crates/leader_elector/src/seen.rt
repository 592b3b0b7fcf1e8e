// The election Lease as it was last shown.
use kube_base::{Local, Version};
use kube_objects::Lease;

/// The version and record last shown, and the reading at which this version was first seen.
#[derive(Clone, Copy)]
pub(crate) struct Seen {
    pub(crate) version: Version,
    pub(crate) lease: Lease,
    pub(crate) at: Local,
}
