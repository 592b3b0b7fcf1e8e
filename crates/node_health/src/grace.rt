// How long a node may be silent.
ghost use Rattle.std.specs.Prelude.{◌≡◌};
ghost use Rattle.node_health.specs.Kept.{grace_for};

use kube_objects::Ready;

/// How long a node may be silent before it is marked Unknown, in units of 10^-12 s: a node that has a Ready condition, and
/// one that has none yet. Source: the grace periods of the node lifecycle controller of Kubernetes.
#[derive(Clone, Copy, Debug, PartialEq, Eq)]
pub struct Grace {
    pub grace: u64,
    pub startup: u64,
}

impl Grace {
    /// The grace of a node, by its Ready condition.
    pub(crate) fn of(&self, ready: Option<Ready>) -> u64
        ensures { result ≡ grace_for self.now ready }
    {
        match ready {
            Some(_) => self.grace,
            None => self.startup,
        }
    }
}
