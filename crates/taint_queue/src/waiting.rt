// A waiting node.
ghost use Rattle.std.specs.Prelude.{◌≡◌};

use kube_base::Beat;

/// A node, by the number of its name, with the beat since which it waits.
#[derive(Clone, Copy, Debug, PartialEq, Eq)]
pub(crate) struct Waiting {
    pub(crate) at: Beat,
    pub(crate) node: u32,
}

impl Waiting {
    ghost use Rattle.taint_queue.specs.Order.{earlier};

    /// The earlier of two: by beat, then by node.
    pub(crate) fn earlier(self, other: Waiting) -> Waiting
        ensures { result ≡ earlier self other }
    {
        if self.at.0 < other.at.0 || (self.at.0 == other.at.0 && self.node <= other.node) {
            self
        } else {
            other
        }
    }
}
