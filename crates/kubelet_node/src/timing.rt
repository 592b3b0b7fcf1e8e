// The timings of a kubelet, with their ranges.
ghost use Rattle.std.specs.Prelude.{◌≡◌, ◌≤◌};
ghost use Rattle.kubelet_node.specs.Requests.{period_of};

/// The duration of the node's Lease in seconds, and the timeout of a call in units of 10^-12 s.
#[derive(Clone, Copy)]
pub(crate) struct Timing {
    pub(crate) lease_seconds: u32,
    pub(crate) timeout: u64,
    ghost lease_fits: { lease_seconds ≤ 86400 },
    ghost timeout_fits: { timeout ≤ 600000000000000 },
}

impl Timing {
    /// From the beginning of a round to that of the next, in units of 10^-12 s: a quarter of the Lease's duration.
    #[tactic(auto, unfolding(kube_objects::specs::Document::of_seconds))]
    pub(crate) fn period(&self) -> u64
        ensures quarter { result ≡ period_of self.now.lease_seconds }
        ensures fits { result ≤ 21600000000000000 }
    {
        self.lease_seconds as u64 * 1_000_000_000_000 / 4
    }
}
