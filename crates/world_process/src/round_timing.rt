// The timings of a kubelet's rounds, with their ranges.
ghost use Rattle.std.specs.Prelude.{◌≤◌};

/// The duration of its node's Lease in seconds, and the timeout of a call in units of 10^-12 s.
#[derive(Clone, Copy)]
pub struct RoundTiming {
    pub lease_seconds: u32,
    pub timeout: u64,
    ghost lease_fits: { lease_seconds ≤ 86400 },
    ghost timeout_fits: { timeout ≤ 600000000000000 },
}
