// The timings of an elector, with their ranges.
ghost use Rattle.std.specs.Prelude.{◌≤◌};

use kube_objects::{ReleaseActing, ReleaseRule, RespectRule, RetryRule};

/// A lease duration in seconds; renew deadline, retry period and timeout of a call in units of 10^-12 s;
/// whether a leader renews without a Get if it can; when it tries again after a failure, and whose lease duration is respected; how it
/// releases its Lease, and whether it acts meanwhile.
#[derive(Clone, Copy)]
pub struct Timing {
    pub lease_seconds: u32,
    pub renew: u64,
    pub retry: u64,
    pub timeout: u64,
    pub fast: bool,
    pub retries: RetryRule,
    pub respect: RespectRule,
    pub release: ReleaseRule,
    pub in_release: ReleaseActing,
    ghost renew_fits: { renew ≤ 86400000000000000 },
    ghost retry_some: { 1 ≤ retry },
    ghost retry_fits: { retry ≤ 86400000000000000 },
    ghost timeout_fits: { timeout ≤ 600000000000000 },
}
