// The status of a node's Ready.
ghost use Rattle.std.specs.Prelude.{◌≡◌};
ghost use Rattle.pod_tools.specs.Readiness as spec;

use kube_objects::{Ready, ReadyStatus};

/// Whether a node's Ready is there with this status.
pub fn has_status(ready: Option<Ready>, status: ReadyStatus) -> bool
    ensures { result ≡ spec.has_status ready status }
{
    match ready {
        Some(ready) => ready.status == status,
        None => false,
    }
}
