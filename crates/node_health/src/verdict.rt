// What is to be done with a node.
ghost use Rattle.std.specs.Prelude.{◌≡◌};
ghost use Rattle.node_health.specs.Kept.{judged};

use kube_base::{NODE_STATUS_NEVER_UPDATED, NODE_STATUS_UNKNOWN};
use kube_objects::{Ready, ReadyStatus};

/// What a look finds: the node is left as it is, or its Ready is to be written as Unknown, with the reason of this number.
#[derive(Clone, Copy, Debug, PartialEq, Eq)]
pub enum Verdict {
    Keep,
    MarkUnknown(u32),
}

/// The verdict on a node, by its Ready condition and whether it was silent for longer than its grace.
pub(crate) fn judge(ready: Option<Ready>, silent: bool) -> Verdict
    ensures { result ≡ judged ready silent }
{
    if !silent {
        return Verdict::Keep;
    }
    match ready {
        None => Verdict::MarkUnknown(NODE_STATUS_NEVER_UPDATED),
        Some(ready) => match ready.status {
            ReadyStatus::Unknown => Verdict::Keep,
            _ => Verdict::MarkUnknown(NODE_STATUS_UNKNOWN),
        },
    }
}
