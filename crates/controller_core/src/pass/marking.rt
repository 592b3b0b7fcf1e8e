// Marks of nodes.
ghost use Rattle.std.specs.Prelude.{◌≡◌, IfOk};
ghost use Rattle.kube_objects.specs.Health as model;
ghost use Rattle.kube_objects.specs.Modes as modes;

use kube_base::{NODE_STATUS_NEVER_UPDATED, NODE_STATUS_UNKNOWN, NoMemory, Wall};
use kube_objects::{Node, Ready, ReadyStatus};

// Ready as a mark leaves it.
fn unknown_ready(ready: Option<Ready>, second: Wall) -> Ready
    ensures { result ≡ model.marked second.0 ready }
{
    match ready {
        None => Ready {
            status: ReadyStatus::Unknown,
            reason: NODE_STATUS_NEVER_UPDATED,
            heartbeat: None,
            transition: Some(second),
        },
        Some(ready) => Ready {
            status: ReadyStatus::Unknown,
            reason: NODE_STATUS_UNKNOWN,
            heartbeat: ready.heartbeat,
            transition: Some(second),
        },
    }
}

/// The node as a mark writes it at a whole second.
pub(crate) fn with_mark(node: &Node, second: Wall) -> Result<Node, NoMemory>
    ensures { IfOk result (λ written. written ≡ model.with_mark second.0 node.now) }
{
    let ready = unknown_ready(node.ready, second);
    let mut copy = node.copy()?;
    copy.ready = Some(ready);
    Ok(copy)
}

/// Whether a node's Ready condition is True.
pub(crate) fn is_ready(node: &Node) -> bool
    ensures { result ≡ modes.is_ready node.now.ready }
{
    match node.ready {
        Some(ready) => ready.status == ReadyStatus::True,
        None => false,
    }
}
