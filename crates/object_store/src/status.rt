// What a posted status makes of a node.
ghost use Rattle.std.specs.Prelude.{◌≡◌, Some, IfOk, option_copied};
ghost use Rattle.kube_objects.specs.Answers as answers;

use kube_base::{KUBELET_NOT_READY, KUBELET_READY, NoMemory, Wall};
use kube_objects::{Node, Object, Ready, ReadyStatus};

// How long a status that stays the same isn't written again, in microseconds.
const STATUS_LASTS: u64 = 300_000_000;

fn is_recent(at: Wall, heartbeat: Option<Wall>) -> bool
    ensures { result ≡ answers.is_recent at.0 heartbeat }
{
    match heartbeat {
        Some(heartbeat) => at.0.saturating_sub(heartbeat.0) < STATUS_LASTS,
        None => false,
    }
}

fn ready_with(status: ReadyStatus, at: Wall, transition: Option<Wall>) -> Ready
    ensures { result ≡ answers.posted_as status at.0 transition }
{
    let reason = match status {
        ReadyStatus::True => KUBELET_READY,
        _ => KUBELET_NOT_READY,
    };
    Ready {
        status,
        reason,
        heartbeat: Some(at),
        transition,
    }
}

/// The node that an object is.
pub(crate) fn as_node(object: &Object) -> Option<&Node>
    ensures { option_copied result ≡ answers.node_in object.now }
{
    match object {
        Object::Node(node) => Some(node),
        _ => None,
    }
}

/// What a status makes of Ready at a whole second. None if it changes nothing.
pub(crate) fn ready_after(status: ReadyStatus, at: Wall, ready: Option<Ready>) -> Option<Ready>
    ensures { result ≡ answers.posted_ready status at.0 ready }
{
    match ready {
        None => Some(ready_with(status, at, Some(at))),
        Some(ready) => {
            if ready.status != status {
                return Some(ready_with(status, at, Some(at)));
            }
            if is_recent(at, ready.heartbeat) {
                return None;
            }
            Some(ready_with(status, at, ready.transition))
        }
    }
}

/// The node with this Ready.
pub(crate) fn with_ready(node: &Node, ready: Ready) -> Result<Node, NoMemory>
    ensures { IfOk result (λ written. written ≡ record node.now { ready = Some ready }) }
{
    let mut written = node.copy()?;
    written.ready = Some(ready);
    Ok(written)
}
