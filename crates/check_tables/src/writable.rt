// Whether a List can be written.
ghost use Rattle.std.specs.Prelude.{◌≡◌};
ghost use Rattle.std.specs.List.{list_all};
ghost use Rattle.manifest_json.specs.Written as written;

use kube_base::Wall;
use kube_objects::{Items, Key, Object, Ready, Taint};

/// The end of the year 2261.
const LAST_WALL: Wall = Wall(9_214_646_399_999_999);

/// Whether no time of the objects lies after 2261.
pub(crate) fn are_writable(items: &Items) -> bool
    ensures { result ≡ list_all written.is_writable_item items.now }
{
    items.as_slice().iter().all(|item| is_writable_item(item))
}

fn is_writable_item(item: &(Key, Object)) -> bool
    ensures { result ≡ written.is_writable_item item.now }
{
    match &item.1 {
        Object::Node(node) => {
            are_writable_taints(node.taints.as_slice()) && is_writable_ready(node.ready)
        }
        Object::Lease(lease) => is_writable(lease.acquired) && is_writable(lease.renewed),
        Object::Pod(_) => true,
    }
}

fn are_writable_taints(taints: &[Taint]) -> bool
    ensures { result ≡ list_all written.is_writable_taint taints.now }
{
    taints.iter().all(|taint| is_writable(taint.added))
}

fn is_writable_ready(ready: Option<Ready>) -> bool
    ensures { result ≡ written.is_writable_condition ready }
{
    match ready {
        Some(ready) => is_writable(ready.heartbeat) && is_writable(ready.transition),
        None => true,
    }
}

fn is_writable(at: Option<Wall>) -> bool
    ensures { result ≡ written.is_writable at }
{
    match at {
        Some(at) => at.0 <= LAST_WALL.0,
        None => true,
    }
}
