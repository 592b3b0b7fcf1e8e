// What a node wants.
ghost use Rattle.std.specs.Prelude.{◌≡◌, Bool};
ghost use Rattle.std.specs.List.{list_any};
ghost use Rattle.kube_objects.specs.Tainting as tainting;
ghost use Rattle.kube_objects.specs.Tainting.{has_condition, is_condition, is_opposite, is_wanted, wants_by, wants_ready, wanted_key};
ghost use Rattle.node_taints.specs.Wanting.{wants_of};

use kube_base::{NOT_READY, UNREACHABLE};
use kube_objects::{Effect, Node, Ready, ReadyStatus, Taint};

/// Which of the condition taints `node.kubernetes.io/not-ready` and `node.kubernetes.io/unreachable` a node wants: none of
/// them, the one with this key, or it is left alone.
#[derive(Clone, Copy, Debug, PartialEq, Eq)]
pub enum Wants {
    Nothing,
    Wanted(u32),
    Whatever,
}

/// What a node wants. `all_full` says whether the mode is on in which every zone is Full; then no node wants a taint.
pub fn want_of(all_full: bool, node: &Node) -> Wants
    ensures { wants_of result ≡ tainting.wants all_full node.now }
{
    if all_full {
        return Wants::Nothing;
    }
    ready_wants(node.ready)
}

/// What a node with this Ready wants, if the mode isn't on in which every zone is Full.
pub fn ready_wants(ready: Option<Ready>) -> Wants
    ensures { wants_of result ≡ wants_ready ready }
{
    match ready {
        None => Wants::Whatever,
        Some(ready) => status_wants(ready.status),
    }
}

fn status_wants(status: ReadyStatus) -> Wants
    ensures { wants_of result ≡ wants_by status }
{
    match status {
        ReadyStatus::True => Wants::Nothing,
        ReadyStatus::False => Wants::Wanted(NOT_READY),
        ReadyStatus::Unknown => Wants::Wanted(UNREACHABLE),
    }
}

/// Whether a taint is one of the condition taints, whatever its value.
pub fn is_condition(taint: &Taint) -> bool
    ensures { result ≡ is_condition taint.now }
{
    matches!(taint.effect, Effect::NoExecute)
        && (taint.key == NOT_READY || taint.key == UNREACHABLE)
}

/// Whether the node has a condition taint.
pub fn has_condition(node: &Node) -> bool
    ensures { result ≡ has_condition node.now }
{
    node.taints
        .as_slice()
        .iter()
        .any(|taint| is_condition(taint))
}

/// Whether the node has the condition taint that isn't the wanted one.
pub fn has_opposite(wanted: u32, node: &Node) -> bool
    ensures { result ≡ list_any (is_opposite wanted) node.now.taints }
{
    node.taints
        .as_slice()
        .iter()
        .any(|taint| is_condition(taint) && taint.key != wanted)
}

/// Whether the node has the condition taint that is wanted.
pub fn has_taint(wanted: u32, node: &Node) -> bool
    ensures { result ≡ list_any (is_wanted wanted) node.now.taints }
{
    node.taints
        .as_slice()
        .iter()
        .any(|taint| is_condition(taint) && taint.key == wanted)
}

/// The taint that the node wants, if it has no condition taint.
pub fn lacks(all_full: bool, node: &Node) -> Option<u32>
    ensures { result ≡ tainting.lacks all_full node.now }
{
    if has_condition(node) {
        return None;
    }
    match want_of(all_full, node) {
        Wants::Wanted(key) => Some(key),
        _ => None,
    }
}
