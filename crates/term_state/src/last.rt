// What came of the pod that was judged last, for the next one on its node with equal tolerations.
ghost use Rattle.std.specs.Prelude.{◌≡◌, List, Some, IfOk, IfSome, IsTrue, OnOk};
ghost use Rattle.kube_base.specs.declared.numbers.Version.{Version};
ghost use Rattle.kube_objects.specs.declared.node.Node.{Node as SeenNode};
ghost use Rattle.kube_objects.specs.Entry.{Entry, Identity};
ghost use Rattle.kube_objects.specs.Seen.{seen_node};
ghost use Rattle.kube_objects.specs.Sightings as sightings;
ghost use Rattle.kube_objects.specs.Tolerations as tolerations;
ghost use Rattle.taint_match.specs.Bearing.{IsBounded};
ghost use Rattle.term_state.specs.Lasts.{AreBounded, AreBorne, AreDue};

use kube_base::NoMemory;
use kube_objects::{Bears, Due, Node, Pod, Toleration, Tolerations};
use taint_match::{bears, due};

/// The node of a pod, and its tolerations.
#[derive(Drop)]
pub(crate) struct Last {
    node: u32,
    given: Tolerations,
}

fn are_equal(some: &[Toleration], others: &[Toleration]) -> bool
    ensures { IsTrue result → some.now ≡ others.now }
{
    some == others
}

impl Last {
    // Those of a pod.
    fn of(pod: &Pod) -> Result<Last, NoMemory>
        ensures node { IfOk result (λ last. last.node ≡ pod.now.node) }
        ensures given { IfOk result (λ last. last.given ≡ pod.now.tolerations) }
    {
        let given = pod.tolerations.copy()?;
        Ok(Last {
            node: pod.node,
            given,
        })
    }

    // Whether a pod has the same.
    fn is_of(&self, pod: &Pod) -> bool
        ensures node { IsTrue result → self.now.node ≡ pod.now.node }
        ensures given { IsTrue result → self.now.given ≡ pod.now.tolerations }
    {
        self.node == pod.node && are_equal(self.given.as_slice(), pod.tolerations.as_slice())
    }
}

// When the last pod was due, where this one is as it.
fn recall_due(last: &Option<(Last, Due)>, pod: &Pod) -> Option<Due>
    ensures { (q : Identity) (h : List Entry) (version : Version) (node : SeenNode) → AreDue q h last.now
        → seen_node q pod.now.node h ≡ Some (version, node) → IfSome result (λ found. found ≡ tolerations.due pod.now node) }
{
    match last {
        Some((last, found)) if last.is_of(pod) => Some(*found),
        _ => None,
    }
}

/// When a pod is due on its node.
pub(crate) fn due_again(
    last: &mut Option<(Last, Due)>,
    pod: &Pod,
    node: &Node,
) -> Result<Due, NoMemory>
    ensures due { (q : Identity) (h : List Entry) (version : Version) → AreDue q h last.old → seen_node q pod.now.node h ≡ Some (version, node.now)
        → IfOk result (λ found. found ≡ tolerations.due pod.now node.now) }
    ensures last { (q : Identity) (h : List Entry) (version : Version) → AreDue q h last.old → seen_node q pod.now.node h ≡ Some (version, node.now)
        → OnOk result (AreDue q h last.new) }
{
    if let Some(found) = recall_due(last, pod) {
        return Ok(found);
    }
    let found = due(pod, node);
    let of = Last::of(pod)?;
    *last = Some((of, found));
    Ok(found)
}

// How long the last pod bore its node's taints, where this one is as it.
fn recall_sight(last: &Option<(Last, Bears)>, pod: &Pod) -> Option<Bears>
    ensures borne { (q : Identity) (h : List Entry) (version : Version) (node : SeenNode) → AreBorne q h last.now
        → seen_node q pod.now.node h ≡ Some (version, node) → IfSome result (λ found. found ≡ sightings.bears pod.now.tolerations node.taints) }
    ensures bounded { AreBounded last.now → IfSome result IsBounded }
{
    match last {
        Some((last, found)) if last.is_of(pod) => Some(*found),
        _ => None,
    }
}

/// How long a pod bears the taints of its node.
pub(crate) fn bears_again(
    last: &mut Option<(Last, Bears)>,
    pod: &Pod,
    node: &Node,
) -> Result<Bears, NoMemory>
    ensures borne { (q : Identity) (h : List Entry) (version : Version) → AreBorne q h last.old → seen_node q pod.now.node h ≡ Some (version, node.now)
        → IfOk result (λ found. found ≡ sightings.bears pod.now.tolerations node.now.taints) }
    ensures last { (q : Identity) (h : List Entry) (version : Version) → AreBorne q h last.old → seen_node q pod.now.node h ≡ Some (version, node.now)
        → OnOk result (AreBorne q h last.new) }
    ensures bounded { AreBounded last.old → IfOk result IsBounded }
    ensures keeps { AreBounded last.old → OnOk result (AreBounded last.new) }
{
    if let Some(found) = recall_sight(last, pod) {
        return Ok(found);
    }
    let found = bears(pod, node);
    let of = Last::of(pod)?;
    *last = Some((of, found));
    Ok(found)
}
