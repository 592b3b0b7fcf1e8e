// When a pod is due to be evicted.
ghost use Rattle.std.specs.Prelude.{◌≡◌, ◌+◌, ◌<◌, ◌^◌};
ghost use Rattle.kube_objects.specs.Tolerations.{due, due_by, due_within, earlier, first_tolerating, seconds_micros, taint_due};

use crate::tolerate::tolerates;
use kube_base::Wall;
use kube_objects::{Due, Effect, Node, Pod, Taint, Toleration, Tolerations};

pub(crate) fn seconds_micros(seconds: i64) -> u128
    ensures value { result ≡ seconds_micros seconds }
    ensures bounded { result < 2 ^ 84 }
{
    if seconds < 0 {
        return 0;
    }
    seconds as u128 * 1_000_000
}

fn due_within(seconds: Option<i64>, added: Wall) -> Due
    ensures { result ≡ due_within seconds added.0 }
{
    match seconds {
        None => Due::Never,
        Some(seconds) => Due::At(u128::from(added.0) + seconds_micros(seconds)),
    }
}

fn due_by(toleration: Option<Toleration>, added: Wall) -> Due
    ensures { result ≡ due_by toleration added.0 }
{
    match toleration {
        None => Due::At(u128::from(added.0)),
        Some(toleration) => due_within(toleration.seconds, added),
    }
}

/// The first of these that tolerates a taint.
pub fn first_tolerating(tolerations: &Tolerations, taint: &Taint) -> Option<Toleration>
    ensures { result ≡ first_tolerating tolerations.now taint.now }
{
    tolerations
        .as_slice()
        .iter()
        .copied()
        .find(|toleration| tolerates(toleration, taint))
}

fn taint_due(tolerations: &Tolerations, taint: &Taint) -> Due
    ensures { result ≡ taint_due tolerations.now taint.now }
{
    let first = first_tolerating(tolerations, taint);
    match (taint.effect, taint.added) {
        (Effect::NoExecute, Some(added)) => due_by(first, added),
        _ => Due::Never,
    }
}

fn earlier(one: Due, other: Due) -> Due
    ensures { result ≡ earlier one other }
{
    match (one, other) {
        (Due::Never, other) => other,
        (Due::At(one), Due::Never) => Due::At(one),
        (Due::At(one), Due::At(other)) => Due::At(one.min(other)),
    }
}

/// When the pod is due on the node, in microseconds since 1970: the least time at which one of the node's NoExecute
/// taints is due, or never. Of each taint the first tolerating toleration in the pod's order counts: without one the
/// taint is due when it was added, with one without seconds never, with one of seconds that long after it was added,
/// and at once if the seconds are negative. A taint without a time counts for nothing.
pub fn due(pod: &Pod, node: &Node) -> Due
    ensures { result ≡ due pod.now node.now }
{
    let mut least = Due::Never;
    for taint in node.taints.as_slice() {
        least = earlier(least, taint_due(&pod.tolerations, taint));
    }
    least
}
