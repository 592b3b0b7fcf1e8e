// How long a pod bears the taints of its node.
ghost use Rattle.std.specs.Prelude.{◌≡◌, ◌==◌, ◌&&◌, ◌||◌};
ghost use Rattle.kube_objects.specs.Sightings.{bears, bears_by, bears_for, bears_taint, shorter};
ghost use Rattle.kube_objects.specs.Stamps.{is_no_execute};
ghost use Rattle.taint_match.specs.Bearing.{IsBounded};

use crate::due_time::{first_tolerating, seconds_micros};
use kube_objects::{Bears, Effect, Node, Pod, Taint, Toleration, Tolerations};

fn bears_for(seconds: Option<i64>) -> Bears
    ensures value { result ≡ bears_for seconds }
    ensures bounded { IsBounded result }
{
    match seconds {
        None => Bears::Ever,
        Some(seconds) => Bears::For(seconds_micros(seconds)),
    }
}

fn bears_by(toleration: Option<Toleration>) -> Bears
    ensures value { result ≡ bears_by toleration }
    ensures bounded { IsBounded result }
{
    match toleration {
        None => Bears::NotAtAll,
        Some(toleration) => bears_for(toleration.seconds),
    }
}

fn bears_taint(tolerations: &Tolerations, taint: &Taint) -> Bears
    ensures value { result ≡ bears_taint tolerations.now taint.now (is_no_execute taint.now.effect) }
    ensures bounded { IsBounded result }
{
    match taint.effect {
        Effect::NoExecute => bears_by(first_tolerating(tolerations, taint)),
        _ => Bears::Untainted,
    }
}

// The shorter of two; where there is nothing to bear, the other one.
fn shorter(one: Bears, other: Bears) -> Bears
    ensures value { result ≡ shorter one other }
    ensures bounded { IsBounded one → IsBounded other → IsBounded result }
{
    match (one, other) {
        (Bears::Untainted, other) => other,
        (Bears::NotAtAll, _) => Bears::NotAtAll,
        (Bears::Ever, Bears::Untainted) => Bears::Ever,
        (Bears::Ever, other) => other,
        (Bears::For(_), Bears::NotAtAll) => Bears::NotAtAll,
        (Bears::For(one), Bears::For(other)) => Bears::For(one.min(other)),
        (one, _) => one,
    }
}

/// How long the pod bears the node's NoExecute taints. Of each the first tolerating toleration in the pod's order counts: without one the
/// taint isn't borne at all, with one without seconds for ever, with one of seconds for so long, and for no time if they are negative.
pub fn bears(pod: &Pod, node: &Node) -> Bears
    ensures value { result ≡ bears pod.now.tolerations node.now.taints }
    ensures bounded { IsBounded result }
{
    let mut shortest = Bears::Untainted;
    for taint in node.taints.as_slice() {
        shortest = shorter(shortest, bears_taint(&pod.tolerations, taint));
    }
    shortest
}
