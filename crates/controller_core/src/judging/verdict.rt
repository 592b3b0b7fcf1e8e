// What a pass says of a node.
ghost use Rattle.std.specs.Prelude.{◌≡◌, ◌||◌};
ghost use Rattle.kube_objects.specs.Judgement as model;
ghost use Rattle.kube_objects.specs.Newest.{has};
ghost use Rattle.node_taints.specs.Wanting.{wants_of};
ghost use Rattle.controller_core.specs.Verdicts.{IsVerdict, judged_so};

use crate::pass::found::Look;
use kube_base::UNREACHABLE;
use kube_objects::{Node, QueueRule};
use node_taints::{Wants, has_opposite, has_taint};

/// What a pass says of a node in its zone: whether it is cleared first, whether it is to stand in the queue, whether it is pushed also if it
/// counts as pushed; and what it wants, and whether it has the opposite of that.
#[derive(Clone, Copy, Debug, PartialEq, Eq)]
pub(crate) struct Verdict {
    pub(crate) cleared: bool,
    pub(crate) queued: bool,
    pub(crate) pushed: bool,
    pub(crate) wants: Wants,
    pub(crate) crossed: bool,
}

// What a node wanted before the marks: one without Ready counts as Unknown where it was marked, and so has one now.
fn judged(look: Look, node: &Node) -> Wants
    ensures { wants_of result ≡ judged_so (wants_of look.wants) (has node.now.ready) }
{
    match look.wants {
        Wants::Whatever => match node.ready {
            None => Wants::Whatever,
            Some(_) => Wants::Wanted(UNREACHABLE),
        },
        wants => wants,
    }
}

// Whether a node has the taint opposite to the one that it wants.
fn is_crossed(wants: Wants, node: &Node) -> bool
    ensures { result ≡ model.is_crossed (wants_of wants) node.now }
{
    match wants {
        Wants::Wanted(key) => has_opposite(key, node),
        _ => false,
    }
}

// Whether it lacks the taint that it wants.
fn is_short(wants: Wants, node: &Node) -> bool
    ensures { result ≡ model.is_short (wants_of wants) node.now }
{
    match wants {
        Wants::Wanted(key) => !has_taint(key, node),
        _ => false,
    }
}

fn is_wanting(wants: Wants) -> bool
    ensures { result ≡ model.is_wanting (wants_of wants) }
{
    matches!(wants, Wants::Wanted(_))
}

/// Whether a queue holds a node many times.
pub(crate) fn is_again(rule: QueueRule) -> bool
    ensures { result ≡ model.pushes_again rule }
{
    matches!(rule, QueueRule::Again)
}

/// What a pass says of a node that it found so, and that is so after its marks.
pub(crate) fn verdict_of(look: Look, rule: QueueRule, node: &Node) -> Verdict
    ensures { IsVerdict look rule node.now result }
{
    let wants = judged(look, node);
    let crossed = is_crossed(wants, node);
    let pushed = look.fresh || is_short(wants, node);
    Verdict {
        cleared: look.fresh || wants == Wants::Nothing,
        queued: is_wanting(wants) && !crossed && (is_again(rule) || pushed),
        pushed,
        wants,
        crossed,
    }
}
