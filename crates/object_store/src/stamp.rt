// An object as it is put: a NoExecute taint without a time gets the store's time of day in whole seconds.
ghost use Rattle.std.specs.Prelude.{◌≡◌, IfOk};
ghost use Rattle.kube_objects.specs.Stamps as stamps;

use kube_base::{ListOf, NoMemory, Wall};
use kube_objects::{Effect, Node, Object, Taint, Taints};

fn stamp_taint(taint: &Taint, at: Wall) -> Taint
    ensures { result ≡ stamps.stamp_taint at.0 taint.now }
{
    match taint.effect {
        Effect::NoExecute if taint.added.is_none() => Taint {
            key: taint.key,
            value: taint.value,
            effect: taint.effect,
            added: Some(at),
        },
        _ => *taint,
    }
}

#[tactic(auto, using(crate::proofs::Stamped::stamp_all_more))]
fn stamp_taints(taints: &Taints, at: Wall) -> Result<Taints, NoMemory>
    ensures { IfOk result (λ stamped. stamped ≡ stamps.stamp_all at.0 taints.now) }
{
    let mut stamped = ListOf::new(taints.allocator());
    for taint in taints.as_slice() {
        stamped.push(stamp_taint(taint, at))?;
    }
    Ok(stamped)
}

/// The object with its taints stamped at a whole second.
pub(crate) fn stamp_object(object: Object, at: Wall) -> Result<Object, NoMemory>
    ensures { IfOk result (λ stamped. stamped ≡ stamps.stamped at.0 object) }
{
    match object {
        Object::Node(node) => {
            let taints = stamp_taints(&node.taints, at)?;
            Ok(Object::Node(Node { taints, ..node }))
        }
        other => Ok(other),
    }
}
