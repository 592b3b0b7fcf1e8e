// Taints that follow from a Node's conditions.
ghost use Rattle.std.specs.Prelude.{◌≡◌};
ghost use Rattle.serde_json.specs.View.{items_view};
ghost use Rattle.manifest_json.specs.Faults.{Gives};
ghost use Rattle.pod_inputs.specs.Rows as spec;

use kube_base::Names;
use kube_objects::{Effect, Ready, ReadyStatus, Taint, Taints};
use manifest_json::field::is_text;
use manifest_json::{ReadFault, number};
use pod_tools::has_status;
use serde_json::Value;
use std::alloc::Global;

/// The NoSchedule taints that follow from a Node's conditions and from `spec.unschedulable`.
#[tactic(auto, unfolding(crate::specs::Rows::derived_at))]
pub(crate) fn taints_by_condition(
    alloc: Global,
    names: &mut Names,
    ready: Option<Ready>,
    conditions: &[Value],
    unschedulable: bool,
) -> Result<Taints, ReadFault>
    ensures { Gives (λ taints. (taints, names.new)) result
        (spec.derived_at names.old ready (items_view conditions.now) unschedulable) }
{
    let mut taints = ready_marks(alloc, names, ready)?;
    pressure_marks(names, &mut taints, conditions)?;
    mark(
        names,
        &mut taints,
        unschedulable,
        "node.kubernetes.io/unschedulable",
    )?;
    Ok(taints)
}

#[tactic(auto, unfolding(crate::specs::Rows::ready_marks_at))]
fn ready_marks(alloc: Global, names: &mut Names, ready: Option<Ready>) -> Result<Taints, ReadFault>
    ensures { Gives (λ taints. (taints, names.new)) result (spec.ready_marks_at names.old ready) }
{
    let mut taints = Taints::new(alloc);
    mark(
        names,
        &mut taints,
        has_status(ready, ReadyStatus::False),
        "node.kubernetes.io/not-ready",
    )?;
    mark(
        names,
        &mut taints,
        has_status(ready, ReadyStatus::Unknown),
        "node.kubernetes.io/unreachable",
    )?;
    Ok(taints)
}

#[tactic(auto, unfolding(crate::specs::Rows::pressure_marks_at))]
fn pressure_marks(
    names: &mut Names,
    taints: &mut Taints,
    conditions: &[Value],
) -> Result<(), ReadFault>
    ensures { Gives (λ _. (taints.new, names.new)) result
        (spec.pressure_marks_at names.old taints.old (items_view conditions.now)) }
{
    mark(
        names,
        taints,
        condition_holds("MemoryPressure", conditions),
        "node.kubernetes.io/memory-pressure",
    )?;
    mark(
        names,
        taints,
        condition_holds("DiskPressure", conditions),
        "node.kubernetes.io/disk-pressure",
    )?;
    mark(
        names,
        taints,
        condition_holds("PIDPressure", conditions),
        "node.kubernetes.io/pid-pressure",
    )?;
    mark(
        names,
        taints,
        condition_holds("NetworkUnavailable", conditions),
        "node.kubernetes.io/network-unavailable",
    )
}

/// Adds a taint with this key, if its cause holds.
#[tactic(auto, unfolding(crate::specs::Rows::mark_at))]
fn mark(names: &mut Names, taints: &mut Taints, holds: bool, key: &str) -> Result<(), ReadFault>
    ensures { Gives (λ _. (taints.new, names.new)) result
        (spec.mark_at names.old taints.old holds key.now) }
{
    if !holds {
        return Ok(());
    }
    let key = number(names, key)?;
    taints.push(Taint {
        key,
        value: 0,
        effect: Effect::NoSchedule,
        added: None,
    })?;
    Ok(())
}

/// Whether the first condition of this type has the status True.
fn condition_holds(kind: &str, conditions: &[Value]) -> bool
    ensures { result ≡ spec.condition_holds kind.now (items_view conditions.now) }
{
    for condition in conditions {
        if is_text(kind, condition.get("type")) {
            return is_text("True", condition.get("status"));
        }
    }
    false
}
