// Nodes that are written.
ghost use Rattle.std.specs.Prelude.{◌≡◌, true, map, IfOk};
ghost use Rattle.std.specs.List.{list_all};
ghost use Rattle.std.specs.Option.{option_map};
ghost use Rattle.serde_json.specs.View.{view, items_of};
ghost use Rattle.manifest_json.specs.Written as written;

use crate::write::field::{array_unless_empty, in_seconds, text_of};
use crate::write::members::Members;
use kube_base::{Names, NoMemory};
use kube_objects::{Effect, Key, Node, Ready, ReadyStatus, Taint};
use serde_json::Value;
use std::alloc::Global;

#[tactic(auto, unfolding(crate::specs::Written::node_of, crate::specs::Written::members_of))]
pub(crate) fn write_node(
    alloc: Global,
    names: &Names,
    key: Key,
    node: &Node,
) -> Result<Value, NoMemory>
    requires taints { list_all written.is_writable_taint node.now.taints ≡ true }
    requires ready { written.is_writable_condition node.now.ready ≡ true }
    ensures { IfOk result (λ value. view value ≡ written.node_of names.now key node.now) }
{
    let metadata = metadata(alloc, names, key, node)?;
    let spec = spec(alloc, names, node)?;
    let status = status(alloc, names, node)?;
    let mut members = Members::new(alloc);
    members.put("status", status)?;
    members.put("spec", spec)?;
    members.put("metadata", Some(metadata))?;
    members.put_text("kind", "Node")?;
    members.put_text("apiVersion", "v1")?;
    Ok(members.into_value())
}

#[tactic(auto, unfolding(crate::specs::Written::node_metadata_of, crate::specs::Written::members_of))]
fn metadata(alloc: Global, names: &Names, key: Key, node: &Node) -> Result<Value, NoMemory>
    ensures { IfOk result (λ value. view value ≡ written.node_metadata_of names.now key node.now) }
{
    let labels = labels(alloc, names, node)?;
    let mut members = Members::new(alloc);
    members.put_text("name", text_of(names, key.name))?;
    members.put("labels", labels)?;
    Ok(members.into_value())
}

#[tactic(auto, unfolding(crate::specs::Written::labels_of, crate::specs::Written::members_of))]
fn labels(alloc: Global, names: &Names, node: &Node) -> Result<Option<Value>, NoMemory>
    ensures { IfOk result (λ value. option_map view value ≡ written.labels_of names.now node.now) }
{
    let mut members = Members::new(alloc);
    members.put_unless_empty("topology.kubernetes.io/zone", text_of(names, node.zone))?;
    members.put_unless_empty("topology.kubernetes.io/region", text_of(names, node.region))?;
    Ok(members.into_value_unless_empty())
}

#[tactic(auto, unfolding(crate::specs::Written::node_spec_of, crate::specs::Written::members_of))]
fn spec(alloc: Global, names: &Names, node: &Node) -> Result<Option<Value>, NoMemory>
    requires { list_all written.is_writable_taint node.now.taints ≡ true }
    ensures { IfOk result (λ value. option_map view value ≡ written.node_spec_of names.now node.now) }
{
    let taints = write_taints(alloc, names, node.taints.as_slice())?;
    let mut members = Members::new(alloc);
    members.put("taints", array_unless_empty(taints))?;
    Ok(members.into_value_unless_empty())
}

fn write_taints(alloc: Global, names: &Names, taints: &[Taint]) -> Result<Vec<Value>, NoMemory>
    requires { list_all written.is_writable_taint taints.now ≡ true }
    ensures { IfOk result (λ values. map view values.items ≡ map (written.taint_of names.now) taints.now) }
{
    let mut values = Vec::new(alloc);
    for taint in taints {
        let value = write_taint(alloc, names, *taint)?;
        values.push(value)?;
    }
    Ok(values)
}

#[tactic(auto, unfolding(crate::specs::Written::taint_of, crate::specs::Written::members_of))]
fn write_taint(alloc: Global, names: &Names, taint: Taint) -> Result<Value, NoMemory>
    requires { written.is_writable_taint taint ≡ true }
    ensures { IfOk result (λ value. view value ≡ written.taint_of names.now taint) }
{
    let added = in_seconds(alloc, taint.added)?;
    let mut members = Members::new(alloc);
    members.put_unless_empty("value", text_of(names, taint.value))?;
    members.put("timeAdded", added)?;
    members.put_unless_empty("key", text_of(names, taint.key))?;
    members.put_text("effect", effect_text(taint.effect))?;
    Ok(members.into_value())
}

pub(crate) fn effect_text(effect: Effect) -> &'static str
    ensures { result.now ≡ written.effect_text effect }
{
    match effect {
        Effect::NoSchedule => "NoSchedule",
        Effect::PreferNoSchedule => "PreferNoSchedule",
        Effect::NoExecute => "NoExecute",
    }
}

#[tactic(auto, unfolding(crate::specs::Written::node_status_of, crate::specs::Written::members_of))]
fn status(alloc: Global, names: &Names, node: &Node) -> Result<Option<Value>, NoMemory>
    requires { written.is_writable_condition node.now.ready ≡ true }
    ensures { IfOk result (λ value. option_map view value ≡ written.node_status_of names.now node.now) }
{
    let conditions = conditions(alloc, names, node.ready)?;
    let mut members = Members::new(alloc);
    members.put("conditions", conditions)?;
    Ok(members.into_value_unless_empty())
}

#[tactic(auto, unfolding(crate::specs::Written::conditions_of, crate::specs::Written::filled_array))]
fn conditions(alloc: Global, names: &Names, ready: Option<Ready>) -> Result<Option<Value>, NoMemory>
    requires { written.is_writable_condition ready ≡ true }
    ensures { IfOk result (λ value. option_map view value
        ≡ written.filled_array (written.conditions_of names.now ready)) }
{
    match ready {
        Some(ready) => {
            let mut values = Vec::new(alloc);
            values.push(condition(alloc, names, ready)?)?;
            Ok(Some(Value::Array(values)))
        }
        None => Ok(None),
    }
}

#[tactic(auto, unfolding(crate::specs::Written::condition_of, crate::specs::Written::members_of))]
fn condition(alloc: Global, names: &Names, ready: Ready) -> Result<Value, NoMemory>
    requires heartbeat { written.is_writable ready.heartbeat ≡ true }
    requires transition { written.is_writable ready.transition ≡ true }
    ensures { IfOk result (λ value. view value ≡ written.condition_of names.now ready) }
{
    let heartbeat = in_seconds(alloc, ready.heartbeat)?;
    let transition = in_seconds(alloc, ready.transition)?;
    let mut members = Members::new(alloc);
    members.put_text("type", "Ready")?;
    members.put_text("status", status_text(ready.status))?;
    members.put_unless_empty("reason", text_of(names, ready.reason))?;
    members.put("lastTransitionTime", transition)?;
    members.put("lastHeartbeatTime", heartbeat)?;
    Ok(members.into_value())
}

fn status_text(status: ReadyStatus) -> &'static str
    ensures { result.now ≡ written.status_text status }
{
    match status {
        ReadyStatus::True => "True",
        ReadyStatus::False => "False",
        ReadyStatus::Unknown => "Unknown",
    }
}
