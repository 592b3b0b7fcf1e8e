// Pods that are written.
ghost use Rattle.std.specs.Prelude.{◌≡◌, map, IfOk};
ghost use Rattle.std.specs.Option.{option_map};
ghost use Rattle.serde_json.specs.Data.{string, number};
ghost use Rattle.serde_json.specs.Find.{of_integer};
ghost use Rattle.serde_json.specs.View.{view};
ghost use Rattle.manifest_json.specs.Written as written;

use crate::write::field::{array_unless_empty, metadata, text_of};
use crate::write::members::Members;
use crate::write::node::effect_text;
use kube_base::{Names, NoMemory};
use kube_objects::{Effect, Key, Operator, Pod, Toleration};
use serde_json::Value;
use std::alloc::Global;

#[tactic(auto, unfolding(crate::specs::Written::pod_of, crate::specs::Written::members_of))]
pub(crate) fn write_pod(
    alloc: Global,
    names: &Names,
    key: Key,
    pod: &Pod,
) -> Result<Value, NoMemory>
    ensures { IfOk result (λ value. view value ≡ written.pod_of names.now key pod.now) }
{
    let metadata = metadata(alloc, names, key)?;
    let spec = spec(alloc, names, pod)?;
    let mut members = Members::new(alloc);
    members.put("spec", spec)?;
    members.put("metadata", Some(metadata))?;
    members.put_text("kind", "Pod")?;
    members.put_text("apiVersion", "v1")?;
    Ok(members.into_value())
}

#[tactic(auto, unfolding(crate::specs::Written::pod_spec_of, crate::specs::Written::members_of))]
fn spec(alloc: Global, names: &Names, pod: &Pod) -> Result<Option<Value>, NoMemory>
    ensures { IfOk result (λ value. option_map view value ≡ written.pod_spec_of names.now pod.now) }
{
    let tolerations = write_tolerations(alloc, names, pod.tolerations.as_slice())?;
    let mut members = Members::new(alloc);
    members.put("tolerations", array_unless_empty(tolerations))?;
    members.put_unless_empty("nodeName", text_of(names, pod.node))?;
    Ok(members.into_value_unless_empty())
}

fn write_tolerations(
    alloc: Global,
    names: &Names,
    tolerations: &[Toleration],
) -> Result<Vec<Value>, NoMemory>
    ensures { IfOk result (λ values. map view values.items
        ≡ map (written.toleration_of names.now) tolerations.now) }
{
    let mut values = Vec::new(alloc);
    for toleration in tolerations {
        let value = write_toleration(alloc, names, *toleration)?;
        values.push(value)?;
    }
    Ok(values)
}

#[tactic(auto, unfolding(crate::specs::Written::toleration_of, crate::specs::Written::members_of))]
fn write_toleration(alloc: Global, names: &Names, toleration: Toleration) -> Result<Value, NoMemory>
    ensures { IfOk result (λ value. view value ≡ written.toleration_of names.now toleration) }
{
    let effect = effect_value(alloc, toleration.effect)?;
    let mut members = Members::new(alloc);
    members.put_unless_empty("value", text_of(names, toleration.value))?;
    members.put("tolerationSeconds", seconds(toleration.seconds))?;
    members.put_text("operator", operator_text(toleration.operator))?;
    members.put_unless_empty("key", text_of(names, toleration.key))?;
    members.put("effect", effect)?;
    Ok(members.into_value())
}

fn effect_value(alloc: Global, effect: Option<Effect>) -> Result<Option<Value>, NoMemory>
    ensures { IfOk result (λ value. option_map view value
        ≡ option_map (λ e. string (written.effect_text e)) effect) }
{
    match effect {
        Some(effect) => {
            let value = Value::try_from_str(alloc, effect_text(effect))?;
            Ok(Some(value))
        }
        None => Ok(None),
    }
}

fn operator_text(operator: Operator) -> &'static str
    ensures { result.now ≡ written.operator_text operator }
{
    match operator {
        Operator::Exists => "Exists",
        Operator::Equal => "Equal",
    }
}

fn seconds(seconds: Option<i64>) -> Option<Value>
    ensures { option_map view result ≡ option_map (λ n. number (of_integer n)) seconds }
{
    match seconds {
        Some(n) => Some(Value::from(n)),
        None => None,
    }
}
