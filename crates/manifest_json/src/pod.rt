// Pods and their tolerations.
ghost use Rattle.std.specs.Prelude.{◌≡◌, ◌++◌, codes, []};
ghost use Rattle.std.specs.Option.{option_map};
ghost use Rattle.serde_json.specs.View.{view, items_view};
ghost use Rattle.manifest_json.specs.Faults.{Gives};
ghost use Rattle.manifest_json.specs.Fields.{AreKept};
ghost use Rattle.manifest_json.specs.Walk as walk;

use crate::codes::{BAD_EFFECT, BAD_OPERATOR, BAD_TOLERATION, WRONG_JSON};
use crate::fault::{fault, fault_below};
use crate::field::{
    field, field_in, hundred, integer, items, name_number, number, object, parent, text,
};
use crate::metadata::{spaced_key, text_number};
use crate::node::effect_of;
use crate::{Path, ReadFault};
use kube_base::Names;
use kube_objects::{
    Effect, Key, Kind, Object, Operator, Pod, Toleration, TolerationList, Tolerations,
};
use serde_json::Value;
use std::alloc::Global;

/// A Pod with its key.
#[tactic(auto, unfolding(crate::specs::Walk::pod_at))]
pub(crate) fn pod(
    alloc: Global,
    names: &mut Names,
    path: &Path,
    value: &Value,
) -> Result<(Key, Object), ReadFault>
    ensures gives { Gives (λ found. (found, names.new)) result (walk.pod_at names.old path.now (view value.now)) }
    ensures names { AreKept names.old names.new }
{
    let metadata = parent(path, "/metadata", field(value, "metadata"))?;
    let key = spaced_key(names, path, Kind::Pod, metadata)?;
    let spec = parent(path, "/spec", field(value, "spec"))?;
    let node = node_name(names, path, spec)?;
    let tolerations = tolerations(alloc, names, path, spec)?;
    Ok((key, Object::Pod(Pod { node, tolerations })))
}

/// The number of `spec.nodeName`.
#[tactic(auto, unfolding(crate::specs::Walk::node_name_at))]
fn node_name(names: &mut Names, path: &Path, spec: Option<&Value>) -> Result<u32, ReadFault>
    ensures gives { Gives (λ n. (n, names.new)) result
        (walk.node_name_at names.old path.now (option_map (λ v. view v.now) spec.entry)) }
    ensures names { AreKept names.old names.new }
{
    let text = text(
        WRONG_JSON,
        path,
        "/spec/nodeName",
        field_in(spec, "nodeName"),
    )?;
    if text.is_empty() {
        number(names, text)
    } else {
        name_number(names, path, "/spec/nodeName", text)
    }
}

/// The tolerations of a Pod.
#[tactic(auto, unfolding(crate::specs::Walk::tolerations_at))]
fn tolerations(
    alloc: Global,
    names: &mut Names,
    path: &Path,
    spec: Option<&Value>,
) -> Result<Tolerations, ReadFault>
    ensures gives { Gives (λ tolerations. (tolerations, names.new)) result
        (walk.tolerations_at names.old path.now (option_map (λ v. view v.now) spec.entry)) }
    ensures names { AreKept names.old names.new }
{
    let all = items(path, "/spec/tolerations", field_in(spec, "tolerations"))?;
    let few = hundred(path, "/spec/tolerations", all)?;
    let list = tolerations_of(alloc, names, path, "/spec/tolerations/", few)?;
    Ok(Tolerations::of(list)?)
}

/// The tolerations of pods that are alike, by the rules of a Pod's.
#[tactic(auto, unfolding(crate::specs::Walk::tolerations_under))]
pub fn read_tolerations(
    alloc: Global,
    names: &mut Names,
    path: &Path,
    value: &Value,
) -> Result<Tolerations, ReadFault>
    ensures gives { Gives (λ tolerations. (tolerations, names.new)) result
        (walk.tolerations_under names.old path.now (view value.now)) }
    ensures names { AreKept names.old names.new }
{
    let all = items(path, "/tolerations", field(value, "tolerations"))?;
    let few = hundred(path, "/tolerations", all)?;
    let list = tolerations_of(alloc, names, path, "/tolerations/", few)?;
    Ok(Tolerations::of(list)?)
}

fn tolerations_of(
    alloc: Global,
    names: &mut Names,
    path: &Path,
    key: &str,
    list: &[Value],
) -> Result<TolerationList, ReadFault>
    ensures gives { Gives (λ tolerations. (tolerations, names.new)) result
        (walk.tolerations_from names.old path.now key.now 0 [] (items_view list.now)) }
    ensures names { AreKept names.old names.new }
{
    let mut tolerations = TolerationList::new(alloc);
    for (place, item) in list.iter().enumerate() {
        match toleration_in(names, path, key, place, item) {
            Ok(toleration) => tolerations.push(toleration)?,
            Err(fault) => return Err(fault),
        }
    }
    Ok(tolerations)
}

fn toleration_in(
    names: &mut Names,
    path: &Path,
    key: &str,
    place: usize,
    value: &Value,
) -> Result<Toleration, ReadFault>
    ensures gives { Gives (λ toleration. (toleration, names.new)) result
        (walk.toleration_at names.old (walk.member_path path.now key.now place) (view value.now)) }
    ensures names { AreKept names.old names.new }
{
    let path = path.member(key, place)?;
    toleration(names, &path, value)
}

#[tactic(auto, unfolding(crate::specs::Walk::toleration_at))]
fn toleration(names: &mut Names, path: &Path, value: &Value) -> Result<Toleration, ReadFault>
    ensures gives { Gives (λ toleration. (toleration, names.new)) result
        (walk.toleration_at names.old path.now (view value.now)) }
    ensures names { AreKept names.old names.new }
{
    let value = object(path, value)?;
    let key = text_number(names, path, "/key", field(value, "key"))?;
    let text = text_number(names, path, "/value", field(value, "value"))?;
    let operator = operator(path, field(value, "operator"))?;
    let effect = any_effect(path, field(value, "effect"))?;
    let seconds = integer(
        path,
        "/tolerationSeconds",
        field(value, "tolerationSeconds"),
    )?;
    let toleration = Toleration {
        key,
        operator,
        value: text,
        effect,
        seconds,
    };
    if is_lawful(&toleration) {
        Ok(toleration)
    } else {
        Err(fault(BAD_TOLERATION, path))
    }
}

#[tactic(auto, unfolding(crate::specs::Walk::operator_at))]
fn operator(path: &Path, value: Option<&Value>) -> Result<Operator, ReadFault>
    ensures { Gives (λ operator. operator) result
        (walk.operator_at (path.now ++ codes "/operator") (option_map (λ v. view v.now) value.entry)) }
{
    let text = text(BAD_OPERATOR, path, "/operator", value)?;
    match operator_of(text) {
        Some(operator) => Ok(operator),
        None => Err(fault_below(BAD_OPERATOR, path, "/operator")),
    }
}

fn operator_of(text: &str) -> Option<Operator>
    ensures { result ≡ walk.operator_of text.now }
{
    if text.is_empty() || text == "Equal" {
        Some(Operator::Equal)
    } else if text == "Exists" {
        Some(Operator::Exists)
    } else {
        None
    }
}

#[tactic(auto, unfolding(crate::specs::Walk::any_effect_at))]
fn any_effect(path: &Path, value: Option<&Value>) -> Result<Option<Effect>, ReadFault>
    ensures { Gives (λ effect. effect) result
        (walk.any_effect_at (path.now ++ codes "/effect") (option_map (λ v. view v.now) value.entry)) }
{
    let text = text(BAD_EFFECT, path, "/effect", value)?;
    if text.is_empty() {
        return Ok(None);
    }
    match effect_of(text) {
        Some(effect) => Ok(Some(effect)),
        None => Err(fault_below(BAD_EFFECT, path, "/effect")),
    }
}

/// An empty key has Exists, Exists has an empty value, and seconds come with the effect NoExecute.
fn is_lawful(toleration: &Toleration) -> bool
    ensures { result ≡ walk.is_lawful toleration.now }
{
    fits_operator(toleration) && (toleration.seconds.is_none() || is_no_execute(toleration.effect))
}

fn fits_operator(toleration: &Toleration) -> bool
    ensures { result ≡ walk.fits_operator toleration.now.operator toleration.now.key toleration.now.value }
{
    match toleration.operator {
        Operator::Exists => toleration.value == 0,
        Operator::Equal => toleration.key != 0,
    }
}

fn is_no_execute(effect: Option<Effect>) -> bool
    ensures { result ≡ walk.is_no_execute effect }
{
    match effect {
        Some(Effect::NoExecute) => true,
        _ => false,
    }
}
