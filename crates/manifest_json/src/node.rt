// Nodes: labels, taints and the Ready condition.
ghost use Rattle.std.specs.Prelude.{◌≡◌, ◌++◌, codes, [], option_and_then, Some, None};
ghost use Rattle.std.specs.List.{list_any};
ghost use Rattle.std.specs.Option.{option_map};
ghost use Rattle.serde_json.specs.Find.{as_str};
ghost use Rattle.serde_json.specs.View.{view, items_view};
ghost use Rattle.manifest_json.specs.Faults.{Gives};
ghost use Rattle.manifest_json.specs.Fields.{AreKept};
ghost use Rattle.manifest_json.specs.Walk as walk;

use crate::codes::{
    BAD_EFFECT, BAD_LABEL, BAD_READY_STATUS, BAD_TAINT_KEY, DUPLICATE_TAINT, WRONG_JSON,
};
use crate::fault::{fault, fault_below};
use crate::field::{field, field_in, hundred, is_text, items, number, object, parent, text, time};
use crate::grammar::is_label;
use crate::metadata::{name, text_number};
use crate::{Path, ReadFault};
use kube_base::{Names, Wall, whole_second};
use kube_objects::{Effect, Key, Kind, Node, Object, Ready, ReadyStatus, Taint, Taints};
use serde_json::Value;
use std::alloc::Global;

/// A Node with its key.
#[tactic(auto, unfolding(crate::specs::Walk::node_at))]
pub(crate) fn node(
    alloc: Global,
    names: &mut Names,
    path: &Path,
    value: &Value,
) -> Result<(Key, Object), ReadFault>
    ensures gives { Gives (λ found. (found, names.new)) result (walk.node_at names.old path.now (view value.now)) }
    ensures names { AreKept names.old names.new }
{
    let metadata = parent(path, "/metadata", field(value, "metadata"))?;
    let name = name(names, path, metadata)?;
    let (region, zone) = labels(names, path, metadata)?;
    let spec = parent(path, "/spec", field(value, "spec"))?;
    let taints = taints(alloc, names, path, spec)?;
    let status = parent(path, "/status", field(value, "status"))?;
    let ready = conditions(names, path, status)?;
    let key = Key {
        kind: Kind::Node,
        space: 0,
        name,
    };
    Ok((
        key,
        Object::Node(Node {
            region,
            zone,
            taints,
            ready,
        }),
    ))
}

/// Region and zone.
#[tactic(auto, unfolding(crate::specs::Walk::labels_at))]
fn labels(names: &mut Names, path: &Path, metadata: Option<&Value>) -> Result<(u32, u32), ReadFault>
    ensures gives { Gives (λ places. (places.0, places.1, names.new)) result
        (walk.labels_at names.old path.now (option_map (λ v. view v.now) metadata.entry)) }
    ensures names { AreKept names.old names.new }
{
    let labels = parent(path, "/metadata/labels", field_in(metadata, "labels"))?;
    let region = label(
        names,
        path,
        "/metadata/labels/topology.kubernetes.io/region",
        "topology.kubernetes.io/region",
        labels,
    )?;
    let zone = label(
        names,
        path,
        "/metadata/labels/topology.kubernetes.io/zone",
        "topology.kubernetes.io/zone",
        labels,
    )?;
    Ok((region, zone))
}

#[tactic(auto, unfolding(crate::specs::Walk::label_at))]
fn label(
    names: &mut Names,
    path: &Path,
    place: &str,
    key: &str,
    labels: Option<&Value>,
) -> Result<u32, ReadFault>
    ensures gives { Gives (λ n. (n, names.new)) result
        (walk.label_at names.old path.now place.now key.now (option_map (λ v. view v.now) labels.entry)) }
    ensures names { AreKept names.old names.new }
{
    let text = text(WRONG_JSON, path, place, field_in(labels, key))?;
    if is_label(text) {
        number(names, text)
    } else {
        Err(fault_below(BAD_LABEL, path, "/metadata/labels"))
    }
}

/// The taints of a Node.
#[tactic(auto, unfolding(crate::specs::Walk::taints_at))]
fn taints(
    alloc: Global,
    names: &mut Names,
    path: &Path,
    spec: Option<&Value>,
) -> Result<Taints, ReadFault>
    ensures gives { Gives (λ taints. (taints, names.new)) result
        (walk.taints_at names.old path.now (option_map (λ v. view v.now) spec.entry)) }
    ensures names { AreKept names.old names.new }
{
    let all = items(path, "/spec/taints", field_in(spec, "taints"))?;
    let few = hundred(path, "/spec/taints", all)?;
    taints_of(alloc, names, path, few)
}

fn taints_of(
    alloc: Global,
    names: &mut Names,
    path: &Path,
    list: &[Value],
) -> Result<Taints, ReadFault>
    ensures gives { Gives (λ taints. (taints, names.new)) result
        (walk.taints_from names.old path.now 0 [] (items_view list.now)) }
    ensures names { AreKept names.old names.new }
{
    let mut taints = Taints::new(alloc);
    for (place, item) in list.iter().enumerate() {
        match taint_in(names, path, place, &taints, item) {
            Ok(taint) => taints.push(taint)?,
            Err(fault) => return Err(fault),
        }
    }
    Ok(taints)
}

fn taint_in(
    names: &mut Names,
    path: &Path,
    place: usize,
    earlier: &Taints,
    value: &Value,
) -> Result<Taint, ReadFault>
    ensures gives { Gives (λ taint. (taint, names.new)) result
        (walk.taint_at names.old (walk.member_path path.now (codes "/spec/taints/") place) earlier.now (view value.now)) }
    ensures names { AreKept names.old names.new }
{
    let path = path.member("/spec/taints/", place)?;
    taint(names, &path, earlier.as_slice(), value)
}

#[tactic(auto, unfolding(crate::specs::Walk::taint_at))]
fn taint(
    names: &mut Names,
    path: &Path,
    earlier: &[Taint],
    value: &Value,
) -> Result<Taint, ReadFault>
    ensures gives { Gives (λ taint. (taint, names.new)) result
        (walk.taint_at names.old path.now earlier.now (view value.now)) }
    ensures names { AreKept names.old names.new }
{
    let value = object(path, value)?;
    let key = taint_key(names, path, value)?;
    let text = text_number(names, path, "/value", field(value, "value"))?;
    let effect = effect(path, field(value, "effect"))?;
    let added = time(path, "/timeAdded", field(value, "timeAdded"))?;
    let taint = Taint {
        key,
        value: text,
        effect,
        added: in_seconds(added),
    };
    if is_among(&taint, earlier) {
        return Err(fault(DUPLICATE_TAINT, path));
    }
    Ok(taint)
}

/// A time in whole seconds.
fn in_seconds(at: Option<Wall>) -> Option<Wall>
    ensures { result ≡ walk.whole_second at }
{
    match at {
        Some(at) => Some(whole_second(at)),
        None => None,
    }
}

/// The number of a taint's key, which isn't empty.
#[tactic(auto, unfolding(crate::specs::Walk::taint_key_at))]
fn taint_key(names: &mut Names, path: &Path, value: &Value) -> Result<u32, ReadFault>
    ensures gives { Gives (λ n. (n, names.new)) result (walk.taint_key_at names.old path.now (view value.now)) }
    ensures names { AreKept names.old names.new }
{
    let text = taint_text(path, field(value, "key"))?;
    if text.is_empty() {
        return Err(fault_below(BAD_TAINT_KEY, path, "/key"));
    }
    number(names, text)
}

fn taint_text<'v>(path: &Path, value: Option<&'v Value>) -> Result<&'v str, ReadFault>
    ensures { Gives (λ t. t.now) result
        (walk.taint_text_at (path.now ++ codes "/key") (option_map (λ v. view v.now) value.entry)) }
{
    match value {
        None => Err(fault_below(BAD_TAINT_KEY, path, "/key")),
        Some(found) => match found.as_str() {
            Some(text) => Ok(text),
            None => Err(fault_below(WRONG_JSON, path, "/key")),
        },
    }
}

fn effect(path: &Path, value: Option<&Value>) -> Result<Effect, ReadFault>
    ensures { Gives (λ effect. effect) result
        (walk.effect_at (path.now ++ codes "/effect") (option_map (λ v. view v.now) value.entry)) }
{
    match value.and_then(Value::as_str) {
        Some(text) => match effect_of(text) {
            Some(effect) => Ok(effect),
            None => Err(fault_below(BAD_EFFECT, path, "/effect")),
        },
        None => Err(fault_below(BAD_EFFECT, path, "/effect")),
    }
}

/// The effect that a text names.
pub(crate) fn effect_of(text: &str) -> Option<Effect>
    ensures { result ≡ walk.effect_of text.now }
{
    if text == "NoSchedule" {
        Some(Effect::NoSchedule)
    } else if text == "PreferNoSchedule" {
        Some(Effect::PreferNoSchedule)
    } else if text == "NoExecute" {
        Some(Effect::NoExecute)
    } else {
        None
    }
}

/// Whether an earlier taint has the same key and effect.
fn is_among(taint: &Taint, earlier: &[Taint]) -> bool
    ensures { result ≡ list_any (walk.same_taint taint.now) earlier.now }
{
    earlier.iter().any(|other| is_same(taint, other))
}

fn is_same(taint: &Taint, other: &Taint) -> bool
    ensures { result ≡ walk.same_taint taint.now other.now }
{
    taint.key == other.key && rank(taint.effect) == rank(other.effect)
}

fn rank(effect: Effect) -> u8
    ensures { result ≡ walk.effect_rank effect }
{
    match effect {
        Effect::NoSchedule => 0,
        Effect::PreferNoSchedule => 1,
        Effect::NoExecute => 2,
    }
}

/// The first Ready condition.
#[tactic(auto, unfolding(crate::specs::Walk::conditions_at))]
fn conditions(
    names: &mut Names,
    path: &Path,
    status: Option<&Value>,
) -> Result<Option<Ready>, ReadFault>
    ensures gives { Gives (λ ready. (ready, names.new)) result
        (walk.conditions_at names.old path.now (option_map (λ v. view v.now) status.entry)) }
    ensures names { AreKept names.old names.new }
{
    let list = items(path, "/status/conditions", field_in(status, "conditions"))?;
    conditions_of(names, path, list)
}

fn conditions_of(names: &mut Names, path: &Path, list: &[Value]) -> Result<Option<Ready>, ReadFault>
    ensures gives { Gives (λ ready. (ready, names.new)) result
        (walk.conditions_from names.old path.now 0 None (items_view list.now)) }
    ensures names { AreKept names.old names.new }
{
    let mut ready = None;
    for (place, item) in list.iter().enumerate() {
        match condition_in(names, path, place, ready, item) {
            Ok(next) => ready = next,
            Err(fault) => return Err(fault),
        }
    }
    Ok(ready)
}

fn condition_in(
    names: &mut Names,
    path: &Path,
    place: usize,
    found: Option<Ready>,
    value: &Value,
) -> Result<Option<Ready>, ReadFault>
    ensures gives { Gives (λ ready. (ready, names.new)) result
        (walk.condition_at names.old (walk.member_path path.now (codes "/status/conditions/") place) found (view value.now)) }
    ensures names { AreKept names.old names.new }
{
    let path = path.member("/status/conditions/", place)?;
    condition(names, &path, found, value)
}

#[tactic(auto, unfolding(crate::specs::Walk::condition_at))]
fn condition(
    names: &mut Names,
    path: &Path,
    found: Option<Ready>,
    value: &Value,
) -> Result<Option<Ready>, ReadFault>
    ensures gives { Gives (λ ready. (ready, names.new)) result
        (walk.condition_at names.old path.now found (view value.now)) }
    ensures names { AreKept names.old names.new }
{
    let value = object(path, value)?;
    match found {
        Some(first) => Ok(Some(first)),
        None => if is_ready_type(value) {
            let ready = ready(names, path, value)?;
            Ok(Some(ready))
        } else {
            Ok(None)
        },
    }
}

fn is_ready_type(value: &Value) -> bool
    ensures { result ≡ walk.is_ready_type (view value.now) }
{
    is_text("Ready", value.get("type"))
}

#[tactic(auto, unfolding(crate::specs::Walk::ready_at))]
fn ready(names: &mut Names, path: &Path, value: &Value) -> Result<Ready, ReadFault>
    ensures gives { Gives (λ ready. (ready, names.new)) result (walk.ready_at names.old path.now (view value.now)) }
    ensures names { AreKept names.old names.new }
{
    let status = status(path, field(value, "status"))?;
    let reason = text_number(names, path, "/reason", field(value, "reason"))?;
    let heartbeat = time(
        path,
        "/lastHeartbeatTime",
        field(value, "lastHeartbeatTime"),
    )?;
    let transition = time(
        path,
        "/lastTransitionTime",
        field(value, "lastTransitionTime"),
    )?;
    Ok(Ready {
        status,
        reason,
        heartbeat: in_seconds(heartbeat),
        transition: in_seconds(transition),
    })
}

fn status(path: &Path, value: Option<&Value>) -> Result<ReadyStatus, ReadFault>
    ensures { Gives (λ status. status) result
        (walk.status_at (path.now ++ codes "/status") (option_map (λ v. view v.now) value.entry)) }
{
    match value.and_then(Value::as_str) {
        Some(text) => match status_of(text) {
            Some(status) => Ok(status),
            None => Err(fault_below(BAD_READY_STATUS, path, "/status")),
        },
        None => Err(fault_below(BAD_READY_STATUS, path, "/status")),
    }
}

fn status_of(text: &str) -> Option<ReadyStatus>
    ensures { result ≡ walk.status_of text.now }
{
    if text == "True" {
        Some(ReadyStatus::True)
    } else if text == "False" {
        Some(ReadyStatus::False)
    } else if text == "Unknown" {
        Some(ReadyStatus::Unknown)
    } else {
        None
    }
}
