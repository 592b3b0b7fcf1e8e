// Nodes and Pods with the fields that decide on collection and placing.
ghost use Rattle.std.specs.Prelude.{◌≡◌, [], codes, option_and_then};
ghost use Rattle.std.specs.Option.{option_map};
ghost use Rattle.serde_json.specs.Find.{as_str};
ghost use Rattle.serde_json.specs.View.{view, items_view};
ghost use Rattle.manifest_json.specs.Faults.{Gives};
ghost use Rattle.manifest_json.specs.Walk.{member_path};
ghost use Rattle.pod_inputs.specs.Rows as spec;

use crate::condition::taints_by_condition;
use crate::field::flag;
use kube_base::{Names, Wall, whole_second};
use kube_objects::{Key, Kind, Node, Object, Pod};
use manifest_json::codes::WRONG_JSON;
use manifest_json::field::{field, field_in, items, parent, text, time};
use manifest_json::{Path, ReadFault, Scale, kind_of, read_list};
use pod_tools::{NodeRow, NodeRows, PodRow, PodRows};
use script_reader::field::{member_of, path_of};
use serde_json::Value;
use std::alloc::Global;

/// Nodes and Pods in the order of their items.
#[derive(Debug, Drop)]
pub(crate) struct Rows {
    pub(crate) nodes: NodeRows,
    pub(crate) pods: PodRows,
}

/// The Nodes and Pods of a List, after the walk of its manifests.
#[tactic(auto, unfolding(crate::specs::Rows::rows_in))]
pub(crate) fn rows_in(alloc: Global, names: &mut Names, value: &Value) -> Result<Rows, ReadFault>
    ensures { Gives (λ rows. (rows, names.new)) result (spec.rows_in names.old (view value.now)) }
{
    let path = path_of(alloc, "/objects")?;
    let found = read_list(alloc, Scale::Usual, names, &[], value, &path)?;
    let list = items(&path, "/items", field(value, "items"))?;
    rows_of(alloc, names, found.items.as_slice(), list)
}

fn rows_of(
    alloc: Global,
    names: &mut Names,
    found: &[(Key, Object)],
    list: &[Value],
) -> Result<Rows, ReadFault>
    ensures { Gives (λ rows. (rows, names.new)) result
        (spec.rows_from names.old 0 spec.no_rows found.now (items_view list.now)) }
{
    let mut rows = Rows {
        nodes: NodeRows::new(alloc),
        pods: PodRows::new(alloc),
    };
    let mut later = found;
    for (place, value) in list.iter().enumerate() {
        match item_row(alloc, names, place, &mut rows, later, value) {
            Ok(left) => later = left,
            Err(fault) => return Err(fault),
        }
    }
    Ok(rows)
}

/// Adds the row of an item, and tells the objects of later ones.
#[tactic(auto, unfolding(crate::specs::Rows::item_row_at))]
fn item_row<'k>(
    alloc: Global,
    names: &mut Names,
    place: usize,
    rows: &mut Rows,
    found: &'k [(Key, Object)],
    value: &Value,
) -> Result<&'k [(Key, Object)], ReadFault>
    ensures { Gives (λ later. ((rows.new, later.now), names.new)) result
        (spec.item_row_at names.old (member_path [] (codes "/objects/items/") place) rows.old found.now (view value.now)) }
{
    if !is_read(value) {
        return Ok(found);
    }
    let path = member_of(alloc, "/objects/items/", place)?;
    next_row(alloc, names, &path, rows, found, value)
}

/// Adds the row of an item that has the first of these objects.
#[tactic(auto, unfolding(crate::specs::Rows::next_row_at))]
fn next_row<'k>(
    alloc: Global,
    names: &mut Names,
    path: &Path,
    rows: &mut Rows,
    found: &'k [(Key, Object)],
    value: &Value,
) -> Result<&'k [(Key, Object)], ReadFault>
    ensures { Gives (λ later. ((rows.new, later.now), names.new)) result
        (spec.next_row_at names.old path.now rows.old found.now (view value.now)) }
{
    match found.split_first() {
        Some((first, later)) => {
            row(alloc, names, path, rows, first, value)?;
            Ok(later)
        }
        None => Ok(found),
    }
}

/// Adds the row of an object, if it is a Node or a Pod.
#[tactic(auto, unfolding(crate::specs::Rows::row_at))]
fn row(
    alloc: Global,
    names: &mut Names,
    path: &Path,
    rows: &mut Rows,
    found: &(Key, Object),
    value: &Value,
) -> Result<(), ReadFault>
    ensures { Gives (λ _. (rows.new, names.new)) result
        (spec.row_at names.old path.now rows.old found.now (view value.now)) }
{
    match &found.1 {
        Object::Node(node) => {
            let row = node_row(alloc, names, path, found.0.name, node, value)?;
            rows.nodes.push(row)?;
            Ok(())
        }
        Object::Lease(_) => Ok(()),
        Object::Pod(pod) => {
            let row = pod_row(path, found.0, pod, value)?;
            rows.pods.push(row)?;
            Ok(())
        }
    }
}

#[tactic(auto, unfolding(crate::specs::Rows::node_row_at))]
fn node_row(
    alloc: Global,
    names: &mut Names,
    path: &Path,
    name: u32,
    node: &Node,
    value: &Value,
) -> Result<NodeRow, ReadFault>
    ensures { Gives (λ row. (row, names.new)) result
        (spec.node_row_at names.old path.now name node.now (view value.now)) }
{
    let node_spec = parent(path, "/spec", field(value, "spec"))?;
    let unschedulable = flag(
        path,
        "/spec/unschedulable",
        field_in(node_spec, "unschedulable"),
    )?;
    let status = parent(path, "/status", field(value, "status"))?;
    let conditions = items(path, "/status/conditions", field_in(status, "conditions"))?;
    let derived = taints_by_condition(alloc, names, node.ready, conditions, unschedulable)?;
    let node = node.copy()?;
    Ok(NodeRow {
        name,
        node,
        derived,
    })
}

#[tactic(auto, unfolding(crate::specs::Rows::pod_row_at))]
fn pod_row(path: &Path, key: Key, pod: &Pod, value: &Value) -> Result<PodRow, ReadFault>
    ensures { Gives (λ row. row) result (spec.pod_row_at path.now key pod.now (view value.now)) }
{
    let metadata = parent(path, "/metadata", field(value, "metadata"))?;
    let created = time(
        path,
        "/metadata/creationTimestamp",
        field_in(metadata, "creationTimestamp"),
    )?;
    let deleted = time(
        path,
        "/metadata/deletionTimestamp",
        field_in(metadata, "deletionTimestamp"),
    )?;
    let status = parent(path, "/status", field(value, "status"))?;
    let phase = text(WRONG_JSON, path, "/status/phase", field_in(status, "phase"))?;
    let pod = pod.copy()?;
    Ok(PodRow {
        key,
        pod,
        terminated: is_terminated(phase),
        created: created_at(created),
        terminating: deleted.is_some(),
    })
}

/// Whether pods in this phase have ended.
fn is_terminated(phase: &str) -> bool
    ensures { result ≡ spec.is_terminated phase.now }
{
    phase == "Succeeded" || phase == "Failed"
}

/// When a pod was created, in whole seconds.
fn created_at(at: Option<Wall>) -> Wall
    ensures { result ≡ spec.created_at at }
{
    match at {
        Some(at) => whole_second(at),
        None => Wall(0),
    }
}

/// Whether an item is of a kind that is read.
fn is_read(value: &Value) -> bool
    ensures { result ≡ spec.is_read (view value.now) }
{
    kind_by(value.get("apiVersion"), value.get("kind")).is_some()
}

fn kind_by(version: Option<&Value>, kind: Option<&Value>) -> Option<Kind>
    ensures { result ≡ spec.kind_by (option_and_then as_str (option_map (λ v. view v.now) version.entry))
        (option_and_then as_str (option_map (λ v. view v.now) kind.entry)) }
{
    match version.and_then(Value::as_str) {
        Some(version) => match kind.and_then(Value::as_str) {
            Some(kind) => kind_of(version, kind),
            None => None,
        },
        None => None,
    }
}
