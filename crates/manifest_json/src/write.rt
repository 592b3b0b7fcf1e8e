// A List of objects as it is written.
ghost use Rattle.std.specs.Prelude.{◌≡◌, ℕ, true, List, map, Ok, IfOk};
ghost use Rattle.std.specs.List.{list_all};
ghost use Rattle.serde_json.specs.View.{view};
ghost use Rattle.manifest_json.specs.declared.scale.Scale.{Scale};
ghost use Rattle.manifest_json.specs.Readable.{IsReadable};
ghost use Rattle.manifest_json.specs.Walk.{list_walk};
ghost use Rattle.manifest_json.specs.Written as written;

pub(crate) mod field;
pub(crate) mod lease;
pub(crate) mod members;
pub(crate) mod node;
pub(crate) mod pod;

use crate::write::lease::write_lease;
use crate::write::members::Members;
use crate::write::node::write_node;
use crate::write::pod::write_pod;
use kube_base::{Names, NoMemory};
use kube_objects::{Items, Key, Object};
use serde_json::Value;
use std::alloc::Global;

/// The `v1` List of the objects in order, with just the fields that are read and aren't missing or empty.
///
/// `known` are the numbers of the controllers' names. No time may lie after 2261. Items that a manifest can give are read back from
/// the List as they are, with the same names, wherever it stands in a document.
pub fn write_list(
    alloc: Global,
    names: &Names,
    known: &[u32],
    items: &Items,
) -> Result<Value, NoMemory>
    requires { list_all written.is_writable_item items.now ≡ true }
    ensures value { IfOk result (λ value. view value ≡ written.list_of names.now known.now items.now) }
    ensures reads_back { IfOk result (λ value. (scale : Scale) → IsReadable scale names.now known.now items.now → (path : List ℕ)
        → list_walk scale names.now known.now path (view value) ≡ Ok ((items.now, 0), names.now)) }
{
    // Each number that is held has a text of its own.
    let _held = names.len();
    list_value(alloc, names, known, items)
}

#[tactic(auto, unfolding(crate::specs::Written::list_of, crate::specs::Written::members_of))]
fn list_value(alloc: Global, names: &Names, known: &[u32], items: &Items) -> Result<Value, NoMemory>
    requires { list_all written.is_writable_item items.now ≡ true }
    ensures { IfOk result (λ value. view value ≡ written.list_of names.now known.now items.now) }
{
    let values = write_items(alloc, names, known, items.as_slice())?;
    let mut members = Members::new(alloc);
    members.put_text("kind", "List")?;
    members.put("items", Some(Value::Array(values)))?;
    members.put_text("apiVersion", "v1")?;
    Ok(members.into_value())
}

fn write_items(
    alloc: Global,
    names: &Names,
    known: &[u32],
    items: &[(Key, Object)],
) -> Result<Vec<Value>, NoMemory>
    requires { list_all written.is_writable_item items.now ≡ true }
    ensures { IfOk result (λ values. map view values.items ≡ map (written.object_of names.now known.now) items.now) }
{
    let mut values = Vec::new(alloc);
    for item in items {
        let value = write_object(alloc, names, known, item)?;
        values.push(value)?;
    }
    Ok(values)
}

#[tactic(auto, unfolding(crate::specs::Written::object_of))]
fn write_object(
    alloc: Global,
    names: &Names,
    known: &[u32],
    item: &(Key, Object),
) -> Result<Value, NoMemory>
    requires { written.is_writable_item item.now ≡ true }
    ensures { IfOk result (λ value. view value ≡ written.object_of names.now known.now item.now) }
{
    match &item.1 {
        Object::Node(node) => write_node(alloc, names, item.0, node),
        Object::Lease(lease) => write_lease(alloc, names, known, item.0, *lease),
        Object::Pod(pod) => write_pod(alloc, names, item.0, pod),
    }
}
