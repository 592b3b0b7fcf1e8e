// Lists of objects.
ghost use Rattle.std.specs.Prelude.{◌≡◌, ◌<◌, ◌^◌, ◌+◌, ◌++◌, codes, [], length, ◌≤◌, IfOk, OnOk};
ghost use Rattle.serde_json.specs.View.{view, items_view};
ghost use Rattle.manifest_json.specs.Faults.{Gives};
ghost use Rattle.manifest_json.specs.Fields.{AreKept};
ghost use Rattle.manifest_json.specs.Kept.{Stands};
ghost use Rattle.manifest_json.specs.Walk as walk;

use crate::codes::BAD_KIND;
use crate::fault::fault;
use crate::field::{field, is_text, items, object};
use crate::kept::Kept;
use crate::object::item;
use crate::{Path, ReadFault, Scale};
use kube_base::Names;
use kube_objects::Items;
use serde_json::Value;
use std::alloc::Global;

/// The objects of a List in order, and how many of its items have another kind.
#[derive(Debug, Drop)]
pub struct Objects {
    pub items: Items,
    pub skipped: u64,
}

/// The objects of a List with their keys, so that more can be added, and how many of its items have another kind.
#[derive(Drop)]
pub struct Listed {
    pub kept: Kept,
    pub skipped: u64,
}

/// The objects of a `v1` List, or the first refusal of the walk at or below the path.
///
/// The list may be so large. `known` are the numbers of the controllers' names. New names get the next numbers; after a refusal further
/// ones may be held.
pub fn read_list(
    alloc: Global,
    scale: Scale,
    names: &mut Names,
    known: &[u32],
    value: &Value,
    path: &Path,
) -> Result<Objects, ReadFault>
    requires { length known.now < 2 ^ 32 }
    ensures gives { Gives (λ objects. ((objects.items, objects.skipped), names.new)) result
        (walk.list_walk scale names.old known.now path.now (view value.now)) }
    ensures names { AreKept names.old names.new }
{
    let Listed { kept, skipped } = read_kept(alloc, scale, names, known, value, path)?;
    Ok(Objects {
        items: kept.items,
        skipped,
    })
}

/// The same, with their keys.
#[tactic(auto, unfolding(crate::specs::Walk::list_walk))]
pub fn read_kept(
    alloc: Global,
    scale: Scale,
    names: &mut Names,
    known: &[u32],
    value: &Value,
    path: &Path,
) -> Result<Listed, ReadFault>
    requires { length known.now < 2 ^ 32 }
    ensures gives { Gives (λ listed. ((listed.kept.items, listed.skipped), names.new)) result
        (walk.list_walk scale names.old known.now path.now (view value.now)) }
    ensures stands { IfOk result (λ listed. Stands listed.kept) }
    ensures scale { IfOk result (λ listed. listed.kept.scale ≡ scale) }
    ensures names { AreKept names.old names.new }
{
    let value = object(path, value)?;
    if !is_list(value) {
        return Err(fault(BAD_KIND, path));
    }
    let list = items(path, "/items", field(value, "items"))?;
    objects_of(alloc, scale, names, known, path, list)
}

fn is_list(value: &Value) -> bool
    ensures { result ≡ walk.is_list (view value.now) }
{
    is_text("v1", value.get("apiVersion")) && is_text("List", value.get("kind"))
}

fn objects_of(
    alloc: Global,
    scale: Scale,
    names: &mut Names,
    known: &[u32],
    path: &Path,
    list: &[Value],
) -> Result<Listed, ReadFault>
    requires { length known.now < 2 ^ 32 }
    ensures gives { Gives (λ listed. ((listed.kept.items, listed.skipped), names.new)) result
        (walk.list_from scale names.old known.now path.now 0 [] 0 (items_view list.now)) }
    ensures stands { IfOk result (λ listed. Stands listed.kept) }
    ensures scale { IfOk result (λ listed. listed.kept.scale ≡ scale) }
    ensures names { AreKept names.old names.new }
{
    let mut kept = Kept::new(alloc, scale);
    let mut skipped: u64 = 0;
    for (place, value) in list.iter().enumerate() {
        match step_in(alloc, names, known, path, place, &mut kept, value) {
            Ok(more) => skipped += more,
            Err(fault) => return Err(fault),
        }
    }
    Ok(Listed { kept, skipped })
}

/// Adds an item's object, and tells how many were skipped.
fn step_in(
    alloc: Global,
    names: &mut Names,
    known: &[u32],
    path: &Path,
    place: usize,
    kept: &mut Kept,
    value: &Value,
) -> Result<u64, ReadFault>
    requires known { length known.now < 2 ^ 32 }
    requires stands { Stands kept.old }
    ensures gives { Gives (λ skipped. ((kept.new.items, skipped), names.new)) result
        (walk.list_step kept.old.scale names.old known.now (walk.member_path path.now (codes "/items/") place) kept.old.items (view value.now)) }
    ensures stands { OnOk result (Stands kept.new) }
    ensures scale { kept.new.scale ≡ kept.old.scale }
    ensures few { IfOk result (λ skipped. skipped ≤ 1) }
    ensures names { AreKept names.old names.new }
{
    let path = path.member("/items/", place)?;
    step(alloc, names, known, &path, kept, value)
}

#[tactic(auto, unfolding(crate::specs::Walk::list_step))]
fn step(
    alloc: Global,
    names: &mut Names,
    known: &[u32],
    path: &Path,
    kept: &mut Kept,
    value: &Value,
) -> Result<u64, ReadFault>
    requires known { length known.now < 2 ^ 32 }
    requires stands { Stands kept.old }
    ensures gives { Gives (λ skipped. ((kept.new.items, skipped), names.new)) result
        (walk.list_step kept.old.scale names.old known.now path.now kept.old.items (view value.now)) }
    ensures stands { OnOk result (Stands kept.new) }
    ensures scale { kept.new.scale ≡ kept.old.scale }
    ensures few { IfOk result (λ skipped. skipped ≤ 1) }
    ensures names { AreKept names.old names.new }
{
    let Some(found) = item(alloc, names, known, path, value)? else {
        return Ok(1);
    };
    kept.keep(path, found)?;
    Ok(0)
}
