// Nodes that are known to be gone.
ghost use Rattle.std.specs.Prelude.{◌≡◌, ◌==◌, [], codes};
ghost use Rattle.std.specs.List.{list_any};
ghost use Rattle.serde_json.specs.View.{view, items_view};
ghost use Rattle.manifest_json.specs.Faults.{Gives};
ghost use Rattle.manifest_json.specs.Walk.{member_path};
ghost use Rattle.pod_inputs.specs.Walk as walk;

use crate::field::needed_instant;
use crate::table::{Table, object_in};
use kube_base::Names;
use manifest_json::ReadFault;
use manifest_json::codes::{DUPLICATE, WRONG_TYPE};
use manifest_json::fault::fault;
use pod_tools::{MissingRow, MissingRows};
use script_reader::field::{array_in, member_of, name_number_at, path_of};
use serde_json::Value;
use std::alloc::Global;

/// At most 1,000 nodes that differ.
#[tactic(auto, unfolding(crate::specs::Walk::missing_in))]
pub(crate) fn missing_in(
    alloc: Global,
    names: &mut Names,
    value: &Value,
) -> Result<MissingRows, ReadFault>
    ensures { Gives (λ missing. (missing, names.new)) result (walk.missing_in names.old (view value.now)) }
{
    let path = path_of(alloc, "/missing")?;
    let all = array_in(1000, &path, value)?;
    missing_of(alloc, names, all)
}

fn missing_of(alloc: Global, names: &mut Names, list: &[Value]) -> Result<MissingRows, ReadFault>
    ensures { Gives (λ missing. (missing, names.new)) result
        (walk.missing_from names.old 0 [] (items_view list.now)) }
{
    let mut missing = MissingRows::new(alloc);
    for (place, value) in list.iter().enumerate() {
        match missing_at(alloc, names, place, &missing, value) {
            Ok(row) => missing.push(row)?,
            Err(fault) => return Err(fault),
        }
    }
    Ok(missing)
}

/// A node behind earlier ones.
#[tactic(auto, unfolding(crate::specs::Walk::missing_at))]
fn missing_at(
    alloc: Global,
    names: &mut Names,
    place: usize,
    earlier: &MissingRows,
    value: &Value,
) -> Result<MissingRow, ReadFault>
    ensures { Gives (λ row. (row, names.new)) result
        (walk.missing_at names.old (member_path [] (codes "/missing/") place) earlier.now (view value.now)) }
{
    let path = member_of(alloc, "/missing/", place)?;
    object_in(Table::Missing, WRONG_TYPE, &path, value)?;
    let node = name_number_at(names, &path, "node", value)?;
    let since = needed_instant(&path, "since", value)?;
    if is_among(node, earlier.as_slice()) {
        return Err(fault(DUPLICATE, &path));
    }
    Ok(MissingRow { node, since })
}

fn is_among(node: u32, earlier: &[MissingRow]) -> bool
    ensures { result ≡ list_any (λ other. other.node == node) earlier.now }
{
    earlier.iter().any(|other| other.node == node)
}
