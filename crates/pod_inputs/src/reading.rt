// The inputs in bytes.
ghost use Rattle.std.specs.Prelude.{[], codes, IfOk};
ghost use Rattle.serde_json.specs.Find.{get};
ghost use Rattle.serde_json.specs.View.{view};
ghost use Rattle.manifest_json.specs.Faults.{Gives};
ghost use Rattle.script_reader.specs.Fields as fields;
ghost use Rattle.manifest_json.specs.declared.codes.TheConstants.{TOP_SHAPE};
ghost use Rattle.pod_inputs.specs.Fields as times;
ghost use Rattle.pod_inputs.specs.Rows as rows;
ghost use Rattle.pod_inputs.specs.Tables.{object_in};
ghost use Rattle.pod_inputs.specs.Walk as walk;
ghost use Rattle.pod_tools.specs.Feasible.{AreFew};

use crate::field::needed_instant;
use crate::laws::inputs_are_few;
use crate::missing::missing_in;
use crate::row::{Rows, rows_in};
use crate::table::{Table, object_in};
use kube_base::{NameHash, Names, Wall};
use manifest_json::codes::{MISSING_KEY, TOP_SHAPE};
use manifest_json::{Path, ReadFault};
use pod_tools::{CollectInput, MissingRows, PlaceInput};
use script_reader::field::{fault_at, path_of, whole_at};
use script_reader::read_value;
use serde_json::Value;
use std::alloc::Global;

/// What `collect` is asked in these bytes, with its defaults, or the first refusal of the walk.
#[tactic(auto, unfolding(crate::specs::Walk::collect_walk))]
pub fn read_collect(alloc: Global, bytes: &[u8]) -> Result<CollectInput, ReadFault>
    ensures exact { Gives (λ input. input) result (walk.collect_walk bytes.now) }
    ensures few { IfOk result (λ input. AreFew input.nodes input.pods) }
{
    inputs_are_few();
    let value = read_value(alloc, bytes)?;
    let input = collect_of(alloc, NameHash::of(bytes), &value)?;
    Ok(input)
}

/// What `place` is asked in these bytes, or the first refusal of the walk.
#[tactic(auto, unfolding(crate::specs::Walk::place_walk))]
pub fn read_place(alloc: Global, bytes: &[u8]) -> Result<PlaceInput, ReadFault>
    ensures exact { Gives (λ input. input) result (walk.place_walk bytes.now) }
    ensures few { IfOk result (λ input. AreFew input.nodes input.pods) }
{
    inputs_are_few();
    let value = read_value(alloc, bytes)?;
    let input = place_of(alloc, NameHash::of(bytes), &value)?;
    Ok(input)
}

#[tactic(auto, unfolding(crate::specs::Walk::collect_at))]
fn collect_of(alloc: Global, hash: NameHash, value: &Value) -> Result<CollectInput, ReadFault>
    ensures { Gives (λ input. input) result (walk.collect_at (view value.now)) }
{
    top_in(alloc, Table::Collect, value)?;
    let now = now(alloc, value)?;
    let threshold = threshold(alloc, value)?;
    let mut names = Names::keyed(alloc, hash)?;
    let missing = missing_rows(alloc, &mut names, value)?;
    let rows = rows(alloc, &mut names, value)?;
    Ok(CollectInput {
        names,
        now,
        threshold,
        missing,
        nodes: rows.nodes,
        pods: rows.pods,
    })
}

#[tactic(auto, unfolding(crate::specs::Walk::place_at))]
fn place_of(alloc: Global, hash: NameHash, value: &Value) -> Result<PlaceInput, ReadFault>
    ensures { Gives (λ input. input) result (walk.place_at (view value.now)) }
{
    top_in(alloc, Table::Place, value)?;
    let mut names = Names::keyed(alloc, hash)?;
    let rows = rows(alloc, &mut names, value)?;
    Ok(PlaceInput {
        names,
        nodes: rows.nodes,
        pods: rows.pods,
    })
}

/// The value is an object with no unknown key.
fn top_in(alloc: Global, table: Table, value: &Value) -> Result<(), ReadFault>
    ensures { Gives (λ _. view value.now) result (object_in table TOP_SHAPE (codes "/") (view value.now)) }
{
    let path = path_of(alloc, "/")?;
    object_in(table, TOP_SHAPE, &path, value)
}

fn now(alloc: Global, value: &Value) -> Result<Wall, ReadFault>
    ensures { Gives (λ at. at) result (times.needed_instant [] (codes "now") (view value.now)) }
{
    needed_instant(&Path::new(alloc), "now", value)
}

fn threshold(alloc: Global, value: &Value) -> Result<u32, ReadFault>
    ensures { Gives (λ n. n) result
        (fields.whole_at 12_500 0 1_000_000 [] (codes "threshold") (view value.now)) }
{
    whole_at(12_500, 0, 1_000_000, &Path::new(alloc), "threshold", value)
}

fn missing_rows(alloc: Global, names: &mut Names, value: &Value) -> Result<MissingRows, ReadFault>
    ensures { Gives (λ missing. (missing, names.new)) result
        (fields.default_of ([], names.old) (walk.missing_in names.old) (get (codes "missing") (view value.now))) }
{
    match value.get("missing") {
        Some(found) => missing_in(alloc, names, found),
        None => Ok(MissingRows::new(alloc)),
    }
}

fn rows(alloc: Global, names: &mut Names, value: &Value) -> Result<Rows, ReadFault>
    ensures { Gives (λ rows. (rows, names.new)) result
        (fields.required (codes "/objects") (rows.rows_in names.old) (get (codes "objects") (view value.now))) }
{
    match value.get("objects") {
        Some(found) => rows_in(alloc, names, found),
        None => Err(fault_at(alloc, MISSING_KEY, "/objects")),
    }
}
