// A table that is told.
ghost use Rattle.std.specs.Prelude.{◌≡◌, ◌++◌, OnOk};
ghost use Rattle.lens_summary.specs.Tables.{shown};
ghost use Rattle.lens_summary.specs.Part as spec;

use crate::row::Row;
use crate::table::add_table;
use kube_base::NoMemory;
use std::alloc::Global;
use trace_writer::add;

/// Adds a table that is told, and an empty line.
#[tactic(auto, unfolding(crate::specs::Part::part))]
pub(crate) fn add_part(text: &mut Vec<u8>, alloc: Global, rows: &[Row<'_>]) -> Result<(), NoMemory>
    ensures { OnOk result (text.new.items ≡ text.old.items ++ spec.part (shown rows.now)) }
{
    add_table(text, alloc, rows)?;
    if rows.len() <= 1 {
        Ok(())
    } else {
        add(text, b"\n")
    }
}
