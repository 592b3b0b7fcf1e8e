// Rows of a table.
ghost use Rattle.std.specs.Prelude.{◌≡◌, ◌++◌, ◌∷◌, [], OnOk, map};
ghost use Rattle.lens_summary.specs.Cells.{cell_text};
ghost use Rattle.lens_summary.specs.Tables.{shown};

use crate::cell::Cell;
use kube_base::NoMemory;

/// A row of a table: its cells from left to right.
#[derive(Drop)]
pub struct Row<'a> {
    pub cells: Vec<Cell<'a>>,
}

/// Adds a row of these cells.
pub fn add_row<'a>(rows: &mut Vec<Row<'a>>, cells: Vec<Cell<'a>>) -> Result<(), NoMemory>
    ensures { OnOk result (shown rows.new.items ≡ shown rows.old.items ++ map cell_text cells.entry.items ∷ []) }
{
    rows.push(Row { cells })?;
    Ok(())
}
