// The text of a table.
ghost use Rattle.std.specs.Prelude.{◌≡◌, ◌++◌, length, map, replicate, get_or, [], IfOk, OnOk};
ghost use Rattle.std.specs.List.{flat_map};
ghost use Rattle.lens_summary.specs.Cells.{cell_text};
ghost use Rattle.lens_summary.specs.Tables as spec;

use crate::cell::{Cell, add_cell};
use crate::row::Row;
use kube_base::NoMemory;
use std::alloc::Global;
use trace_writer::add;

/// Adds the text of a table, of which the first row is the heading. A table of no other row adds nothing.
#[tactic(auto, unfolding(crate::specs::Tables::table_text))]
pub fn add_table(text: &mut Vec<u8>, alloc: Global, rows: &[Row<'_>]) -> Result<(), NoMemory>
    ensures { OnOk result (text.new.items ≡ text.old.items ++ spec.table_text (spec.shown rows.now)) }
{
    if rows.len() <= 1 {
        return Ok(());
    }
    let widths = widths(alloc, &rows[0].cells, rows)?;
    add_rows(text, &widths, rows)
}

fn add_rows(text: &mut Vec<u8>, widths: &[usize], rows: &[Row<'_>]) -> Result<(), NoMemory>
    ensures { OnOk result (text.new.items ≡ text.old.items ++ flat_map (spec.row_text widths.now 0) (spec.shown rows.now)) }
{
    for row in rows {
        add_row(text, widths, &row.cells)?;
    }
    Ok(())
}

fn add_row(text: &mut Vec<u8>, widths: &[usize], cells: &[Cell<'_>]) -> Result<(), NoMemory>
    ensures { OnOk result (text.new.items ≡ text.old.items ++ spec.row_text widths.now 0 (map cell_text cells.now)) }
{
    let mut column = 0;
    'cells: while column < cells.len() {
        let width = width_at(widths, column);
        add_filled(text, width, column + 1 == cells.len(), cells[column])?;
        column += 1;
    }
    add(text, b"\n")
}

/// How wide a column is.
fn width_at(widths: &[usize], column: usize) -> usize
    ensures { result ≡ get_or widths.now column 0 }
{
    if column < widths.len() {
        widths[column]
    } else {
        0
    }
}

/// Adds a cell, and if it isn't the last of its row what fills it up.
fn add_filled(
    text: &mut Vec<u8>,
    width: usize,
    is_last: bool,
    cell: Cell<'_>,
) -> Result<(), NoMemory>
    ensures { OnOk result (text.new.items ≡ text.old.items ++ spec.filled width is_last (cell_text cell.entry)) }
{
    let before = text.len();
    add_cell(text, cell)?;
    if is_last {
        return Ok(());
    }
    add_spaces(text, width.saturating_sub(text.len() - before))?;
    add(text, b"   ")
}

fn add_spaces(text: &mut Vec<u8>, count: usize) -> Result<(), NoMemory>
    ensures { OnOk result (text.new.items ≡ text.old.items ++ replicate count 32) }
{
    for _ in 0..count {
        text.push(b' ')?;
    }
    Ok(())
}

/// How wide each column of a heading is.
fn widths(alloc: Global, heading: &[Cell<'_>], rows: &[Row<'_>]) -> Result<Vec<usize>, NoMemory>
    ensures { IfOk result (λ widths. widths.items
        ≡ spec.widths_from 0 (map cell_text heading.now) (spec.shown rows.now)) }
{
    let mut widths = Vec::new(alloc);
    let mut scratch = Vec::new(alloc);
    let mut column = 0;
    'columns: while column < heading.len() {
        widths.push(width(&mut scratch, column, rows)?)?;
        column += 1;
    }
    Ok(widths)
}

/// How wide a column is.
fn width(scratch: &mut Vec<u8>, column: usize, rows: &[Row<'_>]) -> Result<usize, NoMemory>
    ensures { IfOk result (λ wide. wide ≡ spec.width column (spec.shown rows.now)) }
{
    let mut widest = 0;
    for row in rows {
        widest = widest.max(cell_width(scratch, column, &row.cells)?);
    }
    Ok(widest)
}

/// How long the cell of a row in a column is, 0 if there is none.
fn cell_width(scratch: &mut Vec<u8>, column: usize, row: &[Cell<'_>]) -> Result<usize, NoMemory>
    ensures { IfOk result (λ wide. wide ≡ length (get_or (map cell_text row.now) column [])) }
{
    scratch.clear();
    if column < row.len() {
        add_cell(scratch, row[column])?;
    }
    Ok(scratch.len())
}
