// The table of how late evictions were.
ghost use Rattle.std.specs.Prelude.{◌≡◌, ◌++◌, ◌∷◌, [], IfOk, OnOk, map};
ghost use Rattle.script_reader.specs.Documents.{doc_of};
ghost use Rattle.script_reader.specs.Lawful.{IsLawfulDoc};
ghost use Rattle.lens_summary.specs.Tables.{shown};
ghost use Rattle.trace_lines.specs.Reads.{seen};
ghost use Rattle.lens_lateness.specs.Late as spec;
ghost use Rattle.lens_lateness.specs.Replies.{table_behind};
ghost use Rattle.lens_lateness.specs.Told.{texts_of};

use crate::clocks::clocks_of;
use crate::late::{Late, late_evictions};
use crate::timing::Timing;
use kube_base::NoMemory;
use lens_summary::{Cell, Row, add_row, add_table};
use script_reader::Document;
use std::alloc::Global;
use trace_lines::Line;
use trace_writer::add;

/// Adds the table of how late the evictions of some lines were, behind an empty line.
pub(crate) fn tell_late(
    text: &mut Vec<u8>,
    alloc: Global,
    document: &Document,
    lines: &[Line<&[u8]>],
) -> Result<(), NoMemory>
    requires { IsLawfulDoc (doc_of document.now) }
    ensures { OnOk result (text.new.items ≡ text.old.items ++ table_behind (spec.late_rows document.now (map seen lines.now))) }
{
    let clocks = clocks_of(alloc, document)?;
    let timing = Timing {
        document,
        clocks: &clocks,
    };
    let found = late_evictions(alloc, &timing, lines)?;
    let rows = late_rows(alloc, document.settings.beat_millis, &found)?;
    add_behind(text, alloc, &rows)
}

/// Adds an empty line and a table that has a row beside its heading.
fn add_behind(text: &mut Vec<u8>, alloc: Global, rows: &[Row<'_>]) -> Result<(), NoMemory>
    ensures { OnOk result (text.new.items ≡ text.old.items ++ table_behind (shown rows.now)) }
{
    if rows.len() <= 1 {
        return Ok(());
    }
    add(text, b"\n")?;
    add_table(text, alloc, rows)
}

/// The table of some evictions, in their order.
fn late_rows<'a>(
    alloc: Global,
    millis: u32,
    found: &'a [Late<'_>],
) -> Result<Vec<Row<'a>>, NoMemory>
    ensures { IfOk result (λ rows. shown rows.items ≡ spec.heading ∷ map (texts_of millis) found.now) }
{
    let mut rows = Vec::new(alloc);
    let heading = vec![in alloc;
        Cell::Text(b"POD"),
        Cell::Text(b"DUE"),
        Cell::Text(b"EVICTED"),
        Cell::Text(b"BY"),
        Cell::Text(b"LATE-BY-ITS-CLOCK"),
        Cell::Text(b"LATE-IN-TRUE-TIME"),
    ]?;
    add_row(&mut rows, heading)?;
    add_found(&mut rows, alloc, millis, found)?;
    Ok(rows)
}

fn add_found<'a>(
    rows: &mut Vec<Row<'a>>,
    alloc: Global,
    millis: u32,
    found: &'a [Late<'_>],
) -> Result<(), NoMemory>
    ensures { OnOk result (shown rows.new.items ≡ shown rows.old.items ++ map (texts_of millis) found.now) }
{
    for eviction in found {
        add_eviction(rows, alloc, millis, eviction)?;
    }
    Ok(())
}

fn add_eviction<'a>(
    rows: &mut Vec<Row<'a>>,
    alloc: Global,
    millis: u32,
    eviction: &'a Late<'_>,
) -> Result<(), NoMemory>
    ensures { OnOk result (shown rows.new.items ≡ shown rows.old.items ++ texts_of millis eviction.now ∷ []) }
{
    let cells = vec![in alloc;
        Cell::Text(eviction.pod),
        Cell::Text(eviction.due),
        Cell::Beat(eviction.beat, millis),
        Cell::Text(eviction.actor),
        Cell::Text(&eviction.by_clock),
        Cell::Text(&eviction.in_true_time),
    ]?;
    add_row(rows, cells)
}
