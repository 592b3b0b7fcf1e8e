// What lines tell of: zones, nodes and pods.
ghost use Rattle.std.specs.Prelude.{◌≡◌, ◌++◌, IfOk, OnOk, map, option_to_list};
ghost use Rattle.lens_summary.specs.Cells.{cell_text};
ghost use Rattle.lens_summary.specs.Tables.{shown};
ghost use Rattle.trace_lines.specs.Reads.{seen};
ghost use Rattle.lens_summary.specs.Part.{part};
ghost use Rattle.lens_summary.specs.Subjects as spec;

use crate::cell::Cell;
use crate::nodes::add_node;
use crate::part::add_part;
use crate::pods::add_pod;
use crate::row::{Row, add_row};
use crate::zones::add_zone;
use kube_base::NoMemory;
use std::alloc::Global;
use trace_lines::Line;

/// What lines tell of, with a table of its own.
#[derive(Clone, Copy)]
pub(crate) enum Subject {
    /// The states that passes found zones in.
    Zones,
    /// The changes of nodes that the store took.
    Nodes,
    /// The evictions that the store took.
    Pods,
}

/// Adds the table of a subject.
pub(crate) fn tell_subject(
    text: &mut Vec<u8>,
    alloc: Global,
    millis: u32,
    subject: Subject,
    lines: &[Line<&[u8]>],
) -> Result<(), NoMemory>
    ensures { OnOk result (text.new.items ≡ text.old.items ++ part (spec.subject_rows subject millis (map seen lines.now))) }
{
    let rows = subject_rows(alloc, millis, subject, lines)?;
    add_part(text, alloc, &rows)
}

/// The table of a subject, in the order of the lines.
#[tactic(auto, unfolding(crate::specs::Subjects::subject_rows))]
fn subject_rows<'a>(
    alloc: Global,
    millis: u32,
    subject: Subject,
    lines: &[Line<&'a [u8]>],
) -> Result<Vec<Row<'a>>, NoMemory>
    ensures { IfOk result (λ rows. shown rows.items ≡ spec.subject_rows subject millis (map seen lines.now)) }
{
    let mut rows = Vec::new(alloc);
    let heading = heading(alloc, subject)?;
    add_row(&mut rows, heading)?;
    add_lines(&mut rows, alloc, millis, subject, lines)?;
    Ok(rows)
}

fn heading<'a>(alloc: Global, subject: Subject) -> Result<Vec<Cell<'a>>, NoMemory>
    ensures { IfOk result (λ cells. map cell_text cells.items ≡ spec.heading subject) }
{
    let cells = match subject {
        Subject::Zones => vec![in alloc;
            Cell::Text(b"ZONE"),
            Cell::Text(b"SINCE"),
            Cell::Text(b"STATE"),
            Cell::Text(b"RATE"),
            Cell::Text(b"BY"),
        ]?,
        Subject::Nodes => vec![in alloc;
            Cell::Text(b"NODE"),
            Cell::Text(b"SINCE"),
            Cell::Text(b"CHANGE"),
            Cell::Text(b"REASON"),
            Cell::Text(b"BY"),
        ]?,
        Subject::Pods => vec![in alloc;
            Cell::Text(b"POD"),
            Cell::Text(b"DUE"),
            Cell::Text(b"EVICTED"),
            Cell::Text(b"BY"),
        ]?,
    };
    Ok(cells)
}

fn add_lines<'a>(
    rows: &mut Vec<Row<'a>>,
    alloc: Global,
    millis: u32,
    subject: Subject,
    lines: &[Line<&'a [u8]>],
) -> Result<(), NoMemory>
    ensures { OnOk result (shown rows.new.items ≡ shown rows.old.items ++ spec.told subject millis (map seen lines.now)) }
{
    for line in lines {
        add_line(rows, alloc, millis, subject, line)?;
    }
    Ok(())
}

/// Adds the row of a line, if it tells of the subject.
fn add_line<'a>(
    rows: &mut Vec<Row<'a>>,
    alloc: Global,
    millis: u32,
    subject: Subject,
    line: &Line<&'a [u8]>,
) -> Result<(), NoMemory>
    ensures { OnOk result (shown rows.new.items
        ≡ shown rows.old.items ++ option_to_list (spec.told_by subject millis (seen line.now))) }
{
    match subject {
        Subject::Zones => add_zone(rows, alloc, millis, line),
        Subject::Nodes => add_node(rows, alloc, millis, line),
        Subject::Pods => add_pod(rows, alloc, millis, line),
    }
}
