// What became of nodes.
ghost use Rattle.std.specs.Prelude.{◌≡◌, ◌++◌, OnOk, Some, None, MatchOption, option_to_list};
ghost use Rattle.lens_summary.specs.Tables.{shown};
ghost use Rattle.trace_lines.specs.Reads.{said, seen};
ghost use Rattle.lens_summary.specs.Nodes as spec;

use crate::cell::Cell;
use crate::row::{Row, add_row};
use kube_base::NoMemory;
use std::alloc::Global;
use trace_lines::{Answer, Line, Says};

/// Adds the row of the node that a line changes, if it does.
pub(crate) fn add_node<'a>(
    rows: &mut Vec<Row<'a>>,
    alloc: Global,
    millis: u32,
    line: &Line<&'a [u8]>,
) -> Result<(), NoMemory>
    ensures { OnOk result (shown rows.new.items ≡ shown rows.old.items ++ option_to_list (spec.changed_by millis (seen line.now))) }
{
    match change_in(&line.says) {
        Some((node, change, reason)) => {
            let cells = vec![in alloc;
                Cell::Text(node),
                Cell::Beat(line.beat, millis),
                Cell::Text(change),
                Cell::Text(reason),
                Cell::Text(line.actor),
            ]?;
            add_row(rows, cells)
        }
        None => Ok(()),
    }
}

/// The node that a line changes, how, and to which taint or for which reason.
pub(crate) fn change_in<'a>(says: &Says<&'a [u8]>) -> Option<(&'a [u8], &'static [u8], &'a [u8])>
    ensures { MatchOption result (spec.change_in (said says.now) ≡ None) (λ n. spec.change_in (said says.now) ≡ Some (n.0.now, n.1.now, n.2.now)) }
{
    match says {
        Says::Unknown(node, reason, Answer::Done(_)) => Some((*node, b"unknown", *reason)),
        Says::Taint(node, taint, Answer::Done(_)) => Some((*node, b"taint", *taint)),
        Says::Swap(node, taint, Answer::Done(_)) => Some((*node, b"swap", *taint)),
        Says::Untaint(node, Answer::Done(_)) => Some((*node, b"untaint", b"-")),
        _ => None,
    }
}
