// The pods that were evicted.
ghost use Rattle.std.specs.Prelude.{◌≡◌, ◌++◌, OnOk, Some, None, MatchOption, option_to_list};
ghost use Rattle.lens_summary.specs.Tables.{shown};
ghost use Rattle.trace_lines.specs.Reads.{said, seen};
ghost use Rattle.lens_summary.specs.Pods as spec;

use crate::cell::Cell;
use crate::row::{Row, add_row};
use kube_base::NoMemory;
use std::alloc::Global;
use trace_lines::{Answer, Line, Says};

/// Adds the row of the pod that a line evicts, if it does.
pub(crate) fn add_pod<'a>(
    rows: &mut Vec<Row<'a>>,
    alloc: Global,
    millis: u32,
    line: &Line<&'a [u8]>,
) -> Result<(), NoMemory>
    ensures { OnOk result (shown rows.new.items ≡ shown rows.old.items ++ option_to_list (spec.evicted_by millis (seen line.now))) }
{
    match eviction_in(&line.says) {
        Some((pod, due)) => {
            let cells = vec![in alloc;
                Cell::Text(pod),
                Cell::Text(due),
                Cell::Beat(line.beat, millis),
                Cell::Text(line.actor),
            ]?;
            add_row(rows, cells)
        }
        None => Ok(()),
    }
}

/// The pod that a line evicts, and when it was due.
pub fn eviction_in<'a>(says: &Says<&'a [u8]>) -> Option<(&'a [u8], &'a [u8])>
    ensures { MatchOption result (spec.eviction_in (said says.now) ≡ None) (λ e. spec.eviction_in (said says.now) ≡ Some (e.0.now, e.1.now)) }
{
    match says {
        Says::Evict(pod, due, Answer::Done(_)) => Some((*pod, *due)),
        _ => None,
    }
}
