// The states of zones.
ghost use Rattle.std.specs.Prelude.{◌≡◌, ◌++◌, OnOk, Some, None, MatchOption, option_to_list};
ghost use Rattle.lens_summary.specs.Tables.{shown};
ghost use Rattle.trace_lines.specs.Reads.{said, seen};
ghost use Rattle.lens_summary.specs.Zones as spec;

use crate::cell::Cell;
use crate::row::{Row, add_row};
use kube_base::NoMemory;
use std::alloc::Global;
use trace_lines::{Line, Says};

/// Adds the row of the zone that a line tells of, if it does.
pub(crate) fn add_zone<'a>(
    rows: &mut Vec<Row<'a>>,
    alloc: Global,
    millis: u32,
    line: &Line<&'a [u8]>,
) -> Result<(), NoMemory>
    ensures { OnOk result (shown rows.new.items ≡ shown rows.old.items ++ option_to_list (spec.found_by millis (seen line.now))) }
{
    match zone_in(&line.says) {
        Some((zone, state, rate)) => {
            let cells = vec![in alloc;
                Cell::Text(zone),
                Cell::Beat(line.beat, millis),
                Cell::Text(state),
                Cell::Count(u64::from(rate)),
                Cell::Text(line.actor),
            ]?;
            add_row(rows, cells)
        }
        None => Ok(()),
    }
}

/// The zone that a line tells of, its state and its rate.
pub(crate) fn zone_in<'a>(says: &Says<&'a [u8]>) -> Option<(&'a [u8], &'a [u8], u32)>
    ensures { MatchOption result (spec.zone_in (said says.now) ≡ None) (λ z. spec.zone_in (said says.now) ≡ Some (z.0.now, z.1.now, z.2)) }
{
    match says {
        Says::Zone(zone, state, rate) => Some((*zone, *state, *rate)),
        _ => None,
    }
}
