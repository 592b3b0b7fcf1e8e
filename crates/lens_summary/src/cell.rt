// A cell of a table.
ghost use Rattle.std.specs.Prelude.{◌≡◌, ◌++◌, ◌<◌, OnOk};
ghost use Rattle.lens_summary.specs.Cells as spec;

use kube_base::NoMemory;
use trace_writer::{add, add_number};

/// What stands in a cell.
#[derive(Clone, Copy)]
pub enum Cell<'a> {
    /// `-`: there is nothing.
    Missing,
    /// A text as it is.
    Text(&'a [u8]),
    /// How many.
    Count(u64),
    /// A beat, or how many beats, and the hours, minutes, seconds and tenths that they are, if a beat has so many milliseconds.
    Beat(u32, u32),
}

/// Adds what a cell shows.
pub(crate) fn add_cell(text: &mut Vec<u8>, cell: Cell<'_>) -> Result<(), NoMemory>
    ensures { OnOk result (text.new.items ≡ text.old.items ++ spec.cell_text cell.entry) }
{
    match cell {
        Cell::Missing => add(text, b"-"),
        Cell::Text(shown) => add(text, shown),
        Cell::Count(count) => add_number(text, count),
        Cell::Beat(beat, millis) => add_beat(text, beat, millis),
    }
}

#[tactic(auto, unfolding(crate::specs::Cells::beat_text))]
fn add_beat(text: &mut Vec<u8>, beat: u32, millis: u32) -> Result<(), NoMemory>
    ensures { OnOk result (text.new.items ≡ text.old.items ++ spec.beat_text beat millis) }
{
    add_number(text, u64::from(beat))?;
    add(text, b" (")?;
    add_time(text, u64::from(beat) * u64::from(millis) / 100)?;
    add(text, b")")
}

/// Adds a time of so many tenths of a second.
#[tactic(auto, unfolding(crate::specs::Cells::time_text))]
fn add_time(text: &mut Vec<u8>, tenths: u64) -> Result<(), NoMemory>
    ensures { OnOk result (text.new.items ≡ text.old.items ++ spec.time_text tenths) }
{
    add_number(text, tenths / 36_000)?;
    add(text, b":")?;
    add_two(text, tenths / 600 % 60)?;
    add(text, b":")?;
    add_two(text, tenths / 10 % 60)?;
    add(text, b".")?;
    add_number(text, tenths % 10)
}

/// Adds a number in two digits.
fn add_two(text: &mut Vec<u8>, number: u64) -> Result<(), NoMemory>
    requires { number < 60 }
    ensures { OnOk result (text.new.items ≡ text.old.items ++ spec.two_digits number) }
{
    add_number(text, number / 10)?;
    add_number(text, number % 10)
}
