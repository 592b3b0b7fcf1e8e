// How many lines of each kind there are, and how what they write was answered.
ghost use Rattle.std.specs.Prelude.{◌≡◌, ◌++◌, IfOk, OnOk, count_by, map, option_to_list};
ghost use Rattle.std.specs.List.{flat_map};
ghost use Rattle.std.specs.Option.{option_map};
ghost use Rattle.lens_summary.specs.Tables.{shown, table_text};
ghost use Rattle.trace_lines.specs.Reads.{seen};
ghost use Rattle.lens_summary.specs.Totals as spec;

use crate::cell::Cell;
use crate::outcome::{Outcome, is_same, outcome_of, word_of};
use crate::row::{Row, add_row};
use crate::table::add_table;
use kube_base::NoMemory;
use std::alloc::Global;
use trace_lines::Line;

/// Adds the table of totals.
pub(crate) fn tell_totals(
    text: &mut Vec<u8>,
    alloc: Global,
    lines: &[Line<&[u8]>],
) -> Result<(), NoMemory>
    ensures { OnOk result (text.new.items ≡ text.old.items ++ table_text (spec.total_rows (map seen lines.now))) }
{
    let rows = total_rows(alloc, lines)?;
    add_table(text, alloc, &rows)
}

/// The table of totals: a row for each kind of which there are lines, and one for all lines.
fn total_rows<'a>(alloc: Global, lines: &[Line<&[u8]>]) -> Result<Vec<Row<'a>>, NoMemory>
    ensures { IfOk result (λ rows. shown rows.items ≡ spec.total_rows (map seen lines.now)) }
{
    let mut rows = Vec::new(alloc);
    let heading = vec![in alloc;
        Cell::Text(b"KIND"),
        Cell::Text(b"LINES"),
        Cell::Text(b"WRITTEN"),
        Cell::Text(b"CONFLICT"),
        Cell::Text(b"ABSENT"),
        Cell::Text(b"EXISTS"),
    ]?;
    add_row(&mut rows, heading)?;
    add_kinds(&mut rows, alloc, lines)?;
    add_total(&mut rows, alloc, lines)?;
    Ok(rows)
}

fn add_kinds<'a>(
    rows: &mut Vec<Row<'a>>,
    alloc: Global,
    lines: &[Line<&[u8]>],
) -> Result<(), NoMemory>
    ensures { OnOk result (shown rows.new.items
        ≡ shown rows.old.items ++ flat_map (spec.kind_rows (map seen lines.now)) spec.kinds) }
{
    let kinds = kinds();
    for word in &kinds {
        add_kind(rows, alloc, *word, lines)?;
    }
    Ok(())
}

/// The kinds, in the order in which they are told.
#[tactic(auto, unfolding(crate::specs::Totals::kinds))]
pub(crate) fn kinds() -> [&'static [u8]; 20]
    ensures { map (λ word. word.now) result ≡ spec.kinds }
{
    [
        b"start",
        b"crash",
        b"stop",
        b"end",
        b"pause",
        b"stall",
        b"lead",
        b"create-election",
        b"update-election",
        b"nodelease",
        b"status",
        b"put",
        b"remove",
        b"unknown",
        b"mode",
        b"zone",
        b"taint",
        b"swap",
        b"untaint",
        b"evict",
    ]
}

/// Adds the row of a kind, if there are lines of it.
#[tactic(auto, unfolding(crate::specs::Totals::kind_rows))]
fn add_kind<'a>(
    rows: &mut Vec<Row<'a>>,
    alloc: Global,
    word: &'a [u8],
    lines: &[Line<&[u8]>],
) -> Result<(), NoMemory>
    ensures { OnOk result (shown rows.new.items ≡ shown rows.old.items ++ spec.kind_rows (map seen lines.now) word.now) }
{
    let outcomes = outcomes(alloc, Some(word), lines)?;
    if outcomes.is_empty() {
        Ok(())
    } else {
        add_counts(rows, alloc, word, &outcomes)
    }
}

/// Adds the row of all lines.
#[tactic(auto, unfolding(crate::specs::Totals::all_rows))]
fn add_total<'a>(
    rows: &mut Vec<Row<'a>>,
    alloc: Global,
    lines: &[Line<&[u8]>],
) -> Result<(), NoMemory>
    ensures { OnOk result (shown rows.new.items ≡ shown rows.old.items ++ spec.all_rows (map seen lines.now)) }
{
    let outcomes = outcomes(alloc, None, lines)?;
    add_counts(rows, alloc, b"all", &outcomes)
}

#[tactic(auto, unfolding(crate::specs::Totals::count_rows))]
fn add_counts<'a>(
    rows: &mut Vec<Row<'a>>,
    alloc: Global,
    word: &'a [u8],
    outcomes: &[Outcome],
) -> Result<(), NoMemory>
    ensures { OnOk result (shown rows.new.items ≡ shown rows.old.items ++ spec.count_rows word.now outcomes.now) }
{
    let cells = vec![in alloc;
        Cell::Text(word),
        Cell::Count(outcomes.len() as u64),
        Cell::Count(count(outcomes, Outcome::Written)),
        Cell::Count(count(outcomes, Outcome::Conflict)),
        Cell::Count(count(outcomes, Outcome::Absent)),
        Cell::Count(count(outcomes, Outcome::Exists)),
    ]?;
    add_row(rows, cells)
}

/// How many of some outcomes are this one.
pub(crate) fn count(outcomes: &[Outcome], wanted: Outcome) -> u64
    ensures { result ≡ count_by (spec.is wanted) outcomes.now }
{
    let mut number = 0;
    for outcome in outcomes {
        if is_same(*outcome, wanted) {
            number += 1;
        }
    }
    number
}

/// The outcomes of all lines of a kind, by its word, or of all lines.
#[tactic(auto, unfolding(crate::specs::Totals::outcomes))]
pub(crate) fn outcomes(
    alloc: Global,
    kind: Option<&[u8]>,
    lines: &[Line<&[u8]>],
) -> Result<Vec<Outcome>, NoMemory>
    ensures { IfOk result (λ outcomes. outcomes.items ≡ spec.outcomes (option_map (λ word. word.now) kind.entry) (map seen lines.now)) }
{
    let mut outcomes = Vec::new(alloc);
    for line in lines {
        add_outcome(&mut outcomes, kind, line)?;
    }
    Ok(outcomes)
}

/// Adds the outcome of a line, if it is of the kind.
fn add_outcome(
    outcomes: &mut Vec<Outcome>,
    kind: Option<&[u8]>,
    line: &Line<&[u8]>,
) -> Result<(), NoMemory>
    ensures { OnOk result (outcomes.new.items
        ≡ outcomes.old.items ++ option_to_list (spec.outcome_in (option_map (λ word. word.now) kind.entry) (seen line.now))) }
{
    if is_of(kind, line) {
        outcomes.push(outcome_of(&line.says))?;
    }
    Ok(())
}

fn is_of(kind: Option<&[u8]>, line: &Line<&[u8]>) -> bool
    ensures { result ≡ spec.is_of (option_map (λ word. word.now) kind.entry) (seen line.now) }
{
    match kind {
        Some(word) => word_of(&line.says) == word,
        None => true,
    }
}
