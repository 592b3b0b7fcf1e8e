// Who leads, and when nobody acts.
ghost use Rattle.std.specs.Prelude.{◌≡◌, ◌++◌, ◌∷◌, [], IfOk, OnOk, map};
ghost use Rattle.lens_summary.specs.Tables.{shown};
ghost use Rattle.lens_terms.specs.Acting.{shown as stretch_shown};
ghost use Rattle.lens_terms.specs.Terms as terms;
ghost use Rattle.lens_summary.specs.Leaders as spec;
ghost use Rattle.lens_summary.specs.Part.{part};

use crate::cell::Cell;
use crate::part::add_part;
use crate::row::{Row, add_row};
use crate::spread::{longest, total};
use kube_base::NoMemory;
use lens_terms::{Stretch, Term, ended, leaderless};
use std::alloc::Global;

/// Adds the table of terms.
pub(crate) fn tell_terms(
    text: &mut Vec<u8>,
    alloc: Global,
    millis: u32,
    stop: u32,
    found: &[Term<&[u8]>],
) -> Result<(), NoMemory>
    ensures { OnOk result (text.new.items ≡ text.old.items ++ part (spec.term_rows millis stop (map terms.shown found.now))) }
{
    let rows = term_rows(alloc, millis, stop, found)?;
    add_part(text, alloc, &rows)
}

/// Adds the table of the spans in which nobody acts.
pub(crate) fn tell_spans(
    text: &mut Vec<u8>,
    alloc: Global,
    millis: u32,
    stop: u32,
    acting: &[Stretch<&[u8]>],
) -> Result<(), NoMemory>
    ensures { OnOk result (text.new.items ≡ text.old.items ++ part (spec.span_rows millis stop (map stretch_shown acting.now))) }
{
    let rows = span_rows(alloc, millis, stop, acting)?;
    add_part(text, alloc, &rows)
}

/// The table of terms, in the order in which they begin.
#[tactic(auto, unfolding(crate::specs::Leaders::term_rows))]
fn term_rows<'a>(
    alloc: Global,
    millis: u32,
    stop: u32,
    found: &[Term<&'a [u8]>],
) -> Result<Vec<Row<'a>>, NoMemory>
    ensures { IfOk result (λ rows. shown rows.items ≡ spec.term_rows millis stop (map terms.shown found.now)) }
{
    let mut rows = Vec::new(alloc);
    let heading = vec![in alloc;
        Cell::Text(b"LEADER"),
        Cell::Text(b"FROM"),
        Cell::Text(b"UNTIL"),
        Cell::Text(b"LASTED"),
        Cell::Text(b"ENDED"),
    ]?;
    add_row(&mut rows, heading)?;
    add_terms(&mut rows, alloc, millis, stop, found)?;
    Ok(rows)
}

fn add_terms<'a>(
    rows: &mut Vec<Row<'a>>,
    alloc: Global,
    millis: u32,
    stop: u32,
    found: &[Term<&'a [u8]>],
) -> Result<(), NoMemory>
    ensures { OnOk result (shown rows.new.items ≡ shown rows.old.items ++ map (spec.term_row millis stop) (map terms.shown found.now)) }
{
    for term in found {
        add_term(rows, alloc, millis, stop, term)?;
    }
    Ok(())
}

fn add_term<'a>(
    rows: &mut Vec<Row<'a>>,
    alloc: Global,
    millis: u32,
    stop: u32,
    term: &Term<&'a [u8]>,
) -> Result<(), NoMemory>
    ensures { OnOk result (shown rows.new.items ≡ shown rows.old.items ++ spec.term_row millis stop (terms.shown term.now) ∷ []) }
{
    let until = term.until(stop);
    let lasted = until.saturating_sub(term.from);
    let cells = vec![in alloc;
        Cell::Text(term.actor),
        Cell::Beat(term.from, millis),
        Cell::Beat(until, millis),
        Cell::Beat(lasted, millis),
        Cell::Text(ended(term.closing)),
    ]?;
    add_row(rows, cells)
}

/// The table of the spans in which nobody acts: how many, the longest, and all together.
#[tactic(auto, using(crate::proofs::StepLaws::leaderless_shown), unfolding(crate::specs::Leaders::span_rows))]
fn span_rows<'a>(
    alloc: Global,
    millis: u32,
    stop: u32,
    acting: &[Stretch<&'a [u8]>],
) -> Result<Vec<Row<'a>>, NoMemory>
    ensures { IfOk result (λ rows. shown rows.items ≡ spec.span_rows millis stop (map stretch_shown acting.now)) }
{
    let spans = leaderless(alloc, stop, acting)?;
    let mut rows = Vec::new(alloc);
    let heading = vec![in alloc;
        Cell::Text(b"SPANS-WITHOUT-LEADER"),
        Cell::Text(b"LONGEST"),
        Cell::Text(b"SUM"),
    ]?;
    add_row(&mut rows, heading)?;
    let cells = vec![in alloc;
        Cell::Count(spans.len() as u64),
        Cell::Beat(longest(&spans), millis),
        Cell::Beat(total(&spans), millis),
    ]?;
    add_row(&mut rows, cells)?;
    Ok(rows)
}
