// What a trace comes to.
ghost use Rattle.std.specs.Prelude.{◌≡◌, ◌++◌, ◌≤◌, IfOk, OnOk, map};
ghost use Rattle.run_edge.specs.Outcome.{reply_of};
ghost use Rattle.lens_summary.specs.Cells.{cell_text};
ghost use Rattle.lens_summary.specs.Tables.{shown};
ghost use Rattle.lens_terms.specs.Acting.{shown as stretch_shown};
ghost use Rattle.lens_terms.specs.Together.{overlap as overlap_of};
ghost use Rattle.trace_lines.specs.Reads.{seen};
ghost use Rattle.lens_summary.specs.Part.{part};
ghost use Rattle.lens_summary.specs.Summary as spec;
ghost use Rattle.lens_summary.specs.Together.{BeatsOfTwoAreCounted};

use crate::cell::Cell;
use crate::leaders::{tell_spans, tell_terms};
use crate::part::add_part;
use crate::row::{Row, add_row};
use crate::subject::{Subject, tell_subject};
use crate::totals::tell_totals;
use kube_base::NoMemory;
use lens_terms::{Stretch, beats_of_two, overlap, stretches_of, terms_of};
use lens_trace::lines::premise_word;
use lens_trace::{Telling, Trace, answer_on};
use run_edge::{Answer, Verdict};
use std::alloc::Global;
use trace_lines::Header;

/// The tables on the trace that these bytes are; or its refusal.
pub fn summary_of(alloc: Global, input: &[u8]) -> Result<Answer, NoMemory>
    ensures reply { IfOk result (λ answer. reply_of answer ≡ spec.summary_reply input.now) }

    // The number told of beats at which two lead is that of the beats at which two identities of the trace act.
    ensures together { BeatsOfTwoAreCounted }
{
    answer_on(alloc, &Summary, input)
}

/// What a trace comes to.
struct Summary;

impl Telling for Summary {
    ghost told = { λ asked header ls. spec.summary header ls };

    /// All tables.
    fn tell(&self, alloc: Global, trace: &Trace<'_>) -> Result<Answer, NoMemory> {
        let Trace { header, lines } = *trace;
        let millis = header.beat_millis;
        let stop = header.end + 1;
        let found = terms_of(alloc, lines)?;
        let acting = stretches_of(alloc, stop, lines)?;
        let mut text = Vec::new(alloc);
        let crossing = overlap_line(&acting);
        let beats = beats_of_two(stop, &acting);
        tell_trace(&mut text, alloc, header, crossing, beats)?;
        tell_terms(&mut text, alloc, millis, stop, &found)?;
        tell_spans(&mut text, alloc, millis, stop, &acting)?;
        tell_subject(&mut text, alloc, millis, Subject::Zones, lines)?;
        tell_subject(&mut text, alloc, millis, Subject::Nodes, lines)?;
        tell_subject(&mut text, alloc, millis, Subject::Pods, lines)?;
        tell_totals(&mut text, alloc, lines)?;
        Ok(Answer {
            verdict: Verdict::Done,
            text,
        })
    }
}

/// The line that begins the first stretch in which a leader acts while another one does.
pub(crate) fn overlap_line(acting: &[Stretch<&[u8]>]) -> Option<u64>
    ensures { result ≡ spec.line_in (overlap_of (map stretch_shown acting.now)) }
{
    match overlap(acting) {
        Some(stretch) => Some(stretch.line),
        None => None,
    }
}

/// Adds the table of the trace itself.
fn tell_trace(
    text: &mut Vec<u8>,
    alloc: Global,
    header: Header,
    overlap: Option<u64>,
    beats: u32,
) -> Result<(), NoMemory>
    ensures { OnOk result (text.new.items ≡ text.old.items ++ part (spec.trace_rows header overlap beats)) }
{
    let rows = trace_rows(alloc, header, overlap, beats)?;
    add_part(text, alloc, &rows)
}

/// The table of the trace itself.
#[tactic(auto, unfolding(crate::specs::Summary::trace_rows))]
fn trace_rows(
    alloc: Global,
    header: Header,
    overlap: Option<u64>,
    beats: u32,
) -> Result<Vec<Row<'static>>, NoMemory>
    ensures { IfOk result (λ rows. shown rows.items ≡ spec.trace_rows header overlap beats) }
{
    let mut rows = Vec::new(alloc);
    let heading = vec![in alloc;
        Cell::Text(b"BEAT-MILLIS"),
        Cell::Text(b"LAST-BEAT"),
        Cell::Text(b"PREMISE"),
        Cell::Text(b"TWO-LEAD-FROM-LINE"),
        Cell::Text(b"TWO-LEAD-BEATS"),
    ]?;
    add_row(&mut rows, heading)?;
    let cells = vec![in alloc;
        Cell::Count(u64::from(header.beat_millis)),
        Cell::Beat(header.end, header.beat_millis),
        Cell::Text(premise_word(header.premise)),
        line_cell(overlap),
        Cell::Beat(beats, header.beat_millis),
    ]?;
    add_row(&mut rows, cells)?;
    Ok(rows)
}

fn line_cell(line: Option<u64>) -> Cell<'static>
    ensures { cell_text result ≡ spec.line_text line }
{
    match line {
        Some(line) => Cell::Count(line),
        None => Cell::Missing,
    }
}
