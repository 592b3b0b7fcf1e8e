// Who leads, and when nobody does.
ghost use Rattle.std.specs.Prelude.{◌≡◌, ◌++◌, ◌≤◌, IfOk, OnOk, Some, map, decimal};
ghost use Rattle.std.specs.List.{flat_map};
ghost use Rattle.run_edge.specs.Outcome.{reply_of};
ghost use Rattle.lens_terms.specs.Acting.{shown as stretch_shown};
ghost use Rattle.lens_terms.specs.Terms.{shown};
ghost use Rattle.lens_terms.specs.Together.{overlap as overlap_in};
ghost use Rattle.trace_lines.specs.Reads.{seen};
ghost use Rattle.lens_trace.specs.Agree.{TermsAreAudited};
ghost use Rattle.lens_trace.specs.Beats.{SpansAreLeaderless, StretchesAreActs};
ghost use Rattle.lens_trace.specs.Leaders as spec;

use crate::answering::{Telling, answer_on};
use crate::trace::Trace;
use kube_base::NoMemory;
use lens_terms::{
    Span, Stretch, Term, crossing, ended, leaderless, overlap, stretches_of, terms_of,
};
use run_edge::{Answer, Verdict};
use std::alloc::Global;
use trace_writer::{add, add_number};

/// The terms of the trace that these bytes are, the spans in which nobody acts, and whether two ever act at once; or its refusal.
pub fn leaders_in(alloc: Global, input: &[u8]) -> Result<Answer, NoMemory>
    ensures reply { IfOk result (λ answer. reply_of answer ≡ spec.leaders_reply input.now) }

    // The terms told of a trace are those by which `audit` judges it, and a beat lies in one of the spans exactly where nobody acts.
    ensures terms { TermsAreAudited }
    ensures spans { SpansAreLeaderless }

    // A beat lies in a stretch of an identity exactly where it leads and no pause of it has it stand still.
    ensures acts { StretchesAreActs }
{
    answer_on(alloc, &Leaders, input)
}

/// Who leads in a trace, when nobody acts, and whether two ever do at once.
struct Leaders;

impl Telling for Leaders {
    ghost told = { λ leaders header ls. spec.leaders header ls };

    fn tell(&self, alloc: Global, trace: &Trace<'_>) -> Result<Answer, NoMemory> {
        let stop = trace.header.end + 1;
        let found = terms_of(alloc, trace.lines)?;
        let acting = stretches_of(alloc, stop, trace.lines)?;
        let mut text = Vec::new(alloc);
        add_terms(&mut text, alloc, stop, &found, &acting)?;
        judged(text, &acting)
    }
}

/// These lines and the last one behind them, which tells where two act at once.
fn judged(lines: Vec<u8>, acting: &[Stretch<&[u8]>]) -> Result<Answer, NoMemory>
    ensures { IfOk result (λ answer. reply_of answer ≡ spec.judged lines.items (map stretch_shown acting.now) (overlap_in (map stretch_shown acting.now))) }
{
    let mut text = lines;
    match overlap(acting) {
        Some(stretch) => {
            add_overlap(&mut text, acting, stretch)?;
            Ok(Answer {
                verdict: Verdict::Unsafe,
                text,
            })
        }
        None => {
            add(&mut text, b"one at a time\n")?;
            Ok(Answer {
                verdict: Verdict::Safe,
                text,
            })
        }
    }
}

/// Adds a line for each term, and for each span in which nobody acts.
fn add_terms(
    text: &mut Vec<u8>,
    alloc: Global,
    stop: u32,
    found: &[Term<&[u8]>],
    acting: &[Stretch<&[u8]>],
) -> Result<(), NoMemory>
    ensures { OnOk result (text.new.items ≡ text.old.items ++ spec.told_terms stop (map shown found.now) (map stretch_shown acting.now)) }
{
    let spans = leaderless(alloc, stop, acting)?;
    add_each(text, stop, found)?;
    add_spans(text, &spans)
}

fn add_each(text: &mut Vec<u8>, stop: u32, found: &[Term<&[u8]>]) -> Result<(), NoMemory>
    ensures { OnOk result (text.new.items ≡ text.old.items ++ flat_map (λ term. spec.term_line stop (shown term)) found.now) }
{
    for term in found {
        add_term(text, stop, term)?;
    }
    Ok(())
}

#[tactic(auto, unfolding(crate::specs::Leaders::term_line))]
fn add_term(text: &mut Vec<u8>, stop: u32, term: &Term<&[u8]>) -> Result<(), NoMemory>
    ensures { OnOk result (text.new.items ≡ text.old.items ++ spec.term_line stop (shown term.now)) }
{
    add(text, term.actor)?;
    add(text, b" from=")?;
    add_number(text, u64::from(term.from))?;
    add(text, b" until=")?;
    add_number(text, u64::from(term.until(stop)))?;
    add(text, b" ended=")?;
    add(text, ended(term.closing))?;
    add(text, b"\n")
}

fn add_spans(text: &mut Vec<u8>, spans: &[Span]) -> Result<(), NoMemory>
    ensures { OnOk result (text.new.items ≡ text.old.items ++ flat_map spec.span_line spans.now) }
{
    for span in spans {
        add_span(text, *span)?;
    }
    Ok(())
}

#[tactic(auto, unfolding(crate::specs::Leaders::span_line))]
fn add_span(text: &mut Vec<u8>, span: Span) -> Result<(), NoMemory>
    ensures { OnOk result (text.new.items ≡ text.old.items ++ spec.span_line span) }
{
    add(text, b"nobody from=")?;
    add_number(text, u64::from(span.from))?;
    add(text, b" until=")?;
    add_number(text, u64::from(span.until))?;
    add(text, b"\n")
}

/// Adds the line on the first stretch that begins while another identity acts.
fn add_overlap(
    text: &mut Vec<u8>,
    acting: &[Stretch<&[u8]>],
    stretch: &Stretch<&[u8]>,
) -> Result<(), NoMemory>
    ensures { OnOk result (text.new.items ≡ text.old.items ++ spec.overlap_line (map stretch_shown acting.now) (stretch_shown stretch.now)) }
{
    add_count(text, b"overlap line=", stretch.line)?;
    add_count(text, b" from=", u64::from(stretch.from))?;
    add(text, b" who=")?;
    add(text, stretch.actor)?;
    match crossing(acting, stretch) {
        Some(other) => add_beside(text, other),
        None => add(text, b"\n"),
    }
}

fn add_beside(text: &mut Vec<u8>, other: &Stretch<&[u8]>) -> Result<(), NoMemory>
    ensures { OnOk result (text.new.items ≡ text.old.items ++ spec.beside_text (Some (stretch_shown other.now))) }
{
    add(text, b" beside=")?;
    add(text, other.actor)?;
    add(text, b"\n")
}

/// Adds a label and a number in decimal.
fn add_count(text: &mut Vec<u8>, label: &[u8], count: u64) -> Result<(), NoMemory>
    ensures { OnOk result (text.new.items ≡ text.old.items ++ (label.now ++ decimal count)) }
{
    add(text, label)?;
    add_number(text, count)
}
