// The answer to a trace beside its document.
ghost use Rattle.std.specs.Prelude.{◌≡◌, ◌≤◌, IfOk, map};
ghost use Rattle.run_edge.specs.Outcome.{reply_of};
ghost use Rattle.lens_json.specs.Parts.{part_of};
ghost use Rattle.lens_trace.specs.Traces.{trace_reply};
ghost use Rattle.script_reader.specs.Documents.{doc_of};
ghost use Rattle.script_reader.specs.Lawful.{IsLawfulDoc};
ghost use Rattle.trace_lines.specs.Reads.{seen};
ghost use Rattle.lens_lateness.specs.FigureReplies.{figures_reply};
ghost use Rattle.lens_lateness.specs.Figures as spec;
ghost use Rattle.lens_lateness.specs.Refusals.{RefusalsAreTheSame};

use crate::answering::OTHER_DOCUMENT;
use crate::clocks::clocks_of;
use crate::figures::objects::late_objects;
use crate::input::document_end;
use crate::timing::Timing;
use document_laws::documents_are_lawful;
use kube_base::NoMemory;
use lens_json::{Part, What};
use lens_summary::figures::parts;
use lens_trace::{Telling, Trace, answer_on, object_answer};
use manifest_json::ReadFault;
use run_edge::{Answer, Verdict, refuse, refuse_as};
use script_reader::{Document, read_document};
use std::alloc::Global;

/// The place of the evictions among the members of `summary --json`.
const EVICTIONS: usize = 5;

/// What stands in the tables of `summary --document` on these bytes, as one JSON object; or the refusal of the document or the trace.
#[tactic(auto, unfolding(crate::specs::FigureReplies::figures_reply))]
pub fn figures_of(alloc: Global, input: &[u8]) -> Result<Answer, NoMemory>
    ensures reply { IfOk result (λ answer. reply_of answer ≡ figures_reply input.now) }

    // The verdict on every input is that of `summary --document`, and so is the line of each refusal.
    ensures refusals { RefusalsAreTheSame }
{
    documents_are_lawful();
    let (document, trace) = input.split_at(document_end(input));
    match read_document(alloc, document) {
        Ok(document) => answer_beside(alloc, &document, trace),
        Err(ReadFault::Refused(refusal)) => refuse_as(alloc, &refusal),
        Err(ReadFault::NoMemory) => Err(NoMemory),
    }
}

/// The answer to a trace beside its document.
fn answer_beside(alloc: Global, document: &Document, trace: &[u8]) -> Result<Answer, NoMemory>
    requires { IsLawfulDoc (doc_of document.now) }
    ensures { IfOk result (λ answer. reply_of answer ≡ trace_reply (spec.figures document.now) trace.now) }
{
    let clocks = clocks_of(alloc, document)?;
    let timing = Timing {
        document,
        clocks: &clocks,
    };
    answer_on(alloc, &timing, trace)
}

impl Telling for Timing<'_> {
    ghost told = { λ timing header ls. spec.figures timing.document.now header ls };

    /// The object on a trace of the document.
    fn tell(&self, alloc: Global, trace: &Trace<'_>) -> Result<Answer, NoMemory> {
        if trace.header.beat_millis != self.document.settings.beat_millis {
            return refuse(alloc, OTHER_DOCUMENT, b"/1");
        }
        let parts = late_parts(alloc, self, trace)?;
        object_answer(alloc, Verdict::Done, &parts)
    }
}

/// The members of that object: those of `summary --json`, with how late they were in the evictions.
fn late_parts<'a>(
    alloc: Global,
    timing: &Timing<'_>,
    trace: &Trace<'a>,
) -> Result<[Part<'a>; 7], NoMemory>
    requires { trace.now.header.end ≤ 604800000 }
    ensures { IfOk result (λ parts. map part_of parts
        ≡ spec.late_figures timing.now.document.now trace.now.header (map seen trace.now.lines.now)) }
{
    let evictions = late_objects(alloc, timing, trace.lines)?;
    let mut members = parts(alloc, trace)?;
    members[EVICTIONS] = Part {
        name: b"evictions",
        what: What::List(evictions),
    };
    Ok(members)
}
