// The answer to a document and its trace.
ghost use Rattle.std.specs.Prelude.{◌≡◌, IfOk};
ghost use Rattle.run_edge.specs.Outcome.{reply_of};
ghost use Rattle.script_reader.specs.Documents.{doc_of};
ghost use Rattle.script_reader.specs.Lawful.{IsLawfulDoc};
ghost use Rattle.lens_lateness.specs.Replies.{behind_if, lateness_reply, told};
ghost use Rattle.lens_lateness.specs.Traces.{trace_of};

use crate::input::document_end;
use crate::table::tell_late;
use crate::trace::trace_in;
use document_laws::documents_are_lawful;
use kube_base::NoMemory;
use lens_summary::summary_of;
use manifest_json::ReadFault;
use run_edge::{Answer, Verdict, refuse, refuse_as};
use script_reader::{Document, read_document};
use std::alloc::Global;

/// The code of a trace that isn't of the document beside it.
pub(crate) const OTHER_DOCUMENT: u32 = 44;

/// The tables of the document and, behind it, the trace in these bytes, and how late its evictions were; or the refusal of either.
#[tactic(auto, unfolding(crate::specs::Replies::lateness_reply))]
pub fn lateness_of(alloc: Global, input: &[u8]) -> Result<Answer, NoMemory>
    ensures { IfOk result (λ answer. reply_of answer ≡ lateness_reply input.now) }
{
    documents_are_lawful();
    let (document, trace) = input.split_at(document_end(input));
    match read_document(alloc, document) {
        Ok(document) => answer_on(alloc, &document, trace),
        Err(ReadFault::Refused(refusal)) => refuse_as(alloc, &refusal),
        Err(ReadFault::NoMemory) => Err(NoMemory),
    }
}

/// The answer to a trace beside its document.
fn answer_on(alloc: Global, document: &Document, trace: &[u8]) -> Result<Answer, NoMemory>
    requires { IsLawfulDoc (doc_of document.now) }
    ensures { IfOk result (λ answer. reply_of answer ≡ told document.now trace.now) }
{
    let answer = summary_of(alloc, trace)?;
    match answer.verdict {
        Verdict::Done => answer_behind(alloc, document, trace, answer),
        Verdict::Safe => Ok(answer),
        Verdict::Unsafe => Ok(answer),
        Verdict::Refused => Ok(answer),
        Verdict::Usage => Ok(answer),
    }
}

/// What is told of a trace, and behind it how late its evictions were.
fn answer_behind(
    alloc: Global,
    document: &Document,
    trace: &[u8],
    answer: Answer,
) -> Result<Answer, NoMemory>
    requires { IsLawfulDoc (doc_of document.now) }
    ensures { IfOk result (λ told. reply_of told ≡ behind_if document.now (reply_of answer) (trace_of trace.now)) }
{
    let Some(trace) = trace_in(alloc, trace)? else {
        return Ok(answer);
    };
    if trace.header.beat_millis != document.settings.beat_millis {
        return refuse(alloc, OTHER_DOCUMENT, b"/1");
    }
    let mut text = answer.text;
    tell_late(&mut text, alloc, document, &trace.lines)?;
    Ok(Answer {
        verdict: Verdict::Done,
        text,
    })
}
