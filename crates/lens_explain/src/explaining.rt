// What is said of a document.
ghost use Rattle.std.specs.Prelude.{◌≡◌, ◌++◌, true, false, IfOk, OnOk, map};
ghost use Rattle.run_edge.specs.Outcome.{reply_of};
ghost use Rattle.lens_explain.specs.Replies as spec;
ghost use Rattle.lens_explain.specs.Slips as slip_spec;
ghost use Rattle.lens_explain.specs.Slips.{slip_of};
ghost use Rattle.lens_explain.specs.Replies.{IsExplained, IsFormed, IsRefused, said_text};

use crate::lines::{add_lines, add_why};
use crate::object::{add_formed, add_refused};
use crate::place::Shown;
use crate::saying::why;
use crate::slips::{Slip, slips};
use crate::twice::{Warning, warnings};
use kube_base::NoMemory;
use manifest_json::{ReadFault, Refusal};
use run_edge::{Answer, Verdict, refuse_as};
use script_reader::{Document, read_document};
use std::alloc::Global;

/// That the document in these bytes is well formed, with its counts, or its refusal and why: in lines, or as one JSON object.
pub fn explained(alloc: Global, input: &[u8], as_json: bool) -> Result<Answer, NoMemory>
    ensures { IfOk result (λ answer. IsExplained as_json input.now (reply_of answer)) }
{
    match read_document(alloc, input) {
        Ok(document) => formed(alloc, input, as_json, &document),
        Err(ReadFault::Refused(refusal)) => refused(alloc, input, as_json, &refusal),
        Err(ReadFault::NoMemory) => Err(NoMemory),
    }
}

/// The refusal, and what is said about it.
fn refused(
    alloc: Global,
    input: &[u8],
    as_json: bool,
    refusal: &Refusal,
) -> Result<Answer, NoMemory>
    ensures { IfOk result (λ answer. IsRefused as_json input.now refusal.now (reply_of answer)) }
{
    let why = why(alloc, input, refusal.code, refusal.path.as_slice())?;
    if as_json {
        refused_object(alloc, refusal, why.shown.in_utf8(), &why.more)
    } else {
        refused_lines(alloc, refusal, why.shown, &why.more)
    }
}

/// The lines on a refusal.
#[tactic(auto, unfolding(crate::specs::Replies::refused_text))]
fn refused_lines(
    alloc: Global,
    refusal: &Refusal,
    shown: Shown<'_>,
    more: &[u8],
) -> Result<Answer, NoMemory>
    ensures { IfOk result (λ answer. reply_of answer ≡ spec.refused false refusal.now shown.entry more.now) }
{
    let head = refuse_as(alloc, refusal)?;
    let Answer { verdict, mut text } = head;
    add_why(&mut text, shown, more)?;
    Ok(Answer { verdict, text })
}

/// The object on a refusal.
fn refused_object(
    alloc: Global,
    refusal: &Refusal,
    shown: Shown<'_>,
    more: &[u8],
) -> Result<Answer, NoMemory>
    ensures { IfOk result (λ answer. reply_of answer ≡ spec.refused true refusal.now shown.entry more.now) }
{
    let mut text = Vec::new(alloc);
    add_refused(&mut text, alloc, refusal, shown, more)?;
    Ok(Answer {
        verdict: Verdict::Refused,
        text,
    })
}

/// That a document is well formed, with its counts, and warnings.
fn formed(
    alloc: Global,
    input: &[u8],
    as_json: bool,
    document: &Document,
) -> Result<Answer, NoMemory>
    ensures { IfOk result (λ answer. IsFormed as_json input.now document.now (reply_of answer)) }
{
    let found = warnings(alloc, input)?;
    let slips = slips(alloc, document)?;
    let mut text = Vec::new(alloc);
    add_said(&mut text, alloc, as_json, document, &found, &slips)?;
    Ok(Answer {
        verdict: Verdict::Done,
        text,
    })
}

/// Adds what is said of a document that is well formed, in the form that is wanted.
fn add_said(
    text: &mut Vec<u8>,
    alloc: Global,
    as_json: bool,
    document: &Document,
    found: &[Warning<'_>],
    slips: &[Slip],
) -> Result<(), NoMemory>
    requires { map slip_of slips.now ≡ slip_spec.slips document.now }
    ensures { OnOk result (text.new.items ≡ text.old.items ++ said_text as_json document.now found.now) }
{
    if as_json {
        add_formed(text, alloc, document, found, slips)
    } else {
        add_lines(text, document, found, slips)
    }
}
