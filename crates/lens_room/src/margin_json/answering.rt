// The answer to a document.
ghost use Rattle.std.specs.Prelude.{◌≡◌, IfOk, map};
ghost use Rattle.run_edge.specs.Outcome.{reply_of};
ghost use Rattle.lens_json.specs.Parts.{part_of};
ghost use Rattle.script_reader.specs.Documents.{doc_of};
ghost use Rattle.script_reader.specs.Lawful.{IsLawfulDoc, IsWellNamed};
ghost use Rattle.script_reader.specs.Walk.{document_walk};
ghost use Rattle.lens_room.specs.MarginJson.{found, room, room_members};

use crate::margin_json::parts::{controllers_in, late_in};
use crate::margins::verdict_by;
use document_laws::documents_are_lawful;
use kube_base::NoMemory;
use lens_json::{Part, Value, What, add_parts};
use manifest_json::ReadFault;
use run_edge::{Answer, refuse_as};
use script_reader::{Document, lease_premise, read_document};
use std::alloc::Global;
use trace_writer::add;

/// The margin of each controller's lease in the document that these bytes are, and whether all are long enough, as one JSON object; or its
/// refusal.
pub fn room_in(alloc: Global, input: &[u8]) -> Result<Answer, NoMemory>
    ensures { IfOk result (λ answer. reply_of answer ≡ found (document_walk input.now)) }
{
    documents_are_lawful();
    match read_document(alloc, input) {
        Ok(document) => tell(alloc, &document),
        Err(ReadFault::Refused(refusal)) => refuse_as(alloc, &refusal),
        Err(ReadFault::NoMemory) => Err(NoMemory),
    }
}

/// The object on a document.
#[tactic(auto, unfolding(crate::specs::MarginJson::room_json))]
fn tell(alloc: Global, document: &Document) -> Result<Answer, NoMemory>
    requires lawful { IsLawfulDoc (doc_of document.now) }
    requires named { IsWellNamed document.now.names (doc_of document.now) }
    ensures { IfOk result (λ answer. reply_of answer ≡ room document.now) }
{
    let safe = lease_premise(document);
    let parts = parts(alloc, document, safe)?;
    let mut text = Vec::new(alloc);
    add_parts(&mut text, &parts)?;
    add(&mut text, b"\n")?;
    Ok(Answer {
        verdict: verdict_by(safe),
        text,
    })
}

/// The members of that object.
fn parts<'a>(alloc: Global, document: &'a Document, safe: bool) -> Result<Vec<Part<'a>>, NoMemory>
    requires lawful { IsLawfulDoc (doc_of document.now) }
    requires named { IsWellNamed document.now.names (doc_of document.now) }
    ensures { IfOk result (λ parts. map part_of parts.items ≡ room_members document.now safe) }
{
    let controllers = controllers_in(alloc, document)?;
    let late = late_in(alloc, document)?;
    let mut parts = Vec::new(alloc);
    parts.push(Part {
        name: b"controllers",
        what: What::List(controllers),
    })?;
    parts.push(Part {
        name: b"lateReply",
        what: late,
    })?;
    parts.push(Part {
        name: b"safe",
        what: What::Value(Value::Truth(safe)),
    })?;
    Ok(parts)
}
