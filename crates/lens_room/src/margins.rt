// The margins of a document.
ghost use Rattle.std.specs.Prelude.{◌≡◌, ℕ, List, Ok, IfOk};
ghost use Rattle.run_edge.specs.Outcome.{reply_of};
ghost use Rattle.script_reader.specs.declared.document.Document.{Document};
ghost use Rattle.script_reader.specs.Documents.{doc_of};
ghost use Rattle.script_reader.specs.Lawful.{IsLawfulDoc, IsWellNamed};
ghost use Rattle.script_reader.specs.Walk.{document_walk};
ghost use Rattle.lens_margin.specs.Laws.{AreMargins};
ghost use Rattle.lens_room.specs.Replies.{margins, found, verdict_of};

use crate::lines::add_lines;
use document_laws::documents_are_lawful;
use kube_base::NoMemory;
use manifest_json::ReadFault;
use run_edge::{Answer, Verdict, refuse_as};
use script_reader::{Document, lease_premise, read_document};
use std::alloc::Global;

/// The margin of each controller's lease in the document that these bytes are, and whether all are long enough; or its refusal.
pub fn margins_in(alloc: Global, input: &[u8]) -> Result<Answer, NoMemory>
    ensures reply { IfOk result (λ answer. reply_of answer ≡ found (document_walk input.now)) }

    // The numbers of each line are those of the lease premise: the least and the greatest that there are.
    ensures margins { (bytes : List ℕ) (d : Document) → document_walk bytes ≡ Ok d → AreMargins (doc_of d) }
{
    documents_are_lawful();
    match read_document(alloc, input) {
        Ok(document) => margins_of(alloc, &document),
        Err(ReadFault::Refused(refusal)) => refuse_as(alloc, &refusal),
        Err(ReadFault::NoMemory) => Err(NoMemory),
    }
}

/// The margins of a document.
fn margins_of(alloc: Global, document: &Document) -> Result<Answer, NoMemory>
    requires lawful { IsLawfulDoc (doc_of document.now) }
    requires named { IsWellNamed document.now.names (doc_of document.now) }
    ensures { IfOk result (λ answer. reply_of answer ≡ margins document.now) }
{
    let safe = lease_premise(document);
    let mut text = Vec::new(alloc);
    add_lines(&mut text, document, safe)?;
    Ok(Answer {
        verdict: verdict_by(safe),
        text,
    })
}

/// What a run comes to if all leases are long enough, or some aren't.
pub fn verdict_by(safe: bool) -> Verdict
    ensures { result ≡ verdict_of safe }
{
    if safe { Verdict::Safe } else { Verdict::Unsafe }
}
