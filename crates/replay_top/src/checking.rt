// The line on a document.
ghost use Rattle.std.specs.Prelude.{◌≡◌, IfOk};
ghost use Rattle.run_edge.specs.Outcome.{reply_of};
ghost use Rattle.script_reader.specs.Documents.{doc_of};
ghost use Rattle.script_reader.specs.Lawful.{IsLawfulDoc};
ghost use Rattle.script_reader.specs.Walk.{document_walk};
ghost use Rattle.replay_top.specs.Replies.{done, on_document};
ghost use Rattle.replay_top.specs.Summary.{summary};

use crate::asked::done;
use crate::reading::read_bytes;
use crate::summary::add_summary;
use kube_base::NoMemory;
use manifest_json::ReadFault;
use run_edge::{Answer, refuse_as};
use script_reader::Document;
use std::alloc::Global;

/// The line on the document in an input.
pub(crate) fn checked(alloc: Global, input: &[u8]) -> Result<Answer, NoMemory>
    ensures { IfOk result (λ answer. reply_of answer ≡ on_document (document_walk input.now)) }
{
    match read_bytes(alloc, input) {
        Ok((document, value)) => {
            // The value is freed after the document: its many small pieces are gone through once more where large ones are freed after them.
            let _last = value;
            summarized(alloc, document)
        }
        Err(ReadFault::Refused(refusal)) => refuse_as(alloc, &refusal),
        Err(ReadFault::NoMemory) => Err(NoMemory),
    }
}

/// The line on a document, which is dropped.
fn summarized(alloc: Global, document: Document) -> Result<Answer, NoMemory>
    requires { IsLawfulDoc (doc_of document) }
    ensures { IfOk result (λ answer. reply_of answer ≡ done (summary document)) }
{
    let mut text = Vec::new(alloc);
    add_summary(&mut text, &document)?;
    Ok(done(text))
}
