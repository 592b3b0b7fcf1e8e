// The document in an input.
ghost use Rattle.std.specs.Prelude.{IfOk};
ghost use Rattle.manifest_json.specs.Faults.{Gives};
ghost use Rattle.script_reader.specs.Documents.{doc_of};
ghost use Rattle.script_reader.specs.Lawful.{IsLawfulDoc, IsWellNamed};
ghost use Rattle.script_reader.specs.Walk.{document_walk};

use document_laws::documents_are_lawful;
use kube_base::NameHash;
use manifest_json::ReadFault;
use script_reader::{Document, document_of, read_value};
use serde_json::Value;
use std::alloc::Global;

/// The document in an input, which is lawful and well named. The input is dropped, and the value that was read from it.
pub(crate) fn document_in(alloc: Global, input: Vec<u8>) -> Result<Document, ReadFault>
    ensures exact { Gives (λ document. document) result (document_walk input.items) }
    ensures lawful { IfOk result (λ document. IsLawfulDoc (doc_of document)) }
    ensures named { IfOk result (λ document. IsWellNamed document.names (doc_of document)) }
{
    let (document, _value) = read_bytes(alloc, &input)?;
    Ok(document)
}

/// The document in these bytes, which is lawful and well named, and their JSON value.
#[tactic(auto, unfolding(script_reader::specs::Walk::document_walk))]
pub(crate) fn read_bytes(alloc: Global, bytes: &[u8]) -> Result<(Document, Value), ReadFault>
    ensures exact { Gives (λ read. read.0) result (document_walk bytes.now) }
    ensures lawful { IfOk result (λ read. IsLawfulDoc (doc_of read.0)) }
    ensures named { IfOk result (λ read. IsWellNamed read.0.names (doc_of read.0)) }
{
    documents_are_lawful();
    let value = read_value(alloc, bytes)?;
    let document = document_of(alloc, NameHash::of(bytes), &value)?;
    Ok((document, value))
}
