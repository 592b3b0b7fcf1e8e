// Documents as they are read.
ghost use Rattle.script_reader.specs.Documents.{doc_of};
ghost use Rattle.script_reader.specs.Lawful.{IsLawfulDoc};

use document_laws::documents_are_lawful;
use kube_base::NoMemory;
use manifest_json::{ReadFault, Refusal};
use script_reader::{Document, lease_premise, read_document};
use std::alloc::Global;

/// What a document says, or its refusal.
pub(crate) fn read_text(alloc: Global, text: &str) -> Result<String, NoMemory> {
    documents_are_lawful();
    match read_document(alloc, text.as_bytes()) {
        Ok(document) => document_text(alloc, &document),
        Err(ReadFault::Refused(refusal)) => refusal_text(alloc, &refusal),
        Err(ReadFault::NoMemory) => Err(NoMemory),
    }
}

/// The end, how many members each list has, how many names there are, and whether the lease premise holds.
fn document_text(alloc: Global, document: &Document) -> Result<String, NoMemory>
    requires { IsLawfulDoc (doc_of document.now) }
{
    let end = document.settings.end_beat.0;
    let controllers = document.controllers.as_slice().len();
    let kubelets = document.kubelets.as_slice().len();
    let objects = document.objects.items.as_slice().len();
    let events = document.events.as_slice().len();
    let names = document.names.len();
    let premise = lease_premise(document);
    Ok(format!(in alloc;
        "end={end} controllers={controllers} kubelets={kubelets} objects={objects} events={events} names={names} premise={premise}"
    )?)
}

fn refusal_text(alloc: Global, refusal: &Refusal) -> Result<String, NoMemory> {
    let code = refusal.code;
    let path = str::from_utf8(refusal.path.as_slice()).unwrap_or("");
    Ok(format!(in alloc; "refused {code} {path}")?)
}
