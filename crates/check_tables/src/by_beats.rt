// The trace of a document by all its beats, one after the other.
ghost use Rattle.std.specs.Prelude.{◌≡◌, length, All, Ok, IfOk, IfSome};
ghost use Rattle.kube_objects.specs.Document.{processes};
ghost use Rattle.kube_objects.specs.Writable.{IsWritable};
ghost use Rattle.script_reader.specs.Documents.{doc_of};
ghost use Rattle.script_reader.specs.Lawful.{IsLawfulDoc, IsWellNamed};
ghost use Rattle.script_reader.specs.Walk.{document_walk};

use byte_edge::MemSink;
use document_laws::documents_are_lawful;
use kube_base::{Name, Names, NoMemory};
use kube_objects::{Deed, Deeds};
use manifest_json::ReadFault;
use naming_laws::deeds_are_writable;
use replay_top::process_names;
use script_reader::{Document, lease_premise, read_document};
use std::alloc::Global;
use trace_writer::{FirstLine, WriteFault, write_deed, write_first};
use world_core::deeds_of;
use zone_state::{Policies, full, partial};

/// Whether this is the trace of a document if each beat is done, whether or not it has an entry.
pub(crate) fn is_trace(alloc: Global, document: &str, trace: &str) -> Result<bool, NoMemory> {
    documents_are_lawful();
    let bytes = document.as_bytes();
    let Some(played) = document_in(alloc, bytes)? else {
        return Ok(false);
    };
    let Some(named) = document_in(alloc, bytes)? else {
        return Ok(false);
    };
    let deeds = all_deeds(alloc, played)?;
    let room = trace.len().saturating_add(1);
    let mut sink = MemSink::new(alloc, room, 4096, Vec::new(alloc))?;
    let written = write_lines(alloc, &mut sink, &named, deeds.as_slice())?;
    Ok(written && sink.held() == trace.as_bytes())
}

/// The document in these bytes, if they have one.
fn document_in(alloc: Global, bytes: &[u8]) -> Result<Option<Document>, NoMemory>
    ensures { IfOk result (λ found. IfSome found (λ d. document_walk bytes.now ≡ Ok d)) }
{
    match read_document(alloc, bytes) {
        Ok(document) => Ok(Some(document)),
        Err(ReadFault::Refused(_)) => Ok(None),
        Err(ReadFault::NoMemory) => Err(NoMemory),
    }
}

/// The deeds of all beats of a document, each of which has a line.
fn all_deeds(alloc: Global, document: Document) -> Result<Deeds, NoMemory>
    requires lawful { IsLawfulDoc (doc_of document) }
    requires named { IsWellNamed document.names (doc_of document) }
    ensures { IfOk result (All (IsWritable document.names (processes (doc_of document)))) }
{
    deeds_are_writable();
    // It is looked at, so that its names are known to be names.
    let _ = document.names.len();
    let deeds = deeds_of(alloc, document, &Policies::new(partial, full))?;
    Ok(deeds)
}

/// Writes the first line of a trace and those of the deeds. False if the sink has no room for them.
fn write_lines(
    alloc: Global,
    sink: &mut MemSink,
    document: &Document,
    deeds: &[Deed],
) -> Result<bool, NoMemory>
    requires lawful { IsLawfulDoc (doc_of document.now) }
    requires named { IsWellNamed document.now.names (doc_of document.now) }
    requires writable { All (IsWritable document.now.names (processes (doc_of document.now))) deeds.now }
{
    let settings = FirstLine {
        beat_millis: document.settings.beat_millis,
        end: document.settings.end_beat,
    };
    if !is_written(write_first(alloc, sink, &settings, lease_premise(document)))? {
        return Ok(false);
    }
    let processes = process_names(alloc, document)?;
    write_deeds(alloc, sink, &document.names, processes.as_slice(), deeds)
}

/// Writes the lines of deeds. False if the sink has no room for them.
fn write_deeds(
    alloc: Global,
    sink: &mut MemSink,
    names: &Names,
    processes: &[Name],
    deeds: &[Deed],
) -> Result<bool, NoMemory>
    requires { All (IsWritable names.now (length processes.now)) deeds.now }
{
    for deed in deeds {
        if !is_written(write_deed(alloc, sink, names, processes, deed))? {
            return Ok(false);
        }
    }
    Ok(true)
}

fn is_written(written: Result<(), WriteFault>) -> Result<bool, NoMemory> {
    match written {
        Ok(()) => Ok(true),
        Err(WriteFault::Sink) => Ok(false),
        Err(WriteFault::NoMemory) => Err(NoMemory),
    }
}
