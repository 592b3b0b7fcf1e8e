// A line is given to a sink.
ghost use Rattle.std.specs.Prelude.{◌≡◌, ◌≤◌, length, OnOk, OnErr, IfOk, IfErr};
ghost use Rattle.byte_edge.specs.Bytes.{Rose, Gives, Gave};
ghost use Rattle.kube_objects.specs.Writable.{IsWritable};
ghost use Rattle.trace_writer.specs.Lines.{first_line, line_of};

use crate::lines::{add_deed, add_first};
use byte_edge::{Failed, Sink, give_all};
use kube_base::{Beat, Name, Names, NoMemory};
use kube_objects::Deed;
use std::alloc::Global;
use thiserror::Error;

/// Why a line wasn't written whole.
#[derive(Clone, Copy, Debug, PartialEq, Eq, Error)]
pub enum WriteFault {
    #[error("the sink failed")]
    Sink,
    #[error("out of memory")]
    NoMemory,
}

/// What the first line tells of a document: a beat's length in milliseconds, and the last beat.
#[derive(Clone, Copy, Debug, PartialEq, Eq)]
pub struct FirstLine {
    pub beat_millis: u32,
    pub end: Beat,
}

/// The room that most lines fit into, in bytes.
const USUAL: usize = 128;

/// Writes the first line of a trace, with whether the lease premise holds. After a fault, or out of memory, a prefix of it was given.
pub fn write_first<K: Sink>(
    alloc: Global,
    sink: &mut K,
    settings: &FirstLine,
    premise: bool,
) -> Result<(), WriteFault>
    ensures all { OnOk result (Gives (K.taken sink.old) (K.taken sink.new) (first_line settings.now premise)) }
    ensures front { OnErr result (Gave (K.taken sink.old) (K.taken sink.new) (first_line settings.now premise)) }
    ensures counted { K.faults sink.old ≤ K.faults sink.new }
    ensures failed { IfErr result (λ e. e ≡ WriteFault.Sink → Rose (K.faults sink.old) (K.faults sink.new)) }
{
    match first(alloc, settings, premise) {
        Ok(first) => give(sink, &first),
        Err(NoMemory) => Err(WriteFault::NoMemory),
    }
}

/// Writes the line of a deed, with the names of its document and the names of the document's processes in order. After a fault or want of
/// memory a prefix of it was given.
pub fn write_deed<K: Sink>(
    alloc: Global,
    sink: &mut K,
    names: &Names,
    processes: &[Name],
    deed: &Deed,
) -> Result<(), WriteFault>
    requires { IsWritable names.now (length processes.now) deed.now }
    ensures all { OnOk result (Gives (K.taken sink.old) (K.taken sink.new) (line_of names.now processes.now deed.now)) }
    ensures front { OnErr result (Gave (K.taken sink.old) (K.taken sink.new) (line_of names.now processes.now deed.now)) }
    ensures counted { K.faults sink.old ≤ K.faults sink.new }
    ensures failed { IfErr result (λ e. e ≡ WriteFault.Sink → Rose (K.faults sink.old) (K.faults sink.new)) }
{
    match line(alloc, names, processes, deed) {
        Ok(line) => give(sink, &line),
        Err(NoMemory) => Err(WriteFault::NoMemory),
    }
}

fn give<K: Sink>(sink: &mut K, line: &[u8]) -> Result<(), WriteFault>
    ensures all { OnOk result (Gives (K.taken sink.old) (K.taken sink.new) line.now) }
    ensures front { OnErr result (Gave (K.taken sink.old) (K.taken sink.new) line.now) }
    ensures counted { K.faults sink.old ≤ K.faults sink.new }
    ensures failed { IfErr result (λ e. e ≡ WriteFault.Sink → Rose (K.faults sink.old) (K.faults sink.new)) }
{
    match give_all(sink, line) {
        Ok(()) => Ok(()),
        Err(Failed) => Err(WriteFault::Sink),
    }
}

fn first(alloc: Global, settings: &FirstLine, premise: bool) -> Result<Vec<u8>, NoMemory>
    ensures { IfOk result (λ line. line.items ≡ first_line settings.now premise) }
{
    let mut text = Vec::with_capacity(alloc, USUAL)?;
    add_first(&mut text, settings, premise)?;
    Ok(text)
}

fn line(alloc: Global, names: &Names, processes: &[Name], deed: &Deed) -> Result<Vec<u8>, NoMemory>
    requires { IsWritable names.now (length processes.now) deed.now }
    ensures { IfOk result (λ line. line.items ≡ line_of names.now processes.now deed.now) }
{
    let mut text = Vec::with_capacity(alloc, USUAL)?;
    add_deed(alloc, &mut text, names, processes, deed)?;
    Ok(text)
}
