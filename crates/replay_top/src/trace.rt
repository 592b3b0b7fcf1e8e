// A document is run, and its trace is written as the beats are done.
ghost use Rattle.std.specs.Prelude.{◌≡◌, ◌≤◌, ◌+◌, ◌++◌, ℕ, List, length, All, OnOk, OnErr, IfOk, IfErr};
ghost use Rattle.agenda_laws.specs.Standing.{standing_beats, standing_below};
ghost use Rattle.byte_edge.specs.Bytes.{Rose, Gives, Gave, Taken};
ghost use Rattle.kube_objects.specs.Document.{Doc, end_beat, processes as process_count};
ghost use Rattle.kube_objects.specs.Writable.{IsWritable};
ghost use Rattle.script_reader.specs.Documents.{doc_of};
ghost use Rattle.script_reader.specs.Lawful.{IsLawfulDoc, IsWellNamed};
ghost use Rattle.trace_writer.specs.Lines.{lines_of};
ghost use Rattle.world_core.specs.Worlds.{at_of, names_of};
ghost use Rattle.world_runs.specs.Runs.{IsGoing, Runs};
ghost use Rattle.replay_top.specs.Traces.{trace, trace_of, trace_before, first_of};
ghost use Rattle.replay_top.specs.Names.{process_names as names_in_order};
ghost use Rattle.replay_top.specs.Spoken.{Spoken, Written};

use crate::buffer::Buffer;
use crate::processes::process_names;
use byte_edge::{Failed, Sink, give_all};
use kube_base::{Beat, ListOf, Name, Names, NoMemory, Steps};
use kube_objects::Deed;
use script_reader::{Document, lease_premise};
use std::alloc::Global;
use trace_writer::{FirstLine, WriteFault, write_deed, write_first};
use world_core::World;
use world_runs::next_deeds;
use zone_state::Policies;

/// The text that is held before it is given to the sink, in bytes.
const PIECE: usize = 16_384;

/// Runs the document and writes its trace. After a fault or out of memory a prefix of it was written.
pub(crate) fn write_trace<K: Sink, L>(
    alloc: Global,
    sink: &mut K,
    document: Document,
    policies: &Policies,
    steps: &mut Steps<L>,
) -> Result<(), WriteFault>
    requires lawful { IsLawfulDoc (doc_of document) }
    requires named { IsWellNamed document.names (doc_of document) }
    ensures all { OnOk result (Gives (K.taken sink.old) (K.taken sink.new) (trace document)) }
    ensures front { OnErr result (Gave (K.taken sink.old) (K.taken sink.new) (trace document)) }
    ensures failed { IfErr result (λ e. e ≡ WriteFault.Sink → Rose (K.faults sink.old) (K.faults sink.new)) }
    ensures counted { steps.new ≤ steps.old + standing_beats (doc_of document) }
{
    let last = document.settings.end_beat;
    let mut buffer = Buffer::new(alloc);
    match start(alloc, &mut buffer, document) {
        Ok((mut world, processes)) => {
            write_beats(
                alloc,
                sink,
                &mut world,
                last,
                processes.as_slice(),
                &mut buffer,
                policies,
                steps,
            )
        }
        Err(NoMemory) => Err(WriteFault::NoMemory),
    }
}

/// The world before its first beat and the processes' names, with the first line at the end of the text.
fn start(
    alloc: Global,
    buffer: &mut Buffer,
    document: Document,
) -> Result<(World, ListOf<Name>), NoMemory>
    requires lawful { IsLawfulDoc (doc_of document) }
    requires named { IsWellNamed document.names (doc_of document) }
    ensures text { OnOk result (buffer.new.text.items ≡ buffer.old.text.items ++ first_of (doc_of document)) }
    ensures processes { IfOk result (λ r. r.1 ≡ names_in_order document.names (doc_of document)) }
    ensures names { IfOk result (λ r. names_of r.0 ≡ document.names) }
    ensures first { IfOk result (λ r. IsGoing document.settings.end_beat.0 r.0 × (at_of r.0 ≡ 0)) }
    ensures runs { (steps : ℕ) → IfOk result (λ r. Runs (doc_of document) steps steps r.0) }
{
    add_first(alloc, buffer, &document)?;
    let processes = process_names(alloc, &document)?;
    let world = World::new(alloc, document)?;
    Ok((world, processes))
}

/// Adds the first line.
#[tactic(auto, unfolding(crate::specs::Traces::first_of))]
fn add_first(alloc: Global, buffer: &mut Buffer, document: &Document) -> Result<(), NoMemory>
    requires { IsLawfulDoc (doc_of document.now) }
    ensures { OnOk result (buffer.new.text.items ≡ buffer.old.text.items ++ first_of (doc_of document.now)) }
{
    let settings = FirstLine {
        beat_millis: document.settings.beat_millis,
        end: document.settings.end_beat,
    };
    match write_first(alloc, buffer, &settings, lease_premise(document)) {
        Ok(()) => Ok(()),
        Err(_) => Err(NoMemory),
    }
}

/// Does all beats with entries up to the last one and writes their lines, after the text so far.
fn write_beats<K: Sink, L>(
    alloc: Global,
    sink: &mut K,
    world: &mut World,
    last: Beat,
    processes: &[Name],
    buffer: &mut Buffer,
    policies: &Policies,
    steps: &mut Steps<L>,
) -> Result<(), WriteFault>
    requires going { IsGoing last.0 world.old }
    requires first { at_of world.old ≡ 0 }
    requires runs { (doc : Doc) × (first : ℕ) × Runs doc first steps.old world.old × (length processes.now ≡ process_count doc) }
    ensures written { (doc : Doc) (first : ℕ) (before : Taken) → Runs doc first steps.old world.old → last.0 ≡ end_beat doc
        → Spoken before (K.taken sink.old) buffer.old.text.items (trace_before doc (names_of world.old) processes.now 0)
        → Written before (K.taken sink.new) (trace_of doc (names_of world.old) processes.now) result }
    ensures failed { IfErr result (λ e. e ≡ WriteFault.Sink → Rose (K.faults sink.old) (K.faults sink.new)) }
    ensures counted { (doc : Doc) (first : ℕ) → Runs doc first steps.old world.old → steps.new ≤ first + standing_below doc (last.0 + 1) }
{
    'beats: loop {
        match next_deeds(world, last, policies, steps) {
            Ok(Some(deeds)) => match write_lines(
                alloc,
                sink,
                buffer,
                world.names(),
                processes,
                deeds.as_slice(),
            ) {
                Ok(()) => {}
                Err(fault) => return Err(fault),
            },
            Ok(None) => break,
            Err(NoMemory) => return Err(WriteFault::NoMemory),
        }
    }
    match give_all(sink, &buffer.text) {
        Ok(()) => Ok(()),
        Err(Failed) => Err(WriteFault::Sink),
    }
}

/// Adds the lines of deeds to the text so far, and gives it if it is long.
fn write_lines<K: Sink>(
    alloc: Global,
    sink: &mut K,
    buffer: &mut Buffer,
    names: &Names,
    processes: &[Name],
    deeds: &[Deed],
) -> Result<(), WriteFault>
    requires { All (IsWritable names.now (length processes.now)) deeds.now }
    ensures spoken { (before : Taken) (said : List ℕ) → Spoken before (K.taken sink.old) buffer.old.text.items said
        → OnOk result (Spoken before (K.taken sink.new) buffer.new.text.items (said ++ lines_of names.now processes.now deeds.now)) }
    ensures front { (before : Taken) (said : List ℕ) → Spoken before (K.taken sink.old) buffer.old.text.items said
        → OnErr result (Gave before (K.taken sink.new) (said ++ lines_of names.now processes.now deeds.now)) }
    ensures counted { K.faults sink.old ≤ K.faults sink.new }
    ensures failed { IfErr result (λ e. e ≡ WriteFault.Sink → Rose (K.faults sink.old) (K.faults sink.new)) }
{
    match add_lines(alloc, buffer, names, processes, deeds) {
        Ok(()) => give_long(sink, &mut buffer.text),
        Err(NoMemory) => Err(WriteFault::NoMemory),
    }
}

/// Adds the lines of deeds.
fn add_lines(
    alloc: Global,
    buffer: &mut Buffer,
    names: &Names,
    processes: &[Name],
    deeds: &[Deed],
) -> Result<(), NoMemory>
    requires { All (IsWritable names.now (length processes.now)) deeds.now }
    ensures { OnOk result (buffer.new.text.items ≡ buffer.old.text.items ++ lines_of names.now processes.now deeds.now) }
{
    for deed in deeds {
        match write_deed(alloc, buffer, names, processes, deed) {
            Ok(()) => {}
            Err(_) => return Err(NoMemory),
        }
    }
    Ok(())
}

/// Gives the text so far, if it is long.
fn give_long<K: Sink>(sink: &mut K, text: &mut Vec<u8>) -> Result<(), WriteFault>
    ensures spoken { (before : Taken) (said : List ℕ) → Spoken before (K.taken sink.old) text.old.items said
        → OnOk result (Spoken before (K.taken sink.new) text.new.items said) }
    ensures front { (before : Taken) (said : List ℕ) → Spoken before (K.taken sink.old) text.old.items said
        → OnErr result (Gave before (K.taken sink.new) said) }
    ensures counted { K.faults sink.old ≤ K.faults sink.new }
    ensures failed { IfErr result (λ e. e ≡ WriteFault.Sink → Rose (K.faults sink.old) (K.faults sink.new)) }
{
    if text.len() < PIECE {
        return Ok(());
    }
    match give_all(sink, text) {
        Ok(()) => {
            text.clear();
            Ok(())
        }
        Err(Failed) => Err(WriteFault::Sink),
    }
}
