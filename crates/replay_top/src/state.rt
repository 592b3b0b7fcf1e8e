// What is stored after a beat, as a manifest.
ghost use Rattle.std.specs.Prelude.{◌≡◌, ◌≢◌, ◌≤◌, ◌+◌, [], Some, true, IfOk};
ghost use Rattle.std.specs.List.{list_all};
ghost use Rattle.agenda_laws.specs.Standing.{standing_below};
ghost use Rattle.byte_edge.specs.Bytes.{Rose};
ghost use Rattle.manifest_json.specs.Written.{is_writable_item, list_of};
ghost use Rattle.script_reader.specs.Documents.{doc_of};
ghost use Rattle.script_reader.specs.Lawful.{IsLawfulDoc, IsWellNamed};
ghost use Rattle.script_reader.specs.Walk.{numbers_of as numbers_in_order};
ghost use Rattle.replay_top.specs.Outcome.{Ends, IsUndone, unread};
ghost use Rattle.replay_top.specs.Replies.{state_answer};
ghost use Rattle.replay_top.specs.State.{IsReadAgain, ReadsBack, line_of, state_text};

use byte_edge::Sink;
use kube_base::{Beat, ListOf, Names, NoMemory, Steps};
use kube_objects::{Items, Proc};
use manifest_json::write_list;
use run_edge::{Status, Verdict, tell, tell_refusal};
use script_reader::Document;
use std::alloc::Global;
use trace_writer::add;
use world_core::World;
use world_runs::run_up_to;
use zone_state::Policies;

/// The code of a beat after the end of the document.
const PAST_END: u32 = 34;

/// Runs the document up to the end of this beat and writes what is stored then. A beat after the end is refused.
pub(crate) fn write_state<K: Sink, L>(
    alloc: Global,
    sink: &mut K,
    document: Document,
    last: Beat,
    policies: &Policies,
    steps: &mut Steps<L>,
) -> Status
    requires lawful { IsLawfulDoc (doc_of document) }
    requires named { IsWellNamed document.names (doc_of document) }
    ensures text { Ends (unread (state_answer document last.0) []) (Some []) (K.taken sink.old) (K.taken sink.new) result }
    ensures reads_back { result ≡ Status.Answered Verdict.Done → ReadsBack document last.0 }
    ensures silent { result ≢ Status.SourceFault }
    ensures sink_fault { result ≡ Status.SinkFault → Rose (K.faults sink.old) (K.faults sink.new) }
    ensures undone { IsUndone result → steps.new ≡ steps.old }
    ensures counted { steps.new ≤ steps.old + standing_below (doc_of document) (last.0 + 1) }
{
    if document.settings.end_beat.0 < last.0 {
        return tell_refusal(alloc, sink, PAST_END, b"/");
    }
    match text_after(alloc, document, last, policies, steps) {
        Ok(text) => tell(sink, Verdict::Done, &text),
        Err(NoMemory) => Status::OutOfMemory,
    }
}

/// The line of what is stored after a beat.
fn text_after<L>(
    alloc: Global,
    document: Document,
    last: Beat,
    policies: &Policies,
    steps: &mut Steps<L>,
) -> Result<Vec<u8>, NoMemory>
    requires lawful { IsLawfulDoc (doc_of document) }
    requires named { IsWellNamed document.names (doc_of document) }
    requires within { last.0 ≤ document.settings.end_beat.0 }
    ensures text { IfOk result (λ text. (text.items ≡ state_text document last.0) × ReadsBack document last.0) }
    ensures counted { steps.new ≤ steps.old + standing_below (doc_of document) (last.0 + 1) }
{
    let known = numbers_of(alloc, document.controllers.as_slice())?;
    let mut world = World::new(alloc, document)?;
    run_up_to(&mut world, last, policies, steps)?;
    let items = world.objects()?;
    let names = world.names();
    // Reading the length lets the checker use what every list of names keeps.
    let _held = names.len();
    list_line(alloc, names, known.as_slice(), &items)
}

/// The numbers of the names of processes.
fn numbers_of(alloc: Global, procs: &[Proc]) -> Result<ListOf<u32>, NoMemory>
    ensures { IfOk result (λ numbers. numbers ≡ numbers_in_order procs.now) }
{
    let mut numbers = ListOf::new(alloc);
    for proc in procs {
        numbers.push(proc.name)?;
    }
    Ok(numbers)
}

/// The objects as a `v1` List in one line.
fn list_line(
    alloc: Global,
    names: &Names,
    known: &[u32],
    items: &Items,
) -> Result<Vec<u8>, NoMemory>
    requires { list_all is_writable_item items.now ≡ true }
    ensures text { IfOk result (λ text. text.items ≡ line_of (list_of names.now known.now items.now)) }
    ensures reads_back { IfOk result (λ text. IsReadAgain names.now known.now items.now) }
{
    let list = write_list(alloc, names, known, items)?;
    let mut text = list.to_string(alloc)?.into_bytes();
    add(&mut text, b"\n")?;
    Ok(text)
}
