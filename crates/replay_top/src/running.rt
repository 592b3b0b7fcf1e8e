// The commands.
ghost use Rattle.std.specs.Prelude.{◌≡◌, ◌≢◌, ◌⊎◌, ◌≤◌, ◌+◌, ℕ, List, [], Some, None, Ok, IfSome, map, string_bytes};
ghost use Rattle.agenda_laws.specs.Standing.{standing_beats};
ghost use Rattle.byte_edge.specs.Bytes.{Rose};
ghost use Rattle.kube_base.specs.declared.numbers.Beat.{Beat};
ghost use Rattle.script_reader.specs.declared.document.Document.{Document};
ghost use Rattle.script_reader.specs.Documents.{doc_of};
ghost use Rattle.script_reader.specs.Lawful.{IsLawfulDoc, IsWellNamed};
ghost use Rattle.script_reader.specs.Walk.{document_walk};
ghost use Rattle.run_edge.specs.Outcome.{read_by};
ghost use Rattle.replay_top.specs.Bounds.{IsIdle, most_for, most_steps};
ghost use Rattle.replay_top.specs.Claims.{AreSafe, Claims, IsWell};
ghost use Rattle.replay_top.specs.Commands.{command_of};
ghost use Rattle.replay_top.specs.Generated.{generated_line};
ghost use Rattle.replay_top.specs.Outcome.{Ends, EndsAs, IsComplete, IsRunEnd, IsUndone, outcome, unread, usage};
ghost use Rattle.replay_top.specs.Replies.{answer_to, done, run_reply};
ghost use Rattle.replay_top.specs.State.{ReadsBack};
ghost use Rattle.replay_top.specs.Traces.{trace};
ghost use Rattle.replay_top.specs.declared.sizes.Sizes.{Sizes};

use crate::command::{Command, Run, command_in};
use crate::generating::write_generated;
use crate::reading::document_in;
use crate::safe::lawful_documents_are_safe;
use crate::state::write_state;
use crate::trace::write_trace;
use byte_edge::{Sink, Source, TakeFault};
use document_laws::documents_are_lawful;
use kube_base::Steps;
use manifest_json::ReadFault;
use run_edge::{Status, Verdict, ask, take_input, tell_refusal, tell_too_large, tell_usage};
use script_reader::Document;
use std::alloc::Global;
use trace_writer::WriteFault;
use zone_state::Policies;

/// Does what the words after the program's name say: `replay` reads a document from the source and writes its trace to
/// the sink, `check` writes one line on it, and `state` with a beat writes what is stored after it. `audit` reads the text of a trace and writes one line on it, and `collect` and `place`
/// read Nodes and Pods and write lines on the pods. `generate` runs the document of a seed and writes one line, and the source isn't
/// read. A refused document, trace or input is answered by the line of its refusal, and words that are no command by a line on the
/// usage, for which the source isn't read and no memory is taken.
pub fn run<S: Source, K: Sink, L>(
    alloc: Global,
    words: &Vec<String>,
    source: &mut S,
    sink: &mut K,
    policies: &Policies,
    steps: &mut Steps<L>,
) -> Status
    ensures text { EndsAs (outcome (map string_bytes words.now.items)) (S.left source.old) (S.left source.new) (K.taken sink.old)
        (K.taken sink.new) result }

    // Words that are no command are answered whether or not the source tells its bytes, with no want of memory.
    ensures usage { command_of (map string_bytes words.now.items) ≡ None
        → (S.left source.new ≡ S.left source.old) × (S.faults source.new ≡ S.faults source.old)
        × ((result ≡ Status.Answered Verdict.Usage) ⊎ (result ≡ Status.SinkFault))
        × Ends (unread usage []) (Some []) (K.taken sink.old) (K.taken sink.new) result }

    // A generated document is run whether or not the source tells its bytes: it isn't read.
    ensures generated { (sizes : Sizes) → command_of (map string_bytes words.now.items) ≡ Some (Command.Generates sizes)
        → (S.left source.new ≡ S.left source.old) × (S.faults source.new ≡ S.faults source.old) × IsRunEnd result
        × Ends (unread (done (generated_line sizes)) []) (Some []) (K.taken sink.old) (K.taken sink.new) result }

    // Where neither count of faults rose, the run ends as it should with all its text, or memory ran out.
    ensures complete { (bytes : List ℕ) → S.left source.old ≡ Some bytes
        → ¬ Rose (S.faults source.old) (S.faults source.new) → ¬ Rose (K.faults sink.old) (K.faults sink.new)
        → IsComplete (outcome (map string_bytes words.now.items) bytes) (S.left source.new) (K.taken sink.old) (K.taken sink.new) result }
    ensures source_fault { result ≡ Status.SourceFault
        → Rose (S.faults source.old) (S.faults source.new) × (K.taken sink.new ≡ K.taken sink.old) }
    ensures sink_fault { result ≡ Status.SinkFault → Rose (K.faults sink.old) (K.faults sink.new) }
    ensures claims { Claims (map string_bytes words.now.items) (S.left source.old) }
    ensures well { result ≡ Status.Answered Verdict.Done → IsWell (map string_bytes words.now.items) (S.left source.old) }

    // No more beats are done than have entries, and none where there is no document to run.
    ensures counted { IfSome (most_steps (command_of (map string_bytes words.now.items)) (S.left source.old)) (λ n. steps.new ≤ steps.old + n) }
    ensures idle { IsUndone result ⊎ IsIdle (command_of (map string_bytes words.now.items)) (S.left source.old) → steps.new ≡ steps.old }
{
    documents_are_safe();
    match command_in(words) {
        Some(Command::Asks(asked)) => ask(alloc, &asked, source, sink),
        Some(Command::Runs(run)) => run_document(alloc, run, source, sink, policies, steps),
        Some(Command::Generates(sizes)) => write_generated(alloc, sizes, sink, policies, steps),
        None => tell_usage(sink, b"usage: kube_replay COMMAND\n"),
    }
}

/// What was proved of every document that can be read, for which nothing is done.
fn documents_are_safe()
    ensures { AreSafe }
{
    documents_are_lawful();
    lawful_documents_are_safe();
}

/// Reads the document that the source has and runs it.
fn run_document<S: Source, K: Sink, L>(
    alloc: Global,
    run: Run,
    source: &mut S,
    sink: &mut K,
    policies: &Policies,
    steps: &mut Steps<L>,
) -> Status
    ensures text { EndsAs (read_by (run_reply run)) (S.left source.old) (S.left source.new) (K.taken sink.old) (K.taken sink.new) result }
    ensures source_fault { result ≡ Status.SourceFault → Rose (S.faults source.old) (S.faults source.new) }
    ensures source_silent { result ≡ Status.SourceFault → K.taken sink.new ≡ K.taken sink.old }
    ensures sink_fault { result ≡ Status.SinkFault → Rose (K.faults sink.old) (K.faults sink.new) }
    ensures counted { IfSome (most_steps (Some (Command.Runs run)) (S.left source.old)) (λ n. steps.new ≤ steps.old + n) }
    ensures undone { IsUndone result → steps.new ≡ steps.old }
    ensures idle { IsIdle (Some (Command.Runs run)) (S.left source.old) → steps.new ≡ steps.old }
    ensures reads_back { (bytes : List ℕ) (d : Document) (beat : Beat) → S.left source.old ≡ Some bytes → document_walk bytes ≡ Ok d
        → run ≡ Run.State beat → result ≡ Status.Answered Verdict.Done → ReadsBack d beat.0 }
{
    let input = match take_input(alloc, source) {
        Ok(input) => input,
        Err(TakeFault::TooLarge) => return tell_too_large(alloc, sink),
        Err(TakeFault::Fault) => return Status::SourceFault,
        Err(TakeFault::NoMemory) => return Status::OutOfMemory,
    };
    match document_in(alloc, input) {
        Ok(document) => perform(alloc, run, sink, document, policies, steps),
        Err(ReadFault::Refused(refusal)) => tell_refusal(
            alloc,
            sink,
            refusal.code,
            refusal.path.as_slice(),
        ),
        Err(ReadFault::NoMemory) => Status::OutOfMemory,
    }
}

/// Runs a document.
fn perform<K: Sink, L>(
    alloc: Global,
    run: Run,
    sink: &mut K,
    document: Document,
    policies: &Policies,
    steps: &mut Steps<L>,
) -> Status
    requires lawful { IsLawfulDoc (doc_of document) }
    requires named { IsWellNamed document.names (doc_of document) }
    ensures text { Ends (unread (answer_to run document) []) (Some []) (K.taken sink.old) (K.taken sink.new) result }
    ensures silent { result ≢ Status.SourceFault }
    ensures undone { IsUndone result → steps.new ≡ steps.old }
    ensures sink_fault { result ≡ Status.SinkFault → Rose (K.faults sink.old) (K.faults sink.new) }
    ensures counted { steps.new ≤ steps.old + most_for run document }
    ensures reads_back { (beat : Beat) → run ≡ Run.State beat → result ≡ Status.Answered Verdict.Done → ReadsBack document beat.0 }
{
    match run {
        Run::Replay => replay(alloc, sink, document, policies, steps),
        Run::State(last) => write_state(alloc, sink, document, last, policies, steps),
    }
}

/// Writes the trace of a document.
fn replay<K: Sink, L>(
    alloc: Global,
    sink: &mut K,
    document: Document,
    policies: &Policies,
    steps: &mut Steps<L>,
) -> Status
    requires lawful { IsLawfulDoc (doc_of document) }
    requires named { IsWellNamed document.names (doc_of document) }
    ensures text { Ends (unread (done (trace document)) []) (Some []) (K.taken sink.old) (K.taken sink.new) result }
    ensures ended { IsRunEnd result }
    ensures sink_fault { result ≡ Status.SinkFault → Rose (K.faults sink.old) (K.faults sink.new) }
    ensures counted { steps.new ≤ steps.old + standing_beats (doc_of document) }
{
    match write_trace(alloc, sink, document, policies, steps) {
        Ok(()) => Status::Answered(Verdict::Done),
        Err(WriteFault::Sink) => Status::SinkFault,
        Err(WriteFault::NoMemory) => Status::OutOfMemory,
    }
}
