// The program, from words and bytes to text and status.
ghost use Rattle.std.specs.Prelude.{◌≡◌, ◌≢◌, ◌⊎◌, ℕ, true, false, List, [], Some, None, Ok, map, string_bytes};
ghost use Rattle.byte_edge.specs.Bytes.{Rose};
ghost use Rattle.history.specs.Premise.{lease_premise};
ghost use Rattle.run_edge.specs.Outcome.{Ends, EndsAs, IsDone, Reply, Unread};
ghost use Rattle.script_reader.specs.declared.document.Document.{Document};
ghost use Rattle.script_reader.specs.Documents.{doc_of};
ghost use Rattle.script_reader.specs.Walk.{document_walk};
ghost use Rattle.lens_plan.specs.Answers.{Answers};
ghost use Rattle.lens_room.specs.declared.by_flags.flags.Flags.{Flags};
ghost use Rattle.lens_room.specs.Described.{described};
ghost use Rattle.lens_room.specs.Flags.{behind, flags_of};
ghost use Rattle.kube_lens.specs.Commands.{command_of};
ghost use Rattle.kube_lens.specs.Outcome.{IsOutcome, help, unread_reply, usage};

use crate::asked::Asked;
use crate::command::{Command, command_in};
use byte_edge::{Sink, Source};
use run_edge::{Status, Verdict, ask, tell, tell_usage};
use std::alloc::Global;

/// Does what the words after the program's name say. Words that are no command are answered by a line on the usage, for which the source
/// isn't read and no memory is taken.
pub fn run<S: Source, K: Sink>(
    alloc: Global,
    words: &Vec<String>,
    source: &mut S,
    sink: &mut K,
) -> Status
    ensures text { EndsAs (IsOutcome (map string_bytes words.now.items)) (S.left source.old) (S.left source.new) (K.taken sink.old)
        (K.taken sink.new) result }

    // Words that are no command are answered whether or not the source tells its bytes, with no want of memory.
    ensures usage { command_of (map string_bytes words.now.items) ≡ None
        → (S.left source.new ≡ S.left source.old) × (S.faults source.new ≡ S.faults source.old)
        × ((result ≡ Status.Answered Verdict.Usage) ⊎ (result ≡ Status.SinkFault))
        × Ends (Unread usage []) (Some []) (K.taken sink.old) (K.taken sink.new) result }

    // So are flags and `--help`: the source isn't read, and its faults stay.
    ensures unread { (reply : Reply) → unread_reply (command_of (map string_bytes words.now.items)) (map string_bytes words.now.items) ≡ Some reply
        → (S.left source.new ≡ S.left source.old) × (S.faults source.new ≡ S.faults source.old)
        × Ends (Unread reply []) (Some []) (K.taken sink.old) (K.taken sink.new) result }

    // Nor for `tune`, whose answer is by the greatest plan that fits.
    ensures tuned { command_of (map string_bytes words.now.items) ≡ Some Command.Tune
        → (S.left source.new ≡ S.left source.old) × (S.faults source.new ≡ S.faults source.old)
        × Ends (Answers (behind (map string_bytes words.now.items)) []) (Some []) (K.taken sink.old) (K.taken sink.new) result }

    // Where neither count of faults rose, the whole answer was written, or memory ran out.
    ensures complete { ¬ Rose (S.faults source.old) (S.faults source.new) → ¬ Rose (K.faults sink.old) (K.faults sink.new)
        → IsDone result }

    ensures source_fault { result ≡ Status.SourceFault → Rose (S.faults source.old) (S.faults source.new) }
    ensures source_silent { result ≡ Status.SourceFault → K.taken sink.new ≡ K.taken sink.old }
    ensures sink_fault { result ≡ Status.SinkFault → Rose (K.faults sink.old) (K.faults sink.new) }

    // `margin` ends safe only where the lease premise of the document holds, and unsafe only where it doesn't.
    ensures safe { (bytes : List ℕ) (d : Document) → S.left source.old ≡ Some bytes → document_walk bytes ≡ Ok d
        → command_of (map string_bytes words.now.items) ≡ Some (Command.Asks Asked.Margin)
        → result ≡ Status.Answered Verdict.Safe → lease_premise (doc_of d) ≡ true }
    ensures not_safe { (bytes : List ℕ) (d : Document) → S.left source.old ≡ Some bytes → document_walk bytes ≡ Ok d
        → command_of (map string_bytes words.now.items) ≡ Some (Command.Asks Asked.Margin)
        → result ≡ Status.Answered Verdict.Unsafe → lease_premise (doc_of d) ≡ false }

    // With flags in the place of a document, the same of the document that they describe.
    ensures flags_safe { (flags : Flags) → command_of (map string_bytes words.now.items) ≡ Some Command.Flags
        → flags_of (behind (map string_bytes words.now.items)) ≡ Ok flags
        → result ≡ Status.Answered Verdict.Safe → lease_premise (described flags) ≡ true }
    ensures flags_not_safe { (flags : Flags) → command_of (map string_bytes words.now.items) ≡ Some Command.Flags
        → flags_of (behind (map string_bytes words.now.items)) ≡ Ok flags
        → result ≡ Status.Answered Verdict.Unsafe → lease_premise (described flags) ≡ false }
{
    match command_in(words) {
        Some(Command::Help) => tell(sink, Verdict::Done, help()),
        Some(Command::Flags) => lens_room::by_flags::run(alloc, words, sink),
        Some(Command::BoundsFlags) => lens_calm::run(alloc, words, sink),
        Some(Command::Tune) => lens_plan::run(alloc, words, sink),
        Some(Command::Asks(asked)) => ask(alloc, &asked, source, sink),
        None => tell_usage(
            sink,
            b"usage: kube_lens COMMAND (kube_lens --help tells them)\n",
        ),
    }
}

fn help() -> &'static [u8]
    ensures { result.now ≡ help.text }
{
    b"kube_lens: answers on leader elections, in a person's words\n\
\n\
kube_lens margin < document         for each controller what its lease has to outlast, and what is left\n\
kube_lens margin --json < document  the same as one JSON object\n\
kube_lens margin --lease 15s ..     the same of flags: --lease --renew --retry --timeout --skew --beat --release ..\n\
kube_lens bounds < document         how long nobody leads and a dead node's pods stay, at least and at most\n\
kube_lens bounds --json < document  the same as one JSON object\n\
kube_lens bounds --timeout 5s ..    the same of flags: those of margin but of releases, --wait --delay --grace ..\n\
kube_lens tune --failover 10s ..    the flags by which another leads so soon after a crash; --timeout --skew ..\n\
kube_lens leaders < trace           who led from when to when, when nobody did, and whether two did at once\n\
kube_lens leaders --json < trace    the same as one JSON object\n\
kube_lens summary < trace           what a trace comes to, as tables: terms, zones, nodes, evictions, totals\n\
kube_lens summary --json < trace    the same as one JSON object\n\
kube_lens summary --document        the tables of a document and, behind it, its trace, and how late pods were evicted\n\
kube_lens summary --document --json the same as one JSON object\n\
kube_lens lines --json < trace      each line of a trace as a JSON object on a line of its own, for jq\n\
kube_lens explain < document        why a document is refused, where, and what may stand there\n\
kube_lens explain --json < document the same as one JSON object\n\
kube_lens --help                    these lines\n\
\n\
Exit status: 0 safe or told, 1 unsafe or refused, 2 no such command, 3 the input can't be read,\n\
4 the output can't be written, 5 memory ran out, 6 a word isn't UTF-8.\n"
}
