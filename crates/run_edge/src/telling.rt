// The writing of a finished text.
ghost use Rattle.std.specs.Prelude.{◌≡◌, ◌⊎◌, ℕ, List, Some};
ghost use Rattle.byte_edge.specs.Bytes.{Rose};
ghost use Rattle.run_edge.specs.Outcome.{Ends, Unread, usage};

use crate::status::{Status, Verdict};
use byte_edge::{Failed, Sink, give_all};

/// Writes the text of an answer. Takes no memory.
pub fn tell<K: Sink>(sink: &mut K, verdict: Verdict, text: &[u8]) -> Status
    ensures text { (left : List ℕ) → Ends (Unread (record { verdict = verdict; text = text.now }) left) (Some left) (K.taken sink.old)
        (K.taken sink.new) result }
    ensures status { (result ≡ Status.Answered verdict) ⊎ (result ≡ Status.SinkFault) }
    ensures sink_fault { result ≡ Status.SinkFault → Rose (K.faults sink.old) (K.faults sink.new) }
{
    match give_all(sink, text) {
        Ok(()) => Status::Answered(verdict),
        Err(Failed) => Status::SinkFault,
    }
}

/// Says that the words are no command, by the line of a program. Takes no memory.
pub fn tell_usage<K: Sink>(sink: &mut K, line: &[u8]) -> Status
    ensures text { (left : List ℕ) → Ends (Unread (usage line.now) left) (Some left) (K.taken sink.old) (K.taken sink.new) result }
    ensures status { (result ≡ Status.Answered Verdict.Usage) ⊎ (result ≡ Status.SinkFault) }
    ensures sink_fault { result ≡ Status.SinkFault → Rose (K.faults sink.old) (K.faults sink.new) }
{
    tell(sink, Verdict::Usage, line)
}
