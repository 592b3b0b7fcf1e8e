// A question that is asked of all that a source has.
ghost use Rattle.std.specs.Prelude.{◌≡◌, ◌≢◌, ℕ, List, Some, IfOk, IsErr};
ghost use Rattle.byte_edge.specs.Bytes.{Rose};
ghost use Rattle.run_edge.specs.Outcome.{Ends, EndsAs, Read, Unread, reply_of};

use crate::answer::{Answer, Question};
use crate::refusing::tell_too_large;
use crate::status::Status;
use crate::taking::take_input;
use crate::telling::tell;
use byte_edge::{Sink, Source, TakeFault};
use kube_base::NoMemory;
use std::alloc::Global;

/// Takes all that the source has and writes the answer to it. An input of more bytes than it may have is refused.
pub fn ask<Q: Question, S: Source, K: Sink>(
    alloc: Global,
    question: &Q,
    source: &mut S,
    sink: &mut K,
) -> Status
    ensures text { EndsAs (Read (Q.is_reply question.now)) (S.left source.old) (S.left source.new) (K.taken sink.old) (K.taken sink.new)
        result }
    ensures source_fault { result ≡ Status.SourceFault → Rose (S.faults source.old) (S.faults source.new) }
    ensures source_silent { result ≡ Status.SourceFault → K.taken sink.new ≡ K.taken sink.old }
    ensures sink_fault { result ≡ Status.SinkFault → Rose (K.faults sink.old) (K.faults sink.new) }
{
    match take_input(alloc, source) {
        Ok(bytes) => give(sink, question.answer(alloc, &bytes)),
        Err(TakeFault::TooLarge) => tell_too_large(alloc, sink),
        Err(TakeFault::Fault) => Status::SourceFault,
        Err(TakeFault::NoMemory) => Status::OutOfMemory,
    }
}

/// Writes an answer, if there is one.
fn give<K: Sink>(sink: &mut K, answer: Result<Answer, NoMemory>) -> Status
    ensures text { (left : List ℕ) → IfOk answer
        (λ a. Ends (Unread (reply_of a) left) (Some left) (K.taken sink.old) (K.taken sink.new) result) }
    ensures memory { IsErr answer → (result ≡ Status.OutOfMemory) × (K.taken sink.new ≡ K.taken sink.old) }
    ensures silent { result ≢ Status.SourceFault }
    ensures sink_fault { result ≡ Status.SinkFault → Rose (K.faults sink.old) (K.faults sink.new) }
{
    match answer {
        Ok(answer) => tell(sink, answer.verdict, &answer.text),
        Err(NoMemory) => Status::OutOfMemory,
    }
}
