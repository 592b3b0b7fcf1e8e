// The line of a refusal.
ghost use Rattle.std.specs.Prelude.{◌≡◌, ◌≢◌, ◌++◌, ℕ, List, Some, IfOk, OnOk, codes};
ghost use Rattle.byte_edge.specs.Bytes.{Rose};
ghost use Rattle.run_edge.specs.Outcome as spec;
ghost use Rattle.run_edge.specs.Outcome.{Ends, IsRefusing, Unread, refusal_text, reply_of};

use crate::answer::Answer;
use crate::status::{Status, Verdict};
use crate::telling::tell;
use byte_edge::Sink;
use kube_base::NoMemory;
use manifest_json::Refusal;
use std::alloc::Global;
use trace_writer::{add, add_number};

/// The code of an input that has more bytes than it may have.
const TOO_LARGE: u32 = 33;

/// The answer that a document is refused, as this refusal of it says.
pub fn refuse_as(alloc: Global, refusal: &Refusal) -> Result<Answer, NoMemory>
    ensures { IfOk result (λ answer. reply_of answer ≡ spec.refusal refusal.now.code refusal.now.path) }
{
    refuse(alloc, refusal.code, refusal.path.as_slice())
}

/// The answer that an input is refused, by the code and the place of what is wrong.
pub fn refuse(alloc: Global, code: u32, path: &[u8]) -> Result<Answer, NoMemory>
    ensures { IfOk result (λ answer. reply_of answer ≡ spec.refusal code path.now) }
{
    let mut text = Vec::new(alloc);
    add_refusal(&mut text, code, path)?;
    Ok(Answer {
        verdict: Verdict::Refused,
        text,
    })
}

/// Writes that an input is refused, by the code and the place of what is wrong.
pub fn tell_refusal<K: Sink>(alloc: Global, sink: &mut K, code: u32, path: &[u8]) -> Status
    ensures text { (left : List ℕ)
        → Ends (Unread (spec.refusal code path.now) left) (Some left) (K.taken sink.old) (K.taken sink.new) result }
    ensures status { IsRefusing result }
    ensures sink_fault { result ≡ Status.SinkFault → Rose (K.faults sink.old) (K.faults sink.new) }
{
    match refuse(alloc, code, path) {
        Ok(answer) => tell(sink, Verdict::Refused, &answer.text),
        Err(NoMemory) => Status::OutOfMemory,
    }
}

/// Writes that an input has more bytes than it may have.
pub fn tell_too_large<K: Sink>(alloc: Global, sink: &mut K) -> Status
    ensures text { (left : List ℕ)
        → Ends (Unread (spec.refusal 33 (codes "/")) left) (Some left) (K.taken sink.old) (K.taken sink.new) result }
    ensures status { IsRefusing result }
    ensures sink_fault { result ≡ Status.SinkFault → Rose (K.faults sink.old) (K.faults sink.new) }
{
    tell_refusal(alloc, sink, TOO_LARGE, b"/")
}

fn add_refusal(text: &mut Vec<u8>, code: u32, path: &[u8]) -> Result<(), NoMemory>
    ensures { OnOk result (text.new.items ≡ text.old.items ++ refusal_text code path.now) }
{
    add(text, b"refused ")?;
    add_number(text, u64::from(code))?;
    add(text, b" ")?;
    add(text, path)?;
    add(text, b"\n")
}
