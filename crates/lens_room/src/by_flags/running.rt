// The command.
ghost use Rattle.std.specs.Prelude.{◌≡◌, ◌≢◌, ◌++◌, ℕ, true, false, List, Some, Ok, IfOk, OnOk, map, string_bytes};
ghost use Rattle.byte_edge.specs.Bytes.{Rose};
ghost use Rattle.history.specs.Premise.{lease_premise};
ghost use Rattle.run_edge.specs.Outcome.{Ends, Unread, reply_of};
ghost use Rattle.lens_room.specs.declared.by_flags.flags.Flags.{Flags};
ghost use Rattle.lens_room.specs.Described.{described};
ghost use Rattle.lens_room.specs.Flags.{behind, flags_of};
ghost use Rattle.lens_room.specs.FlagLaws.{NumbersAreOfThePremise};
ghost use Rattle.lens_room.specs.FlagReplies.{answer_to};
ghost use Rattle.lens_room.specs.FlagReplies as spec;
ghost use Rattle.lens_room.specs.Ranges.{AreInRange};

use crate::by_flags::flags::Flags;
use crate::by_flags::given::read_flags;
use crate::by_flags::lines::add_settings;
use crate::by_flags::margin::is_safe;
use crate::by_flags::object::add_json;
use crate::by_flags::words::{misused, tell_answer};
use crate::margins::verdict_by;
use byte_edge::Sink;
use kube_base::NoMemory;
use run_edge::{Answer, Status, Verdict};
use std::alloc::Global;

/// Writes the margin of the settings that the words behind the first one give, the greatest skew that they bear, and whether they are long
/// enough, in lines or as one JSON object; or what is wrong with the words.
pub fn run<K: Sink>(alloc: Global, words: &Vec<String>, sink: &mut K) -> Status
    ensures text { (left : List ℕ) → Ends (Unread (answer_to (behind (map string_bytes words.now.items))) left) (Some left) (K.taken sink.old)
        (K.taken sink.new) result }
    ensures silent { result ≢ Status.SourceFault }
    ensures sink_fault { result ≡ Status.SinkFault → Rose (K.faults sink.old) (K.faults sink.new) }

    // It ends safe only where the lease premise of the document that the settings describe holds, and unsafe only where it doesn't.
    ensures safe { (flags : Flags) → flags_of (behind (map string_bytes words.now.items)) ≡ Ok flags
        → result ≡ Status.Answered Verdict.Safe → lease_premise (described flags) ≡ true }
    ensures not_safe { (flags : Flags) → flags_of (behind (map string_bytes words.now.items)) ≡ Ok flags
        → result ≡ Status.Answered Verdict.Unsafe → lease_premise (described flags) ≡ false }

    // The numbers told are those of that premise: the least and the greatest that there are.
    ensures numbers { NumbersAreOfThePremise }
{
    tell_answer(sink, answer(alloc, behind(words)))
}

/// The words behind the first one.
pub fn behind(words: &Vec<String>) -> &[String]
    ensures { map string_bytes result.now ≡ behind (map string_bytes words.now.items) }
{
    match words.as_slice() {
        [_, more @ ..] => more,
        [] => &[],
    }
}

fn answer(alloc: Global, words: &[String]) -> Result<Answer, NoMemory>
    ensures { IfOk result (λ answer. reply_of answer ≡ answer_to (map string_bytes words.now)) }
{
    match read_flags(words) {
        Ok(flags) => told(alloc, &flags),
        Err(wrong) => misused(alloc, words, wrong),
    }
}

fn told(alloc: Global, flags: &Flags) -> Result<Answer, NoMemory>
    requires { AreInRange flags.now }
    ensures { IfOk result (λ answer. reply_of answer ≡ spec.told flags.now) }
{
    let mut text = Vec::new(alloc);
    add_told(&mut text, alloc, flags)?;
    Ok(Answer {
        verdict: verdict_by(is_safe(flags)),
        text,
    })
}

/// Adds what settings come to, in the form that is wanted.
fn add_told(text: &mut Vec<u8>, alloc: Global, flags: &Flags) -> Result<(), NoMemory>
    requires { AreInRange flags.now }
    ensures { OnOk result (text.new.items ≡ text.old.items ++ spec.told_text flags.now) }
{
    if flags.as_json {
        add_json(text, alloc, flags)
    } else {
        add_settings(text, alloc, flags)
    }
}
