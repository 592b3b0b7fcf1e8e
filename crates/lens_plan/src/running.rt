// The command.
ghost use Rattle.std.specs.Prelude.{◌≡◌, ◌≢◌, ◌++◌, ℕ, List, Some, IfOk, OnOk, map, string_bytes};
ghost use Rattle.byte_edge.specs.Bytes.{Rose};
ghost use Rattle.run_edge.specs.Outcome.{Ends, reply_of};
ghost use Rattle.lens_room.specs.Flags.{behind};
ghost use Rattle.lens_tune.specs.Searches.{IsSmall};
ghost use Rattle.lens_tune.specs.Wishes.{IsWish};
ghost use Rattle.lens_plan.specs.Answers.{Answers, IsAnswer};
ghost use Rattle.lens_plan.specs.Answers as spec;
ghost use Rattle.lens_plan.specs.Found.{IsFound, ForPlan};

use crate::found::{Found, found_for};
use crate::given::read_wanted;
use crate::lines::add_found;
use crate::object::add_json;
use crate::wanted::Wanted;
use byte_edge::Sink;
use kube_base::NoMemory;
use lens_room::by_flags::{behind, misused, tell_answer};
use lens_room::verdict_by;
use run_edge::{Answer, Status};
use std::alloc::Global;

/// Writes the flags of the greatest plan that fits what the words behind the first one want, or that none does, why, and the least failover for
/// which one would, in lines or as one JSON object; or what is wrong with the words. It ends safe if a plan fits.
pub fn run<K: Sink>(alloc: Global, words: &Vec<String>, sink: &mut K) -> Status
    ensures text { (left : List ℕ) → Ends (Answers (behind (map string_bytes words.now.items)) left) (Some left) (K.taken sink.old)
        (K.taken sink.new) result }
    ensures silent { result ≢ Status.SourceFault }
    ensures sink_fault { result ≡ Status.SinkFault → Rose (K.faults sink.old) (K.faults sink.new) }
{
    tell_answer(sink, answer(alloc, behind(words)))
}

fn answer(alloc: Global, words: &[String]) -> Result<Answer, NoMemory>
    ensures { IfOk result (λ answer. IsAnswer (map string_bytes words.now) (reply_of answer)) }
{
    match read_wanted(words) {
        Ok(wanted) => told(alloc, wanted),
        Err(fault) => misused(alloc, words, fault),
    }
}

fn told(alloc: Global, wanted: Wanted) -> Result<Answer, NoMemory>
    requires { IsWish wanted.wish }
    ensures { IfOk result (λ answer. spec.IsTold wanted (reply_of answer)) }
{
    told_of(alloc, wanted, found_for(wanted.wish))
}

fn told_of(alloc: Global, wanted: Wanted, found: Found) -> Result<Answer, NoMemory>
    requires wish { IsWish wanted.wish }
    requires plan { ForPlan found IsSmall }
    ensures { IfOk result (λ answer. reply_of answer ≡ spec.told wanted found) }
{
    let mut text = Vec::new(alloc);
    add_told(&mut text, alloc, wanted, found)?;
    Ok(Answer {
        verdict: verdict_by(is_fitting(found)),
        text,
    })
}

fn is_fitting(found: Found) -> bool
    ensures { result ≡ spec.is_fitting found }
{
    match found {
        Found::Fitting(_) => true,
        Found::Later(_) | Found::Never => false,
    }
}

/// Adds what is found, in the form that is wanted.
fn add_told(text: &mut Vec<u8>, alloc: Global, wanted: Wanted, found: Found) -> Result<(), NoMemory>
    requires wish { IsWish wanted.wish }
    requires plan { ForPlan found IsSmall }
    ensures { OnOk result (text.new.items ≡ text.old.items ++ spec.told_text wanted found) }
{
    if wanted.as_json {
        add_json(text, alloc, wanted.wish, found)
    } else {
        add_found(text, wanted.wish, found)
    }
}
