// What is asked of an input, and its answer.
ghost use Rattle.std.specs.Prelude.{◌≡◌, IfOk};
ghost use Rattle.pod_inputs.specs.Answers as pods;
ghost use Rattle.run_edge.specs.Outcome.{reply_of};
ghost use Rattle.replay_top.specs.Replies.{done, on_pods, reply_to};

use crate::auditing::audited;
use crate::checking::checked;
use kube_base::NoMemory;
use manifest_json::ReadFault;
use pod_inputs::{collect_answer, place_answer};
use run_edge::{Answer, Question, Verdict, refuse_as};
use std::alloc::Global;

/// What is asked of an input.
#[derive(Clone, Copy)]
pub enum Asked {
    /// How many processes, objects and events a document has, and whether its lease premise holds.
    Check,
    /// Whether a trace is safe.
    Audit,
    /// Which pods are collected.
    Collect,
    /// Where pods may run.
    Place,
}

impl Question for Asked {
    ghost is_reply = { λ asked bytes reply. reply ≡ reply_to asked bytes };

    fn answer(&self, alloc: Global, input: &[u8]) -> Result<Answer, NoMemory> {
        match *self {
            Asked::Check => checked(alloc, input),
            Asked::Audit => audited(alloc, input),
            Asked::Collect => collected(alloc, input),
            Asked::Place => placed(alloc, input),
        }
    }
}

/// A text that is the answer.
pub(crate) fn done(text: Vec<u8>) -> Answer
    ensures { reply_of result ≡ done text.items }
{
    Answer {
        verdict: Verdict::Done,
        text,
    }
}

/// Which pods are collected.
fn collected(alloc: Global, input: &[u8]) -> Result<Answer, NoMemory>
    ensures { IfOk result (λ answer. reply_of answer ≡ on_pods (pods.collect_answer input.now)) }
{
    match collect_answer(alloc, input) {
        Ok(text) => Ok(done(text)),
        Err(ReadFault::Refused(refusal)) => refuse_as(alloc, &refusal),
        Err(ReadFault::NoMemory) => Err(NoMemory),
    }
}

/// Where pods may run.
fn placed(alloc: Global, input: &[u8]) -> Result<Answer, NoMemory>
    ensures { IfOk result (λ answer. reply_of answer ≡ on_pods (pods.place_answer input.now)) }
{
    match place_answer(alloc, input) {
        Ok(text) => Ok(done(text)),
        Err(ReadFault::Refused(refusal)) => refuse_as(alloc, &refusal),
        Err(ReadFault::NoMemory) => Err(NoMemory),
    }
}
