// What is asked of an input, and its answer.
ghost use Rattle.std.specs.Prelude.{ℕ, List, IfOk};
ghost use Rattle.run_edge.specs.Outcome.{Reply, reply_of};

use crate::status::Verdict;
use kube_base::NoMemory;
use std::alloc::Global;

/// A finished answer.
#[derive(Drop)]
pub struct Answer {
    pub verdict: Verdict,
    pub text: Vec<u8>,
}

/// What is asked of an input.
pub trait Question {
    /// What an answer to the bytes of an input is.
    ghost is_reply: { Self → List ℕ → Reply → Type 0 };

    /// Answers the bytes of an input.
    fn answer(&self, alloc: Global, input: &[u8]) -> Result<Answer, NoMemory>
        ensures { IfOk result (λ answer. is_reply self.now input.now (reply_of answer)) };
}
