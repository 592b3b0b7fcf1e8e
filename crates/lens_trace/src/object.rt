// An answer that is one object.
ghost use Rattle.std.specs.Prelude.{◌≡◌, IfOk, map};
ghost use Rattle.run_edge.specs.Outcome.{reply_of};
ghost use Rattle.lens_json.specs.Parts.{part_of};
ghost use Rattle.lens_trace.specs.Objects as spec;

use kube_base::NoMemory;
use lens_json::{Part, add_parts};
use run_edge::{Answer, Verdict};
use std::alloc::Global;
use trace_writer::add;

/// The object of these members, on a line of its own.
#[tactic(auto, unfolding(crate::specs::Objects::object_text))]
pub fn object_answer(
    alloc: Global,
    verdict: Verdict,
    parts: &[Part<'_>],
) -> Result<Answer, NoMemory>
    ensures { IfOk result (λ answer. reply_of answer ≡ spec.object_reply verdict (map part_of parts.now)) }
{
    let mut text = Vec::new(alloc);
    add_parts(&mut text, parts)?;
    add(&mut text, b"\n")?;
    Ok(Answer { verdict, text })
}
