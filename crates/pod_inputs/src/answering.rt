// What the two commands write.
ghost use Rattle.manifest_json.specs.Faults.{Gives};
ghost use Rattle.pod_inputs.specs.Answers as spec;

use crate::{read_collect, read_place};
use manifest_json::ReadFault;
use pod_tools::{collect_lines, place_lines};
use std::alloc::Global;

/// The lines of `collect` for what these bytes ask, or the first refusal of the walk.
#[tactic(auto, unfolding(crate::specs::Answers::collect_answer))]
pub fn collect_answer(alloc: Global, bytes: &[u8]) -> Result<Vec<u8>, ReadFault>
    ensures { Gives (λ text. text.items) result (spec.collect_answer bytes.now) }
{
    let input = read_collect(alloc, bytes)?;
    let text = collect_lines(alloc, &input)?;
    Ok(text)
}

/// The lines of `place` for what these bytes ask, or the first refusal of the walk.
#[tactic(auto, unfolding(crate::specs::Answers::place_answer))]
pub fn place_answer(alloc: Global, bytes: &[u8]) -> Result<Vec<u8>, ReadFault>
    ensures { Gives (λ text. text.items) result (spec.place_answer bytes.now) }
{
    let input = read_place(alloc, bytes)?;
    let text = place_lines(alloc, &input)?;
    Ok(text)
}
