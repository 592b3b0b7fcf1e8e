// The lines of `collect`.
ghost use Rattle.std.specs.Prelude.{◌≡◌, ◌++◌, flat_map, IfOk, OnOk};
ghost use Rattle.pod_tools.specs.Feasible.{AreFew};
ghost use Rattle.pod_tools.specs.Texts as spec;

use crate::texts::{add, add_number, add_pod};
use crate::{Cause, CollectInput, Pick, PodRow, collect};
use kube_base::{Names, NoMemory};
use std::alloc::Global;

/// A line for each pod that is collected, with its cause, and a line with their number.
#[tactic(auto, unfolding(crate::specs::Texts::collect_text))]
pub fn collect_lines(alloc: Global, input: &CollectInput) -> Result<Vec<u8>, NoMemory>
    requires { AreFew input.now.nodes input.now.pods }
    ensures { IfOk result (λ text. text.items ≡ spec.collect_text input.entry.now) }
{
    let picks = collect(alloc, input)?;
    let mut text = Vec::new(alloc);
    add_picks(
        &mut text,
        &input.names,
        input.pods.as_slice(),
        picks.as_slice(),
    )?;
    add_picks_count(&mut text, picks.as_slice().len())?;
    Ok(text)
}

fn add_picks(
    text: &mut Vec<u8>,
    names: &Names,
    pods: &[PodRow],
    picks: &[Pick],
) -> Result<(), NoMemory>
    ensures { OnOk result (text.new.items ≡ text.old.items ++ flat_map (spec.pick_line names.now pods.now) picks.now) }
{
    for pick in picks {
        add_pick_line(text, names, pods, *pick)?;
    }
    Ok(())
}

#[tactic(auto, unfolding(crate::specs::Texts::pick_line))]
fn add_pick_line(
    text: &mut Vec<u8>,
    names: &Names,
    pods: &[PodRow],
    pick: Pick,
) -> Result<(), NoMemory>
    ensures { OnOk result (text.new.items ≡ text.old.items ++ spec.pick_line names.now pods.now pick) }
{
    add(text, b"collect ")?;
    add_pod(text, names, pods, pick.pod)?;
    add(text, b" ")?;
    add(text, cause_text(pick.cause))?;
    add(text, b"\n")
}

fn cause_text(cause: Cause) -> &'static [u8]
    ensures { result.now ≡ spec.cause_text cause }
{
    match cause {
        Cause::Terminated => b"terminated",
        Cause::OutOfService => b"out-of-service",
        Cause::Orphaned => b"orphaned",
        Cause::Unscheduled => b"unscheduled",
    }
}

fn add_picks_count(text: &mut Vec<u8>, count: usize) -> Result<(), NoMemory>
    ensures { OnOk result (text.new.items ≡ text.old.items ++ spec.picks_line count) }
{
    add(text, b"collected pods=")?;
    add_number(text, count as u64)?;
    add(text, b"\n")?;
    Ok(())
}
