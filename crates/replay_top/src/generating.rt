// A generated document is run, and one line is written of it.
ghost use Rattle.std.specs.Prelude.{◌≡◌, ◌≤◌, ◌+◌, ◌++◌, ℕ, List, Some, IfOk, OnOk, decimal};
ghost use Rattle.agenda_laws.specs.Standing.{standing_beats, standing_below};
ghost use Rattle.byte_edge.specs.Bytes.{Rose};
ghost use Rattle.kube_objects.specs.Document.{Doc, end_beat};
ghost use Rattle.world_core.specs.Worlds.{at_of};
ghost use Rattle.world_runs.specs.Runs.{IsGoing, Runs};
ghost use Rattle.replay_top.specs.Claims.{IsSafe};
ghost use Rattle.replay_top.specs.Generated.{counted_line, counts_text, document_of, generated_line, sizes_text, whole_counts};
ghost use Rattle.replay_top.specs.Outcome.{Ends, IsRunEnd, unread};
ghost use Rattle.replay_top.specs.Replies.{done};
ghost use Rattle.replay_top.specs.Sizes.{AreWithin};
ghost use Rattle.replay_top.specs.Timely.{IsTimely};
ghost use Rattle.replay_top.specs.declared.sizes.Sizes.{Sizes};

use crate::counts::Counts;
use crate::safe::lawful_documents_are_safe;
use crate::sizes::Sizes;
use byte_edge::Sink;
use itoa::Buffer;
use kube_base::{Beat, NoMemory, Steps};
use run_edge::{Status, Verdict, tell};
use std::alloc::Global;
use trace_writer::add;
use world_core::World;
use world_gen::{generate, generated_documents_are_lawful};
use world_runs::next_deeds;
use zone_state::Policies;

/// Runs the generated document of these sizes and writes its line.
pub(crate) fn write_generated<K: Sink, L>(
    alloc: Global,
    sizes: Sizes,
    sink: &mut K,
    policies: &Policies,
    steps: &mut Steps<L>,
) -> Status
    requires { AreWithin sizes }
    ensures text { (left : List ℕ) → Ends (unread (done (generated_line sizes)) left) (Some left) (K.taken sink.old) (K.taken sink.new) result }
    ensures ended { IsRunEnd result }
    ensures sink_fault { result ≡ Status.SinkFault → Rose (K.faults sink.old) (K.faults sink.new) }
    ensures counted { steps.new ≤ steps.old + standing_beats (document_of sizes) }
    ensures safe { IsSafe (document_of sizes) }
    ensures timely { IsTimely (document_of sizes) }
{
    generated_documents_are_safe();
    match line_of(alloc, sizes, policies, steps) {
        Ok(text) => tell(sink, Verdict::Done, &text),
        Err(NoMemory) => Status::OutOfMemory,
    }
}

/// What was proved of every generated document, for which nothing is done.
fn generated_documents_are_safe()
    ensures safe { (sizes : Sizes) → AreWithin sizes → IsSafe (document_of sizes) }
    ensures timely { (sizes : Sizes) → AreWithin sizes → IsTimely (document_of sizes) }
{
    generated_documents_are_lawful();
    lawful_documents_are_safe();
}

/// The line of the generated document of these sizes, which is run.
fn line_of<L>(
    alloc: Global,
    sizes: Sizes,
    policies: &Policies,
    steps: &mut Steps<L>,
) -> Result<Vec<u8>, NoMemory>
    requires { AreWithin sizes }
    ensures line { IfOk result (λ text. text.items ≡ generated_line sizes) }
    ensures counted { steps.new ≤ steps.old + standing_beats (document_of sizes) }
{
    let counts = counts_of(alloc, sizes, policies, steps)?;
    let mut text = Vec::new(alloc);
    add_line(&mut text, sizes, counts)?;
    Ok(text)
}

/// The counts of the generated document of these sizes, which is run.
fn counts_of<L>(
    alloc: Global,
    sizes: Sizes,
    policies: &Policies,
    steps: &mut Steps<L>,
) -> Result<Counts, NoMemory>
    requires { AreWithin sizes }
    ensures whole { IfOk result (λ counts. counts ≡ whole_counts (document_of sizes)) }
    ensures counted { steps.new ≤ steps.old + standing_beats (document_of sizes) }
{
    let document = generate(alloc, sizes.seed, sizes.nodes, sizes.pods, sizes.beats)?;
    let last = document.settings.end_beat;
    let mut world = World::new(alloc, document)?;
    count_beats(&mut world, last, policies, steps)
}

/// Does all beats with entries up to the last one and counts their lines.
fn count_beats<L>(
    world: &mut World,
    last: Beat,
    policies: &Policies,
    steps: &mut Steps<L>,
) -> Result<Counts, NoMemory>
    requires going { IsGoing last.0 world.old }
    requires first { at_of world.old ≡ 0 }
    requires runs { (doc : Doc) × (first : ℕ) × Runs doc first steps.old world.old }
    ensures whole { (doc : Doc) (first : ℕ) → Runs doc first steps.old world.old → last.0 ≡ end_beat doc
        → IfOk result (λ counts. counts ≡ whole_counts doc) }
    ensures counted { (doc : Doc) (first : ℕ) → Runs doc first steps.old world.old → steps.new ≤ first + standing_below doc (last.0 + 1) }
{
    let mut counts = Counts::none();
    'beats: while let Some(deeds) = next_deeds(world, last, policies, steps)? {
        counts = counts.and(deeds.as_slice());
    }
    Ok(counts)
}

#[tactic(auto, unfolding(crate::specs::Generated::counted_line))]
fn add_line(text: &mut Vec<u8>, sizes: Sizes, counts: Counts) -> Result<(), NoMemory>
    ensures { OnOk result (text.new.items ≡ text.old.items ++ counted_line sizes counts) }
{
    add_sizes(text, sizes)?;
    add_counts(text, counts)?;
    add(text, b"\n")
}

#[tactic(auto, unfolding(crate::specs::Generated::sizes_text))]
fn add_sizes(text: &mut Vec<u8>, sizes: Sizes) -> Result<(), NoMemory>
    ensures { OnOk result (text.new.items ≡ text.old.items ++ sizes_text sizes) }
{
    add_count(text, b"generated controllers=3 nodes=", sizes.nodes as u128)?;
    add_count(text, b" pods=", sizes.pods as u128)?;
    add_count(text, b" beats=", sizes.beats as u128)
}

#[tactic(auto, unfolding(crate::specs::Generated::counts_text))]
fn add_counts(text: &mut Vec<u8>, counts: Counts) -> Result<(), NoMemory>
    ensures { OnOk result (text.new.items ≡ text.old.items ++ counts_text counts) }
{
    add_count(text, b" leads=", counts.leads)?;
    add_count(text, b" taints=", counts.taints)?;
    add_count(text, b" evictions=", counts.evictions)
}

fn add_count(text: &mut Vec<u8>, label: &[u8], count: u128) -> Result<(), NoMemory>
    ensures { OnOk result (text.new.items ≡ text.old.items ++ (label.now ++ decimal count)) }
{
    let mut buffer = Buffer::new();
    add(text, label)?;
    add(text, buffer.format(count).as_bytes())
}
