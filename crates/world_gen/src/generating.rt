// The document of a seed.
ghost use Rattle.std.specs.Prelude.{◌≡◌, true, IfOk};
ghost use Rattle.history.specs.Premise.{lease_premise};
ghost use Rattle.script_reader.specs.Documents.{doc_of};
ghost use Rattle.script_reader.specs.Lawful.{IsLawfulDoc, IsWellNamed};
ghost use Rattle.world_gen.specs.Generated.{AreInRange, generated};
ghost use Rattle.world_gen.specs.Numbers.{generated_names};

use crate::crash::events;
use crate::draw::start;
use crate::names::names_of;
use crate::node::node_items;
use crate::pod::add_pods;
use crate::process::{controllers, kubelets, settings, waits};
use kube_base::NoMemory;
use manifest_json::Objects;
use manifest_laws::objects_are_readable;
use script_reader::Document;
use std::alloc::Global;

/// The generated document of a seed with so many nodes and Pods, up to this beat.
pub fn generate(
    alloc: Global,
    seed: u64,
    nodes: u32,
    pods: u32,
    beats: u32,
) -> Result<Document, NoMemory>
    requires { AreInRange nodes pods beats }
    ensures document { IfOk result (λ d. doc_of d ≡ generated seed nodes pods beats) }
    ensures names { IfOk result (λ d. d.names ≡ generated_names nodes pods) }
    ensures lawful { IfOk result (λ d. IsLawfulDoc (doc_of d)) }
    ensures well_named { IfOk result (λ d. IsWellNamed d.names (doc_of d)) }
    ensures premise { IfOk result (λ d. lease_premise (doc_of d) ≡ true) }
    ensures none_skipped { IfOk result (λ d. d.objects.skipped ≡ 0) }
{
    objects_are_readable();
    let document = build(alloc, seed, nodes, pods, beats)?;
    Ok(document)
}

/// Makes the parts, in the order in which they are drawn.
#[tactic(auto, unfolding(crate::specs::Generated::generated))]
fn build(alloc: Global, seed: u64, nodes: u32, pods: u32, beats: u32) -> Result<Document, NoMemory>
    requires { AreInRange nodes pods beats }
    ensures document { IfOk result (λ d. doc_of d ≡ generated seed nodes pods beats) }
    ensures names { IfOk result (λ d. d.names ≡ generated_names nodes pods) }
    ensures none_skipped { IfOk result (λ d. d.objects.skipped ≡ 0) }
{
    let mut rng = start(seed);
    let events = events(alloc, &mut rng, nodes, beats)?;
    let mut items = node_items(alloc, nodes)?;
    add_pods(alloc, &mut items, &mut rng, nodes, pods)?;
    Ok(Document {
        settings: settings(beats),
        controllers: controllers(alloc)?,
        kubelets: kubelets(alloc, nodes)?,
        waits: waits(alloc)?,
        objects: Objects { items, skipped: 0 },
        events,
        names: names_of(alloc, nodes, pods)?,
    })
}
