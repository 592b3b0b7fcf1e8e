// Tries of nodes.
ghost use Rattle.std.specs.Prelude.{◌≡◌, ◌&&◌, ℕ, true, List, IfOk, OnOk, if◌then◌else◌};
ghost use Rattle.kube_objects.specs.Document.{Doc};
ghost use Rattle.kube_objects.specs.Entry.{Entry, Identity};
ghost use Rattle.kube_objects.specs.Newest.{has};
ghost use Rattle.kube_objects.specs.Seen.{seen_node};
ghost use Rattle.kube_objects.specs.Tainting as tainting;
ghost use Rattle.kube_objects.specs.Tick as tick;
ghost use Rattle.kube_objects.specs.declared.deed.Deed.{Deed};
ghost use Rattle.term_state.specs.MidTick.{IsView, MidTick};
ghost use Rattle.term_state.specs.Sights.{spent};
ghost use Rattle.controller_core.specs.Costs.{HaveCost};
ghost use Rattle.controller_core.specs.Trying.{IsTryOf};

use kube_base::{NoMemory, Steps, Version};
use kube_objects::Node;
use node_taints::{has_condition, without_condition};
use object_store::Store;
use term_state::{Cluster, NodeTry, NodeWrite, Told, View, try_write};

/// The untaint of a node that is to lose its condition taints, if it has one.
pub(crate) fn untaint_of(
    name: u32,
    untaints: bool,
    given: Version,
    node: &Node,
) -> Result<Option<NodeTry>, NoMemory>
    ensures { (k : ℕ) (q : Identity) (h : List Entry) → has (seen_node q name h) ≡ true → IfOk result (λ tried. IsTryOf k q h
        (if tainting.has_condition node.now && untaints then tick.add_untaint k q name given node.now h else h) tried) }
{
    if !has_condition(node) || !untaints {
        return Ok(None);
    }
    let written = without_condition(node)?;
    Ok(Some(NodeTry {
        name,
        given,
        written,
        write: NodeWrite::Untaint,
    }))
}

/// Tries to write a node, if there is a try. Its answer isn't asked for.
pub(crate) fn write_if<L>(
    cluster: &mut Cluster,
    store: &mut Store,
    view: &View,
    told: &mut Told,
    steps: &mut Steps<L>,
    tried: Option<NodeTry>,
) -> Result<(), NoMemory>
    ensures { (doc : Doc) (k : ℕ) (q : Identity) (before : List Deed) (h g : List Entry)
        → MidTick doc q k before h cluster.old store.old told.old → IsView doc k q h view.entry.now → IsTryOf k q h g tried
        → OnOk result (MidTick doc q k before g cluster.new store.new told.new
        × HaveCost q k h g (spent cluster.old steps.old) (spent cluster.new steps.new)) }
{
    let Some(tried) = tried else {
        return Ok(());
    };
    try_write(cluster, store, view, told, steps, tried)?;
    Ok(())
}
