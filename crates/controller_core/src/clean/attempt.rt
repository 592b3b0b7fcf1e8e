// The try to untaint or swap one node.
ghost use Rattle.std.specs.Prelude.{◌≡◌, ℕ, true, false, List, IfOk};
ghost use Rattle.kube_objects.specs.Clocks.{wall};
ghost use Rattle.kube_objects.specs.Document.{Doc};
ghost use Rattle.kube_objects.specs.Entry.{Entry, Identity};
ghost use Rattle.kube_objects.specs.Seen.{is_synced};
ghost use Rattle.kube_objects.specs.Tick as tick;
ghost use Rattle.node_taints.specs.Wanting.{wants_of};
ghost use Rattle.tick_laws.specs.Changes.{cleaned_node};
ghost use Rattle.tick_laws.specs.Judged.{is_dirty};
ghost use Rattle.controller_core.specs.Cleaning.{write_for};
ghost use Rattle.controller_core.specs.Trying.{IsTryOf};
ghost use Rattle.term_state.specs.ClusterStands.{ClusterStands};

use kube_base::{NoMemory, Wall, whole_second};
use kube_objects::Node;
use node_taints::{Wants, new_taint, want_of, with_swap, without_condition};
use term_state::{Cluster, NodeTry, NodeWrite};

/// The try to untaint or swap one node that is to be.
pub(crate) fn clean_of(cluster: &Cluster, name: u32, now: Wall) -> Result<Option<NodeTry>, NoMemory>
    ensures { (doc : Doc) (k : ℕ) (q : Identity) (h : List Entry) → ClusterStands q h cluster.now → is_synced q h ≡ true
        → now.0 ≡ wall doc q.process k → is_dirty q name h ≡ true → tick.is_stripped doc.settings.rules.first_sight k q name h ≡ false
        → IfOk result (λ tried. IsTryOf k q h (tick.clean doc k q name h) tried) }
{
    let Some((given, node)) = cluster.node(name) else {
        return Ok(None);
    };
    let wants = want_of(cluster.mode(), node);
    let written = node_to_write(wants, node, now)?;
    Ok(Some(NodeTry {
        name,
        given,
        written,
        write: write_for(wants),
    }))
}

// The node that is written: without condition taints, or with the wanted one in the place of the other.
fn node_to_write(wants: Wants, node: &Node, now: Wall) -> Result<Node, NoMemory>
    ensures { (doc : Doc) (k : ℕ) (q : Identity) → now.0 ≡ wall doc q.process k
        → IfOk result (λ written. written ≡ cleaned_node doc k q node.now (wants_of wants)) }
{
    match wants {
        Wants::Wanted(key) => with_swap(node, new_taint(key, whole_second(now))),
        Wants::Nothing => without_condition(node),
        Wants::Whatever => without_condition(node),
    }
}

fn write_for(wants: Wants) -> NodeWrite
    ensures { result ≡ write_for (wants_of wants) }
{
    match wants {
        Wants::Wanted(key) => NodeWrite::Swap(key),
        Wants::Nothing => NodeWrite::Untaint,
        Wants::Whatever => NodeWrite::Untaint,
    }
}
