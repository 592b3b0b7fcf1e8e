// The queued taints of a tick.
ghost use Rattle.std.specs.Prelude.{◌≡◌, ◌≤◌, ℕ, List, OnOk};
ghost use Rattle.kube_base.specs.Bounds.{most_local};
ghost use Rattle.kube_objects.specs.Document.{Doc};
ghost use Rattle.kube_objects.specs.Entry.{Entry, Identity};
ghost use Rattle.kube_objects.specs.Tick as tick;
ghost use Rattle.kube_objects.specs.declared.deed.Deed.{Deed};
ghost use Rattle.kube_objects.specs.declared.rules.JudgeRule.TheVariants as judges;
ghost use Rattle.term_state.specs.MidTick.{IsView};
ghost use Rattle.term_state.specs.Sights.{spent};
ghost use Rattle.controller_core.specs.Costs.{HaveCost};
ghost use Rattle.controller_core.specs.Heading.{Heading};

mod head;
mod settling;

use crate::taint::head::taint_first;
pub(crate) use crate::taint::settling::settle;
use kube_base::{NoMemory, Steps};
use object_store::Store;
use taint_zones::Zones;
use term_state::{Cluster, Told, View};

/// The queued taints of a tick: for each zone in order where somebody waits and the token is there, one try to write the first
/// of the queue with the taint that it wants. The token is gone then, whatever the answer. A node that was written waits no
/// longer; another goes to the back of the queue, and nothing is stale.
///
/// Untaints and swaps are done before, and it is settled who waits. It costs the logarithm of the zones for each zone in which
/// a node ever waited, and counts two steps for each pod on a node that was written.
pub(crate) fn taint<L>(
    zones: &mut Zones,
    cluster: &mut Cluster,
    store: &mut Store,
    view: &View,
    told: &mut Told,
    steps: &mut Steps<L>,
) -> Result<(), NoMemory>
    requires { view.now.now.0 ≤ most_local }
    ensures { (doc : Doc) (q : Identity) (k : ℕ) (before : List Deed) (h : List Entry)
        → doc.settings.rules.judge ≡ judges.Tick → Heading doc q k before h zones.old cluster.old store.old told.old → IsView doc k q h view.entry.now
        → OnOk result (Heading doc q k before (tick.tainted doc k q h) zones.new cluster.new store.new told.new
        × HaveCost q k h (tick.tainted doc k q h) (spent cluster.old steps.old) (spent cluster.new steps.new)) }
{
    let mut next = zones.queues.next_zone(None);
    while let Some(place) = next {
        taint_first(zones, cluster, store, view, told, steps, place)?;
        next = zones.queues.next_zone(Some(place));
    }
    Ok(())
}
