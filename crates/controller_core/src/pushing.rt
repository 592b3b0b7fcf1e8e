// The heads of queues that hold pushes.
ghost use Rattle.std.specs.Prelude.{◌≤◌, ℕ, List, OnOk};
ghost use Rattle.kube_base.specs.Bounds.{most_local};
ghost use Rattle.kube_objects.specs.Document.{Doc};
ghost use Rattle.kube_objects.specs.Entry.{Entry, Identity};
ghost use Rattle.kube_objects.specs.Health.{before_pass};
ghost use Rattle.kube_objects.specs.Modes.{nodes, places};
ghost use Rattle.kube_objects.specs.Tick as tick;
ghost use Rattle.kube_objects.specs.declared.deed.Deed.{Deed};
ghost use Rattle.taint_zones.specs.Limits.{LimitsStand};
ghost use Rattle.term_state.specs.MidTick.{IsView, MidTick};
ghost use Rattle.term_state.specs.Sights.{spent};
ghost use Rattle.controller_core.specs.Costs.{HaveCost};
ghost use Rattle.controller_core.specs.Pushing.{PushesStand};

mod head;

use crate::pushing::head::push_first;
use kube_base::{NoMemory, Steps};
use object_store::Store;
use taint_zones::Zones;
use term_state::{Cluster, Told, View};

/// For each zone in order where a push stands and the token is there: one try to write the taint that the first one's node wants by its Ready as it
/// is seen now, or nothing. The token is gone then, whatever the answer.
pub(crate) fn push_heads<L>(
    zones: &mut Zones,
    cluster: &mut Cluster,
    store: &mut Store,
    view: &View,
    told: &mut Told,
    steps: &mut Steps<L>,
) -> Result<(), NoMemory>
    requires { view.now.now.0 ≤ most_local }
    ensures { (doc : Doc) (q : Identity) (k : ℕ) (before : List Deed) (h : List Entry)
        → MidTick doc q k before h cluster.old store.old told.old → LimitsStand doc q h zones.old → PushesStand doc q h zones.old.pushes
        → IsView doc k q h view.entry.now
        → OnOk result (MidTick doc q k before (tick.for_each (tick.push doc k q) (places (nodes q (before_pass q h))) h) cluster.new store.new told.new
        × LimitsStand doc q (tick.for_each (tick.push doc k q) (places (nodes q (before_pass q h))) h) zones.new × PushesStand doc q (tick.for_each (tick.push doc k q) (places (nodes q (before_pass q h))) h) zones.new.pushes
        × HaveCost q k h (tick.for_each (tick.push doc k q) (places (nodes q (before_pass q h))) h) (spent cluster.old steps.old) (spent cluster.new steps.new)) }
{
    let mut next = zones.pushes.next_zone(None);
    while let Some(place) = next {
        push_first(zones, cluster, store, view, told, steps, place)?;
        next = zones.pushes.next_zone(Some(place));
    }
    Ok(())
}
