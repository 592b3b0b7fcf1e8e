// The evictions of a tick: pods that are due are deleted.
ghost use Rattle.std.specs.Prelude.{◌≡◌, ◌≤◌, ◌+◌, ℕ, List, OnOk};
ghost use Rattle.kube_base.specs.Bounds.{most_local};
ghost use Rattle.kube_objects.specs.Document.{Doc};
ghost use Rattle.kube_objects.specs.Entry.{Entry, Identity};
ghost use Rattle.kube_objects.specs.Tick as tick;
ghost use Rattle.kube_objects.specs.declared.deed.Deed.{Deed};
ghost use Rattle.tick_laws.specs.Room.{AreInBeats, AreUpTo};
ghost use Rattle.controller_core.specs.Allowing.{AllowanceStands};
ghost use Rattle.controller_core.specs.Costs.{HaveCost};
ghost use Rattle.controller_core.specs.Deleting.{Deleting};
ghost use Rattle.term_state.specs.ClusterStands.{no_pod};
ghost use Rattle.term_state.specs.MidTick.{IsView, MidTick};
ghost use Rattle.term_state.specs.Sights.{IsSightKept, spent};

mod attempt;

use crate::evict::attempt::evict_one;
use kube_base::{NoMemory, Steps};
use object_store::Store;
use rate_bucket::Allowance;
use term_state::{Cluster, Told, View};

/// Deletes pods that are due by now: each in the order of keys, or with a limit by due time, and of equal ones by key, while a token is there.
/// A pod whose delete is lost stays due; one whose delete is refused isn't tried again before the next sync. It counts two steps for each
/// delete, one for each pod whose row may have changed, and one more.
pub(crate) fn evict<L>(
    cluster: &mut Cluster,
    allowance: &mut Allowance,
    store: &mut Store,
    view: &View,
    told: &mut Told,
    steps: &mut Steps<L>,
) -> Result<(), NoMemory>
    requires { view.now.now.0 ≤ most_local }
    ensures { (doc : Doc) (k : ℕ) (q : Identity) (before : List Deed) (h : List Entry)
        → AreInBeats h → AreUpTo k h → IsSightKept q k h → MidTick doc q k before h cluster.old store.old told.old
        → IsView doc k q h view.entry.now → AllowanceStands doc q h allowance.old
        → OnOk result (Deleting doc q k before (tick.evicted doc k q h) no_pod cluster.new store.new told.new
        × AllowanceStands doc q (tick.evicted doc k q h) allowance.new
        × HaveCost q k h (tick.evicted doc k q h) (spent cluster.old steps.old + 1) steps.new) }
{
    cluster.settle_rows(view.wall, steps)?;
    if !allowance.is_limited() {
        return evict_all(cluster, store, view, told, steps);
    }
    // A delete that is lost takes no token and changes nothing, so none is made then.
    if !view.passes {
        return Ok(());
    }
    while allowance.is_there(view.now) {
        let Some(pod) = cluster.next_due(view.wall, steps) else {
            return Ok(());
        };
        allowance.take(view.now);
        evict_one(cluster, store, view, told, steps, pod)?;
    }
    Ok(())
}

// Deletes each pod that is due, in the order of keys.
fn evict_all<L>(
    cluster: &mut Cluster,
    store: &mut Store,
    view: &View,
    told: &mut Told,
    steps: &mut Steps<L>,
) -> Result<(), NoMemory>
    ensures { (doc : Doc) (k : ℕ) (q : Identity) (before : List Deed) (h : List Entry)
        → doc.settings.rules.evict_burst ≡ 0 → Deleting doc q k before h no_pod cluster.old store.old told.old → IsView doc k q h view.entry.now
        → OnOk result (Deleting doc q k before (tick.evicted doc k q h) no_pod cluster.new store.new told.new
        × HaveCost q k h (tick.evicted doc k q h) (steps.old + 1) steps.new) }
{
    let mut todo = cluster.take_due(view.wall, steps)?;
    while let Some(pod) = todo.pop_first() {
        evict_one(cluster, store, view, told, steps, pod)?;
    }
    Ok(())
}
