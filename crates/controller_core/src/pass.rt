// The pass of a tick: the nodes that are marked Unknown, the mode in which every zone is disrupted, and the zones' states and rates.
ghost use Rattle.std.specs.Prelude.{◌≡◌, ◌≤◌, ◌<◌, ◌+◌, ℕ, List, length, IfOk, OnOk};
ghost use Rattle.kube_base.specs.Bounds.{most_local};
ghost use Rattle.kube_objects.specs.Document.{Doc};
ghost use Rattle.kube_objects.specs.Entry.{Entry, Identity};
ghost use Rattle.kube_objects.specs.Modes.{nodes};
ghost use Rattle.kube_objects.specs.Tick as model;
ghost use Rattle.kube_objects.specs.declared.deed.Deed.{Deed};
ghost use Rattle.node_health.specs.Stands.{HealthStands};
ghost use Rattle.taint_zones.specs.Limits.{LimitsStand};
ghost use Rattle.taint_zones.specs.Waiting.{since};
ghost use Rattle.taint_zones.specs.declared.place.Place.{Place};
ghost use Rattle.term_state.specs.MidTick.{IsView, MidTick};
ghost use Rattle.term_state.specs.Sights.{spent};
ghost use Rattle.controller_core.specs.Costs.{HaveCost};
ghost use Rattle.controller_core.specs.Looking.{HeldStand, IsFoundBy};
ghost use Rattle.controller_core.specs.Passing.{IsLastInRange, LastStands};
ghost use Rattle.controller_core.specs.Working.{pods_passed};
ghost use Rattle.zone_counts.specs.Settings.{AreSettings};

mod counting;
pub(crate) mod due;
pub(crate) mod found;
mod looks;
mod marking;
mod mode;
pub(crate) mod work;
mod zones;

use crate::pass::counting::count;
use crate::pass::due::{is_due, picoseconds};
use crate::pass::found::{Found, looks_before, turns_on};
use crate::pass::looks::look_all;
use crate::pass::mode::set_mode;
use crate::pass::work::{LastPass, PodWrites, period_after};
use crate::pass::zones::set_zones;
use kube_base::{NoMemory, Steps};
use kube_objects::{NumberList, TickSettings};
use node_health::{Grace, Health};
use object_store::Store;
use std::alloc::Global;
use taint_zones::Zones;
use term_state::{Cluster, Told, View};
use zone_state::Policies;

/// The pass of a tick over what the term sees, if one is due: nodes that were silent for longer than their grace are marked
/// Unknown, the mode in which every zone is disrupted begins or ends, and the zones get their states and rates. The next one is due so
/// much later as it takes to set the pods of marked nodes not ready. It counts a step for each of these pods, if that takes time.
pub(crate) fn pass<L>(
    alloc: Global,
    cluster: &mut Cluster,
    health: &mut Health,
    zones: &mut Zones,
    last: &mut Option<LastPass>,
    held: &NumberList,
    store: &mut Store,
    settings: &TickSettings,
    policies: &Policies,
    view: &View,
    told: &mut Told,
    steps: &mut Steps<L>,
) -> Result<Option<Found>, NoMemory>
    requires ordered { settings.now.secondary_rate ≤ settings.now.primary_rate }
    requires reading { view.now.now.0 ≤ most_local }
    ensures stands { (doc : Doc) (k : ℕ) (q : Identity) (before : List Deed) (h : List Entry)
        → MidTick doc q k before h cluster.old store.old told.old
        → HealthStands doc q h health.old → LimitsStand doc q h zones.old → LastStands doc q h last.old → IsView doc k q h view.entry.now
        → AreSettings doc settings.now → length (nodes q h) < 4294967296
        → OnOk result (MidTick doc q k before (model.pass doc k q h) cluster.new store.new told.new
        × HealthStands doc q (model.pass doc k q h) health.new
        × LimitsStand doc q (model.pass doc k q h) zones.new × LastStands doc q (model.pass doc k q h) last.new
        × HaveCost q k h (model.pass doc k q h) (spent cluster.old steps.old + pods_passed doc k q h) (spent cluster.new steps.new)) }
    ensures found { (doc : Doc) (k : ℕ) (q : Identity) (before : List Deed) (h : List Entry)
        → MidTick doc q k before h cluster.old store.old told.old
        → HealthStands doc q h health.old → LastStands doc q h last.old → IsView doc k q h view.entry.now
        → AreSettings doc settings.now → length (nodes q h) < 4294967296 → HeldStand q h held.now
        → IfOk result (λ found. IsFoundBy doc k q h found) }
    ensures range { IsLastInRange last.old → IsLastInRange last.new }
    ensures queues { (zone : Place) (node : ℕ) → since zones.new.queues zone node ≡ since zones.old.queues zone node }
    ensures pushes { zones.new.pushes ≡ zones.old.pushes }
{
    if !is_due(*last, view.now) {
        return Ok(None);
    }
    let grace = Grace {
        grace: picoseconds(settings.grace_period_millis),
        startup: picoseconds(settings.startup_grace_millis),
    };
    let names = cluster.nodes()?;
    let looks = looks_before(alloc, settings, &names, held, cluster)?;
    let was = cluster.mode();
    let mut writes = PodWrites::new(settings.ready_millis);
    look_all(
        &names,
        cluster,
        health,
        store,
        view,
        &grace,
        told,
        &mut writes,
        steps,
    )?;
    *last = Some(LastPass {
        at: view.now,
        period: period_after(settings, writes.count),
    });
    health.forget_others(&names);
    let counts = count(alloc, &names, cluster)?;
    set_mode(
        &counts,
        settings.unhealthy_percent,
        &names,
        cluster,
        health,
        view,
        told,
    )?;
    let on = cluster.mode();
    set_zones(alloc, &counts, on, zones, settings, policies, view, told)?;
    Ok(Some(Found {
        names,
        looks,
        turned: turns_on(was, on),
    }))
}
