// The phases of a tick.
ghost use Rattle.std.specs.Prelude.{◌≡◌, ◌≤◌, ◌<◌, ◌+◌, ℕ, true, false, List, length, OnOk};
ghost use Rattle.kube_base.specs.Bounds.{most_local};
ghost use Rattle.kube_objects.specs.Document.{Doc};
ghost use Rattle.kube_objects.specs.Elector.{leads};
ghost use Rattle.kube_objects.specs.Entry.{Entry, Identity};
ghost use Rattle.kube_objects.specs.Health.{is_pass_tick};
ghost use Rattle.kube_objects.specs.Modes.{nodes};
ghost use Rattle.kube_objects.specs.Tainting.{before_tick};
ghost use Rattle.kube_objects.specs.Tick as model;
ghost use Rattle.kube_objects.specs.declared.deed.Deed.{Deed};
ghost use Rattle.kube_objects.specs.declared.rules.JudgeRule.TheVariants as judges;
ghost use Rattle.object_store.specs.Stands.{StoreStands};
ghost use Rattle.taint_zones.specs.Limits.{LimitsStand};
ghost use Rattle.term_state.specs.MidTick.{IsTold, IsView, MidTick};
ghost use Rattle.term_state.specs.Sights.{IsSightKept, spent};
ghost use Rattle.tick_laws.specs.Room.{AreInBeats, AreUpTo};
ghost use Rattle.tick_laws.specs.Steps.{pods_back, tick_cost};
ghost use Rattle.controller_core.specs.Costs.{HaveCost};
ghost use Rattle.controller_core.specs.Looking.{IsFoundBy};
ghost use Rattle.controller_core.specs.Pushing.{PushesStand};
ghost use Rattle.controller_core.specs.Turning.{Headed, Looked, headed, held_after};
ghost use Rattle.controller_core.specs.Working.{pods_passed};
ghost use Rattle.zone_counts.specs.Settings.{AreSettings};

use crate::Term;
use crate::clean::{clean, clean_found};
use crate::evict::evict;
use crate::judging::judge_all;
use crate::pass::found::Found;
use crate::pass::pass;
use crate::pushing::push_heads;
use crate::sync::sync;
use crate::taint::{settle, taint};
use kube_base::{NoMemory, Steps};
use kube_objects::{JudgeRule, NumberList, QueueRule, TickSettings};
use object_store::Store;
use taint_zones::Zones;
use term_state::{Cluster, Told, View};
use zone_state::Policies;

impl Term {
    ghost use Rattle.controller_core.specs.TermStands.{Acted, Begun, TermStands, Went, acted};

    /// A tick but for what is told at its end.
    pub(crate) fn begin<L>(
        &mut self,
        store: &mut Store,
        view: &View,
        policies: &Policies,
        told: &mut Told,
        steps: &mut Steps<L>,
    ) -> Result<(), NoMemory>
        requires { view.now.now.0 ≤ most_local }
        ensures { (doc : Doc) (k : ℕ) (q : Identity) (before : List Deed) (h : List Entry) → TermStands doc q h self.old
            → StoreStands h store.old → IsTold q k before h told.old → IsView doc k q h view.entry.now → AreInBeats h → AreUpTo k h
            → leads q h ≡ true → before_tick q k h ≡ h → is_pass_tick k q h ≡ false
            → length (nodes q (model.sync doc k q h)) < 4294967296
            → OnOk result (Went doc k q before (model.tick doc k q h) self.new store.new told.new
            × (steps.new ≤ steps.old + (1 + pods_back doc q h (model.sync doc k q h) + pods_passed doc k q (model.sync doc k q h)
            + tick_cost q k (model.tick doc k q h)))) }
    {
        sync(&mut self.cluster, self.settles, store, view, steps)?;
        if !self.cluster.is_synced() {
            return Ok(());
        }
        self.act(store, view, policies, told, steps)
    }

    /// What a tick does after its sync.
    pub(crate) fn act<L>(
        &mut self,
        store: &mut Store,
        view: &View,
        policies: &Policies,
        told: &mut Told,
        steps: &mut Steps<L>,
    ) -> Result<(), NoMemory>
        requires { view.now.now.0 ≤ most_local }
        ensures { (doc : Doc) (k : ℕ) (q : Identity) (before : List Deed) (h : List Entry)
            → Begun doc k q before h self.old store.old told.old → IsView doc k q h view.entry.now → AreInBeats h → AreUpTo k h
            → IsSightKept q k h → length (nodes q h) < 4294967296
            → OnOk result (Acted doc k q before (acted doc k q h) self.new store.new told.new
            × HaveCost q k h (acted doc k q h) (spent self.old.cluster steps.old + 1 + pods_passed doc k q h) steps.new) }
    {
        let found = pass(
            self.alloc,
            &mut self.cluster,
            &mut self.health,
            &mut self.zones,
            &mut self.last,
            &self.held,
            store,
            &self.settings,
            policies,
            view,
            told,
            steps,
        )?;
        clean_and_taint(
            &self.settings,
            &found,
            &mut self.zones,
            &mut self.cluster,
            store,
            view,
            told,
            steps,
        )?;
        hold(&mut self.held, found);
        evict(
            &mut self.cluster,
            &mut self.allowance,
            store,
            view,
            told,
            steps,
        )
    }
}

// The nodes that a pass found are held until the next one.
fn hold(held: &mut NumberList, found: Option<Found>)
    ensures { held.new ≡ held_after held.old found }
{
    if let Some(found) = found {
        *held = found.into_names();
    }
}

// Untaints, swaps and queued taints. If nodes are judged at passes alone, these are the judgement of a pass, with its pushes, untaints and swaps, and then the
// heads of the queues.
fn clean_and_taint<L>(
    settings: &TickSettings,
    found: &Option<Found>,
    zones: &mut Zones,
    cluster: &mut Cluster,
    store: &mut Store,
    view: &View,
    told: &mut Told,
    steps: &mut Steps<L>,
) -> Result<(), NoMemory>
    requires { view.now.now.0 ≤ most_local }
    ensures { (doc : Doc) (k : ℕ) (q : Identity) (before : List Deed) (h : List Entry) → AreSettings doc settings.now
        → Looked doc k q before h found.now zones.old cluster.old store.old told.old → IsView doc k q (model.pass doc k q h) view.entry.now
        → OnOk result (Headed doc k q before (headed doc k q h) zones.new cluster.new store.new told.new
        × HaveCost q k (model.pass doc k q h) (headed doc k q h) (spent cluster.old steps.old) (spent cluster.new steps.new)) }
{
    match settings.judge {
        JudgeRule::Tick => {
            clean_by_pass(found, cluster, store, view, told, steps)?;
            settle(&mut zones.queues, cluster, view.beat)?;
            taint(zones, cluster, store, view, told, steps)
        }
        JudgeRule::Pass => {
            let queue = settings.queue;
            judge_found(found, queue, zones, cluster, store, view, told, steps)?;
            push_heads(zones, cluster, store, view, told, steps)
        }
    }
}

// The untaints and swaps of a tick, which may have a pass.
fn clean_by_pass<L>(
    found: &Option<Found>,
    cluster: &mut Cluster,
    store: &mut Store,
    view: &View,
    told: &mut Told,
    steps: &mut Steps<L>,
) -> Result<(), NoMemory>
    ensures { (doc : Doc) (k : ℕ) (q : Identity) (before : List Deed) (h : List Entry) → doc.settings.rules.judge ≡ judges.Tick
        → MidTick doc q k before (model.pass doc k q h) cluster.old store.old told.old → IsView doc k q (model.pass doc k q h) view.entry.now
        → IsFoundBy doc k q h found.now → is_pass_tick k q h ≡ false
        → OnOk result (MidTick doc q k before (model.cleaned doc k q (model.pass doc k q h)) cluster.new store.new told.new
        × HaveCost q k (model.pass doc k q h) (model.cleaned doc k q (model.pass doc k q h)) (spent cluster.old steps.old)
        (spent cluster.new steps.new)) }
{
    match found {
        Some(found) => clean_found(found, cluster, store, view, told, steps),
        None => clean(cluster, store, view, told, steps),
    }
}

// The judgement of a pass, where the tick has one.
fn judge_found<L>(
    found: &Option<Found>,
    queue: QueueRule,
    zones: &mut Zones,
    cluster: &mut Cluster,
    store: &mut Store,
    view: &View,
    told: &mut Told,
    steps: &mut Steps<L>,
) -> Result<(), NoMemory>
    ensures { (doc : Doc) (k : ℕ) (q : Identity) (before : List Deed) (h : List Entry) → doc.settings.rules.judge ≡ judges.Pass
        → queue ≡ doc.settings.rules.queue
        → Looked doc k q before h found.now zones.old cluster.old store.old told.old → IsView doc k q (model.pass doc k q h) view.entry.now
        → OnOk result (MidTick doc q k before (model.cleaned doc k q (model.pass doc k q h)) cluster.new store.new told.new
        × LimitsStand doc q (model.cleaned doc k q (model.pass doc k q h)) zones.new
        × PushesStand doc q (model.cleaned doc k q (model.pass doc k q h)) zones.new.pushes
        × HaveCost q k (model.pass doc k q h) (model.cleaned doc k q (model.pass doc k q h)) (spent cluster.old steps.old)
        (spent cluster.new steps.new)) }
{
    let Some(found) = found else {
        return Ok(());
    };
    zones.pushes.forget_others(&zones.limits);
    judge_all(
        found,
        queue,
        &mut zones.pushes,
        cluster,
        store,
        view,
        told,
        steps,
    )
}
