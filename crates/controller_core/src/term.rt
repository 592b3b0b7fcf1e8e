// A term of a leader.
ghost use Rattle.std.specs.Prelude.{◌≡◌, ◌≤◌, ◌<◌, ◌+◌, ℕ, true, false, List, ◌∷◌, length, IfOk};
ghost use Rattle.kube_base.specs.Bounds.{most_local};
ghost use Rattle.kube_base.specs.declared.numbers.Version.{Version};
ghost use Rattle.history.specs.Printed.{printed};
ghost use Rattle.kube_objects.specs.Clocks.{local};
ghost use Rattle.kube_objects.specs.Document.{Doc};
ghost use Rattle.kube_objects.specs.Elector.{leads};
ghost use Rattle.kube_objects.specs.Entry.{Entry, Identity, Leads, entry};
ghost use Rattle.kube_objects.specs.Health.{is_pass_tick};
ghost use Rattle.kube_objects.specs.Modes.{nodes};
ghost use Rattle.kube_objects.specs.Tainting.{before_tick};
ghost use Rattle.kube_objects.specs.Tick as model;
ghost use Rattle.leader_elector.specs.Stands.{acting_identity};
ghost use Rattle.object_store.specs.Stands.{StoreStands};
ghost use Rattle.term_state.specs.MidTick.{IsView};
ghost use Rattle.tick_laws.specs.Room.{AreInBeats, AreUpTo};
ghost use Rattle.tick_laws.specs.Steps.{pods_back, tick_cost};
ghost use Rattle.controller_core.specs.Working.{pods_passed};
ghost use Rattle.watch_cache.specs.Stands.{ticks};
ghost use Rattle.zone_counts.specs.Settings.{AreSettings};

use crate::pass::work::LastPass;
use crate::sync::settles_after;
use kube_base::{Local, NoMemory, Steps};
use kube_objects::{Actor, Deeds, NumberList, TickSettings};
use leader_elector::Acting;
use node_health::Health;
use object_store::Store;
use rate_bucket::Allowance;
use std::alloc::Global;
use taint_zones::Zones;
use term_state::{Cluster, Told, View};
use zone_state::Policies;

/// A term of a leader: what it has seen of the cluster since it began to lead, and what its ticks keep.
///
/// After `NoMemory` the term and the store may only be dropped. Source: the node lifecycle controller of Kubernetes and its
/// taint eviction controller.
#[derive(Drop)]
pub struct Term {
    pub(crate) alloc: Global,
    pub(crate) settings: TickSettings,
    pub(crate) cluster: Cluster,
    pub(crate) health: Health,
    pub(crate) zones: Zones,
    pub(crate) last: Option<LastPass>,
    // The nodes that the last pass found.
    pub(crate) held: NumberList,
    // The reading from which it may sync, where it waits for one.
    pub(crate) settles: Option<Local>,
    // How many pods it may still evict.
    pub(crate) allowance: Allowance,
    ghost ordered: { settings.secondary_rate ≤ settings.primary_rate },
}

impl Term {
    ghost use Rattle.controller_core.specs.TermStands.{TermStands, Ticked};

    /// A term that begins. It has seen nothing, and doesn't lead yet.
    pub fn new(alloc: Global, settings: &TickSettings) -> Term
        requires { settings.now.secondary_rate ≤ settings.now.primary_rate }
        ensures { (doc : Doc) (q : Identity) (h : List Entry) → ticks q h ≡ 0 → leads q h ≡ false → AreSettings doc settings.now
            → TermStands doc q h result }
    {
        Term {
            alloc,
            settings: *settings,
            cluster: Cluster::new(alloc, settings.evict_from),
            health: Health::new(alloc, settings.probe),
            zones: Zones::new(alloc),
            last: None,
            held: NumberList::new(alloc),
            settles: None,
            allowance: Allowance::full(settings.evict_burst, settings.evict_rate),
        }
    }

    /// Forgets what it has seen, as when another term begins.
    pub fn renew(&mut self)
        ensures { (doc : Doc) (q : Identity) (h : List Entry) → ticks q h ≡ 0 → leads q h ≡ false → AreSettings doc self.old.settings
            → TermStands doc q h self.new }
    {
        *self = Term::new(self.alloc, &self.settings);
    }

    /// Begins to lead at a reading: it syncs no sooner than so long after it as the settings say.
    pub fn lead(&mut self, now: Local)
        requires { now.0 ≤ most_local }
        ensures { (doc : Doc) (k step : ℕ) (q : Identity) (version : Version) (h : List Entry) → TermStands doc q h self.old
            → now.0 ≡ local doc q.process k → TermStands doc q (entry k step q (Leads version) ∷ h) self.new }
    {
        self.settles = settles_after(now, self.settings.first_sync_millis);
    }

    /// One tick of a term that leads: a sync, once it has settled, and after the first one a pass if it is due, untaints and swaps, queued
    /// taints, and evictions.
    /// Answers the printed deeds in order. It counts at most one step more than the cost of the tick, the pods that its pass sets not
    /// ready, if that takes time, and twice those of nodes that its sync sees anew, if dues count from what is seen.
    pub fn tick<L>(
        &mut self,
        acting: &Acting<'_>,
        store: &mut Store,
        view: &View,
        policies: &Policies,
        steps: &mut Steps<L>,
    ) -> Result<Deeds, NoMemory>
        requires { view.now.now.0 ≤ most_local }
        ensures { (doc : Doc) (k : ℕ) (q : Identity) (h : List Entry) → TermStands doc q h self.old → StoreStands h store.old
            → IsView doc k q h view.entry.now → acting_identity acting.now ≡ q → AreInBeats h → AreUpTo k h → leads q h ≡ true
            → before_tick q k h ≡ h → is_pass_tick k q h ≡ false
            → length (nodes q (model.sync doc k q h)) < 4294967296
            → IfOk result (λ deeds. Ticked doc k q h deeds self.new store.new
            × (steps.new ≤ steps.old + (1 + pods_back doc q h (model.sync doc k q h) + pods_passed doc k q (model.sync doc k q h)
            + tick_cost q k (model.tick doc k q h)))) }
    {
        let (process, incarnation) = acting.identity();
        let mut told = Told::new(self.alloc, Actor::Proc(process, incarnation), view.beat);
        self.begin(store, view, policies, &mut told, steps)?;
        self.cluster.forget_moved();
        Ok(told.into_deeds())
    }
}
