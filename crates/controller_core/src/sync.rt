// The sync of a tick: what was written since the last one is taken over, and judged.
ghost use Rattle.std.specs.Prelude.{◌≡◌, ◌≤◌, ◌+◌, ◌==◌, ◌&&◌, not, ℕ, false, cond, List, Some, None, OnOk};
ghost use Rattle.kube_base.specs.Bounds.{most_local};
ghost use Rattle.kube_objects.specs.Clocks.{local};
ghost use Rattle.kube_objects.specs.Document.{Doc, of_millis};
ghost use Rattle.kube_objects.specs.Entry.{Entry, Identity};
ghost use Rattle.kube_objects.specs.InForce.{watches};
ghost use Rattle.kube_objects.specs.Seen as seen_words;
ghost use Rattle.kube_objects.specs.Tainting.{before_tick};
ghost use Rattle.kube_objects.specs.Tick as tick;
ghost use Rattle.object_store.specs.Stands.{StoreStands};
ghost use Rattle.tick_laws.specs.Since.{AreReached};
ghost use Rattle.tick_laws.specs.Steps.{pods_back};
ghost use Rattle.controller_core.specs.Costs.{HaveCost};
ghost use Rattle.controller_core.specs.FirstSync.{IsSettling};
ghost use Rattle.controller_core.specs.Passing.{reading_of};
ghost use Rattle.term_state.specs.ClusterStands.{ClusterStands, no_pod};
ghost use Rattle.term_state.specs.MidTick.{IsMoved, IsView};
ghost use Rattle.term_state.specs.Sights.{SettledBy, SightedBy, spent};

mod judge;

use crate::pass::due::picoseconds;
use crate::sync::judge::judge_changes;
use kube_base::{Local, NoMemory, Steps};
use kube_objects::Feed;
use object_store::Store;
use term_state::{Cluster, View};

// Whether what the term sees is up to date.
fn is_fresh(cluster: &Cluster, store: &Store) -> bool
    ensures { (q : Identity) (h : List Entry) → ClusterStands q h cluster.now → StoreStands h store.now → result ≡ seen_words.is_fresh q h }
{
    cluster.is_synced() && cluster.position() == store.changes()
}

/// Whether a tick of a term that has settled begins with a sync.
pub(crate) fn syncs(cluster: &Cluster, store: &Store, watch: bool) -> bool
    ensures { (doc : Doc) (q : Identity) (h : List Entry) → ClusterStands q h cluster.now → StoreStands h store.now
        → watch ≡ watches doc q.process h
        → result ≡ (watches doc q.process h && not (seen_words.is_fresh q h)) }
{
    watch && !is_fresh(cluster, store)
}

/// Whether a tick of a term that waits so long after its lead begins with a sync whatever the time.
pub(crate) fn syncs_at_once(
    first_sync_millis: u32,
    cluster: &Cluster,
    store: &Store,
    watch: bool,
) -> bool
    ensures { (doc : Doc) (q : Identity) (h : List Entry) → first_sync_millis ≡ doc.settings.rules.first_sync_millis
        → ClusterStands q h cluster.now → StoreStands h store.now → watch ≡ watches doc q.process h
        → result ≡ ((doc.settings.rules.first_sync_millis == 0) && (watches doc q.process h && not (seen_words.is_fresh q h))) }
{
    first_sync_millis == 0 && syncs(cluster, store, watch)
}

/// The reading from which a term may sync that leads from this one on; None if it waits for nothing.
pub(crate) fn settles_after(now: Local, first_sync_millis: u32) -> Option<Local>
    requires { now.0 ≤ most_local }
    ensures { reading_of result ≡ cond (first_sync_millis == 0) None (Some (now.0 + of_millis first_sync_millis)) }
{
    if first_sync_millis == 0 {
        return None;
    }
    Some(Local(now.0 + picoseconds(first_sync_millis)))
}

// Whether a term may sync by now.
fn has_settled(settles: Option<Local>, now: Local) -> bool
    ensures { (doc : Doc) (k : ℕ) (q : Identity) (h : List Entry) → IsSettling doc q h settles → now.0 ≡ local doc q.process k
        → result ≡ tick.has_settled doc k q h }
{
    match settles {
        None => true,
        Some(at) => at.0 <= now.0,
    }
}

/// Brings what the term sees up to date, if it has settled, the watch is on and something was written.
pub(crate) fn sync<L>(
    cluster: &mut Cluster,
    settles: Option<Local>,
    store: &Store,
    view: &View,
    steps: &mut Steps<L>,
) -> Result<(), NoMemory>
    ensures stands { (doc : Doc) (k : ℕ) (q : Identity) (h : List Entry) → IsSettling doc q h settles → ClusterStands q h cluster.old
        → StoreStands h store.now → AreReached q h → IsView doc k q h view.entry.now → cluster.old.evict_from ≡ doc.settings.rules.evict_from
        → OnOk result (ClusterStands q (tick.sync doc k q h) cluster.new
        × HaveCost q k h (tick.sync doc k q h) (spent cluster.old steps.old + pods_back doc q h (tick.sync doc k q h)) (spent cluster.new steps.new)) }
    ensures store { (doc : Doc) (k : ℕ) (q : Identity) (h : List Entry) → StoreStands h store.now
        → StoreStands (tick.sync doc k q h) store.now }
    ensures moved { (doc : Doc) (k : ℕ) (q : Identity) (h : List Entry) → IsSettling doc q h settles → ClusterStands q h cluster.old
        → StoreStands h store.now → AreReached q h → IsView doc k q h view.entry.now → IsMoved q k h cluster.old
        → before_tick q k (tick.sync doc k q h) ≡ before_tick q k h
        → OnOk result (IsMoved q k (tick.sync doc k q h) cluster.new) }
    ensures sights { (doc : Doc) (k : ℕ) (q : Identity) (h : List Entry) → IsSettling doc q h settles → ClusterStands q h cluster.old
        → StoreStands h store.now → AreReached q h → IsView doc k q h view.entry.now → before_tick q k h ≡ h
        → cluster.old.evict_from ≡ doc.settings.rules.evict_from → SettledBy doc.settings.rules.evict_from doc q h no_pod cluster.old
        → OnOk result ((cluster.new.evict_from ≡ doc.settings.rules.evict_from)
        × SightedBy doc.settings.rules.evict_from doc k q (tick.sync doc k q h) cluster.new
        × (seen_words.is_synced q (tick.sync doc k q h) ≡ false → SettledBy doc.settings.rules.evict_from doc q h no_pod cluster.new)) }
{
    if !has_settled(settles, view.now) {
        return Ok(());
    }
    if !syncs(cluster, store, view.watch) {
        return Ok(());
    }
    let position = cluster.position();
    let to_judge = cluster.take_over(store, steps)?;
    judge_changes(cluster, store, position, &to_judge, steps)
}
