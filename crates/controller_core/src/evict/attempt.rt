// Deleting one pod that is due.
ghost use Rattle.std.specs.Prelude.{◌≡◌, ◌≤◌, ◌+◌, not, ℕ, Bool, true, List, None, IfOk, OnOk};
ghost use Rattle.kube_objects.specs.Clocks.{wall};
ghost use Rattle.kube_objects.specs.Document.{Doc};
ghost use Rattle.kube_objects.specs.Entry.{Delete, Entry, Identity, Tick};
ghost use Rattle.kube_objects.specs.Seen.{is_pod};
ghost use Rattle.kube_objects.specs.Stored.{tick_write, try_write};
ghost use Rattle.kube_objects.specs.Tick as tick;
ghost use Rattle.kube_objects.specs.Wire.{loses_requests};
ghost use Rattle.kube_base.specs.declared.numbers.Version.{Version};
ghost use Rattle.kube_objects.specs.declared.deed.Deed.{Deed};
ghost use Rattle.kube_objects.specs.declared.key.Key.{Key};
ghost use Rattle.kube_objects.specs.declared.pod.Due.TheVariants.{At};
ghost use Rattle.object_store.specs.Stands.{StoreStands};
ghost use Rattle.tick_laws.specs.Judged.{is_by_now, term_due};
ghost use Rattle.term_state.specs.ClusterStands.{but_pod, has_moved};
ghost use Rattle.term_state.specs.MidTick.{IsTold, IsView};
ghost use Rattle.controller_core.specs.Deleting.{Deleting, DuesBut, answered};

use kube_base::{NoMemory, Steps};
use kube_objects::{Act, Answer, Due, Key};
use object_store::Store;
use term_state::{Cluster, Eviction, Told, View, try_delete, try_delete_alone};

// What a try to delete a pod leaves. Its due, which was taken out before, is set again where the try was lost.
fn note(
    cluster: &mut Cluster,
    pod: Key,
    eviction: &Eviction,
    answer: Option<Answer>,
) -> Result<(), NoMemory>
    ensures stands { (doc : Doc) (k : ℕ) (q : Identity) (h : List Entry) (given node_given : Version) (pods : Key → Bool)
        → DuesBut doc q h pods cluster.old → is_pod pod.kind ≡ true → term_due doc q pod h ≡ At (eviction.now.due.0)
        → OnOk result (DuesBut doc q (tick.add k q (Delete pod given node_given (eviction.now.due.0) answer) h) (but_pod pod pods) cluster.new) }
    ensures moved { (n : ℕ) → has_moved cluster.new n ≡ has_moved cluster.old n }
{
    let Some(answer) = answer else {
        return restore_due(cluster, pod, eviction);
    };
    match answer {
        Answer::Done(_) => cluster.note_delete(pod),
        Answer::Absent => cluster.refuse_pod(pod),
        Answer::Exists => cluster.refuse_pod(pod),
        Answer::Conflict(_) => cluster.refuse_pod(pod),
    }
}

// The pod's due is set again.
fn restore_due(cluster: &mut Cluster, pod: Key, eviction: &Eviction) -> Result<(), NoMemory>
    ensures stands { (doc : Doc) (k : ℕ) (q : Identity) (h : List Entry) (given node_given : Version) (pods : Key → Bool)
        → DuesBut doc q h pods cluster.old → is_pod pod.kind ≡ true → term_due doc q pod h ≡ At (eviction.now.due.0)
        → OnOk result (DuesBut doc q (tick.add k q (Delete pod given node_given (eviction.now.due.0) None) h) (but_pod pod pods) cluster.new) }
    ensures moved { (n : ℕ) → has_moved cluster.new n ≡ has_moved cluster.old n }
{
    cluster.set_due(pod, Due::At(u128::from(eviction.due.0)))
}

/// Deletes one pod that is due by now. It counts a step.
pub(crate) fn evict_one<L>(
    cluster: &mut Cluster,
    store: &mut Store,
    view: &View,
    told: &mut Told,
    steps: &mut Steps<L>,
    pod: Key,
) -> Result<(), NoMemory>
    ensures stands { (doc : Doc) (k : ℕ) (q : Identity) (before : List Deed) (h : List Entry) (pods : Key → Bool)
        → Deleting doc q k before h pods cluster.old store.old told.old → IsView doc k q h view.entry.now
        → is_by_now (wall doc q.process k) (term_due doc q pod h) ≡ true
        → OnOk result (Deleting doc q k before (tick.evict doc k q pod h) (but_pod pod pods) cluster.new store.new told.new) }
    ensures counted { steps.new ≤ steps.old + 1 }
{
    let Some(eviction) = cluster.eviction(&pod, view.wall, steps) else {
        return Ok(());
    };
    let answer = try_eviction(store, view.passes, pod, &eviction)?;
    tell(told, pod, &eviction, answer)?;
    note(cluster, pod, &eviction, answer)
}

// Tries to delete a pod by its version, and by that of its node where the eviction names it.
fn try_eviction(
    store: &mut Store,
    passes: bool,
    pod: Key,
    eviction: &Eviction,
) -> Result<Option<Answer>, NoMemory>
    ensures answer { (q : Identity) (h : List Entry) → StoreStands h store.old → passes ≡ not (loses_requests q.process h)
        → IfOk result (λ answer. answer ≡ answered q pod eviction.now h) }
    ensures stands { (q : Identity) (k : ℕ) (h : List Entry) (made : Tick) → StoreStands h store.old → passes ≡ not (loses_requests q.process h)
        → tick_write made ≡ try_write (pod, None) (answered q pod eviction.now h)
        → OnOk result (StoreStands (tick.add k q made h) store.new) }
{
    match eviction.node {
        Some(node) => try_delete(store, passes, pod, eviction.given, node.0, node.1),
        None => try_delete_alone(store, passes, pod, eviction.given),
    }
}

// Tells of a try that was answered.
fn tell(
    told: &mut Told,
    pod: Key,
    eviction: &Eviction,
    answer: Option<Answer>,
) -> Result<(), NoMemory>
    ensures { (q : Identity) (k : ℕ) (before : List Deed) (h : List Entry) (given node_given : Version) → IsTold q k before h told.old
        → OnOk result (IsTold q k before (tick.add k q (Delete pod given node_given (eviction.now.due.0) answer) h) told.new) }
{
    match answer {
        None => Ok(()),
        Some(answer) => told.add(Act::Evicted(pod, eviction.due, answer)),
    }
}
