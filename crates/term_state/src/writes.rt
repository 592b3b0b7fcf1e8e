// A write of a node that a tick tries, and what its answer leaves.
ghost use Rattle.std.specs.Prelude.{◌≡◌, ◌≤◌, ◌+◌, not, ℕ, true, List, Some, None, OnOk, IfOk};
ghost use Rattle.history.specs.Printed.{map_answer, tick_act};
ghost use Rattle.kube_objects.specs.Document.{Doc};
ghost use Rattle.kube_objects.specs.Entry.{Entry, Identity, Tick};
ghost use Rattle.kube_objects.specs.Newest.{has, only_if};
ghost use Rattle.kube_objects.specs.Seen.{is_synced, seen_node};
ghost use Rattle.kube_objects.specs.Stored as stored_words;
ghost use Rattle.kube_objects.specs.Stored.{node_write};
ghost use Rattle.kube_objects.specs.Tainting.{before_tick};
ghost use Rattle.kube_objects.specs.Tick.{add};
ghost use Rattle.kube_objects.specs.Tries as tries;
ghost use Rattle.kube_objects.specs.Wire.{loses_requests};
ghost use Rattle.kube_objects.specs.declared.deed.Deed.{Deed};
ghost use Rattle.object_store.specs.Stands.{StoreStands};
ghost use Rattle.tick_laws.specs.Changes.{IsChange, noted_by};
ghost use Rattle.tick_laws.specs.Steps.{own_cost, tick_cost};
ghost use Rattle.term_state.specs.MidTick.{IsTold, IsView, MidTick};
ghost use Rattle.term_state.specs.Sights.{SightedBy, spent};
ghost use Rattle.term_state.specs.Writes.{IsWrite, act_for, makes_stale, stale_by};

use crate::tries::try_node;
use crate::{Cluster, NodeTry, Told, View};
use kube_base::{NoMemory, Steps};
use kube_objects::{Act, Answer, Node};
use object_store::Store;

/// A write of a node: a mark, with its reason; an untaint; a swap to the taint with this key; or a taint with this key.
#[derive(Clone, Copy, Debug, PartialEq, Eq)]
pub enum NodeWrite {
    Mark(u32),
    Untaint,
    Swap(u32),
    Taint(u32),
}

fn act_for(write: NodeWrite, name: u32, answer: Answer) -> Act
    ensures { result ≡ act_for write name answer }
{
    match write {
        NodeWrite::Mark(reason) => Act::Marked(name, reason, answer),
        NodeWrite::Untaint => Act::Untainted(name, answer),
        NodeWrite::Swap(wanted) => Act::Swapped(name, wanted, answer),
        NodeWrite::Taint(wanted) => Act::Tainted(name, wanted, answer),
    }
}

// Whether the node is stale where the write is refused.
fn makes_stale(write: NodeWrite) -> bool
    ensures { result ≡ makes_stale write }
{
    match write {
        NodeWrite::Mark(_) => false,
        NodeWrite::Untaint => true,
        NodeWrite::Swap(_) => true,
        NodeWrite::Taint(_) => false,
    }
}

// Tells of a write that was answered.
fn tell(
    told: &mut Told,
    name: u32,
    write: NodeWrite,
    answer: Option<Answer>,
) -> Result<(), NoMemory>
    ensures { (q : Identity) (k : ℕ) (before : List Deed) (h : List Entry) (tick : Tick) → IsTold q k before h told.old
        → tick_act tick ≡ map_answer (λ a. act_for write name a) answer → OnOk result (IsTold q k before (add k q tick h) told.new) }
{
    match answer {
        None => Ok(()),
        Some(answer) => told.add(act_for(write, name, answer)),
    }
}

impl Cluster {
    ghost use Rattle.term_state.specs.ClusterStands.{ClusterStands};
    ghost use Rattle.term_state.specs.MidTick.{IsMoved};
    ghost use Rattle.kube_objects.specs.declared.key.Key.{Key};
    ghost use Rattle.term_state.specs.Sights.{IsRetained, has_touched, touched_len};

    // What an answer leaves: an accepted write is seen, and a lost one changes nothing.
    fn note_answer<L>(
        &mut self,
        name: u32,
        written: Node,
        write: NodeWrite,
        answer: Option<Answer>,
        steps: &mut Steps<L>,
    ) -> Result<(), NoMemory>
        ensures stands { (q : Identity) (k : ℕ) (h g : List Entry) → ClusterStands q h self.old → IsMoved q k h self.old
            → is_synced q h ≡ true → before_tick q k g ≡ before_tick q k h
            → IsChange q h g (noted_by name written answer) (stale_by write name answer)
            → OnOk result (ClusterStands q g self.new × IsMoved q k g self.new) }
        ensures sights { (doc : Doc) (q : Identity) (k : ℕ) (h g : List Entry) → ClusterStands q h self.old → is_synced q h ≡ true
            → before_tick q k g ≡ before_tick q k h → IsChange q h g (noted_by name written answer) (stale_by write name answer)
            → has (seen_node q name h) ≡ true → SightedBy self.old.evict_from doc k q h self.old
            → OnOk result (SightedBy self.old.evict_from doc k q g self.new) }
        ensures retained { OnOk result (IsRetained self.old self.new) }
        ensures counted { (q : Identity) (h g : List Entry) → ClusterStands q h self.old → is_synced q h ≡ true
            → IsChange q h g (noted_by name written answer) (stale_by write name answer)
            → OnOk result (spent self.new steps.new
            ≤ spent self.old steps.old + own_cost q h g (stored_words.try_write (node_write name written) answer)) }
    {
        let Some(answer) = answer else {
            return Ok(());
        };
        match answer {
            Answer::Done(version) => self.note_node(name, version, written, steps),
            _ => self.note_refusal(name, makes_stale(write)),
        }
    }

    // What a refusal leaves.
    fn note_refusal(&mut self, name: u32, stale: bool) -> Result<(), NoMemory>
        ensures stands { (q : Identity) (k : ℕ) (h g : List Entry) → ClusterStands q h self.old → IsMoved q k h self.old
            → before_tick q k g ≡ before_tick q k h → IsChange q h g None (only_if stale (Some (stored_words.node_key name)))
            → OnOk result (ClusterStands q g self.new × IsMoved q k g self.new) }
        ensures retained { IsRetained self.old self.new }
        ensures touched { (key : Key) → has_touched self.new key ≡ has_touched self.old key }
        ensures untouched { touched_len self.new ≡ touched_len self.old }
    {
        if stale {
            return self.refuse_node(name);
        }
        Ok(())
    }
}

/// Tries to write a node in the place of the one with that version, and returns how it went. None if the try is lost,
/// which is if requests don't pass.
///
/// What is answered is told, and an accepted write is seen. A refused untaint or swap makes the node stale until the next
/// sync. It counts at most two steps for each pod on the node, with those that settling its row counts later, and none if its taints are as
/// they were seen.
pub fn try_write<L>(
    cluster: &mut Cluster,
    store: &mut Store,
    view: &View,
    told: &mut Told,
    steps: &mut Steps<L>,
    made: NodeTry,
) -> Result<Option<Answer>, NoMemory>
    ensures answer { (q : Identity) (h : List Entry) → StoreStands h store.old → view.entry.now.passes ≡ not (loses_requests q.process h)
        → IfOk result (λ answer. answer ≡ tries.try_node q made.name made.given h) }
    ensures stands { (doc : Doc) (k : ℕ) (q : Identity) (before : List Deed) (h : List Entry) (tick : Tick)
        → MidTick doc q k before h cluster.old store.old told.old → IsView doc k q h view.entry.now
        → IsWrite made.write made.name made.written (tries.try_node q made.name made.given h) tick → has (seen_node q made.name h) ≡ true
        → OnOk result (MidTick doc q k before (add k q tick h) cluster.new store.new told.new) }
    ensures counted { (doc : Doc) (k : ℕ) (q : Identity) (before : List Deed) (h : List Entry) (tick : Tick)
        → MidTick doc q k before h cluster.old store.old told.old → IsView doc k q h view.entry.now
        → IsWrite made.write made.name made.written (tries.try_node q made.name made.given h) tick
        → OnOk result (spent cluster.new steps.new + tick_cost q k h ≤ spent cluster.old steps.old + tick_cost q k (add k q tick h)) }
{
    let answer = try_node(store, view.passes, made.name, made.given, &made.written)?;
    tell(told, made.name, made.write, answer)?;
    cluster.note_answer(made.name, made.written, made.write, answer, steps)?;
    Ok(answer)
}
