// Looks at the nodes.
ghost use Rattle.std.specs.Prelude.{◌≡◌, ℕ, Bool, true, false, List, Some, OnOk};
ghost use Rattle.kube_objects.specs.Document.{Doc};
ghost use Rattle.kube_base.specs.declared.numbers.Version.{Version};
ghost use Rattle.kube_objects.specs.Entry.{Entry, Identity, Mark, Pass};
ghost use Rattle.kube_objects.specs.Health as health_words;
ghost use Rattle.kube_objects.specs.Newest.{has};
ghost use Rattle.kube_objects.specs.Seen.{is_synced, seen_lease, seen_node};
ghost use Rattle.kube_objects.specs.Stored as stored_words;
ghost use Rattle.kube_objects.specs.Tick.{add};
ghost use Rattle.kube_objects.specs.Tick as model;
ghost use Rattle.kube_objects.specs.declared.deed.Deed.{Deed};
ghost use Rattle.kube_objects.specs.declared.node.Node.{Node};
ghost use Rattle.kube_objects.specs.declared.rules.ProbeRule.TheVariants as probes;
ghost use Rattle.node_health.specs.Kept.{kept, rule_of};
ghost use Rattle.node_health.specs.Stands.{HealthStands, IsGraceOf, IsNoted, PassStands, and_looked};
ghost use Rattle.term_state.specs.ClusterStands.{ClusterStands};
ghost use Rattle.term_state.specs.MidTick.{IsView, MidTick};
ghost use Rattle.term_state.specs.Sights.{spent};
ghost use Rattle.controller_core.specs.Passing.{IsPassing};
ghost use Rattle.controller_core.specs.Working.{HavePassCost, WritesStand};
ghost use Rattle.node_health.specs.Kept as spec;
ghost use Rattle.watch_cache.specs.Told.{AreNamed};

use crate::pass::marking::{is_ready, with_mark};
use crate::pass::work::{PodWrites, is_accepted};
use kube_base::{KUBE_NODE_LEASE, NoMemory, Steps, whole_second};
use kube_objects::{Answer, Key, Kind, Lease, NumberList};
use node_health::{Grace, Health, Verdict};
use object_store::Store;
use term_state::{Cluster, NodeTry, NodeWrite, Told, View, try_write};

fn node_lease(name: u32) -> Key
    ensures { result ≡ stored_words.node_lease name }
{
    Key {
        kind: Kind::Lease,
        space: KUBE_NODE_LEASE,
        name,
    }
}

// The node's Lease, as it is seen.
fn lease_of(cluster: &Cluster, name: u32) -> Option<Lease>
    ensures { (q : Identity) (h : List Entry) → ClusterStands q h cluster.now → is_synced q h ≡ true → result ≡ health_words.lease_of (seen_lease q name h) }
{
    match cluster.lease(&node_lease(name)) {
        None => None,
        Some((_, lease)) => Some(*lease),
    }
}

// What is kept of a node that was looked at, after a try of a mark.
fn note_accepted(health: &mut Health, name: u32, lease: Option<Lease>, answer: Option<Answer>)
    ensures { (doc : Doc) (k : ℕ) (q : Identity) (h g : List Entry) (looked : ℕ → Bool) (given : Version) (written : Node)
        → PassStands doc q h g looked health.old → looked name ≡ true
        → (rule_of health.old ≡ probes.Record → IsNoted q g name written lease (kept health.old name))
        → PassStands doc q h (add k q (Mark name given written answer) g) looked health.new }
{
    if is_accepted(answer) {
        health.note_mark(name, lease);
    }
}

// Looks at a node that is seen, and marks it where it was silent for longer than its grace.
fn look<L>(
    name: u32,
    cluster: &mut Cluster,
    health: &mut Health,
    store: &mut Store,
    view: &View,
    grace: &Grace,
    told: &mut Told,
    writes: &mut PodWrites,
    steps: &mut Steps<L>,
) -> Result<(), NoMemory>
    ensures { (doc : Doc) (k : ℕ) (q : Identity) (before : List Deed) (h now : List Entry) (looked : ℕ → Bool)
        → IsPassing doc k q before h now looked cluster.old health.old store.old told.old → IsView doc k q now view.entry.now
        → IsGraceOf doc grace.now → WritesStand doc q h now writes.old
        → looked name ≡ false → has (seen_node q name h) ≡ true → seen_node q name now ≡ seen_node q name h
        → OnOk result (IsPassing doc k q before h (model.mark doc k q name now) (and_looked name looked)
        cluster.new health.new store.new told.new × WritesStand doc q h (model.mark doc k q name now) writes.new
        × HavePassCost doc q k h now (model.mark doc k q name now) (spent cluster.old steps.old) (spent cluster.new steps.new)) }
{
    let lease = lease_of(cluster, name);
    let Some((given, node)) = cluster.node(name) else {
        return Ok(());
    };
    match health.look(name, node, lease, view.now, grace)? {
        Verdict::Keep => Ok(()),
        Verdict::MarkUnknown(reason) => {
            let ready = is_ready(node);
            let written = with_mark(node, whole_second(view.wall))?;
            let tried = NodeTry {
                name,
                given,
                written,
                write: NodeWrite::Mark(reason),
            };
            let answer = try_write(cluster, store, view, told, steps, tried)?;
            note_accepted(health, name, lease, answer);
            writes.note_mark(name, ready, answer, cluster, steps)
        }
    }
}

/// Looks at each node that is seen, in order, and marks those that were silent for longer than their grace.
pub(crate) fn look_all<L>(
    names: &NumberList,
    cluster: &mut Cluster,
    health: &mut Health,
    store: &mut Store,
    view: &View,
    grace: &Grace,
    told: &mut Told,
    writes: &mut PodWrites,
    steps: &mut Steps<L>,
) -> Result<(), NoMemory>
    ensures { (doc : Doc) (k : ℕ) (q : Identity) (before : List Deed) (h : List Entry)
        → MidTick doc q k before (add k q Pass h) cluster.old store.old told.old → HealthStands doc q h health.old
        → IsView doc k q h view.entry.now
        → IsGraceOf doc grace.now → AreNamed (λ n. has (seen_node q n h)) names.now → WritesStand doc q h (add k q Pass h) writes.old
        → OnOk result (IsPassing doc k q before h (model.marks doc k q (add k q Pass h)) (λ n. spec.is_listed names.now n)
        cluster.new health.new store.new told.new × WritesStand doc q h (model.marks doc k q (add k q Pass h)) writes.new
        × HavePassCost doc q k h (add k q Pass h) (model.marks doc k q (add k q Pass h)) (spent cluster.old steps.old) (spent cluster.new steps.new)) }
{
    let mut rest = names.as_slice();
    while let Some((name, others)) = rest.split_first() {
        look(
            *name, cluster, health, store, view, grace, told, writes, steps,
        )?;
        rest = others;
    }
    Ok(())
}
