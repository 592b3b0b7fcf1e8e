// The head of one zone's pushes.
ghost use Rattle.std.specs.Prelude.{◌≡◌, ◌≤◌, ℕ, true, List, OnOk, IfOk};
ghost use Rattle.kube_base.specs.Bounds.{most_local};
ghost use Rattle.kube_objects.specs.Clocks.{wall};
ghost use Rattle.kube_objects.specs.Document.{Doc};
ghost use Rattle.kube_objects.specs.Entry.{Entry, Identity};
ghost use Rattle.kube_objects.specs.Entry as entry_words;
ghost use Rattle.kube_objects.specs.Seen.{is_accepted, is_synced, seen_node};
ghost use Rattle.kube_objects.specs.Tick as tick;
ghost use Rattle.kube_objects.specs.declared.deed.Deed.{Deed};
ghost use Rattle.taint_zones.specs.Limits.{LimitsStand};
ghost use Rattle.taint_zones.specs.Places.{entry_place};
ghost use Rattle.tick_laws.specs.Changes.{turn_of};
ghost use Rattle.term_state.specs.ClusterStands.{ClusterStands};
ghost use Rattle.term_state.specs.MidTick.{IsView, MidTick};
ghost use Rattle.term_state.specs.Sights.{spent};
ghost use Rattle.controller_core.specs.Costs.{HaveCost};
ghost use Rattle.controller_core.specs.Pushing.{PushesStand};
ghost use Rattle.controller_core.specs.Restamping.{lets_go, wanting_of};

use kube_base::{NoMemory, Steps, Version, Wall, whole_second};
use kube_objects::{Answer, Node};
use node_taints::{Wants, new_taint, ready_wants, with_restamp};
use object_store::Store;
use taint_zones::{Place, Zones};
use term_state::{Cluster, NodeTry, NodeWrite, Told, View, try_write};

/// The first push of a zone has its turn, if the zone's token is there.
pub(crate) fn push_first<L>(
    zones: &mut Zones,
    cluster: &mut Cluster,
    store: &mut Store,
    view: &View,
    told: &mut Told,
    steps: &mut Steps<L>,
    place: Place,
) -> Result<(), NoMemory>
    requires { view.now.now.0 ≤ most_local }
    ensures { (doc : Doc) (q : Identity) (k : ℕ) (before : List Deed) (h : List Entry)
        → MidTick doc q k before h cluster.old store.old told.old → LimitsStand doc q h zones.old → PushesStand doc q h zones.old.pushes
        → IsView doc k q h view.entry.now
        → OnOk result (MidTick doc q k before (tick.push doc k q (entry_place place) h) cluster.new store.new told.new
        × LimitsStand doc q (tick.push doc k q (entry_place place) h) zones.new × PushesStand doc q (tick.push doc k q (entry_place place) h) zones.new.pushes
        × HaveCost q k h (tick.push doc k q (entry_place place) h) (spent cluster.old steps.old) (spent cluster.new steps.new)) }
{
    let Some(name) = zones.pushes.head(place) else {
        return Ok(());
    };
    if !zones.try_take(place, view.now) {
        return Ok(());
    }
    if turn(cluster, store, view, told, steps, name)? {
        zones.pushes.take_head(place);
        return Ok(());
    }
    zones.pushes.head_to_back(place)
}

// One try to write a node with the taint that it wants by its Ready as it is seen now, or nothing where it wants none; and whether its push may go,
// which it may not where the try was refused or lost.
fn turn<L>(
    cluster: &mut Cluster,
    store: &mut Store,
    view: &View,
    told: &mut Told,
    steps: &mut Steps<L>,
    name: u32,
) -> Result<bool, NoMemory>
    ensures stands { (doc : Doc) (q : Identity) (k : ℕ) (before : List Deed) (h : List Entry) (place : entry_words.Place)
        → MidTick doc q k before h cluster.old store.old told.old → IsView doc k q h view.entry.now
        → OnOk result (MidTick doc q k before (tick.add k q (turn_of doc k q place name (seen_node q name h) h) h) cluster.new store.new told.new) }
    ensures counted { (doc : Doc) (q : Identity) (k : ℕ) (before : List Deed) (h : List Entry) (place : entry_words.Place)
        → MidTick doc q k before h cluster.old store.old told.old → IsView doc k q h view.entry.now
        → OnOk result (HaveCost q k h (tick.add k q (turn_of doc k q place name (seen_node q name h) h) h)
        (spent cluster.old steps.old) (spent cluster.new steps.new)) }
    ensures goes { (doc : Doc) (q : Identity) (k : ℕ) (before : List Deed) (h : List Entry) (place : entry_words.Place)
        → MidTick doc q k before h cluster.old store.old told.old → IsView doc k q h view.entry.now
        → IfOk result (λ goes. goes ≡ lets_go (turn_of doc k q place name (seen_node q name h) h)) }
{
    let Some(wanting) = wanting_node(cluster, name, view.wall)? else {
        return Ok(true);
    };
    let tried = NodeTry {
        name,
        given: wanting.given,
        written: wanting.written,
        write: NodeWrite::Taint(wanting.wanted),
    };
    let answer = try_write(cluster, store, view, told, steps, tried)?;
    Ok(is_written(answer))
}

// A node that wants a taint: its version, the taint's key, and the node with the taint stamped anew.
#[derive(Debug, Drop)]
struct Wanting {
    given: Version,
    wanted: u32,
    written: Node,
}

fn wanting_node(cluster: &Cluster, name: u32, now: Wall) -> Result<Option<Wanting>, NoMemory>
    ensures { (doc : Doc) (k : ℕ) (q : Identity) (h : List Entry) → ClusterStands q h cluster.now → is_synced q h ≡ true
        → now.0 ≡ wall doc q.process k → IfOk result (λ found. found ≡ wanting_of doc k q (seen_node q name h)) }
{
    let Some((given, node)) = cluster.node(name) else {
        return Ok(None);
    };
    let Wants::Wanted(wanted) = ready_wants(node.ready) else {
        return Ok(None);
    };
    let written = with_restamp(node, new_taint(wanted, whole_second(now)))?;
    Ok(Some(Wanting {
        given,
        wanted,
        written,
    }))
}

fn is_written(answer: Option<Answer>) -> bool
    ensures { result ≡ is_accepted answer }
{
    match answer {
        None => false,
        Some(Answer::Done(_)) => true,
        Some(Answer::Absent) => false,
        Some(Answer::Exists) => false,
        Some(Answer::Conflict(_)) => false,
    }
}
