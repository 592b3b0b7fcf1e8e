// The queued taint of one zone.
ghost use Rattle.std.specs.Prelude.{◌≡◌, ◌≤◌, ◌==◌, ℕ, true, List, Some, OnOk, IfOk, if◌then◌else◌};
ghost use Rattle.kube_base.specs.Bounds.{most_local};
ghost use Rattle.kube_objects.specs.Document.{Doc};
ghost use Rattle.kube_objects.specs.Entry.{Entry, Identity};
ghost use Rattle.kube_objects.specs.Entry as entry_words;
ghost use Rattle.kube_objects.specs.Clocks.{wall};
ghost use Rattle.kube_objects.specs.Seen.{is_synced, seen_node};
ghost use Rattle.kube_objects.specs.Tainting.{waits};
ghost use Rattle.kube_objects.specs.Tick as tick;
ghost use Rattle.kube_objects.specs.declared.deed.Deed.{Deed};
ghost use Rattle.kube_objects.specs.declared.node.Node.{Node};
ghost use Rattle.kube_base.specs.declared.numbers.Version.{Version};
ghost use Rattle.taint_zones.specs.Places.{entry_place};
ghost use Rattle.taint_zones.specs.Waiting.{since};
ghost use Rattle.term_state.specs.ClusterStands.{ClusterStands};
ghost use Rattle.term_state.specs.MidTick.{IsView};
ghost use Rattle.term_state.specs.Sights.{spent};
ghost use Rattle.controller_core.specs.Costs.{HaveCost};
ghost use Rattle.controller_core.specs.Heading.{Heading};
ghost use Rattle.controller_core.specs.Attempts.{lacking_of, requeued};

use kube_base::{Beat, NoMemory, Steps, Version, Wall, whole_second};
use kube_objects::{Answer, Node};
use node_taints::{lacks, new_taint, with_taint};
use object_store::Store;
use taint_zones::{Place, Queues, Zones};
use term_state::{Cluster, NodeTry, NodeWrite, Told, View, try_write};

/// The first of a zone's queue gets the taint that it wants, if the zone's token is there.
pub(crate) fn taint_first<L>(
    zones: &mut Zones,
    cluster: &mut Cluster,
    store: &mut Store,
    view: &View,
    told: &mut Told,
    steps: &mut Steps<L>,
    place: Place,
) -> Result<(), NoMemory>
    requires { view.now.now.0 ≤ most_local }
    ensures { (doc : Doc) (q : Identity) (k : ℕ) (before : List Deed) (h : List Entry)
        → Heading doc q k before h zones.old cluster.old store.old told.old → IsView doc k q h view.entry.now
        → OnOk result (Heading doc q k before (tick.taint doc k q (entry_place place) h) zones.new cluster.new store.new told.new
        × HaveCost q k h (tick.taint doc k q (entry_place place) h) (spent cluster.old steps.old) (spent cluster.new steps.new)) }
{
    let Some(name) = zones.queues.head(place) else {
        return Ok(());
    };
    if !zones.try_take(place, view.now) {
        return Ok(());
    }
    let Some(lacking) = lack_of(cluster, name, view.wall)? else {
        return Ok(());
    };
    let tried = NodeTry {
        name,
        given: lacking.given,
        written: lacking.written,
        write: NodeWrite::Taint(lacking.wanted),
    };
    let answer = try_write(cluster, store, view, told, steps, tried)?;
    requeue(&mut zones.queues, place, name, view.beat, answer);
    Ok(())
}

// A node that wants a taint: its version, the taint's key, and the node with the taint.
#[derive(Debug, Drop)]
struct Lacking {
    given: Version,
    wanted: u32,
    written: Node,
}

fn lack_of(cluster: &Cluster, name: u32, now: Wall) -> Result<Option<Lacking>, NoMemory>
    ensures { (doc : Doc) (k : ℕ) (q : Identity) (h : List Entry) (place : entry_words.Place) (wanted : ℕ) (x : Version × Node)
        → ClusterStands q h cluster.now → is_synced q h ≡ true → now.0 ≡ wall doc q.process k
        → waits q place name h ≡ Some wanted → seen_node q name h ≡ Some x
        → IfOk result (λ found. found ≡ Some (lacking_of (x.0) wanted (tick.tainted_with (tick.new_taint doc k q wanted) (x.1)))) }
{
    let Some((given, node)) = cluster.node(name) else {
        return Ok(None);
    };
    let Some(wanted) = lacks(cluster.mode(), node) else {
        return Ok(None);
    };
    let written = with_taint(node, new_taint(wanted, whole_second(now)))?;
    Ok(Some(Lacking {
        given,
        wanted,
        written,
    }))
}

// A node that was written waits no longer, and another goes to the back of the queue.
fn requeue(queues: &mut Queues, place: Place, name: u32, at: Beat, answer: Option<Answer>)
    ensures { (zone : Place) (other : ℕ) → since queues.new zone other
        ≡ (if name == other then requeued answer place zone at.0 (since queues.old zone name) else since queues.old zone other) }
{
    match answer {
        None => queues.to_back(place, name, at),
        Some(Answer::Done(_)) => queues.leave(name),
        Some(Answer::Absent) => queues.to_back(place, name, at),
        Some(Answer::Exists) => queues.to_back(place, name, at),
        Some(Answer::Conflict(_)) => queues.to_back(place, name, at),
    }
}
