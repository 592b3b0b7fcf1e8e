// Who waits for a taint.
ghost use Rattle.std.specs.Prelude.{◌≡◌, ℕ, true, List, Some, None, OnOk};
ghost use Rattle.kube_objects.specs.Entry.{Entry, Identity};
ghost use Rattle.kube_objects.specs.Seen.{is_synced};
ghost use Rattle.kube_objects.specs.Tainting.{before_tick, waits};
ghost use Rattle.term_state.specs.ClusterStands.{ClusterStands};
ghost use Rattle.term_state.specs.MidTick.{IsMoved};
ghost use Rattle.tick_laws.specs.Rows.{no_heads};
ghost use Rattle.controller_core.specs.QueuesStand.{QueuesStand};
ghost use Rattle.controller_core.specs.Settling.{IsWaitingIn};

use kube_base::{Beat, NoMemory};
use kube_objects::Node;
use node_taints::lacks;
use taint_zones::{Place, Queues};
use term_state::Cluster;

/// Once untaints and swaps are done: a node that waits in a zone for a taint is in that zone's queue, and no other is. One
/// that waited before the tick keeps its place, and one that begins to wait has that of this beat.
///
/// It looks at the nodes alone that may have begun or ended to wait in this tick.
pub(crate) fn settle(queues: &mut Queues, cluster: &Cluster, beat: Beat) -> Result<(), NoMemory>
    ensures { (q : Identity) (k : ℕ) (h : List Entry) → ClusterStands q h cluster.now → is_synced q h ≡ true → IsMoved q k h cluster.now
        → beat.0 ≡ k → no_heads q k h ≡ true → QueuesStand q (before_tick q k h) queues.old
        → OnOk result (QueuesStand q h queues.new) }
{
    let mut next = cluster.next_moved(None);
    while let Some(name) = next {
        queues.settle(name, place_of(cluster, name), beat)?;
        next = cluster.next_moved(Some(name));
    }
    Ok(())
}

// The zone in which a node waits.
fn place_of(cluster: &Cluster, name: u32) -> Option<Place>
    ensures { (q : Identity) (h : List Entry) → ClusterStands q h cluster.now → is_synced q h ≡ true → IsWaitingIn q h name result }
{
    let Some((_, node)) = cluster.node(name) else {
        return None;
    };
    match lacks(cluster.mode(), node) {
        None => None,
        Some(_) => Some(Place {
            region: node.region,
            zone: node.zone,
        }),
    }
}
