// How many nodes of each zone are ready.
ghost use Rattle.std.specs.Prelude.{◌≡◌, ◌<◌, true, List, length, IfOk};
ghost use Rattle.kube_objects.specs.Entry.{Entry, Identity};
ghost use Rattle.kube_objects.specs.Modes.{nodes};
ghost use Rattle.kube_objects.specs.Newest.{has};
ghost use Rattle.kube_objects.specs.Seen.{is_synced, seen_node};
ghost use Rattle.term_state.specs.ClusterStands.{ClusterStands};
ghost use Rattle.watch_cache.specs.Told.{AreNamed};
ghost use Rattle.zone_counts.specs.Counted.{zone_counts};

use kube_base::NoMemory;
use kube_objects::NumberList;
use std::alloc::Global;
use term_state::Cluster;
use zone_counts::{Counts, ZoneCount};

/// The zones of the nodes that are seen, in order.
pub(crate) fn count(
    alloc: Global,
    names: &NumberList,
    cluster: &Cluster,
) -> Result<Vec<ZoneCount>, NoMemory>
    ensures { (q : Identity) (h : List Entry) → ClusterStands q h cluster.now → is_synced q h ≡ true
        → AreNamed (λ n. has (seen_node q n h)) names.now → length (nodes q h) < 4294967296
        → IfOk result (λ zones. zones.items ≡ zone_counts (nodes q h)) }
{
    let mut counts = Counts::new(alloc);
    let mut rest = names.as_slice();
    while let Some((name, others)) = rest.split_first() {
        if let Some((_, node)) = cluster.node(*name) {
            counts.add(node)?;
        }
        rest = others;
    }
    counts.list()
}
