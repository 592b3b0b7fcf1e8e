// The try to take the condition taints off a node that is new.
ghost use Rattle.std.specs.Prelude.{◌≡◌, ℕ, true, List, IfOk};
ghost use Rattle.kube_objects.specs.Document.{Doc};
ghost use Rattle.kube_objects.specs.Entry.{Entry, Identity};
ghost use Rattle.kube_objects.specs.Seen.{is_synced};
ghost use Rattle.kube_objects.specs.Tick as tick;
ghost use Rattle.controller_core.specs.Trying.{IsTryOf};
ghost use Rattle.term_state.specs.ClusterStands.{ClusterStands};

use crate::trying::untaint_of;
use kube_base::NoMemory;
use term_state::{Cluster, NodeTry};

/// The untaint of one node that is new, if it has a condition taint and isn't stale.
pub(crate) fn strip_of(cluster: &Cluster, name: u32) -> Result<Option<NodeTry>, NoMemory>
    ensures { (doc : Doc) (k : ℕ) (q : Identity) (h : List Entry) → ClusterStands q h cluster.now → is_synced q h ≡ true
        → tick.is_stripped doc.settings.rules.first_sight k q name h ≡ true
        → IfOk result (λ tried. IsTryOf k q h (tick.clean doc k q name h) tried) }
{
    if cluster.is_stale(name) {
        return Ok(None);
    }
    let Some((given, node)) = cluster.node(name) else {
        return Ok(None);
    };
    untaint_of(name, true, given, node)
}
