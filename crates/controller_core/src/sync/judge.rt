// Judging what was taken over.
ghost use Rattle.std.specs.Prelude.{◌≡◌, ◌≤◌, ◌+◌, ◌*◌, ◌||◌, ℕ, Bool, true, List, [], ◌∷◌, OnOk, if◌then◌else◌, drop};
ghost use Rattle.std.specs.BTreeSet.{contains};
ghost use Rattle.std.specs.Ordering.{nat_cmp};
ghost use Rattle.kube_objects.specs.Entry.{Entry, Identity};
ghost use Rattle.kube_objects.specs.Feeds.{is_among};
ghost use Rattle.kube_objects.specs.Keys.{key_eq};
ghost use Rattle.kube_objects.specs.Seen.{is_synced};
ghost use Rattle.kube_objects.specs.Stored.{node_key};
ghost use Rattle.kube_objects.specs.declared.key.Key.{Key};
ghost use Rattle.kube_objects.specs.declared.rules.EvictRule.TheVariants.{Added, Seen};
ghost use Rattle.object_store.specs.Stands.{changed_in};
ghost use Rattle.tick_laws.specs.Steps.{pods_on, write_cost, write_costs};
ghost use Rattle.term_state.specs.ClusterStands.{ClusterBut, ClusterStands, has_moved};
ghost use Rattle.term_state.specs.Sights.{IsRetained, has_touched, spent};
ghost use Rattle.controller_core.specs.Left.{AreNoted, LeftBut};

use kube_base::{NoMemory, Steps};
use kube_objects::{Feed, Key, Kind};
use object_store::Store;
use std::collections::BTreeSet;
use term_state::Cluster;

// What follows from a node is exact again, with the pods on it where it is among those to judge. A key with a namespace
// is no node's.
fn judge_node<L>(
    cluster: &mut Cluster,
    key: Key,
    to_judge: &BTreeSet<u32>,
    steps: &mut Steps<L>,
) -> Result<(), NoMemory>
    requires kind { key.kind ≡ Kind.Node }
    ensures stands { (q : Identity) (g : List Entry) (rest : List Key) → LeftBut q g (key ∷ rest) to_judge.now cluster.old
        → is_synced q g ≡ true → OnOk result (LeftBut q g rest to_judge.now cluster.new) }
    ensures moved { OnOk result ((n : ℕ) → has_moved cluster.new n ≡ (key_eq key (node_key n) || has_moved cluster.old n)) }
    ensures counted { (q : Identity) (g : List Entry) (nodes : ℕ → Bool) (pods : Key → Bool) → ClusterBut q g nodes pods cluster.old
        → is_synced q g ≡ true
        → OnOk result (spent cluster.new steps.new ≤ spent cluster.old steps.old
        + 2 * (if contains nat_cmp to_judge.now key.name then pods_on q key.name g else 0)) }
    ensures touched { (q : Identity) (g : List Entry) (rest : List Key) → LeftBut q g (key ∷ rest) to_judge.now cluster.old → is_synced q g ≡ true
        → cluster.old.evict_from ≡ Seen → OnOk result (AreNoted q g (key ∷ rest) rest to_judge.now cluster.old cluster.new) }
    ensures none { (q : Identity) (g : List Entry) (nodes : ℕ → Bool) (pods : Key → Bool) → ClusterBut q g nodes pods cluster.old → is_synced q g ≡ true
        → cluster.old.evict_from ≡ Added → OnOk result ((p : Key) → has_touched cluster.new p ≡ has_touched cluster.old p) }
    ensures retained { OnOk result (IsRetained cluster.old cluster.new) }
{
    if key.space != 0 {
        return Ok(());
    }
    if to_judge.contains(&key.name) {
        return cluster.judge_node(key.name, steps);
    }
    cluster.judge_node_alone(key.name)
}

// What follows from a key's object is exact again.
fn judge<L>(
    cluster: &mut Cluster,
    key: Key,
    to_judge: &BTreeSet<u32>,
    steps: &mut Steps<L>,
) -> Result<(), NoMemory>
    ensures stands { (q : Identity) (g : List Entry) (rest : List Key) → LeftBut q g (key ∷ rest) to_judge.now cluster.old
        → is_synced q g ≡ true → OnOk result (LeftBut q g rest to_judge.now cluster.new) }
    ensures moved { OnOk result ((n : ℕ) → has_moved cluster.new n ≡ (key_eq key (node_key n) || has_moved cluster.old n)) }
    ensures counted { (q : Identity) (g : List Entry) (nodes : ℕ → Bool) (pods : Key → Bool) → ClusterBut q g nodes pods cluster.old
        → is_synced q g ≡ true
        → OnOk result (spent cluster.new steps.new ≤ spent cluster.old steps.old + 2 * write_cost q (contains nat_cmp to_judge.now) g key) }
    ensures touched { (q : Identity) (g : List Entry) (rest : List Key) → LeftBut q g (key ∷ rest) to_judge.now cluster.old → is_synced q g ≡ true
        → cluster.old.evict_from ≡ Seen → OnOk result (AreNoted q g (key ∷ rest) rest to_judge.now cluster.old cluster.new) }
    ensures none { (q : Identity) (g : List Entry) (nodes : ℕ → Bool) (pods : Key → Bool) → ClusterBut q g nodes pods cluster.old → is_synced q g ≡ true
        → cluster.old.evict_from ≡ Added → OnOk result ((p : Key) → has_touched cluster.new p ≡ has_touched cluster.old p) }
    ensures retained { OnOk result (IsRetained cluster.old cluster.new) }
{
    match key.kind {
        Kind::Node => judge_node(cluster, key, to_judge, steps),
        Kind::Lease => Ok(()),
        Kind::Pod => cluster.judge_pod(key, steps),
    }
}

/// What follows from the changes from a position on is exact again. The pods on a node are judged with it if it is among
/// those to judge.
pub(crate) fn judge_changes<L>(
    cluster: &mut Cluster,
    store: &Store,
    position: u64,
    to_judge: &BTreeSet<u32>,
    steps: &mut Steps<L>,
) -> Result<(), NoMemory>
    ensures stands { (q : Identity) (g : List Entry) → let keys = drop position (changed_in store.now) in
        LeftBut q g keys to_judge.now cluster.old → is_synced q g ≡ true
        → OnOk result (ClusterStands q g cluster.new
        × (spent cluster.new steps.new ≤ spent cluster.old steps.old + 2 * write_costs q (contains nat_cmp to_judge.now) g keys)) }
    ensures moved { OnOk result ((n : ℕ)
        → has_moved cluster.new n ≡ (is_among (drop position (changed_in store.now)) (node_key n) || has_moved cluster.old n)) }
    ensures touched { (q : Identity) (g : List Entry) → let keys = drop position (changed_in store.now) in
        LeftBut q g keys to_judge.now cluster.old → is_synced q g ≡ true → cluster.old.evict_from ≡ Seen
        → OnOk result (AreNoted q g keys [] to_judge.now cluster.old cluster.new) }
    ensures none { (q : Identity) (g : List Entry) → let keys = drop position (changed_in store.now) in
        LeftBut q g keys to_judge.now cluster.old → is_synced q g ≡ true → cluster.old.evict_from ≡ Added
        → OnOk result ((p : Key) → has_touched cluster.new p ≡ has_touched cluster.old p) }
    ensures retained { OnOk result (IsRetained cluster.old cluster.new) }
{
    let count = store.changes();
    let mut place = position;
    while place < count {
        let Some(key) = store.change(place) else {
            unreachable!()
        };
        judge(cluster, key, to_judge, steps)?;
        place += 1;
    }
    Ok(())
}
