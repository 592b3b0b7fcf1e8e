// The nodes whose taints change with a sync.
ghost use Rattle.std.specs.Prelude.{◌≡◌, ◌⊎◌, ℕ, ◌==◌, ◌||◌, ◌&&◌, not, true, false, Some, slice_get, IfOk, OnOk};
ghost use Rattle.std.specs.BTreeSet.{contains};
ghost use Rattle.std.specs.Ordering.{nat_cmp};
ghost use Rattle.kube_objects.specs.Feeds.{is_among, shown_pair};
ghost use Rattle.kube_objects.specs.Keys.{key_eq};
ghost use Rattle.kube_objects.specs.Newest.{has};
ghost use Rattle.kube_objects.specs.Stored.{node_key};
ghost use Rattle.watch_cache.specs.Kept.{is_node_in};
ghost use Rattle.watch_cache.specs.TaintChanges.{taints_in};

use crate::Cache;
use kube_base::{NoMemory, Version};
use kube_objects::{Changed, Key, Kind, Object, Taint};
use std::alloc::Global;
use std::collections::BTreeSet;

// The taints of a node; none of what is no node.
fn taints_of(shown: Option<(Version, &Object)>) -> &[Taint]
    ensures { result.now ≡ taints_in (shown_pair shown.entry) }
{
    match shown {
        Some((_, Object::Node(node))) => node.taints.as_slice(),
        _ => &[],
    }
}

fn is_node(shown: Option<(Version, &Object)>) -> bool
    ensures { result ≡ is_node_in (shown_pair shown.entry) }
{
    match shown {
        Some((_, Object::Node(_))) => true,
        _ => false,
    }
}

fn add_name(names: &mut BTreeSet<u32>, name: u32) -> Result<(), NoMemory>
    ensures { OnOk result ((n : ℕ) → contains nat_cmp names.new n ≡ ((name == n) || contains nat_cmp names.old n)) }
{
    names.insert(name)?;
    Ok(())
}

impl Cache {
    ghost use Rattle.kube_objects.specs.declared.key.Key.{Key};
    ghost use Rattle.watch_cache.specs.TaintChanges.{IsSettled, appears};
    ghost use Rattle.watch_cache.specs.Stands.{kept_in, stale_in};

    // Whether any key is stale.
    fn has_stale(&self) -> bool
        ensures none { result ≡ false → (k : Key) → stale_in self.now k ≡ false }
        ensures some { result ≡ true → (k : Key) × (stale_in self.now k ≡ true) }
    {
        match self.stale.first() {
            None => false,
            Some(_) => true,
        }
    }

    /// Whether the node under a key has other taints than these. What is no node has none.
    pub fn has_other_taints(&self, key: &Key, taints: &[Taint]) -> bool
        ensures same { result ≡ false → taints_in (kept_in self.now key.now) ≡ taints.now }
        ensures other { result ≡ true → taints_in (kept_in self.now key.now) ≡ taints.now → ⊥ }
    {
        taints_of(self.objects.get(key)) != taints
    }

    // Whether a node is shown under a key that has none yet.
    fn appears(&self, key: &Key, shown: Option<(Version, &Object)>) -> bool
        ensures { (n : ℕ) → key_eq key.now (node_key n) ≡ true → result ≡ appears self.now n (shown_pair shown.entry) }
    {
        self.objects.get(key).is_none() && is_node(shown)
    }

    // Adds the node of a key that changed, unless all is settled; with `new` also one that appears. A key with a namespace is no node's.
    fn add_changed(
        &self,
        names: &mut BTreeSet<u32>,
        new: bool,
        key: Key,
        shown: Option<(Version, &Object)>,
    ) -> Result<(), NoMemory>
        ensures more { OnOk result ((n : ℕ) → contains nat_cmp names.new n ≡ false → contains nat_cmp names.old n ≡ false) }
        ensures settled { OnOk result ((n : ℕ) → key_eq key (node_key n) ≡ true → contains nat_cmp names.new n ≡ false
            → IsSettled self.now n (shown_pair shown.entry)) }
        ensures unsettled { OnOk result ((n : ℕ) → contains nat_cmp names.new n ≡ true → contains nat_cmp names.old n ≡ false
            → (key_eq key (node_key n) ≡ true)
            × ((IsSettled self.now n (shown_pair shown.entry) → ⊥) ⊎ ((new && appears self.now n (shown_pair shown.entry)) ≡ true))) }
        ensures appeared { OnOk result (new ≡ true → (n : ℕ) → key_eq key (node_key n) ≡ true → contains nat_cmp names.new n ≡ false
            → appears self.now n (shown_pair shown.entry) ≡ false) }
    {
        if key.kind == Kind::Node
            && key.space == 0
            && (self.has_stale()
                || self.has_other_taints(&key, taints_of(shown))
                || new && self.appears(&key, shown))
        {
            return add_name(names, key.name);
        }
        Ok(())
    }

    // The same of the key at a place among the changes. What is no node isn't looked up.
    fn add_change<C: Changed>(
        &self,
        names: &mut BTreeSet<u32>,
        new: bool,
        changed: &C,
        place: u64,
        key: Key,
    ) -> Result<(), NoMemory>
        requires at { slice_get (C.keys changed.now) place ≡ Some key }
        ensures more { OnOk result ((n : ℕ) → contains nat_cmp names.new n ≡ false → contains nat_cmp names.old n ≡ false) }
        ensures settled { OnOk result ((n : ℕ) → key_eq key (node_key n) ≡ true → contains nat_cmp names.new n ≡ false
            → IsSettled self.now n (C.shown changed.now key)) }
        ensures unsettled { OnOk result ((n : ℕ) → contains nat_cmp names.new n ≡ true → contains nat_cmp names.old n ≡ false
            → (key_eq key (node_key n) ≡ true)
            × ((IsSettled self.now n (C.shown changed.now key) → ⊥) ⊎ ((new && appears self.now n (C.shown changed.now key)) ≡ true))) }
        ensures appeared { OnOk result (new ≡ true → (n : ℕ) → key_eq key (node_key n) ≡ true → contains nat_cmp names.new n ≡ false
            → appears self.now n (C.shown changed.now key) ≡ false) }
    {
        if key.kind != Kind::Node {
            return Ok(());
        }
        self.add_changed(names, new, key, changed.object(place))
    }

    /// The names of nodes that changed since the last sync: of those whose taints are others now, with `new` of those that weren't there at
    /// it, and of all of them if a key is stale. On each other node no pod's due changes but by a change of the pod. The changes are those
    /// from `position` on, and aren't taken over.
    pub fn nodes_to_judge<C: Changed>(
        &self,
        alloc: Global,
        new: bool,
        changed: &C,
    ) -> Result<BTreeSet<u32>, NoMemory>
        ensures settled { IfOk result (λ names. (n : ℕ) → is_among (C.keys changed.now) (node_key n) ≡ true
            → contains nat_cmp names n ≡ false → IsSettled self.now n (C.shown changed.now (node_key n))) }
        ensures changed { IfOk result (λ names. (n : ℕ) → contains nat_cmp names n ≡ true
            → is_among (C.keys changed.now) (node_key n) ≡ true) }
        ensures unsettled { IfOk result (λ names. (n : ℕ) → contains nat_cmp names n ≡ true
            → (IsSettled self.now n (C.shown changed.now (node_key n)) → ⊥)
            ⊎ ((new && appears self.now n (C.shown changed.now (node_key n))) ≡ true)) }
        ensures appeared { IfOk result (λ names. new ≡ true → (n : ℕ) → is_among (C.keys changed.now) (node_key n) ≡ true
            → contains nat_cmp names n ≡ false → appears self.now n (C.shown changed.now (node_key n)) ≡ false) }
    {
        let mut names = BTreeSet::new(alloc);
        let count = changed.count();
        let mut place = 0;
        while place < count {
            let Some(key) = changed.key(place) else {
                unreachable!()
            };
            self.add_change(&mut names, new, changed, place, key)?;
            place += 1;
        }
        Ok(names)
    }
}
