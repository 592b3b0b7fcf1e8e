// Objects with their versions, and the index of them.
ghost use Rattle.std.specs.Prelude.{◌≡◌, ℕ, ◌&&◌, ◌||◌, not, true, Some, None, IfOk, OnOk, OnErr, length, if◌then◌else◌};
ghost use Rattle.std.specs.List.Sorted.{IsStrictlySortedBy};
ghost use Rattle.std.specs.Ordering.{nat_cmp};
ghost use Rattle.kube_objects.specs.Feeds.{shown_pair};
ghost use Rattle.kube_objects.specs.Keys.{key_cmp, key_eq};
ghost use Rattle.kube_objects.specs.Stored.{node_key};
ghost use Rattle.kube_objects.specs.declared.key.Key.{Key};
ghost use Rattle.key_map.specs.Values.{value_at};
ghost use Rattle.watch_cache.specs.Indexed.{IsIndexed};
ghost use Rattle.watch_cache.specs.Kept.{is_node_in, is_pod_in};
ghost use Rattle.watch_cache.specs.Listed.{has_node, has_pod, lists_node, lists_pod};

use crate::index::Index;
use crate::listing::{Listing, listed_as};
use key_map::KeyMap;
use kube_base::{NoMemory, Steps, Version};
use kube_objects::{Changed, Key, KeyList, NumberList, Object};
use std::alloc::Global;

/// Objects under their keys, each with a version. The index lists just these. It is changed only if an object comes,
/// goes or moves, so that to put an object where it was costs the same however many there are.
#[derive(Drop)]
pub(crate) struct Objects {
    map: KeyMap<(Version, Object)>,
    index: Index,
    ghost indexed: { IsIndexed (value_at map) index },
}

// A copy of what is shown.
fn copy_of(shown: Option<(Version, &Object)>) -> Result<Option<(Version, Object)>, NoMemory>
    ensures { IfOk result (λ copy. copy ≡ shown_pair shown.entry) }
{
    match shown {
        None => Ok(None),
        Some((version, object)) => Ok(Some((version, object.copy()?))),
    }
}

// The index lists the old object no longer.
fn unlist(index: &mut Index, key: Key, old: Option<(Version, Object)>)
    ensures nodes { (n : ℕ) → has_node index.new n ≡ (not (key_eq key (node_key n) && is_node_in old) && has_node index.old n) }
    ensures pods { (n : ℕ) (k : Key) → has_pod index.new n k ≡ (not (is_pod_in n old && key_eq key k) && has_pod index.old n k) }
{
    if let Some(old) = old {
        index.leave(listed_as(key, &old.1));
    }
}

impl Objects {
    ghost use Rattle.kube_base.specs.Steps.{counted};
    ghost use Rattle.kube_objects.specs.Feeds.{is_among};
    ghost use Rattle.watch_cache.specs.Listed.{is_named};
    ghost use Rattle.watch_cache.specs.Objects.{object_at};

    /// No objects.
    pub(crate) fn new(alloc: Global) -> Objects
        ensures { (k : Key) → object_at result k ≡ None }
    {
        Objects {
            map: KeyMap::new(alloc),
            index: Index::new(alloc),
        }
    }

    /// The object under a key, with its version.
    pub(crate) fn get(&self, key: &Key) -> Option<(Version, &Object)>
        ensures { shown_pair result ≡ object_at self.now key.now }
    {
        match self.map.get(key) {
            Some(kept) => Some((kept.0, &kept.1)),
            None => None,
        }
    }

    /// Puts an object under a key in the place of what is there, or takes that out. If memory runs out nothing changes.
    pub(crate) fn write(
        &mut self,
        key: Key,
        written: Option<(Version, Object)>,
    ) -> Result<(), NoMemory>
        ensures ok { OnOk result ((k : Key) → object_at self.new k ≡ (if key_eq key k then written else object_at self.old k)) }
        ensures err { OnErr result ((k : Key) → object_at self.new k ≡ object_at self.old k) }
    {
        match written {
            None => {
                self.take_out(key);
                Ok(())
            }
            Some((version, object)) => self.put(key, version, object),
        }
    }

    fn take_out(&mut self, key: Key)
        ensures { (k : Key) → object_at self.new k ≡ (if key_eq key k then None else object_at self.old k) }
    {
        let old = self.map.remove(&key);
        unlist(&mut self.index, key, old);
    }

    // The index is entered first, so that nothing changes where it has no room.
    fn put(&mut self, key: Key, version: Version, object: Object) -> Result<(), NoMemory>
        ensures ok { OnOk result ((k : Key)
            → object_at self.new k ≡ (if key_eq key k then Some (version, object) else object_at self.old k)) }
        ensures err { OnErr result ((k : Key) → object_at self.new k ≡ object_at self.old k) }
    {
        let left = self.listing_at(key);
        let entered = listed_as(key, &object);
        if left == entered {
            self.map.insert(key, (version, object))?;
            return Ok(());
        }
        self.index.enter(entered)?;
        match self.map.insert(key, (version, object)) {
            Ok(_) => {
                self.index.leave(left);
                Ok(())
            }
            Err(NoMemory) => {
                self.index.leave(entered);
                Err(NoMemory)
            }
        }
    }

    // Where the index lists what is under a key.
    fn listing_at(&self, key: Key) -> Listing
        ensures nodes { (n : ℕ) → lists_node result n ≡ (key_eq key (node_key n) && is_node_in (object_at self.now key)) }
        ensures pods { (n : ℕ) (k : Key) → lists_pod result n k ≡ (is_pod_in n (object_at self.now key) && key_eq key k) }
    {
        match self.map.get(&key) {
            Some(kept) => listed_as(key, &kept.1),
            None => Listing::Nowhere,
        }
    }

    /// Takes over what changed. Each change counts a step.
    pub(crate) fn take_over<C: Changed, L>(
        &mut self,
        changed: &C,
        steps: &mut Steps<L>,
    ) -> Result<(), NoMemory>
        ensures taken { OnOk result ((k : Key)
            → object_at self.new k ≡ (if is_among (C.keys changed.now) k then C.shown changed.now k else object_at self.old k)) }
        ensures counted { OnOk result (steps.new ≡ counted steps.old (length (C.keys changed.now))) }
    {
        // It is read, so that it is known to be a u64.
        let _ = steps.count();
        let count = changed.count();
        let mut place = 0;
        while place < count {
            let Some(key) = changed.key(place) else {
                unreachable!()
            };
            steps.tick();
            let written = copy_of(changed.object(place))?;
            self.write(key, written)?;
            place += 1;
        }
        Ok(())
    }

    /// The names of the nodes in order.
    pub(crate) fn nodes(&self) -> Result<NumberList, NoMemory>
        ensures ascend { IfOk result (λ names. IsStrictlySortedBy nat_cmp names) }
        ensures named { IfOk result (λ names. (n : ℕ) → is_named names n ≡ is_node_in (object_at self.now (node_key n))) }
    {
        self.index.nodes()
    }

    /// The keys of the pods on a node, in order. Each one counts a step.
    pub(crate) fn pods_of<L>(&self, node: u32, steps: &mut Steps<L>) -> Result<KeyList, NoMemory>
        ensures ascend { IfOk result (λ keys. IsStrictlySortedBy key_cmp keys) }
        ensures listed { IfOk result (λ keys. (k : Key) → is_among keys k ≡ is_pod_in node (object_at self.now k)) }
        ensures counted { IfOk result (λ keys. steps.new ≡ counted steps.old (length keys)) }
    {
        self.index.pods_of(node, steps)
    }
}
