// What a term has seen of the store.
ghost use Rattle.std.specs.Prelude.{◌≡◌, ℕ, ◌+◌, ◌||◌, ◌∷◌, [], true, false, List, Some, None, IfOk, OnOk, OnErr, length, if◌then◌else◌};
ghost use Rattle.kube_objects.specs.Answers.{as_kind, node_in, lease_in};
ghost use Rattle.kube_objects.specs.Entry.{Entry, Identity, Sync, Tick};
ghost use Rattle.kube_objects.specs.Feeds.{is_among};
ghost use Rattle.kube_objects.specs.Keys.{key_eq};
ghost use Rattle.kube_objects.specs.Newest.{has};
ghost use Rattle.kube_objects.specs.Seen as seen_words;
ghost use Rattle.kube_objects.specs.Stored as stored_words;

use crate::objects::Objects;
use crate::{ListFault, NotSynced};
use kube_base::{NoMemory, Steps, Version};
use kube_objects::{Changed, Key, KeyList, Lease, Node, NumberList, Object, Pod};
use std::alloc::Global;
use std::collections::BTreeSet;

/// What a term has seen of the store: what was stored at its last sync, and its own accepted writes since.
///
/// A sync takes over what changed since the last one and looks at nothing else. A look-up costs the same however many
/// objects are kept, and so does an own write that moves no object in the lists; one that moves an object costs the
/// logarithm of the nodes or pods. A list of pods costs that logarithm and the keys that it gives, and the names of the
/// nodes cost as many as they are. To make a key stale, or to ask whether it is, costs the logarithm of the stale keys.
/// A pod is listed for the node that its latest version names. After `NoMemory` of a sync the cache may only be dropped.
#[derive(Drop)]
pub struct Cache {
    pub(crate) objects: Objects,
    pub(crate) stale: BTreeSet<Key>,
    synced: bool,
    position: u64,
}

impl Cache {
    ghost use Rattle.kube_base.specs.Steps.{counted};
    ghost use Rattle.kube_objects.specs.declared.key.Key.{Key};
    ghost use Rattle.kube_objects.specs.Seen.{pod_in, seen_node, seen_pod, seen};
    ghost use Rattle.kube_objects.specs.Tick.{add};
    ghost use Rattle.watch_cache.specs.Kept.{of_kind, is_node_in, is_pod_in, is_on};
    ghost use Rattle.watch_cache.specs.Stands.{AreStored, CacheStands, IsNext, object_of, refused_key, synced_writes, ticks};
    ghost use Rattle.watch_cache.specs.Stands.{kept_in, position_in, stale_in, synced_in};
    ghost use Rattle.watch_cache.specs.Told.{AreListed, AreNamed, Lists, found, if_synced};

    /// The cache of a term that begins. It has had no sync. Takes no memory.
    pub fn new(alloc: Global) -> Cache
        ensures kept { (k : Key) → kept_in result k ≡ None }
        ensures stale { (k : Key) → stale_in result k ≡ false }
        ensures synced { synced_in result ≡ false }
        ensures position { position_in result ≡ 0 }
        ensures stands { (q : Identity) (h : List Entry) → ticks q h ≡ 0 → CacheStands q h result }
    {
        Cache {
            objects: Objects::new(alloc),
            stale: BTreeSet::new(alloc),
            synced: false,
            position: 0,
        }
    }

    /// Whether there was a sync.
    pub fn is_synced(&self) -> bool
        ensures kept { result ≡ synced_in self.now }
        ensures answer { (q : Identity) (h : List Entry) → CacheStands q h self.now → result ≡ seen_words.is_synced q h }
    {
        self.synced
    }

    /// How many changes of the store there were at the last sync; 0 before the first.
    pub fn position(&self) -> u64
        ensures kept { result ≡ position_in self.now }
        ensures answer { (q : Identity) (h : List Entry) → CacheStands q h self.now → result ≡ synced_writes q h }
    {
        self.position
    }

    /// Takes over what changed since the last sync; no key is stale after it. The changes are those from `position` on.
    /// Each of them counts a step.
    pub fn sync_since<C: Changed, L>(
        &mut self,
        changed: &C,
        steps: &mut Steps<L>,
    ) -> Result<(), NoMemory>
        requires start { C.from changed.now ≡ position_in self.old }
        ensures kept { OnOk result ((k : Key)
            → kept_in self.new k ≡ (if is_among (C.keys changed.now) k then C.shown changed.now k else kept_in self.old k)) }
        ensures stale { OnOk result ((k : Key) → stale_in self.new k ≡ false) }
        ensures synced { OnOk result (synced_in self.new ≡ true) }
        ensures position { OnOk result (position_in self.new ≡ length (C.changed changed.now)) }
        ensures counted { OnOk result (steps.new ≡ counted steps.old (length (C.keys changed.now))) }
        ensures stands { (q : Identity) (h : List Entry) (k : ℕ) → CacheStands q h self.old
            → AreStored h (C.changed changed.now) (C.shown changed.now) → OnOk result (CacheStands q (add k q Sync h) self.new) }
    {
        self.objects.take_over(changed, steps)?;
        self.stale.clear();
        self.synced = true;
        self.position = changed.start() + changed.count();
        Ok(())
    }

    /// Takes over an own accepted write: the object with its version, or none if it was removed. Out of memory the
    /// cache is as before.
    pub fn note_own(&mut self, key: Key, written: Option<(Version, Object)>) -> Result<(), NoMemory>
        ensures kept { OnOk result ((k : Key) → kept_in self.new k ≡ (if key_eq key k then written else kept_in self.old k)) }
        ensures err { OnErr result ((k : Key) → kept_in self.new k ≡ kept_in self.old k) }
        ensures stale { (k : Key) → stale_in self.new k ≡ stale_in self.old k }
        ensures synced { synced_in self.new ≡ synced_in self.old }
        ensures position { position_in self.new ≡ position_in self.old }
        ensures stands { (q : Identity) (h : List Entry) (k : ℕ) (tick : Tick) → CacheStands q h self.old
            → stored_words.tick_write tick ≡ Some (key, object_of written) → IsNext (stored_words.writes h + 1) written
            → OnOk result (CacheStands q (add k q tick h) self.new) }
    {
        self.objects.write(key, written)
    }

    /// The node of that name. None if the last seen write removed it, or there is none. `NotSynced` before the first sync.
    pub fn node(&self, node: u32) -> Result<Option<(Version, &Node)>, NotSynced>
        ensures kept { found result ≡ if_synced (synced_in self.now) (of_kind node_in (kept_in self.now (stored_words.node_key node))) }
        ensures answer { (q : Identity) (h : List Entry) → CacheStands q h self.now
            → found result ≡ if_synced (seen_words.is_synced q h) (seen_node q node h) }
    {
        match self.look(&Key::node(node))? {
            Some((version, Object::Node(node))) => Ok(Some((version, node))),
            _ => Ok(None),
        }
    }

    /// The Lease under a key. None if the last seen write removed it, or there is none. `NotSynced` before the first sync.
    pub fn lease(&self, key: &Key) -> Result<Option<(Version, &Lease)>, NotSynced>
        ensures kept { found result ≡ if_synced (synced_in self.now) (of_kind lease_in (kept_in self.now key.now)) }
        ensures answer { (q : Identity) (h : List Entry) → CacheStands q h self.now
            → found result ≡ if_synced (seen_words.is_synced q h) (as_kind lease_in (seen q key.now h)) }
    {
        match self.look(key)? {
            Some((version, Object::Lease(lease))) => Ok(Some((version, lease))),
            _ => Ok(None),
        }
    }

    /// The pod under a key. None if the last seen write removed it, or there is none. `NotSynced` before the first sync.
    /// It counts a step.
    pub fn pod<L>(
        &self,
        key: &Key,
        steps: &mut Steps<L>,
    ) -> Result<Option<(Version, &Pod)>, NotSynced>
        ensures kept { found result ≡ if_synced (synced_in self.now) (of_kind pod_in (kept_in self.now key.now)) }
        ensures counted { steps.new ≡ counted steps.old 1 }
        ensures answer { (q : Identity) (h : List Entry) → CacheStands q h self.now
            → found result ≡ if_synced (seen_words.is_synced q h) (seen_pod q key.now h) }
    {
        steps.tick();
        match self.look(key)? {
            Some((version, Object::Pod(pod))) => Ok(Some((version, pod))),
            _ => Ok(None),
        }
    }

    /// The names of the nodes, each once and in order. `NotSynced` before the first sync.
    pub fn nodes(&self) -> Result<NumberList, ListFault>
        ensures kept { Lists (synced_in self.now) (AreNamed (λ n. is_node_in (kept_in self.now (stored_words.node_key n)))) result }
        ensures answer { (q : Identity) (h : List Entry) → CacheStands q h self.now
            → Lists (seen_words.is_synced q h) (AreNamed (λ n. has (seen_node q n h))) result }
    {
        if !self.synced {
            return Err(ListFault::NotSynced);
        }
        match self.objects.nodes() {
            Ok(names) => Ok(names),
            Err(NoMemory) => Err(ListFault::NoMemory),
        }
    }

    /// The keys of the pods on the node of that name, each once and in order; 0 is the name of no node, and gives the pods
    /// without one. `NotSynced` before the first sync. Each key counts a step.
    pub fn pods_of<L>(&self, node: u32, steps: &mut Steps<L>) -> Result<KeyList, ListFault>
        ensures kept { Lists (synced_in self.now) (AreListed (λ k. is_pod_in node (kept_in self.now k))) result }
        ensures counted { IfOk result (λ keys. steps.new ≡ counted steps.old (length keys)) }
        ensures answer { (q : Identity) (h : List Entry) → CacheStands q h self.now
            → Lists (seen_words.is_synced q h) (AreListed (λ k. is_on node (seen_pod q k h))) result }
    {
        if !self.synced {
            return Err(ListFault::NotSynced);
        }
        match self.objects.pods_of(node, steps) {
            Ok(keys) => Ok(keys),
            Err(NoMemory) => Err(ListFault::NoMemory),
        }
    }

    /// Makes a key stale until the next sync. If memory runs out the cache is as before.
    pub fn set_stale(&mut self, key: Key) -> Result<(), NoMemory>
        ensures stale { OnOk result ((k : Key) → stale_in self.new k ≡ (key_eq key k || stale_in self.old k)) }
        ensures err { OnErr result ((k : Key) → stale_in self.new k ≡ stale_in self.old k) }
        ensures kept { (k : Key) → kept_in self.new k ≡ kept_in self.old k }
        ensures synced { synced_in self.new ≡ synced_in self.old }
        ensures position { position_in self.new ≡ position_in self.old }
        ensures stands { (q : Identity) (h : List Entry) (k : ℕ) (tick : Tick) → CacheStands q h self.old → refused_key tick ≡ Some key
            → OnOk result (CacheStands q (add k q tick h) self.new) }
    {
        self.stale.insert(key)?;
        Ok(())
    }

    /// Whether a key was made stale after the last sync.
    pub fn is_stale(&self, key: &Key) -> bool
        ensures kept { result ≡ stale_in self.now key.now }
        ensures answer { (q : Identity) (h : List Entry) → CacheStands q h self.now → result ≡ seen_words.is_stale q key.now h }
    {
        self.stale.contains(key)
    }

    // The object under a key, if there was a sync.
    fn look(&self, key: &Key) -> Result<Option<(Version, &Object)>, NotSynced>
        ensures { found result ≡ if_synced (synced_in self.now) (kept_in self.now key.now) }
    {
        if !self.synced {
            return Err(NotSynced);
        }
        Ok(self.objects.get(key))
    }
}
