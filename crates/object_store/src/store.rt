// The store: a map from keys to objects with their versions, and the key of each accepted write.
ghost use Rattle.std.specs.Prelude.{◌≡◌, ◌+◌, ◌≤◌, ◌∷◌, [], true, length, List, Option, Some, None, IfOk, OnOk, IfErr, OnErr};
ghost use Rattle.std.specs.Prelude.{option_copied, vec_len, drop, if◌then◌else◌};
ghost use Rattle.std.specs.BTreeSet.{contains};
ghost use Rattle.std.specs.List.Sorted.{IsStrictlySortedBy};
ghost use Rattle.std.specs.Map.{keys_of, lookup};
ghost use Rattle.kube_objects.specs.Answers.{answer, written};
ghost use Rattle.kube_objects.specs.Answers as answers;
ghost use Rattle.kube_objects.specs.Clocks.{whole_second};
ghost use Rattle.kube_objects.specs.Deletes.{answer_delete, answer_delete_alone};
ghost use Rattle.kube_objects.specs.Entry.{Entry};
ghost use Rattle.kube_objects.specs.Feeds.{is_among, shown_pair};
ghost use Rattle.kube_objects.specs.Keys.{key_cmp, key_eq};
ghost use Rattle.kube_objects.specs.Kinds.{IsOfKind, keeps_kind};
ghost use Rattle.object_store.specs.Kept.{AreAmong, AreOfKinds};
ghost use Rattle.kube_objects.specs.Newest.{has, when};
ghost use Rattle.kube_objects.specs.Stamps.{stamped};
ghost use Rattle.kube_objects.specs.Stored.{stored, write_of, next_version, request_write};
ghost use Rattle.kube_objects.specs.declared.call.Request.TheVariants.{PostStatus};
ghost use Rattle.kube_objects.specs.Stored as stored_words;
ghost use Rattle.kube_objects.specs.declared.key.Key.{Key};

use crate::replies::{get_reply, post_reply, write_reply};
use crate::{Posted, Since, StoreFault, stamp, status};
use key_map::KeyMap;
use kube_base::{NoMemory, Version, Wall, whole_second};
use kube_objects::{Feed, Items, Key, Node, Object, ReadyStatus, Reply, Request};
use std::alloc::Global;
use std::collections::BTreeSet;

/// Objects under their keys, each with the version of its last write. The store's version is the number of accepted writes.
#[derive(Drop)]
pub struct Store {
    objects: KeyMap<(Version, Object)>,
    changes: Vec<Key>,
    ghost kinds: { AreOfKinds objects },
    ghost among: { AreAmong changes.items objects },
}

impl Store {
    ghost use Rattle.object_store.specs.StoreAnswers.{IsReply, IsReplyToPost, UnlessPosted, answer_remove, kept_of, object_of, changed_keys};
    ghost use Rattle.object_store.specs.Stands.{StoreStands, Writes, SameStore, shown_in, version_in, changed_in};
    ghost use Rattle.object_store.specs.Stands.{node_in_pair, object_in_pair, start_since, keys_since, shown_since};

    /// Holds nothing; its version is 0. It stands for each history without an accepted write.
    pub fn new(alloc: Global) -> Store
        ensures { (h : List Entry) → stored_words.writes h ≡ 0 → StoreStands h result }
    {
        Store {
            objects: KeyMap::new(alloc),
            changes: Vec::new(alloc),
        }
    }

    /// The object under a key, with its version. None exactly if the key isn't stored.
    pub fn get(&self, key: &Key) -> Option<(Version, &Object)>
        ensures { (h : List Entry) → StoreStands h self.now → shown_pair result ≡ kept_of (stored key.now h) }
    {
        match self.objects.get(key) {
            Some(kept) => Some((kept.0, &kept.1)),
            None => None,
        }
    }

    /// Writes an object under a key that isn't stored. Exists exactly if it is stored.
    #[inline(never)]
    pub fn create(&mut self, key: Key, object: Object) -> Result<Version, StoreFault>
        requires kind { IsOfKind key object }
        ensures answer { (h : List Entry) → StoreStands h self.old → IsReply result (answers.answer_create (next_version h) (stored key h)) }
        ensures ok { (h : List Entry) (e : Entry) → StoreStands h self.old → write_of e.fact ≡ Some (key, Some object)
            → OnOk result (StoreStands (e ∷ h) self.new) }
        ensures err { (h : List Entry) → StoreStands h self.old → OnErr result (StoreStands h self.new) }
    {
        match self.version_at(&key) {
            Some(_) => Err(StoreFault::Exists),
            None => self.write_or_fault(key, object),
        }
    }

    /// Writes an object in the place of the one with that version. Absent exactly if the key isn't stored,
    /// Conflict exactly if the stored version differs.
    #[inline(never)]
    pub fn update(
        &mut self,
        key: Key,
        version: Version,
        object: Object,
    ) -> Result<Version, StoreFault>
        requires kind { IsOfKind key object }
        ensures answer { (h : List Entry) → StoreStands h self.old
            → IsReply result (answers.answer_update (next_version h) version (stored key h)) }
        ensures ok { (h : List Entry) (e : Entry) → StoreStands h self.old → write_of e.fact ≡ Some (key, Some object)
            → OnOk result (StoreStands (e ∷ h) self.new) }
        ensures err { (h : List Entry) → StoreStands h self.old → OnErr result (StoreStands h self.new) }
    {
        match self.version_at(&key) {
            None => Err(StoreFault::Absent),
            Some(held) => {
                if held != version {
                    return Err(StoreFault::Conflict(held));
                }
                self.write_or_fault(key, object)
            }
        }
    }

    /// Writes a node's Ready at a time of day. Absent exactly if the node isn't stored; Unchanged if the same
    /// status was written less than 300 s before.
    #[inline(never)]
    pub fn post_status(
        &mut self,
        node: u32,
        status: ReadyStatus,
        at: Wall,
    ) -> Result<Posted, StoreFault>
        ensures answer { (h : List Entry) → StoreStands h self.old → IsReplyToPost result (answer (PostStatus node status at) h) }
        ensures ok { (h : List Entry) (e : Entry) → StoreStands h self.old
            → write_of e.fact ≡ request_write (PostStatus node status at) (written (PostStatus node status at) h)
            → OnOk result (StoreStands (e ∷ h) self.new) }
        ensures same { (h : List Entry) → StoreStands h self.old → UnlessPosted result (StoreStands h self.new) }
    {
        let key = Key::node(node);
        let Some(stored) = self.node_at(&key) else {
            return Err(StoreFault::Absent);
        };
        let Some(ready) = status::ready_after(status, whole_second(at), stored.ready) else {
            return Ok(Posted::Unchanged);
        };
        let Ok(written) = status::with_ready(stored, ready) else {
            return Err(StoreFault::NoMemory);
        };
        match self.write_or_fault(key, Object::Node(written)) {
            Ok(version) => Ok(Posted::Done(version)),
            Err(fault) => Err(fault),
        }
    }

    /// Removes a pod. Absent exactly if the pod or the node isn't stored. Otherwise Conflict exactly if the pod's
    /// version differs from the given one, or, that agreeing, the node's.
    pub fn delete_pod(
        &mut self,
        pod: Key,
        pod_version: Version,
        node: Key,
        node_version: Version,
    ) -> Result<Version, StoreFault>
        ensures answer { (h : List Entry) → StoreStands h self.old → IsReply result (answer_delete pod pod_version node node_version h) }
        ensures ok { (h : List Entry) (e : Entry) → StoreStands h self.old → write_of e.fact ≡ Some (pod, None)
            → OnOk result (StoreStands (e ∷ h) self.new) }
        ensures err { (h : List Entry) → StoreStands h self.old → OnErr result (StoreStands h self.new) }
    {
        let Some(pod_held) = self.version_at(&pod) else {
            return Err(StoreFault::Absent);
        };
        let Some(node_held) = self.version_at(&node) else {
            return Err(StoreFault::Absent);
        };
        if pod_held != pod_version {
            return Err(StoreFault::Conflict(pod_held));
        }
        if node_held != node_version {
            return Err(StoreFault::Conflict(node_held));
        }
        match self.take_out(pod) {
            Ok(version) => Ok(version),
            Err(NoMemory) => Err(StoreFault::NoMemory),
        }
    }

    /// Removes a pod by its own version alone. Absent exactly if it isn't stored, otherwise Conflict exactly if its version differs from
    /// the given one.
    pub fn delete_pod_alone(&mut self, pod: Key, given: Version) -> Result<Version, StoreFault>
        ensures answer { (h : List Entry) → StoreStands h self.old → IsReply result (answer_delete_alone pod given h) }
        ensures ok { (h : List Entry) (e : Entry) → StoreStands h self.old → write_of e.fact ≡ Some (pod, None)
            → OnOk result (StoreStands (e ∷ h) self.new) }
        ensures err { (h : List Entry) → StoreStands h self.old → OnErr result (StoreStands h self.new) }
    {
        let Some(held) = self.version_at(&pod) else {
            return Err(StoreFault::Absent);
        };
        if held != given {
            return Err(StoreFault::Conflict(held));
        }
        match self.take_out(pod) {
            Ok(version) => Ok(version),
            Err(NoMemory) => Err(StoreFault::NoMemory),
        }
    }

    /// Writes an object, whatever is stored. A NoExecute taint without a time gets the whole second of `now`.
    pub fn put(&mut self, key: Key, object: Object, now: Wall) -> Result<Version, NoMemory>
        requires kind { IsOfKind key object }
        ensures answer { (h : List Entry) → StoreStands h self.old → IfOk result (λ version. version ≡ next_version h) }
        ensures ok { (h : List Entry) (e : Entry) → StoreStands h self.old
            → write_of e.fact ≡ Some (key, Some (stamped (whole_second now.0) object)) → OnOk result (StoreStands (e ∷ h) self.new) }
        ensures err { (h : List Entry) → StoreStands h self.old → OnErr result (StoreStands h self.new) }
    {
        let stamped = stamp::stamp_object(object, whole_second(now))?;
        self.write(key, stamped)
    }

    /// Removes what is under a key. None exactly if the key isn't stored, and nothing changes then.
    pub fn remove(&mut self, key: Key) -> Result<Option<Version>, NoMemory>
        ensures answer { (h : List Entry) → StoreStands h self.old → IfOk result (λ version. version ≡ answer_remove key h) }
        ensures ok { (h : List Entry) (e : Entry) → StoreStands h self.old
            → IfOk result (λ version. write_of e.fact ≡ when (has version) (key, None) → StoreStands (e ∷ h) self.new) }
        ensures same { (h : List Entry) → StoreStands h self.old → IfOk result (λ version. version ≡ None → StoreStands h self.new) }
        ensures err { (h : List Entry) → StoreStands h self.old → OnErr result (StoreStands h self.new) }
    {
        match self.version_at(&key) {
            None => Ok(None),
            Some(_) => Ok(Some(self.take_out(key)?)),
        }
    }

    /// Answers a request that arrives.
    pub fn answer(&mut self, request: Request) -> Result<Reply, NoMemory>
        requires kind { keeps_kind request ≡ true }
        ensures answer { (h : List Entry) → StoreStands h self.old → IfOk result (λ reply. reply ≡ answer request h) }
        ensures ok { (h : List Entry) (e : Entry) → StoreStands h self.old → write_of e.fact ≡ request_write request (written request h)
            → OnOk result (StoreStands (e ∷ h) self.new) }
        ensures err { (h : List Entry) → StoreStands h self.old → OnErr result (StoreStands h self.new) }
    {
        match request {
            Request::Get(key) => Ok(get_reply(self.get(&key))),
            Request::Create(key, lease) => write_reply(self.create(key, Object::Lease(lease))),
            Request::Update(key, version, lease) => {
                write_reply(self.update(key, version, Object::Lease(lease)))
            }
            Request::PostStatus(node, status, at) => post_reply(self.post_status(node, status, at)),
        }
    }

    /// All objects with their keys, in the order of keys. Each is a copy. It looks at each change once and orders the keys
    /// of all changes, and so costs more than there are objects if keys were removed or written often.
    pub fn objects(&self) -> Result<Items, NoMemory>
        ensures ascend { IfOk result (λ items. IsStrictlySortedBy key_cmp (keys_of items)) }
        ensures stored { (h : List Entry) (key : Key) → StoreStands h self.now
            → IfOk result (λ items. lookup (key_eq key) items ≡ object_of (stored key h)) }
    {
        let keys = self.keys_in_order()?;
        self.copies_under(&keys)
    }

    /// Copies of what is stored under these keys, in their order.
    fn copies_under(&self, keys: &BTreeSet<Key>) -> Result<Items, NoMemory>
        ensures ascend { IfOk result (λ items. IsStrictlySortedBy key_cmp (keys_of items)) }
        ensures stored { (key : Key) → IfOk result (λ items. lookup (key_eq key) items
            ≡ (if contains key_cmp keys.now key then object_in_pair (shown_in self.now key) else None)) }
    {
        let mut items = Items::new(*self.changes.allocator());
        for key in keys.iter() {
            if let Some(kept) = self.objects.get(key) {
                items.push((*key, kept.1.copy()?))?;
            }
        }
        Ok(items)
    }

    /// The keys of all changes, each once.
    fn keys_in_order(&self) -> Result<BTreeSet<Key>, NoMemory>
        ensures { IfOk result (λ keys. (key : Key) → contains key_cmp keys key ≡ is_among (changed_in self.now) key) }
    {
        let mut keys = BTreeSet::new(*self.changes.allocator());
        for key in self.changes.iter() {
            keys.insert(*key)?;
        }
        Ok(keys)
    }

    /// The changes from a position on. Costs nothing.
    pub fn since(&self, position: u64) -> Since<'_>
        requires { position ≤ length (changed_in self.now) }
        ensures start { start_since result ≡ position }
        ensures keys { (h : List Entry) → StoreStands h self.now → keys_since result ≡ drop position (changed_keys h) }
        ensures shown { (h : List Entry) (key : Key) → StoreStands h self.now → shown_since result key ≡ kept_of (stored key h) }
    {
        Since::new(self, position)
    }

    /// Writes an object under the next version.
    fn write(&mut self, key: Key, object: Object) -> Result<Version, NoMemory>
        requires kind { IsOfKind key object }
        ensures ok { IfOk result (λ version. Writes self.old self.new key (Some object) × (version.0 ≡ vec_len self.old.changes + 1)) }
        ensures err { OnErr result (SameStore self.old self.new) }
    {
        self.changes.push(key)?;
        let version = Version(self.changes.len() as u64);
        match self.objects.insert(key, (version, object)) {
            Ok(_) => Ok(version),
            Err(_) => {
                self.changes.pop();
                Err(NoMemory)
            }
        }
    }

    fn write_or_fault(&mut self, key: Key, object: Object) -> Result<Version, StoreFault>
        requires kind { IsOfKind key object }
        ensures ok { IfOk result (λ version. Writes self.old self.new key (Some object) × (version.0 ≡ vec_len self.old.changes + 1)) }
        ensures err { IfErr result (λ fault. (fault ≡ StoreFault.NoMemory) × SameStore self.old self.new) }
    {
        match self.write(key, object) {
            Ok(version) => Ok(version),
            Err(NoMemory) => Err(StoreFault::NoMemory),
        }
    }

    /// Removes what is under a key. The removal is a write, and has the next version.
    fn take_out(&mut self, key: Key) -> Result<Version, NoMemory>
        ensures ok { IfOk result (λ version. Writes self.old self.new key None × (version.0 ≡ vec_len self.old.changes + 1)) }
        ensures err { OnErr result (SameStore self.old self.new) }
    {
        self.changes.push(key)?;
        self.objects.remove(&key);
        Ok(Version(self.changes.len() as u64))
    }

    fn version_at(&self, key: &Key) -> Option<Version>
        ensures { result ≡ version_in (shown_in self.now key.now) }
    {
        match self.objects.get(key) {
            Some(kept) => Some(kept.0),
            None => None,
        }
    }

    fn node_at(&self, key: &Key) -> Option<&Node>
        ensures { option_copied result ≡ node_in_pair (shown_in self.now key.now) }
    {
        match self.objects.get(key) {
            Some(kept) => status::as_node(&kept.1),
            None => None,
        }
    }
}

impl Feed for Store {
    ghost use Rattle.object_store.specs.Stands.{changed_in, shown_in};
    ghost use Rattle.object_store.specs.FeedLaws.{kinds_in, listed_in};

    ghost changed = { changed_in };

    ghost shown = { shown_in };

    fn changes(&self) -> u64 {
        self.changes.len() as u64
    }

    fn change(&self, position: u64) -> Option<Key> {
        self.changes.get(position as usize).copied()
    }

    fn object(&self, key: &Key) -> Option<(Version, &Object)> {
        match self.objects.get(key) {
            Some(kept) => Some((kept.0, &kept.1)),
            None => None,
        }
    }

    ghost listed = { listed_in };

    ghost kinds = { kinds_in };
}
