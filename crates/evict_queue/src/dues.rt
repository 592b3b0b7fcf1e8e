// The due of each pod, by its key.
ghost use Rattle.std.specs.Prelude.{◌≡◌, None, Some, IsSome, OnOk, OnErr, if◌then◌else◌};

use key_map::KeyMap;
use kube_base::NoMemory;
use kube_objects::{Due, Key};
use std::alloc::Global;

/// The due of each pod. A pod whose due is Never may have room or none.
#[derive(Drop)]
pub(crate) struct Dues {
    map: KeyMap<Due>,
}

impl Dues {
    ghost use Rattle.kube_objects.specs.declared.key.Key.{Key};
    ghost use Rattle.kube_objects.specs.Keys.{key_eq};
    ghost use Rattle.evict_queue.specs.Changed.{is_time};
    ghost use Rattle.evict_queue.specs.Held.{due_of, room_of};

    /// No pod has a due.
    pub(crate) fn new(alloc: Global) -> Dues
        ensures { (k : Key) → room_of result k ≡ None }
    {
        Dues {
            map: KeyMap::new(alloc),
        }
    }

    /// The due of a pod.
    pub(crate) fn get(&self, key: &Key) -> Due
        ensures { result ≡ due_of self.now key.now }
    {
        match self.map.get(key) {
            Some(due) => *due,
            None => Due::Never,
        }
    }

    /// Whether a pod is due at this time.
    pub(crate) fn is_due_at(&self, key: &Key, time: u128) -> bool
        ensures { result ≡ is_time time (due_of self.now key.now) }
    {
        match self.get(key) {
            Due::At(kept) => kept == time,
            Due::Never => false,
        }
    }

    /// Makes room for a pod's due. No pod's due changes.
    pub(crate) fn make_room(&mut self, key: Key) -> Result<(), NoMemory>
        ensures there { OnOk result (IsSome (room_of self.new key)) }
        ensures rooms { (k : Key) → IsSome (room_of self.old k) → IsSome (room_of self.new k) }
        ensures same { (k : Key) → due_of self.new k ≡ due_of self.old k }
    {
        match self.map.get(&key) {
            Some(_) => Ok(()),
            None => {
                self.map.insert(key, Due::Never)?;
                Ok(())
            }
        }
    }

    /// Sets the due of a pod for which there is room, and returns the due before.
    pub(crate) fn put(&mut self, key: Key, due: Due) -> Due
        requires { IsSome (room_of self.old key) }
        ensures due { result ≡ due_of self.old key }
        ensures put { (k : Key) → room_of self.new k ≡ (if key_eq key k then Some due else room_of self.old k) }
    {
        match self.map.insert(key, due) {
            Ok(Some(old)) => old,
            Ok(None) => Due::Never,
            Err(NoMemory) => unreachable!(),
        }
    }

    /// Takes a pod's due out, with its room.
    pub(crate) fn remove(&mut self, key: &Key) -> Due
        ensures due { result ≡ due_of self.old key.now }
        ensures removed { (k : Key) → room_of self.new k ≡ (if key_eq key.now k then None else room_of self.old k) }
    {
        match self.map.remove(key) {
            Some(due) => due,
            None => Due::Never,
        }
    }
}
