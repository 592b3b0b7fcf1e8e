// A map from keys.
ghost use Rattle.std.specs.Prelude.{◌≡◌, None, Some, IfOk, OnOk, OnErr, option_copied, if◌then◌else◌};
ghost use Rattle.kube_objects.specs.declared.key.Key.{Key};
ghost use Rattle.kube_objects.specs.Keys.{key_eq};
ghost use Rattle.key_map.specs.Values.{shelf_of, value_at};

use crate::shelf::Shelf;
use kube_base::NoMemory;
use kube_objects::{Key, Kind};
use std::alloc::Global;

/// Values under keys. Each call costs the same however many there are, but that a map that grows is copied now and then, and makes a place
/// for each number up to that of a name.
#[derive(Drop)]
pub struct KeyMap<V> {
    nodes: Shelf<V>,
    leases: Shelf<V>,
    pods: Shelf<V>,
}

impl<V> KeyMap<V> {
    /// No values. Takes no memory.
    pub fn new(alloc: Global) -> KeyMap<V>
        ensures { (k : Key) → value_at result k ≡ None }
    {
        KeyMap {
            nodes: Shelf::new(alloc),
            leases: Shelf::new(alloc),
            pods: Shelf::new(alloc),
        }
    }

    /// The value under a key; None exactly if there is none.
    pub fn get(&self, key: &Key) -> Option<&V>
        ensures { option_copied result ≡ value_at self.now key.now }
    {
        self.shelf(key.kind).get(key.space, key.name)
    }

    fn shelf(&self, kind: Kind) -> &Shelf<V>
        ensures { result.now ≡ shelf_of self.now kind }
    {
        match kind {
            Kind::Node => &self.nodes,
            Kind::Lease => &self.leases,
            Kind::Pod => &self.pods,
        }
    }
}

impl<V: Drop> KeyMap<V> {
    /// Puts a value under a key, and returns what was there. If memory runs out nothing changes, and nothing is under the key.
    pub fn insert(&mut self, key: Key, value: V) -> Result<Option<V>, NoMemory>
        ensures old { IfOk result (λ old. old ≡ value_at self.old key) }
        ensures put { OnOk result ((k : Key) → value_at self.new k ≡ (if key_eq key k then Some value else value_at self.old k)) }
        ensures absent { OnErr result (value_at self.old key ≡ None) }
        ensures same { OnErr result ((k : Key) → value_at self.new k ≡ value_at self.old k) }
    {
        match key.kind {
            Kind::Node => self.nodes.insert(key.space, key.name, value),
            Kind::Lease => self.leases.insert(key.space, key.name, value),
            Kind::Pod => self.pods.insert(key.space, key.name, value),
        }
    }

    /// Takes out what is under a key, and returns it; None exactly if there is nothing.
    pub fn remove(&mut self, key: &Key) -> Option<V>
        ensures old { result ≡ value_at self.old key.now }
        ensures taken { (k : Key) → value_at self.new k ≡ (if key_eq key.now k then None else value_at self.old k) }
    {
        match key.kind {
            Kind::Node => self.nodes.remove(key.space, key.name),
            Kind::Lease => self.leases.remove(key.space, key.name),
            Kind::Pod => self.pods.remove(key.space, key.name),
        }
    }
}
