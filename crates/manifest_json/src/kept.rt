// The objects of a list so far.
ghost use Rattle.std.specs.Prelude.{◌≡◌, ◌+◌, ◌<◌, ◌^◌, nat_le, [], OnOk};
ghost use Rattle.kube_objects.specs.declared.key.Kind.TheVariants as kinds;
ghost use Rattle.manifest_json.specs.Faults.{Gives};
ghost use Rattle.manifest_json.specs.Kept.{Stands, with_one};
ghost use Rattle.manifest_json.specs.Walk.{kind_count, kind_limit, with_found};

use crate::codes::{DUPLICATE, TOO_MANY};
use crate::fault::fault;
use crate::{Path, ReadFault, Scale};
use key_map::KeyMap;
use kube_objects::{Items, Key, Kind, Object};
use std::alloc::Global;

/// How many objects there are of each kind.
#[derive(Clone, Copy, Debug)]
pub(crate) struct Counts {
    pub(crate) nodes: u32,
    pub(crate) leases: u32,
    pub(crate) pods: u32,
}

/// Objects of a list of some scale, in order, with their keys.
#[derive(Drop)]
pub struct Kept {
    pub scale: Scale,
    pub items: Items,
    keys: KeyMap<()>,
    counts: Counts,
}

impl Kept {
    /// No objects. Takes no memory.
    pub fn new(alloc: Global, scale: Scale) -> Kept
        ensures scale { result.scale ≡ scale }
        ensures items { result.items ≡ [] }
        ensures stands { Stands result }
    {
        Kept {
            scale,
            items: Items::new(alloc),
            keys: KeyMap::new(alloc),
            counts: Counts {
                nodes: 0,
                leases: 0,
                pods: 0,
            },
        }
    }

    /// Adds an object whose key is new and whose kind is not full.
    pub fn keep(&mut self, path: &Path, found: (Key, Object)) -> Result<(), ReadFault>
        requires { Stands self.old }
        ensures gives { Gives (λ _. self.new.items) result (with_found self.old.scale path.now self.old.items found) }
        ensures stands { OnOk result (Stands self.new) }
        ensures scale { self.new.scale ≡ self.old.scale }
    {
        let key = found.0;
        match self.keys.insert(key, ()) {
            Ok(None) => {}
            Ok(Some(())) => return Err(fault(DUPLICATE, path)),
            Err(_) => return Err(ReadFault::NoMemory),
        }
        let Some(counts) = one_more(self.scale, self.counts, key.kind) else {
            return Err(fault(TOO_MANY, path));
        };
        self.counts = counts;
        match self.items.push(found) {
            Ok(()) => Ok(()),
            Err(_) => Err(ReadFault::NoMemory),
        }
    }

    /// Whether there is room for so many more Pods.
    pub fn has_room(&self, pods: u64) -> bool
        requires stands { Stands self.now }
        requires few { pods < 2 ^ 63 }
        ensures { result ≡ nat_le (kind_count kinds.Pod self.now.items + pods) (kind_limit self.now.scale kinds.Pod) }
    {
        u64::from(self.counts.pods) + pods <= u64::from(most(self.scale, Kind::Pod))
    }
}

/// How many objects of a kind a list may have.
fn most(scale: Scale, kind: Kind) -> u32
    ensures { result ≡ kind_limit scale kind }
{
    match scale {
        Scale::Usual => match kind {
            Kind::Node => 1_000,
            Kind::Lease => 2_000,
            Kind::Pod => 30_000,
        },
        Scale::Large => match kind {
            Kind::Node => 15_000,
            Kind::Lease => 30_000,
            Kind::Pod => 450_000,
        },
    }
}

/// The counts with one more of a kind, unless it is full.
fn one_more(scale: Scale, counts: Counts, kind: Kind) -> Option<Counts>
    ensures { result ≡ with_one scale counts kind }
{
    match kind {
        Kind::Node => if counts.nodes < most(scale, Kind::Node) {
            Some(Counts {
                nodes: counts.nodes + 1,
                leases: counts.leases,
                pods: counts.pods,
            })
        } else {
            None
        },
        Kind::Lease => if counts.leases < most(scale, Kind::Lease) {
            Some(Counts {
                nodes: counts.nodes,
                leases: counts.leases + 1,
                pods: counts.pods,
            })
        } else {
            None
        },
        Kind::Pod => if counts.pods < most(scale, Kind::Pod) {
            Some(Counts {
                nodes: counts.nodes,
                leases: counts.leases,
                pods: counts.pods + 1,
            })
        } else {
            None
        },
    }
}
