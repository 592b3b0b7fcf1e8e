// The counts of the zones.
ghost use Rattle.std.specs.Prelude.{◌≡◌, ℕ, ◌+◌, ◌<◌, ◌++◌, ◌∷◌, [], List, IfOk, OnOk, length};
ghost use Rattle.std.specs.Prelude.{Some, if◌then◌else◌};
ghost use Rattle.kube_objects.specs.Entry.{Place as Zone};
ghost use Rattle.kube_objects.specs.Modes as model;
ghost use Rattle.kube_objects.specs.declared.node.Node.{Node};
ghost use Rattle.zone_counts.specs.Counted as counted;
ghost use Rattle.taint_zones.specs.Places.{entry_place};

use kube_base::NoMemory;
use kube_objects::{Node, ReadyStatus};
use std::alloc::Global;
use std::collections::BTreeMap;
use taint_zones::Place;

/// How many nodes of a zone are ready, and how many aren't.
#[derive(Clone, Copy, Debug, PartialEq, Eq)]
pub(crate) struct Count {
    pub(crate) ready: u32,
    pub(crate) others: u32,
}

/// A zone with the number of its ready nodes and of its other ones.
#[derive(Clone, Copy, Debug, PartialEq, Eq)]
pub struct ZoneCount {
    pub place: Place,
    pub ready: u32,
    pub others: u32,
}

/// The zones of some nodes. A node costs the logarithm of the zones.
#[derive(Debug, Drop)]
pub struct Counts {
    alloc: Global,
    zones: BTreeMap<Place, Count>,
}

// Whether a node's Ready condition is True.
fn is_ready(node: &Node) -> bool
    ensures { result ≡ model.is_ready node.now.ready }
{
    match node.ready {
        Some(ready) => ready.status == ReadyStatus::True,
        None => false,
    }
}

// The zone that a node is in.
fn place_of(node: &Node) -> Place
    ensures { entry_place result ≡ model.place_of node.now }
{
    Place {
        region: node.region,
        zone: node.zone,
    }
}

// A count with one node more.
fn and_one(ready: bool, count: Count) -> Count
    ensures { result ≡ counted.and_one ready (Some count) }
{
    if ready {
        return Count {
            ready: count.ready.saturating_add(1),
            ..count
        };
    }
    Count {
        others: count.others.saturating_add(1),
        ..count
    }
}

impl Counts {
    ghost use Rattle.zone_counts.specs.Counted.{CountsStand, zone_counts};

    /// No node. Takes no memory.
    pub fn new(alloc: Global) -> Counts
        ensures { CountsStand [] result }
    {
        Counts {
            alloc,
            zones: BTreeMap::new(alloc),
        }
    }

    /// One node more.
    pub fn add(&mut self, node: &Node) -> Result<(), NoMemory>
        ensures { (nodes : List Node) → CountsStand nodes self.old → length nodes + 1 < 4294967296
            → OnOk result (CountsStand (nodes ++ node.now ∷ []) self.new) }
    {
        self.count(place_of(node), is_ready(node))
    }

    // One node more in a zone.
    fn count(&mut self, place: Place, ready: bool) -> Result<(), NoMemory>
        ensures { OnOk result ((other : Zone) → counted.count_at self.new other
            ≡ (if model.place_eq (entry_place place) other then Some (counted.and_one ready (counted.count_at self.old (entry_place place)))
            else counted.count_at self.old other)) }
    {
        let none = Count {
            ready: 0,
            others: 0,
        };
        let count = and_one(ready, self.zones.get(&place).copied().unwrap_or(none));
        self.zones.insert(place, count)?;
        Ok(())
    }

    /// Each zone with its counts, in the order of zones.
    pub fn list(&self) -> Result<Vec<ZoneCount>, NoMemory>
        ensures { (nodes : List Node) → CountsStand nodes self.now → IfOk result (λ zones. zones.items ≡ zone_counts nodes) }
    {
        let mut list = Vec::new(self.alloc);
        for (place, count) in self.zones.iter() {
            list.push(ZoneCount {
                place: *place,
                ready: count.ready,
                others: count.others,
            })?;
        }
        Ok(list)
    }
}
