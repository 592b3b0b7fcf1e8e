// The nodes that wait, zone by zone.
ghost use Rattle.std.specs.Prelude.{◌≡◌, ℕ, ◌==◌, ◌&&◌, not, Bool, true, false, Some, None, IfSome, IfNone, OnOk, unwrap_or, if◌then◌else◌};
ghost use Rattle.taint_queue.specs.Order.{precedes};
ghost use Rattle.taint_zones.specs.Homes.{AreHome};

use crate::Place;
use crate::next_place::next_place;
use crate::zone_queues::{leave, to_back, want};
use kube_base::{Beat, NoMemory};
use std::alloc::Global;
use std::collections::BTreeMap;
use taint_queue::Queue;

/// The queues of zones, and the zone in which each node waits.
///
/// Each call costs the logarithm of the zones and of the nodes that wait.
#[derive(Debug, Drop)]
pub struct Queues {
    alloc: Global,
    zones: BTreeMap<Place, Queue>,
    homes: BTreeMap<u32, Place>,
    ghost at_home: { AreHome zones homes },
}

impl Queues {
    ghost use Rattle.std.specs.Option.{option_map};
    ghost use Rattle.taint_zones.specs.Places.{zone_eq};
    ghost use Rattle.taint_zones.specs.Waiting.{IsEmpty, IsNextZone, home, is_place, moved_in, since};

    /// Nobody waits. Takes no memory.
    pub fn new(alloc: Global) -> Queues
        ensures { (zone : Place) (node : ℕ) → since result zone node ≡ None }
    {
        Queues {
            alloc,
            zones: BTreeMap::new(alloc),
            homes: BTreeMap::new(alloc),
        }
    }

    /// The node waits in this zone, and in no other, or nowhere if there is none. If it waits in that zone already it
    /// keeps its beat, else it waits since this beat.
    pub fn settle(&mut self, node: u32, place: Option<Place>, at: Beat) -> Result<(), NoMemory>
        ensures { OnOk result ((zone : Place) (other : ℕ) → since self.new zone other
            ≡ (if node == other then moved_in place zone at.0 (since self.old zone node) else since self.old zone other)) }
    {
        match place {
            None => {
                self.leave(node);
                Ok(())
            }
            Some(place) => {
                self.leave_others(node, place)?;
                self.want(node, place, at)
            }
        }
    }

    /// The node waits nowhere. Takes no memory.
    pub fn leave(&mut self, node: u32)
        ensures { (zone : Place) (other : ℕ) → since self.new zone other ≡ (if node == other then None else since self.old zone other) }
    {
        let Some(place) = self.home(node) else {
            return;
        };
        leave(&mut self.zones, place, node);
    }

    // The node waits in no other zone, and this one is its zone.
    fn leave_others(&mut self, node: u32, place: Place) -> Result<(), NoMemory>
        ensures left { OnOk result ((zone : Place) (other : ℕ) → since self.new zone other
            ≡ (if node == other && not (zone_eq place zone) then None else since self.old zone other)) }
        ensures home { OnOk result (home self.new node ≡ Some place) }
    {
        if self.is_home(node, place) {
            return Ok(());
        }
        self.leave(node);
        self.homes.insert(node, place)?;
        Ok(())
    }

    fn home(&self, node: u32) -> Option<Place>
        ensures { result ≡ home self.now node }
    {
        match self.homes.get(&node) {
            None => None,
            Some(place) => Some(*place),
        }
    }

    fn is_home(&self, node: u32, place: Place) -> bool
        ensures { result ≡ is_place place (home self.now node) }
    {
        match self.home(node) {
            None => false,
            Some(home) => home == place,
        }
    }

    // The node waits in its zone, since this beat unless it waits there already.
    fn want(&mut self, node: u32, place: Place, at: Beat) -> Result<(), NoMemory>
        requires { home self.old node ≡ Some place }
        ensures { OnOk result ((zone : Place) (other : ℕ) → since self.new zone other
            ≡ (if node == other && zone_eq place zone then Some (unwrap_or (since self.old zone node) at.0)
            else since self.old zone other)) }
    {
        want(&mut self.zones, self.alloc, place, node, at)
    }

    /// The node that waits in a zone since the least beat, and of equal ones the least; none exactly if nobody waits.
    /// Takes no memory.
    pub fn head(&self, place: Place) -> Option<u32>
        ensures first { IfSome result (λ node. (at : ℕ) × (since self.now place node ≡ Some at)
            × ((other beat : ℕ) → since self.now place other ≡ Some beat → precedes at node beat other ≡ true)) }
        ensures none { IfNone result (IsEmpty self.now place) }
    {
        match self.zones.get(&place) {
            None => None,
            Some(queue) => queue.head(),
        }
    }

    /// A node that waits in a zone does so since this beat from now on. Takes no memory.
    pub fn to_back(&mut self, place: Place, node: u32, at: Beat)
        ensures { (zone : Place) (other : ℕ) → since self.new zone other
            ≡ (if node == other && zone_eq place zone then option_map (λ _. at.0) (since self.old zone node)
            else since self.old zone other) }
    {
        to_back(&mut self.zones, place, node, at);
    }

    /// The next zone after this one, or the first, that has a queue. Between the two nobody waits; if there is none,
    /// nobody waits after this one.
    pub fn next_zone(&self, after: Option<Place>) -> Option<Place>
        ensures { IsNextZone self.now after result }
    {
        next_place(&self.zones, after)
    }
}
