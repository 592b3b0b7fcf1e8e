// The queue of one zone among those of all.
ghost use Rattle.std.specs.Prelude.{◌≡◌, ℕ, ◌==◌, ◌&&◌, None, Some, OnOk, OnErr, unwrap_or, if◌then◌else◌};
ghost use Rattle.std.specs.Option.{option_map};
ghost use Rattle.taint_zones.specs.Homes.{since_at};
ghost use Rattle.taint_zones.specs.Places.{zone_eq};

use crate::Place;
use kube_base::{Beat, NoMemory};
use std::alloc::Global;
use std::collections::BTreeMap;
use taint_queue::Queue;

// The node doesn't wait in the zone.
pub(crate) fn leave(zones: &mut BTreeMap<Place, Queue>, place: Place, node: u32)
    ensures { (zone : Place) (other : ℕ) → since_at zones.new zone other
        ≡ (if node == other && zone_eq place zone then None else since_at zones.old zone other) }
{
    if let Some(queue) = zones.get_mut(&place) {
        queue.leave(node);
    }
}

// The node waits in the zone, since this beat unless it waits there already.
pub(crate) fn want(
    zones: &mut BTreeMap<Place, Queue>,
    alloc: Global,
    place: Place,
    node: u32,
    at: Beat,
) -> Result<(), NoMemory>
    ensures ok { OnOk result ((zone : Place) (other : ℕ) → since_at zones.new zone other
        ≡ (if node == other && zone_eq place zone then Some (unwrap_or (since_at zones.old zone node) at.0)
        else since_at zones.old zone other)) }
    ensures err { OnErr result ((zone : Place) (other : ℕ) → since_at zones.new zone other ≡ since_at zones.old zone other) }
{
    match zones.get_mut(&place) {
        Some(queue) => queue.want(node, at),
        None => {
            let mut queue = Queue::new(alloc);
            queue.want(node, at)?;
            zones.insert(place, queue)?;
            Ok(())
        }
    }
}

// A node that waits in the zone does so since this beat from now on.
pub(crate) fn to_back(zones: &mut BTreeMap<Place, Queue>, place: Place, node: u32, at: Beat)
    ensures { (zone : Place) (other : ℕ) → since_at zones.new zone other
        ≡ (if node == other && zone_eq place zone then option_map (λ _. at.0) (since_at zones.old zone node)
        else since_at zones.old zone other) }
{
    if let Some(queue) = zones.get_mut(&place) {
        queue.to_back(node, at);
    }
}
