// From one zone to the next.
ghost use Rattle.std.specs.Prelude.{None};
ghost use Rattle.taint_zones.specs.Waiting.{IsNextPlace};

use crate::Place;
use std::collections::BTreeMap;
use std::ops::Bound;

/// The next zone after this one, or the first, that the map has.
pub(crate) fn next_place<V>(zones: &BTreeMap<Place, V>, after: Option<Place>) -> Option<Place>
    ensures { IsNextPlace zones.now after result }
{
    match after {
        None => first_place(zones),
        Some(place) => {
            match zones
                .range((Bound::Excluded(place), Bound::Unbounded))
                .next()
            {
                None => None,
                Some((next, _)) => Some(*next),
            }
        }
    }
}

fn first_place<V>(zones: &BTreeMap<Place, V>) -> Option<Place>
    ensures { IsNextPlace zones.now None result }
{
    match zones.first_key_value() {
        None => None,
        Some((first, _)) => Some(*first),
    }
}
