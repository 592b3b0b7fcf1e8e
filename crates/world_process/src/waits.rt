// A controller's waits.
ghost use Rattle.std.specs.Prelude.{◌≡◌, ◌≤◌, ◌<◌, length, slice_get, Some, All};
ghost use Rattle.script_reader.specs.Lawful.{AreWaits};

use kube_objects::{NumberList, WaitLists};

/// The waits of a controller after failed attempts, in thousandths of its retry period.
#[derive(Drop)]
pub struct Waits {
    pub each: NumberList,
    ghost each_fits: { All (λ w. w ≤ 2200) each },
}

impl Waits {
    /// The waits in order.
    pub fn as_slice(&self) -> &[u32]
        ensures each { result.now ≡ self.now.each }
        ensures fits { All (λ w. w ≤ 2200) result.now }
    {
        self.each.as_slice()
    }
}

/// Those of the controller at a place among the document's.
pub fn waits_at(waits: &WaitLists, place: usize) -> &NumberList
    requires place { place < length waits.now }
    requires each { All AreWaits waits.now }
    ensures fits { AreWaits result.now }
    ensures found { slice_get waits.now place ≡ Some result.now }
{
    &waits.as_slice()[place]
}
