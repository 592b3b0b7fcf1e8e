// Pods by the time at which they are due.
ghost use Rattle.std.specs.Prelude.{◌≡◌, ℕ, ◌≤◌, ◌<◌, OnOk, OnErr, IfSome, IfNone, if◌then◌else◌};
ghost use Rattle.evict_queue.specs.Ahead.{InStep};

use crate::change::{change, settle};
use crate::dues::Dues;
use crate::timed::Timed;
use kube_base::{NoMemory, Steps};
use kube_objects::{Due, DueList, Key};
use std::alloc::Global;

/// The due of each pod, and the pods with a due time in the order of these times. A pod that was never set is due never.
///
/// Each call costs the logarithm of the pods that have a due time, `node_changed` once for each pod of its list.
#[derive(Drop)]
pub struct EvictQueue {
    dues: Dues,
    timed: Timed,
    ghost in_step: { InStep dues timed },
}

impl EvictQueue {
    ghost use Rattle.kube_objects.specs.declared.key.Key.{Key};
    ghost use Rattle.kube_objects.specs.declared.pod.Due.TheVariants.{Never, At};
    ghost use Rattle.kube_objects.specs.Keys.{key_eq};
    ghost use Rattle.kube_base.specs.Steps.{counted};
    ghost use Rattle.evict_queue.specs.Changed.{changed, KeysDiffer};
    ghost use Rattle.evict_queue.specs.Order.{IsNotAfter};
    ghost use Rattle.evict_queue.specs.Queue.{due_in};

    /// Every pod is due never. Takes no memory.
    pub fn new(alloc: Global) -> EvictQueue
        ensures { (key : Key) → due_in result key ≡ Never }
    {
        EvictQueue {
            dues: Dues::new(alloc),
            timed: Timed::new(alloc),
        }
    }

    /// Replaces the pod's due. If memory runs out no due changes.
    pub fn set(&mut self, pod: Key, due: Due) -> Result<(), NoMemory>
        ensures ok { OnOk result ((key : Key) → due_in self.new key ≡ (if key_eq pod key then due else due_in self.old key)) }
        ensures err { OnErr result ((key : Key) → due_in self.new key ≡ due_in self.old key) }
    {
        let list = [(pod, due)];
        change(&mut self.dues, &mut self.timed, &list)
    }

    /// The pod is due never from now on. Takes no memory.
    pub fn cancel(&mut self, pod: &Key)
        ensures { (key : Key) → due_in self.new key ≡ (if key_eq pod.now key then Never else due_in self.old key) }
    {
        settle(&mut self.dues, &mut self.timed, *pod, Due::Never);
    }

    /// Sets the due of each pod of the list, all or none. The list has each pod once.
    pub fn node_changed(&mut self, list: &DueList) -> Result<(), NoMemory>
        requires { KeysDiffer list.now }
        ensures ok { OnOk result ((key : Key) → due_in self.new key ≡ changed list.now (due_in self.old key) key) }
        ensures err { OnErr result ((key : Key) → due_in self.new key ≡ due_in self.old key) }
    {
        change(&mut self.dues, &mut self.timed, list.as_slice())
    }

    /// Takes out the pod with the least due time, and of equal ones the least key, if that time is at most `now`;
    /// none exactly if no due time is. It takes one step if any pod has a due time, and no memory.
    pub fn next_due<L>(&mut self, now: u128, steps: &mut Steps<L>) -> Option<Key>
        ensures due { IfSome result (λ pod. (time : ℕ) × (due_in self.old pod ≡ At time) × (time ≤ now)) }
        ensures first { IfSome result (λ pod. (time other : ℕ) (key : Key)
            → due_in self.old pod ≡ At time → due_in self.old key ≡ At other → IsNotAfter (time, pod) (other, key)) }
        ensures taken { IfSome result (λ pod. (key : Key) → due_in self.new key ≡ (if key_eq pod key then Never else due_in self.old key)) }
        ensures none { IfNone result ((time : ℕ) (key : Key) → due_in self.old key ≡ At time → now < time) }
        ensures kept { IfNone result ((key : Key) → due_in self.new key ≡ due_in self.old key) }
        ensures counted { (time : ℕ) (key : Key) → due_in self.old key ≡ At time → steps.new ≡ counted steps.old 1 }
        ensures quiet { ((key : Key) → due_in self.old key ≡ Never) → steps.new ≡ steps.old }
    {
        match self.timed.first(steps) {
            None => None,
            Some((time, pod)) => {
                if now < time {
                    return None;
                }
                self.cancel(&pod);
                Some(pod)
            }
        }
    }

    /// The least due time; none exactly if no pod has one. It takes no memory and shows no pod.
    pub fn least(&self) -> Option<u128>
        ensures there { IfSome result (λ time. (key : Key) × (due_in self.now key ≡ At time)) }
        ensures least { IfSome result (λ time. (other : ℕ) (key : Key) → due_in self.now key ≡ At other → time ≤ other) }
        ensures none { IfNone result ((key : Key) → due_in self.now key ≡ Never) }
    {
        self.timed.least()
    }
}
