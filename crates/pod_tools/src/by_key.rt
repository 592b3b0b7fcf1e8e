// The tolerations of a pod by their keys.
ghost use Rattle.std.specs.Prelude.{◌≡◌, ◌||◌, false, IfOk, OnOk};
ghost use Rattle.std.specs.List.{list_any};
ghost use Rattle.kube_objects.specs.Tolerations.{tolerates};
ghost use Rattle.kube_objects.specs.declared.node.Taint.{Taint};
ghost use Rattle.pod_tools.specs.ByKey as spec;

use kube_base::NoMemory;
use kube_objects::{Taint, Toleration, TolerationList, Tolerations};
use std::alloc::Global;
use taint_match::tolerates;

/// How many slots there are.
const SLOTS: usize = 256;

/// Tolerations in slots by their keys, and apart from them those without a key.
#[derive(Drop)]
pub(crate) struct Slots {
    mix: u64,
    keyless: TolerationList,
    slots: Vec<TolerationList>,
}

impl Slots {
    #[tactic(auto, using(crate::proofs::Slots::all_empty))]
    fn new(alloc: Global, mix: u64) -> Result<Slots, NoMemory>
        ensures { IfOk result (λ s. (taint : Taint) → spec.is_told s taint ≡ false) }
    {
        let mut slots = Vec::with_capacity(alloc, SLOTS)?;
        for _ in 0..SLOTS {
            slots.push(TolerationList::new(alloc))?;
        }
        Ok(Slots {
            mix,
            keyless: TolerationList::new(alloc),
            slots,
        })
    }

    fn put(&mut self, toleration: Toleration) -> Result<(), NoMemory>
        ensures { (taint : Taint) → OnOk result (spec.is_told self.new taint ≡ (spec.is_told self.old taint || tolerates toleration taint)) }
    {
        if toleration.key == 0 {
            return self.keyless.push(toleration);
        }
        match self.slots.get_mut(slot_of(self.mix, toleration.key)) {
            Some(slot) => slot.push(toleration),
            None => self.keyless.push(toleration),
        }
    }

    /// Whether a toleration without a key, or one in the slot of the taint's key, tolerates it.
    fn tell(&self, taint: &Taint) -> bool
        ensures { result ≡ spec.is_told self.now taint.now }
    {
        is_any(self.keyless.as_slice(), taint) || is_any(self.slot(taint.key), taint)
    }

    fn slot(&self, key: u32) -> &[Toleration]
        ensures { result.now ≡ spec.in_slot self.now.slots.items (spec.slot self.now.mix key) }
    {
        match self.slots.get(slot_of(self.mix, key)) {
            Some(slot) => slot.as_slice(),
            None => &[],
        }
    }
}

fn is_any(tolerations: &[Toleration], taint: &Taint) -> bool
    ensures { result ≡ list_any (λ t. tolerates t taint.now) tolerations.now }
{
    tolerations
        .iter()
        .any(|toleration| tolerates(toleration, taint))
}

/// The slot of a key: the upper eight bits of its product with the mix.
fn slot_of(mix: u64, key: u32) -> usize
    ensures { result ≡ spec.slot mix key }
{
    (mix.wrapping_mul(u64::from(key)) / 72_057_594_037_927_936) as usize
}

/// All tolerations of a pod, and the same by their keys.
#[derive(Drop)]
pub(crate) struct ByKey {
    pub(crate) all: Tolerations,
    slots: Slots,
    ghost right: { spec.IsRight all slots },
}

impl ByKey {
    /// These tolerations.
    pub(crate) fn new(alloc: Global, mix: u64, all: Tolerations) -> Result<ByKey, NoMemory>
        ensures { IfOk result (λ by_key. by_key.all ≡ all) }
    {
        let slots = in_slots(alloc, mix, all.as_slice())?;
        Ok(ByKey { all, slots })
    }

    /// Whether one of the tolerations tolerates a taint.
    pub(crate) fn has_one_for(&self, taint: &Taint) -> bool
        ensures { result ≡ list_any (λ t. tolerates t taint.now) self.now.all }
    {
        self.slots.tell(taint)
    }
}

fn in_slots(alloc: Global, mix: u64, all: &[Toleration]) -> Result<Slots, NoMemory>
    ensures { IfOk result (spec.IsRight all.now) }
{
    let mut slots = Slots::new(alloc, mix)?;
    for toleration in all {
        slots.put(*toleration)?;
    }
    Ok(slots)
}
