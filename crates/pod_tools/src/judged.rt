// Pods that were judged before.
ghost use Rattle.std.specs.Prelude.{◌≡◌, List, IfOk, IfSome, OnOk, IsTrue};
ghost use Rattle.pod_tools.specs.Feasible as spec;
ghost use Rattle.pod_tools.specs.Judged.{AreRight, IsRight};
ghost use Rattle.pod_tools.specs.declared.rows.NodeRow.{NodeRow};

use crate::Placement;
use kube_base::NoMemory;
use kube_objects::{Effect, NumberList, Operator, Toleration, Tolerations};
use std::alloc::Global;
use std::hash::{DefaultHasher, Hasher};

/// For how many lists of tolerations an answer is remembered.
const SLOTS: u64 = 1_024;

/// What was found for a pod with these tolerations: how many it has with the default ones, and the places of the nodes.
#[derive(Drop)]
pub(crate) struct Judged {
    given: Tolerations,
    tolerations: u32,
    nodes: NumberList,
}

/// The answers that are remembered. Each list of tolerations has a slot, which it shares with others: the last of them is remembered.
#[derive(Drop)]
pub(crate) struct Judgements {
    slots: Vec<Option<Judged>>,
}

impl Judgements {
    /// None is remembered.
    pub(crate) fn new(alloc: Global) -> Result<Judgements, NoMemory>
        ensures { (nodes : List NodeRow) → IfOk result (AreRight nodes) }
    {
        let mut slots = Vec::with_capacity(alloc, SLOTS as usize)?;
        for _ in 0..SLOTS {
            slots.push(None)?;
        }
        Ok(Judgements { slots })
    }

    /// The answer for the pod at a place, if one for equal tolerations is remembered.
    pub(crate) fn recall(
        &self,
        pod: u32,
        given: &Tolerations,
    ) -> Result<Option<Placement>, NoMemory>
        ensures { (nodes : List NodeRow) → AreRight nodes self.now
            → IfOk result (λ found. IfSome found (λ p. p ≡ spec.placement nodes pod given.now)) }
    {
        match self.slots.get(slot_of(given.as_slice())) {
            Some(Some(judged)) => again(judged, pod, given.as_slice()),
            _ => Ok(None),
        }
    }

    /// Remembers the answer for a pod with these tolerations.
    pub(crate) fn remember(
        &mut self,
        given: &Tolerations,
        placement: &Placement,
    ) -> Result<(), NoMemory>
        ensures { (nodes : List NodeRow) → AreRight nodes self.old → placement.now ≡ spec.placement nodes placement.now.pod given.now
            → OnOk result (AreRight nodes self.new) }
    {
        let judged = Judged {
            given: given.copy()?,
            tolerations: placement.tolerations,
            nodes: placement.nodes.copy()?,
        };
        if let Some(slot) = self.slots.get_mut(slot_of(given.as_slice())) {
            *slot = Some(judged);
        }
        Ok(())
    }
}

/// What was found, for another pod, if that has the same tolerations.
fn again(judged: &Judged, pod: u32, given: &[Toleration]) -> Result<Option<Placement>, NoMemory>
    ensures { (nodes : List NodeRow) → IsRight nodes judged.now
        → IfOk result (λ found. IfSome found (λ p. p ≡ spec.placement nodes pod given.now)) }
{
    if are_equal(judged.given.as_slice(), given) {
        Ok(Some(Placement {
            pod,
            tolerations: judged.tolerations,
            nodes: judged.nodes.copy()?,
        }))
    } else {
        Ok(None)
    }
}

fn are_equal(some: &[Toleration], others: &[Toleration]) -> bool
    ensures { IsTrue result → some.now ≡ others.now }
{
    some == others
}

/// The slot of a list of tolerations.
fn slot_of(tolerations: &[Toleration]) -> usize {
    let mut hasher = DefaultHasher::new();
    for toleration in tolerations {
        hasher.write_u32(toleration.key);
        hasher.write_u32(toleration.value);
        hasher.write_u32(code_of(toleration.operator, toleration.effect));
        hasher.write_i64(toleration.seconds.unwrap_or(-1));
    }
    (hasher.finish() % SLOTS) as usize
}

fn code_of(operator: Operator, effect: Option<Effect>) -> u32 {
    let of_operator = match operator {
        Operator::Exists => 0,
        Operator::Equal => 4,
    };
    let of_effect = match effect {
        None => 0,
        Some(Effect::NoSchedule) => 1,
        Some(Effect::PreferNoSchedule) => 2,
        Some(Effect::NoExecute) => 3,
    };
    of_operator + of_effect
}
