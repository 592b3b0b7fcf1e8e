// Nodes on which a pod may run.
ghost use Rattle.std.specs.Prelude.{◌≡◌, ◌≤◌, ◌++◌, length, IfOk, OnOk};
ghost use Rattle.std.specs.List.{list_all};
ghost use Rattle.pod_tools.specs.Feasible as spec;
ghost use Rattle.pod_tools.specs.Judged.{AreRight};

use crate::by_key::ByKey;
use crate::judged::Judgements;
use crate::{NodeRow, PlaceInput, PodRow, defaulted};
use kube_base::{ListOf, NoMemory};
use kube_objects::{Effect, NumberList, Taint, Tolerations};
use std::alloc::Global;
use std::hash::{DefaultHasher, Hasher};

/// Where a pod may run: its place among the pods, how many tolerations it has with the default ones, and the places of the nodes.
#[derive(Debug, Drop)]
pub struct Placement {
    pub pod: u32,
    pub tolerations: u32,
    pub nodes: NumberList,
}

/// Placements in the order of their pods.
pub type Placements = ListOf<Placement>;

/// For each pod that names no node the nodes on which it may run.
pub fn place(alloc: Global, input: &PlaceInput) -> Result<Placements, NoMemory>
    requires { spec.AreFew input.now.nodes input.now.pods }
    ensures { IfOk result (λ placements. placements ≡ spec.placed input.now.nodes input.now.pods) }
{
    let mut placements = Placements::new(alloc);
    let mut judgements = Judgements::new(alloc)?;
    let mix = mix_of(input.pods.as_slice());
    for (place, row) in input.pods.as_slice().iter().enumerate() {
        add_placement(
            alloc,
            &mut placements,
            &mut judgements,
            mix,
            input.nodes.as_slice(),
            place as u32,
            row,
        )?;
    }
    Ok(placements)
}

/// A number by which keys are spread over slots. It follows from all keys of the pods' tolerations, and is odd.
fn mix_of(pods: &[PodRow]) -> u64 {
    let mut hasher = DefaultHasher::new();
    for row in pods {
        for toleration in row.pod.tolerations.as_slice() {
            hasher.write_u32(toleration.key);
        }
    }
    hasher.finish() | 1
}

/// Adds the answer for a pod, if it names no node.
fn add_placement(
    alloc: Global,
    placements: &mut Placements,
    judgements: &mut Judgements,
    mix: u64,
    nodes: &[NodeRow],
    place: u32,
    row: &PodRow,
) -> Result<(), NoMemory>
    requires nodes { length nodes.now ≤ 1000 }
    requires tolerations { spec.HasFew row.now }
    requires right { AreRight nodes.now judgements.now }
    ensures added { OnOk result (placements.new ≡ placements.old ++ spec.placement_for nodes.now place row.now) }
    ensures right { OnOk result (AreRight nodes.now judgements.new) }
{
    if row.pod.node != 0 {
        return Ok(());
    }
    let placement = placement_by(alloc, judgements, mix, nodes, place, &row.pod.tolerations)?;
    placements.push(placement)
}

/// The answer for the pod at a place: that for a pod with equal tolerations, if it is remembered.
fn placement_by(
    alloc: Global,
    judgements: &mut Judgements,
    mix: u64,
    nodes: &[NodeRow],
    pod: u32,
    given: &Tolerations,
) -> Result<Placement, NoMemory>
    requires nodes { length nodes.now ≤ 1000 }
    requires tolerations { length given.now ≤ 100 }
    requires right { AreRight nodes.now judgements.now }
    ensures placement { IfOk result (λ p. p ≡ spec.placement nodes.now pod given.now) }
    ensures right { OnOk result (AreRight nodes.now judgements.new) }
{
    if let Some(placement) = judgements.recall(pod, given)? {
        return Ok(placement);
    }
    let all = defaulted(given)?;
    let count = all.as_slice().len() as u32;
    let tolerations = ByKey::new(alloc, mix, all)?;
    let placement = Placement {
        pod,
        tolerations: count,
        nodes: feasible(alloc, &tolerations, nodes)?,
    };
    judgements.remember(given, &placement)?;
    Ok(placement)
}

/// The places of the nodes whose taints these tolerations pass.
fn feasible(alloc: Global, tolerations: &ByKey, nodes: &[NodeRow]) -> Result<NumberList, NoMemory>
    requires { length nodes.now ≤ 1000 }
    ensures { IfOk result (λ places. places ≡ spec.feasible_from tolerations.now.all 0 nodes.now) }
{
    let mut places = NumberList::new(alloc);
    for (place, row) in nodes.iter().enumerate() {
        add_place(&mut places, tolerations, place as u32, row)?;
    }
    Ok(places)
}

fn add_place(
    places: &mut NumberList,
    tolerations: &ByKey,
    place: u32,
    row: &NodeRow,
) -> Result<(), NoMemory>
    ensures { OnOk result (places.new ≡ places.old ++ spec.place_of tolerations.now.all place row.now) }
{
    if is_feasible(tolerations, row) {
        places.push(place)
    } else {
        Ok(())
    }
}

fn is_feasible(tolerations: &ByKey, row: &NodeRow) -> bool
    ensures { result ≡ spec.is_feasible tolerations.now.all row.now }
{
    are_passed(tolerations, row.node.taints.as_slice())
        && are_passed(tolerations, row.derived.as_slice())
}

fn are_passed(tolerations: &ByKey, taints: &[Taint]) -> bool
    ensures { result ≡ list_all (spec.is_passed tolerations.now.all) taints.now }
{
    taints.iter().all(|taint| is_passed(tolerations, taint))
}

fn is_passed(tolerations: &ByKey, taint: &Taint) -> bool
    ensures { result ≡ spec.is_passed tolerations.now.all taint.now }
{
    !is_barrier(taint.effect) || tolerations.has_one_for(taint)
}

/// Whether taints with this effect keep pods away.
fn is_barrier(effect: Effect) -> bool
    ensures { result ≡ spec.is_barrier effect }
{
    match effect {
        Effect::NoSchedule => true,
        Effect::PreferNoSchedule => false,
        Effect::NoExecute => true,
    }
}
