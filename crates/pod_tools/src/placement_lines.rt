// The lines of `place`.
ghost use Rattle.std.specs.Prelude.{◌≡◌, ◌++◌, codes, flat_map, IfOk, OnOk};
ghost use Rattle.pod_tools.specs.Feasible.{AreFew};
ghost use Rattle.pod_tools.specs.Texts as spec;

use crate::texts::{add, add_node, add_number, add_pod, add_small};
use crate::{NodeRow, PlaceInput, Placement, PodRow, place};
use kube_base::{Names, NoMemory};
use std::alloc::Global;

/// A line for each pod that names no node, with the nodes on which it may run, and a line with how many there are of both.
#[tactic(auto, unfolding(crate::specs::Texts::place_text))]
pub fn place_lines(alloc: Global, input: &PlaceInput) -> Result<Vec<u8>, NoMemory>
    requires { AreFew input.now.nodes input.now.pods }
    ensures { IfOk result (λ text. text.items ≡ spec.place_text input.now) }
{
    let placements = place(alloc, input)?;
    let mut text = Vec::new(alloc);
    add_placements(
        &mut text,
        &input.names,
        input.nodes.as_slice(),
        input.pods.as_slice(),
        placements.as_slice(),
    )?;
    add_placements_count(&mut text, placements.as_slice())?;
    Ok(text)
}

fn add_placements(
    text: &mut Vec<u8>,
    names: &Names,
    nodes: &[NodeRow],
    pods: &[PodRow],
    placements: &[Placement],
) -> Result<(), NoMemory>
    ensures { OnOk result (text.new.items
        ≡ text.old.items ++ flat_map (spec.placement_line names.now nodes.now pods.now) placements.now) }
{
    for placement in placements {
        add_placement_line(text, names, nodes, pods, placement)?;
    }
    Ok(())
}

fn add_placement_line(
    text: &mut Vec<u8>,
    names: &Names,
    nodes: &[NodeRow],
    pods: &[PodRow],
    placement: &Placement,
) -> Result<(), NoMemory>
    ensures { OnOk result (text.new.items
        ≡ text.old.items ++ spec.placement_line names.now nodes.now pods.now placement.now) }
{
    add(text, b"place ")?;
    add_pod(text, names, pods, placement.pod)?;
    add(text, b" tolerations=")?;
    add_small(text, placement.tolerations)?;
    add(text, b" nodes=")?;
    add_joined(text, names, nodes, placement.nodes.as_slice())?;
    add(text, b"\n")?;
    Ok(())
}

/// Adds the names of the nodes at these places with commas between them, or `-`.
fn add_joined(
    text: &mut Vec<u8>,
    names: &Names,
    nodes: &[NodeRow],
    places: &[u32],
) -> Result<(), NoMemory>
    ensures { OnOk result (text.new.items ≡ text.old.items ++ spec.joined names.now nodes.now places.now) }
{
    match places.split_first() {
        Some((first, others)) => {
            add_node(text, names, nodes, *first)?;
            add_others(text, names, nodes, others)
        }
        None => add(text, b"-"),
    }
}

fn add_others(
    text: &mut Vec<u8>,
    names: &Names,
    nodes: &[NodeRow],
    places: &[u32],
) -> Result<(), NoMemory>
    ensures { OnOk result (text.new.items
        ≡ text.old.items ++ flat_map (λ place. codes "," ++ spec.node_text names.now nodes.now place) places.now) }
{
    for place in places {
        add_other(text, names, nodes, *place)?;
    }
    Ok(())
}

fn add_other(
    text: &mut Vec<u8>,
    names: &Names,
    nodes: &[NodeRow],
    place: u32,
) -> Result<(), NoMemory>
    ensures { OnOk result (text.new.items ≡ text.old.items ++ (codes "," ++ spec.node_text names.now nodes.now place)) }
{
    add(text, b",")?;
    add_node(text, names, nodes, place)
}

fn add_placements_count(text: &mut Vec<u8>, placements: &[Placement]) -> Result<(), NoMemory>
    ensures { OnOk result (text.new.items ≡ text.old.items ++ spec.placements_line placements.now) }
{
    add(text, b"placed pods=")?;
    add_number(text, placements.len() as u64)?;
    add(text, b" feasible=")?;
    add_number(text, count_feasible(placements) as u64)?;
    add(text, b"\n")?;
    Ok(())
}

/// How many of the pods have a node.
fn count_feasible(placements: &[Placement]) -> usize
    ensures { result ≡ spec.count_feasible placements.now }
{
    placements
        .iter()
        .filter(|placement| has_node(placement))
        .count()
}

fn has_node(placement: &Placement) -> bool
    ensures { result ≡ spec.has_node placement.now }
{
    placement.nodes.as_slice().len() != 0
}
