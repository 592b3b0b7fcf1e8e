// Nodes with other taints.
ghost use Rattle.std.specs.Prelude.{◌≡◌, ◌++◌, ◌∷◌, [], not, filter, map, take, IfOk, Some, if◌then◌else◌};
ghost use Rattle.std.specs.List.{list_any};
ghost use Rattle.kube_objects.specs.Tainting.{is_condition, is_opposite, is_wanted};
ghost use Rattle.kube_objects.specs.Tick as tick;
ghost use Rattle.node_taints.specs.Editing.{taint_at};

use crate::wants::is_condition;
use kube_base::{ListOf, NoMemory, Wall};
use kube_objects::{Effect, Node, Taint, Taints};

/// The NoExecute taint with this key that a controller adds at a whole second: without a value, and with that time.
pub fn new_taint(key: u32, second: Wall) -> Taint
    ensures { result ≡ taint_at key second.0 }
{
    Taint {
        key,
        value: 0,
        effect: Effect::NoExecute,
        added: Some(second),
    }
}

/// The node without its condition taints.
pub fn without_condition(node: &Node) -> Result<Node, NoMemory>
    ensures { IfOk result (λ written. written ≡ tick.untainted node.now) }
{
    let taints = other_taints(node)?;
    Ok(with_taints(node, taints))
}

/// The node without its condition taints, and with this one at the end.
pub fn with_only(node: &Node, taint: Taint) -> Result<Node, NoMemory>
    ensures { IfOk result (λ written. written ≡ tick.retainted taint node.now) }
{
    let mut taints = other_taints(node)?;
    taints.push(taint)?;
    Ok(with_taints(node, taints))
}

// The taints that are no condition taints.
#[tactic(auto, using(std::proofs::lemmas::List::Elements::filter_more))]
fn other_taints(node: &Node) -> Result<Taints, NoMemory>
    ensures { IfOk result (λ taints. taints ≡ filter (λ taint. not (is_condition taint)) node.now.taints) }
{
    let mut taints = ListOf::new(node.taints.allocator());
    for taint in node.taints.as_slice() {
        if !is_condition(taint) {
            taints.push(*taint)?;
        }
    }
    Ok(taints)
}

/// The node without the condition taint that isn't the given one. The given one stays as it is if the node has it;
/// else it is put at the end.
pub fn with_swap(node: &Node, taint: Taint) -> Result<Node, NoMemory>
    ensures { IfOk result (λ written. written ≡ tick.swapped taint node.now) }
{
    let mut taints = without_opposite(node, taint.key)?;
    if !has_condition_key(node, taint.key) {
        taints.push(taint)?;
    }
    Ok(with_taints(node, taints))
}

/// The node without the condition taint that isn't the given one, which it has anew: in its place if the node has it, else at the end.
pub fn with_restamp(node: &Node, taint: Taint) -> Result<Node, NoMemory>
    ensures { IfOk result (λ written. written ≡ tick.restamped taint node.now) }
{
    let mut taints = restamped(node, taint)?;
    if !has_condition_key(node, taint.key) {
        taints.push(taint)?;
    }
    Ok(with_taints(node, taints))
}

/// The node with a further taint at the end.
pub fn with_taint(node: &Node, taint: Taint) -> Result<Node, NoMemory>
    ensures { IfOk result (λ written. written ≡ tick.tainted_with taint node.now) }
{
    let mut taints = node.taints.copy()?;
    taints.push(taint)?;
    Ok(with_taints(node, taints))
}

#[tactic(auto, using(std::proofs::lemmas::List::Elements::filter_more))]
fn without_opposite(node: &Node, wanted: u32) -> Result<Taints, NoMemory>
    ensures { IfOk result (λ taints. taints ≡ filter (λ other. not (is_opposite wanted other)) node.now.taints) }
{
    let mut taints = ListOf::new(node.taints.allocator());
    for taint in node.taints.as_slice() {
        if !is_opposite(wanted, taint) {
            taints.push(*taint)?;
        }
    }
    Ok(taints)
}

// The taints but for the other condition taint, with the given one in the place of those that it replaces.
#[tactic(auto, using(std::proofs::lemmas::List::map_more))]
fn restamped(node: &Node, taint: Taint) -> Result<Taints, NoMemory>
    ensures { IfOk result (λ taints. taints ≡ map (λ other. if is_wanted taint.key other then taint else other)
        (filter (λ other. not (is_opposite taint.key other)) node.now.taints)) }
{
    let others = without_opposite(node, taint.key)?;
    let mut taints = ListOf::new(node.taints.allocator());
    for other in others.as_slice() {
        taints.push(in_place(taint, *other))?;
    }
    Ok(taints)
}

fn in_place(taint: Taint, other: Taint) -> Taint
    ensures { result ≡ (if is_wanted taint.key other then taint else other) }
{
    if is_condition(&other) && other.key == taint.key {
        return taint;
    }
    other
}

fn is_opposite(wanted: u32, taint: &Taint) -> bool
    ensures { result ≡ is_opposite wanted taint.now }
{
    is_condition(taint) && taint.key != wanted
}

fn has_condition_key(node: &Node, wanted: u32) -> bool
    ensures { result ≡ list_any (is_wanted wanted) node.now.taints }
{
    node.taints
        .as_slice()
        .iter()
        .any(|taint| is_condition(taint) && taint.key == wanted)
}

fn with_taints(node: &Node, taints: Taints) -> Node
    ensures { result ≡ tick.with_taints node.now taints }
{
    Node {
        region: node.region,
        zone: node.zone,
        taints,
        ready: node.ready,
    }
}
