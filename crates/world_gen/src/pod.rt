// Pods, each on a node and with tolerations that are drawn.
ghost use Rattle.std.specs.Prelude.{◌≡◌, ◌<◌, ◌≤◌, ◌++◌, IfOk, OnOk};
ghost use Rattle.world_gen.specs.Draws as draws;
ghost use Rattle.world_gen.specs.Generated as spec;

use crate::draw::draw;
use crate::names::{node_number, pod_number, space_number};
use kube_base::{NOT_READY, NoMemory, UNREACHABLE};
use kube_objects::{
    Effect, Items, Key, Kind, Object, Operator, Pod, Toleration, TolerationList, Tolerations,
};
use rand_pcg::Lcg64Xsh32;
use std::alloc::Global;

/// Where a Pod is: the place of its node, and how many seconds it tolerates that the node is not ready.
#[derive(Clone, Copy)]
pub(crate) struct Placing {
    pub(crate) node: u32,
    pub(crate) seconds: u32,
}

/// Adds the Pods.
pub(crate) fn add_pods(
    alloc: Global,
    items: &mut Items,
    rng: &mut Lcg64Xsh32,
    nodes: u32,
    pods: u32,
) -> Result<(), NoMemory>
    requires some { 1 ≤ nodes }
    requires nodes { nodes ≤ 1000 }
    requires pods { pods ≤ 30000 }
    ensures { OnOk result (items.new ≡ items.old ++ (spec.pod_items nodes pods rng.old).value) }
{
    for j in 0..pods {
        let placing = place_pod(rng, nodes);
        let pod = pod_item(alloc, nodes, j, placing)?;
        items.push(pod)?;
    }
    Ok(())
}

/// Draws the node of a Pod, and then its seconds.
#[tactic(auto, unfolding(crate::specs::Draws::placing))]
fn place_pod(rng: &mut Lcg64Xsh32, nodes: u32) -> Placing
    requires { 1 ≤ nodes }
    ensures value { result ≡ (draws.placing nodes rng.old).value }
    ensures rest { rng.new ≡ (draws.placing nodes rng.old).rest }
    ensures node { result.node < nodes }
    ensures seconds { result.seconds < 600 }
{
    let node = draw(rng, nodes);
    let seconds = draw(rng, 600);
    Placing { node, seconds }
}

/// Pod `j`.
fn pod_item(alloc: Global, nodes: u32, j: u32, placing: Placing) -> Result<(Key, Object), NoMemory>
    requires nodes { nodes ≤ 1000 }
    requires pod { j < 30000 }
    requires node { placing.node < nodes }
    ensures { IfOk result (λ item. item ≡ spec.pod_item nodes j placing) }
{
    let mut list = TolerationList::new(alloc);
    list.push(toleration(NOT_READY, placing.seconds))?;
    list.push(toleration(UNREACHABLE, placing.seconds))?;
    let tolerations = Tolerations::of(list)?;
    let key = Key {
        kind: Kind::Pod,
        space: space_number(nodes),
        name: pod_number(nodes, j),
    };
    let node = node_number(placing.node);
    Ok((key, Object::Pod(Pod { node, tolerations })))
}

fn toleration(key: u32, seconds: u32) -> Toleration
    ensures { result ≡ spec.toleration key seconds }
{
    Toleration {
        key,
        operator: Operator::Exists,
        value: 0,
        effect: Some(Effect::NoExecute),
        seconds: Some(i64::from(seconds)),
    }
}
