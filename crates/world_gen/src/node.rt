// Nodes that are ready.
ghost use Rattle.std.specs.Prelude.{◌≡◌, ◌<◌, ◌≤◌, IfOk};
ghost use Rattle.world_gen.specs.Generated as spec;

use crate::names::{node_number, region_number, zone_number};
use crate::process::EPOCH;
use kube_base::{KUBELET_READY, NoMemory};
use kube_objects::{Items, Key, Kind, Node, Object, Ready, ReadyStatus, Taints};
use std::alloc::Global;

/// The nodes in order.
pub(crate) fn node_items(alloc: Global, nodes: u32) -> Result<Items, NoMemory>
    requires { nodes ≤ 1000 }
    ensures { IfOk result (λ items. items ≡ spec.node_items nodes) }
{
    let mut items = Items::new(alloc);
    for i in 0..nodes {
        items.push(node_item(alloc, nodes, i))?;
    }
    Ok(items)
}

fn node_item(alloc: Global, nodes: u32, i: u32) -> (Key, Object)
    requires nodes { nodes ≤ 1000 }
    requires node { i < nodes }
    ensures { result ≡ spec.node_item nodes i }
{
    let key = Key {
        kind: Kind::Node,
        space: 0,
        name: node_number(i),
    };
    let node = Node {
        region: region_number(nodes),
        zone: zone_number(nodes, i),
        taints: Taints::new(alloc),
        ready: Some(Ready {
            status: ReadyStatus::True,
            reason: KUBELET_READY,
            heartbeat: Some(EPOCH),
            transition: Some(EPOCH),
        }),
    };
    (key, Object::Node(node))
}
