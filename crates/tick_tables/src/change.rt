// What a script writes.
use kube_base::{KUBE_NODE_LEASE, ListOf, NoMemory, Wall};
use kube_objects::{
    Effect, Holder, Key, Kind, Lease, Node, Object, Operator, Pod, Ready, ReadyStatus, Taint,
    Taints, Toleration, TolerationList, Tolerations,
};
use object_store::Store;
use std::alloc::Global;

/// 2024-01-01T00:00:00Z, in microseconds since 1970.
pub(crate) const EPOCH: u64 = 1_704_067_200_000_000;

/// The namespace, the region and the zones that scripts name.
pub(crate) const NAMESPACE: u32 = 30;

pub(crate) const REGION: u32 = 31;

/// A condition taint on NoExecute: its key, and when it was added, in seconds after the epoch.
#[derive(Clone, Copy, Debug, PartialEq, Eq)]
pub(crate) struct Added {
    pub(crate) key: u32,
    pub(crate) at: i64,
}

/// What a script does. Nodes and pods are named by numbers.
#[derive(Clone, Copy, Debug, PartialEq, Eq)]
pub(crate) enum Change {
    /// A node of a zone, with its Ready, whose heartbeat is the epoch, and its taint.
    Node(u32, u32, ReadyStatus, Option<Added>),
    /// A node without labels, Ready and taints.
    BareNode(u32),
    /// A status that a node's kubelet posts, with a heartbeat in seconds after the epoch.
    Status(u32, ReadyStatus, i64),
    /// A node's Lease, renewed so many milliseconds after the epoch.
    NodeLease(u32, i64),
    /// A pod on a node, with tolerations of NoExecute taints, each by the taint's key and its seconds.
    Pod(u32, u32, Option<(u32, i64)>, Option<(u32, i64)>),
    /// A pod on a node that tolerates every taint.
    Daemon(u32, u32),
    /// The leader renews its Lease.
    Renewal,
    /// The leader's watch is on.
    Watch(bool),
    /// The leader's requests pass.
    Passes(bool),
}

fn after_epoch(seconds: i64) -> Wall {
    Wall(EPOCH.saturating_add_signed(seconds.saturating_mul(1_000_000)))
}

fn key(kind: Kind, space: u32, name: u32) -> Key {
    Key { kind, space, name }
}

fn put(store: &mut Store, key: Key, object: Object, now: Wall) -> Result<(), NoMemory> {
    match (key.kind, &object) {
        (Kind::Node, Object::Node(_))
        | (Kind::Lease, Object::Lease(_))
        | (Kind::Pod, Object::Pod(_)) => {
            store.put(key, object, now)?;
            Ok(())
        }
        _ => Ok(()),
    }
}

fn taints(alloc: Global, added: Option<Added>) -> Result<Taints, NoMemory> {
    let mut taints = ListOf::new(alloc);
    if let Some(added) = added {
        taints.push(Taint {
            key: added.key,
            value: 0,
            effect: Effect::NoExecute,
            added: Some(after_epoch(added.at)),
        })?;
    }
    Ok(taints)
}

fn ready(status: ReadyStatus, heartbeat: i64) -> Ready {
    Ready {
        status,
        reason: 0,
        heartbeat: Some(after_epoch(heartbeat)),
        transition: None,
    }
}

fn add_toleration(
    tolerations: &mut TolerationList,
    key: Option<(u32, i64)>,
) -> Result<(), NoMemory> {
    let Some((key, seconds)) = key else {
        return Ok(());
    };
    tolerations.push(Toleration {
        key,
        operator: Operator::Exists,
        value: 0,
        effect: Some(Effect::NoExecute),
        seconds: Some(seconds),
    })
}

fn lease(renewed: Wall) -> Lease {
    Lease {
        holder: Holder::Nobody,
        duration: Some(40),
        acquired: None,
        renewed: Some(renewed),
        transitions: None,
    }
}

fn any_taint() -> Toleration {
    Toleration {
        key: 0,
        operator: Operator::Exists,
        value: 0,
        effect: None,
        seconds: None,
    }
}

fn node(region: u32, zone: u32, taints: Taints, ready: Option<Ready>) -> Node {
    Node {
        region,
        zone,
        taints,
        ready,
    }
}

fn put_node(store: &mut Store, name: u32, node: Node, now: Wall) -> Result<(), NoMemory> {
    put(store, Key::node(name), Object::Node(node), now)
}

fn put_lease(store: &mut Store, name: u32, renewed: i64, now: Wall) -> Result<(), NoMemory> {
    let renewed = Wall(EPOCH.saturating_add_signed(renewed.saturating_mul(1_000)));
    put(
        store,
        key(Kind::Lease, KUBE_NODE_LEASE, name),
        Object::Lease(lease(renewed)),
        now,
    )
}

fn put_pod(store: &mut Store, name: u32, pod: Pod, now: Wall) -> Result<(), NoMemory> {
    put(
        store,
        key(Kind::Pod, NAMESPACE, name),
        Object::Pod(pod),
        now,
    )
}

fn pod(
    alloc: Global,
    node: u32,
    first: Option<(u32, i64)>,
    second: Option<(u32, i64)>,
) -> Result<Pod, NoMemory> {
    let mut list = TolerationList::new(alloc);
    add_toleration(&mut list, first)?;
    add_toleration(&mut list, second)?;
    let tolerations = Tolerations::of(list)?;
    Ok(Pod { node, tolerations })
}

fn daemon(alloc: Global, node: u32) -> Result<Pod, NoMemory> {
    let mut list = TolerationList::new(alloc);
    list.push(any_taint())?;
    let tolerations = Tolerations::of(list)?;
    Ok(Pod { node, tolerations })
}

/// Writes what a change writes. A watch and a loss write nothing.
pub(crate) fn write(
    alloc: Global,
    store: &mut Store,
    change: Change,
    now: Wall,
) -> Result<(), NoMemory> {
    match change {
        Change::Node(name, zone, status, added) => {
            let taints = taints(alloc, added)?;
            put_node(
                store,
                name,
                node(REGION, zone, taints, Some(ready(status, 0))),
                now,
            )
        }
        Change::BareNode(name) => put_node(store, name, node(0, 0, ListOf::new(alloc), None), now),
        Change::Status(name, status, heartbeat) => {
            let posted = node(0, 0, ListOf::new(alloc), Some(ready(status, heartbeat)));
            put_node(store, name, posted, now)
        }
        Change::NodeLease(name, renewed) => put_lease(store, name, renewed, now),
        Change::Pod(name, node, first, second) => {
            put_pod(store, name, pod(alloc, node, first, second)?, now)
        }
        Change::Daemon(name, node) => put_pod(store, name, daemon(alloc, node)?, now),
        Change::Renewal => put(store, Key::ELECTION, Object::Lease(lease(now)), now),
        Change::Watch(_) | Change::Passes(_) => Ok(()),
    }
}
