// The cache's calls.
use crate::{Cache, ListFault, NotSynced};
use kube_base::{ListOf, Steps, Version};
use kube_objects::{Changed, Holder, Key, KeyList, Kind, Lease, Node, Object, Pod, Tolerations};
use std::alloc::Global;
use std::sync::ledger::Blank;
use std::test::Fail;

/// A store in which nothing was ever written.
struct Empty;

impl Changed for Empty {
    ghost use Rattle.std.specs.Prelude.{[], None, refl};
    ghost use Rattle.watch_cache.specs.NoFeed.{no_kinds};

    ghost changed = { λ _. [] };

    ghost from = { λ _. 0 };

    ghost keys = { λ _. [] };

    ghost shown = { λ _ _. None };

    fn start(&self) -> u64 {
        0
    }

    fn count(&self) -> u64 {
        0
    }

    fn key(&self, _place: u64) -> Option<Key> {
        None
    }

    fn object(&self, _place: u64) -> Option<(Version, &Object)> {
        None
    }

    ghost last = { λ _. refl };

    ghost total = { λ _. refl };

    ghost listed = { λ _ _ is. is };

    ghost kinds = { λ _. no_kinds };
}

fn key(kind: Kind, name: u32) -> Key {
    Key {
        kind,
        space: 0,
        name,
    }
}

fn pod_on(alloc: Global, node: u32) -> Object {
    Object::Pod(Pod {
        node,
        tolerations: Tolerations::new(alloc),
    })
}

fn pods<L>(cache: &Cache, node: u32, steps: &mut Steps<L>) -> Option<KeyList> {
    match cache.pods_of(node, steps) {
        Ok(keys) => Some(keys),
        Err(_) => None,
    }
}

#[test]
fn answers_nothing_before_its_first_sync(rt: HostRuntime) -> Result<(), Fail> {
    let mut steps = Steps::new(Blank::new(1));
    let mut cache = Cache::new(rt.alloc());
    let lease = key(Kind::Lease, 10);
    assert!(rt; matches!(cache.node(10), Err(NotSynced)));
    assert!(rt; matches!(cache.lease(&lease), Err(NotSynced)));
    assert!(rt; matches!(cache.nodes(), Err(ListFault::NotSynced)));
    assert!(rt; pods(&cache, 10, &mut steps).is_none());
    cache.set_stale(lease)?;
    assert!(rt; cache.is_stale(&lease));
    assert!(rt; cache.nodes_to_judge(rt.alloc(), true, &Empty)?.is_empty());
    cache.sync_since(&Empty, &mut steps)?;
    assert!(rt; matches!(cache.node(10), Ok(None)));
    assert!(rt; matches!(cache.lease(&lease), Ok(None)));
    assert!(rt; !cache.is_stale(&lease));
    assert_eq!(rt; cache.position(), 0);
    assert_eq!(rt; steps.count(), 0);
    Ok(())
}

#[test]
fn shows_own_writes(rt: HostRuntime) -> Result<(), Fail> {
    let alloc = rt.alloc();
    let mut steps = Steps::new(Blank::new(1));
    let mut cache = Cache::new(alloc);
    cache.sync_since(&Empty, &mut steps)?;
    let node = Node {
        region: 1,
        zone: 2,
        taints: ListOf::new(alloc),
        ready: None,
    };
    let lease = Lease {
        holder: Holder::Foreign(10),
        duration: None,
        acquired: None,
        renewed: None,
        transitions: None,
    };
    cache.note_own(key(Kind::Node, 10), Some((Version(1), Object::Node(node))))?;
    cache.note_own(
        key(Kind::Lease, 10),
        Some((Version(2), Object::Lease(lease))),
    )?;
    assert!(rt; matches!(cache.node(10), Ok(Some((Version(1), _)))));
    assert!(rt; !cache.has_other_taints(&key(Kind::Node, 10), &[]));
    assert!(rt;
        matches!(
            cache.lease(&key(Kind::Lease, 10)),
            Ok(Some((Version(2), _)))
        )
    );
    match cache.nodes() {
        Ok(names) => assert_eq!(rt; names.as_slice(), [10u32].as_slice()),
        Err(_) => assert!(rt; false, "there was a sync"),
    }
    Ok(())
}

#[test]
fn lists_pods_by_their_nodes(rt: HostRuntime) -> Result<(), Fail> {
    let alloc = rt.alloc();
    let mut steps = Steps::new(Blank::new(1));
    let mut cache = Cache::new(alloc);
    cache.sync_since(&Empty, &mut steps)?;
    let a = key(Kind::Pod, 30);
    let b = key(Kind::Pod, 31);
    let c = key(Kind::Pod, 32);
    for (pod, version, node) in [(c, 1, 11), (b, 2, 10), (a, 3, 10)] {
        cache.note_own(pod, Some((Version(version), pod_on(alloc, node))))?;
    }
    let keys = pods(&cache, 10, &mut steps).ok_or("no list")?;
    assert_eq!(rt; keys.as_slice(), [a, b].as_slice());
    assert_eq!(rt; steps.count(), 2);
    cache.note_own(a, Some((Version(4), pod_on(alloc, 11))))?;
    cache.note_own(b, None)?;
    let keys = pods(&cache, 11, &mut steps).ok_or("no list")?;
    assert_eq!(rt; keys.as_slice(), [a, c].as_slice());
    assert!(rt;
        pods(&cache, 10, &mut steps)
            .ok_or("no list")?
            .as_slice()
            .is_empty()
    );
    assert!(rt; matches!(cache.pod(&a, &mut steps), Ok(Some((Version(4), _)))));
    assert!(rt; matches!(cache.pod(&b, &mut steps), Ok(None)));
    assert_eq!(rt; steps.count(), 6);
    Ok(())
}
