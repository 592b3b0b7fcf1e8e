// A happy path of each call, and what is refused on the way.
ghost use Rattle.std.specs.Prelude.{◌≡◌};

use crate::{Posted, Store, StoreFault};
use kube_base::{ListOf, Version, Wall};
use kube_objects::{
    Changed, Feed, Holder, Key, Kind, Lease, Node, Object, Pod, ReadyStatus, Reply, Request,
    Tolerations,
};
use std::test::Fail;

fn key(kind: Kind) -> Key
    ensures { result.kind ≡ kind }
{
    Key {
        kind,
        space: 0,
        name: 10,
    }
}

fn lease() -> Lease {
    Lease {
        holder: Holder::Foreign(1),
        duration: None,
        acquired: None,
        renewed: None,
        transitions: None,
    }
}

#[test]
fn a_lease_is_written_and_shown(rt: HostRuntime) -> Result<(), Fail> {
    let mut store = Store::new(rt.alloc());
    let a = key(Kind::Lease);
    let created = store.create(a, Object::Lease(lease()));
    assert_eq!(rt; created, Ok(Version(1)));
    let again = store.create(a, Object::Lease(lease()));
    assert_eq!(rt; again, Err(StoreFault::Exists));
    let stale = store.update(a, Version(7), Object::Lease(lease()));
    assert_eq!(rt; stale, Err(StoreFault::Conflict(Version(1))));
    let updated = store.update(a, Version(1), Object::Lease(lease()));
    assert_eq!(rt; updated, Ok(Version(2)));
    let answered = store.answer(Request::Get(a));
    assert_eq!(rt; answered, Ok(Reply::Found(Version(2), lease())));
    assert!(rt; store.get(&a).is_some());
    assert!(rt; store.get(&key(Kind::Node)).is_none());
    assert_eq!(rt; store.objects()?.as_slice().len(), 1);
    assert_eq!(rt; store.changes(), 2);
    assert_eq!(rt; store.change(1), Some(a));
    assert!(rt; store.object(&a).is_some());
    let since = store.since(0);
    assert_eq!(rt; since.start(), 0);
    assert_eq!(rt; since.count(), 2);
    assert_eq!(rt; since.key(0), Some(a));
    assert!(rt; since.object(0).is_some());
    Ok(())
}

#[test]
fn a_node_is_put_and_posted_and_goes_after_its_pod(rt: HostRuntime) {
    let alloc = rt.alloc();
    let mut store = Store::new(alloc);
    let n = key(Kind::Node);
    let p = key(Kind::Pod);
    let no_pod = store.delete_pod(p, Version(1), n, Version(2));
    assert_eq!(rt; no_pod, Err(StoreFault::Absent));
    assert_eq!(rt; store.remove(n), Ok(None));
    let node = Node {
        region: 0,
        zone: 0,
        taints: ListOf::new(alloc),
        ready: None,
    };
    let node_put = store.put(n, Object::Node(node), Wall(0));
    assert_eq!(rt; node_put, Ok(Version(1)));
    let posted = store.post_status(10, ReadyStatus::True, Wall(0));
    assert_eq!(rt; posted, Ok(Posted::Done(Version(2))));
    let pod = Pod {
        node: 10,
        tolerations: Tolerations::new(alloc),
    };
    let pod_put = store.put(p, Object::Pod(pod), Wall(0));
    assert_eq!(rt; pod_put, Ok(Version(3)));
    let deleted = store.delete_pod(p, Version(3), n, Version(2));
    assert_eq!(rt; deleted, Ok(Version(4)));
    assert_eq!(rt; store.remove(n), Ok(Some(Version(5))));
}

#[test]
fn a_pod_goes_by_its_own_version_also_without_its_node(rt: HostRuntime) {
    let alloc = rt.alloc();
    let mut store = Store::new(alloc);
    let p = key(Kind::Pod);
    let no_pod = store.delete_pod_alone(p, Version(1));
    assert_eq!(rt; no_pod, Err(StoreFault::Absent));
    let pod = Pod {
        node: 10,
        tolerations: Tolerations::new(alloc),
    };
    let pod_put = store.put(p, Object::Pod(pod), Wall(0));
    assert_eq!(rt; pod_put, Ok(Version(1)));
    let other = store.delete_pod_alone(p, Version(2));
    assert_eq!(rt; other, Err(StoreFault::Conflict(Version(1))));
    let deleted = store.delete_pod_alone(p, Version(1));
    assert_eq!(rt; deleted, Ok(Version(2)));
}
