ghost use Rattle.std.specs.Prelude.{◌≡◌};
ghost use Rattle.kube_objects.specs.declared.key.Kind.TheVariants.{Pod};

use super::*;
use kube_base::{ListOf, Steps};
use kube_objects::{Due, Key, Kind};
use std::sync::ledger::Blank;
use std::test::Fail;

fn pod(name: u32) -> Key
    ensures { result ≡ record { kind = Pod; space = 1; name = name } }
{
    Key {
        kind: Kind::Pod,
        space: 1,
        name,
    }
}

#[test]
fn a_pod_is_taken_when_it_is_due(rt: HostRuntime) -> Result<(), Fail> {
    let mut steps = Steps::new(Blank::new(1));
    let mut queue = EvictQueue::new(rt.alloc());
    assert_eq!(rt; queue.least(), None);
    queue.set(pod(10), Due::At(5))?;
    assert_eq!(rt; queue.least(), Some(5));
    // now, what is taken, and the steps until then
    let table = [(4, None, 1), (5, Some(pod(10)), 2), (5, None, 2)];
    for (now, taken, count) in table {
        assert_eq!(rt; queue.next_due(now, &mut steps), taken);
        assert_eq!(rt; steps.count(), count);
    }
    Ok(())
}

#[test]
fn the_least_time_and_then_the_least_key_comes_first(rt: HostRuntime) -> Result<(), Fail> {
    let mut steps = Steps::new(Blank::new(1));
    let mut queue = EvictQueue::new(rt.alloc());
    queue.set(pod(10), Due::At(9))?;
    queue.set(pod(11), Due::At(1))?;
    queue.set(pod(12), Due::At(4))?;
    queue.cancel(&pod(12));
    let mut list = ListOf::new(rt.alloc());
    list.push((pod(14), Due::At(7)))?;
    list.push((pod(13), Due::At(7)))?;
    list.push((pod(11), Due::At(8)))?;
    list.push((pod(10), Due::Never))?;
    queue.node_changed(&list)?;
    let table = [Some(pod(13)), Some(pod(14)), Some(pod(11)), None];
    for taken in table {
        assert_eq!(rt; queue.next_due(8, &mut steps), taken);
    }
    assert_eq!(rt; queue.least(), None);
    Ok(())
}
