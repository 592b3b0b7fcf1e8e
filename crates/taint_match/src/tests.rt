use super::*;
use kube_base::{ListOf, NoMemory, Wall};
use kube_objects::{
    Due, Effect, Node, Operator, Pod, Taint, Toleration, TolerationList, Tolerations,
};
use std::alloc::Global;
use std::test::Fail;

// Numbers of names.
const NOTHING: u32 = 0;

const UNREACHABLE: u32 = 11;

fn exists(key: u32, effect: Option<Effect>, seconds: Option<i64>) -> Toleration {
    Toleration {
        key,
        operator: Operator::Exists,
        value: NOTHING,
        effect,
        seconds,
    }
}

fn unreachable_for(seconds: i64) -> Toleration {
    exists(UNREACHABLE, Some(Effect::NoExecute), Some(seconds))
}

// A node whose one taint, unreachable, was added at 2024-01-01T00:00:00Z.
fn node(alloc: Global, effect: Effect) -> Result<Node, NoMemory> {
    let mut taints = ListOf::new(alloc);
    taints.push(Taint {
        key: UNREACHABLE,
        value: NOTHING,
        effect,
        added: Some(Wall(1_704_067_200_000_000)),
    })?;
    Ok(Node {
        region: 0,
        zone: 0,
        taints,
        ready: None,
    })
}

fn pod(alloc: Global, tolerations: &[Toleration]) -> Result<Pod, NoMemory> {
    let mut list = TolerationList::new(alloc);
    for toleration in tolerations {
        list.push(*toleration)?;
    }
    Ok(Pod {
        node: 0,
        tolerations: Tolerations::of(list)?,
    })
}

fn due_of(alloc: Global, effect: Effect, tolerations: &[Toleration]) -> Result<Due, NoMemory> {
    Ok(due(&pod(alloc, tolerations)?, &node(alloc, effect)?))
}

#[test]
fn the_first_tolerating_toleration_counts(rt: HostRuntime) -> Result<(), Fail> {
    let any = exists(NOTHING, None, None);
    let table: [(&[Toleration], Due); 5] = [
        (&[unreachable_for(300), any], Due::At(1_704_067_500_000_000)),
        (&[any, unreachable_for(300)], Due::Never),
        (&[unreachable_for(-5)], Due::At(1_704_067_200_000_000)),
        (
            &[unreachable_for(9_223_372_036_854_775_807)],
            Due::At(9_223_372_038_558_843_007_000_000),
        ),
        (&[], Due::At(1_704_067_200_000_000)),
    ];
    for (tolerations, expected) in table {
        assert_eq!(rt;
            due_of(rt.alloc(), Effect::NoExecute, tolerations)?,
            expected
        );
    }
    assert_eq!(rt; due_of(rt.alloc(), Effect::NoSchedule, &[])?, Due::Never);
    Ok(())
}

#[test]
fn a_toleration_fits_by_effect_key_and_value(rt: HostRuntime) -> Result<(), Fail> {
    let taint = Taint {
        key: UNREACHABLE,
        value: 12,
        effect: Effect::NoExecute,
        added: None,
    };
    let equal = Toleration {
        key: UNREACHABLE,
        operator: Operator::Equal,
        value: 12,
        effect: None,
        seconds: None,
    };
    let table = [
        (equal, true),
        (Toleration { value: 13, ..equal }, false),
        (Toleration { key: 13, ..equal }, false),
        (exists(NOTHING, None, None), true),
        (exists(UNREACHABLE, Some(Effect::NoSchedule), None), false),
    ];
    for (toleration, expected) in table {
        assert_eq!(rt; tolerates(&toleration, &taint), expected);
    }
    let none = Tolerations::new(rt.alloc());
    assert_eq!(rt; first_match(&none, &taint), None);
    let mut list = TolerationList::new(rt.alloc());
    list.push(exists(13, None, None))?;
    list.push(equal)?;
    let some = Tolerations::of(list)?;
    assert_eq!(rt; first_match(&some, &taint), Some(1));
    Ok(())
}
