use super::*;
use kube_base::{Local, NODE_STATUS_NEVER_UPDATED, NODE_STATUS_UNKNOWN, Wall};
use kube_objects::{Holder, Lease, Node, NumberList, ProbeRule, Ready, ReadyStatus, Taints};
use std::alloc::Global;
use std::test::Fail;

const GRACE: Grace = Grace {
    grace: 40,
    startup: 60,
};

fn ready(status: ReadyStatus, heartbeat: u64) -> Option<Ready> {
    Some(Ready {
        status,
        reason: 0,
        heartbeat: at(heartbeat),
        transition: None,
    })
}

// 0 stands for a time that is missing
fn at(time: u64) -> Option<Wall> {
    match time {
        0 => None,
        _ => Some(Wall(time)),
    }
}

fn lease(renewed: Option<Wall>) -> Option<Lease> {
    Some(Lease {
        holder: Holder::Nobody,
        duration: None,
        acquired: None,
        renewed,
        transitions: None,
    })
}

fn node(alloc: Global, ready: Option<Ready>) -> Node {
    Node {
        region: 0,
        zone: 0,
        taints: Taints::new(alloc),
        ready,
    }
}

#[test]
fn a_node_is_heard_of_by_its_times_and_marked_after_its_grace(rt: HostRuntime) -> Result<(), Fail> {
    let mut health = Health::new(rt.alloc(), ProbeRule::Run);
    assert_eq!(rt; health.probe(10), None);
    let (yes, unknown) = (ReadyStatus::True, ReadyStatus::Unknown);
    let mark = Verdict::MarkUnknown(NODE_STATUS_UNKNOWN);
    // Ready, the renew time of the Lease, the reading, the verdict, and the probe
    let table = [
        (ready(yes, 100), 0, 7, Verdict::Keep, 7),
        (ready(yes, 100), 0, 47, Verdict::Keep, 7),
        (ready(yes, 100), 0, 48, mark, 7),
        (ready(unknown, 100), 0, 49, Verdict::Keep, 7),
        (ready(yes, 90), 0, 50, Verdict::Keep, 50),
        (ready(yes, 0), 0, 51, Verdict::Keep, 50),
        (ready(yes, 90), 0, 52, Verdict::Keep, 50),
        (ready(yes, 90), 5, 60, Verdict::Keep, 60),
        (ready(yes, 90), 0, 61, Verdict::Keep, 60),
        (ready(yes, 90), 4, 62, Verdict::Keep, 60),
        (ready(yes, 90), 5, 63, Verdict::Keep, 63),
        (None, 5, 123, Verdict::Keep, 63),
        (
            None,
            5,
            124,
            Verdict::MarkUnknown(NODE_STATUS_NEVER_UPDATED),
            63,
        ),
    ];
    for (ready, renewed, now, verdict, probe) in table {
        let seen = node(rt.alloc(), ready);
        let told = health.look(10, &seen, lease(at(renewed)), Local(now), &GRACE)?;
        assert_eq!(rt; told, verdict);
        assert_eq!(rt; health.probe(10), Some(Local(probe)));
    }
    Ok(())
}

#[test]
fn nodes_are_forgotten_and_heard_of_again(rt: HostRuntime) -> Result<(), Fail> {
    let mut health = Health::new(rt.alloc(), ProbeRule::Run);
    let seen = node(rt.alloc(), ready(ReadyStatus::True, 100));
    for name in [10, 11, 12] {
        assert_eq!(rt;
            health.look(name, &seen, None, Local(7), &GRACE)?,
            Verdict::Keep
        );
    }
    let mut found = NumberList::new(rt.alloc());
    // The list needs no order.
    found.push(12)?;
    found.push(10)?;
    health.forget_others(&found);
    health.reset_probes(&found, Local(9));
    // the name, and the probe
    let table = [(10, Some(Local(9))), (11, None), (12, Some(Local(9)))];
    for (name, probe) in table {
        assert_eq!(rt; health.probe(name), probe);
    }
    Ok(())
}

#[test]
fn by_the_record_ready_and_the_lease_are_compared(rt: HostRuntime) -> Result<(), Fail> {
    let mut health = Health::new(rt.alloc(), ProbeRule::Record);
    let (yes, unknown) = (ReadyStatus::True, ReadyStatus::Unknown);
    let mark = Verdict::MarkUnknown(NODE_STATUS_UNKNOWN);
    // Ready, the Lease, the reading, the verdict, and the probe
    let table = [
        (ready(yes, 100), lease(at(5)), 7, Verdict::Keep, 7),
        (ready(yes, 100), lease(at(4)), 8, Verdict::Keep, 7),
        (ready(yes, 100), lease(at(6)), 9, Verdict::Keep, 9),
        // A Lease without a renew time is no later one, and what is kept stays.
        (ready(yes, 100), lease(None), 10, Verdict::Keep, 9),
        (ready(yes, 100), lease(at(6)), 11, Verdict::Keep, 9),
        // Ready goes, which renews the node and keeps no Lease, and so the next look counts it.
        (None, lease(at(6)), 12, Verdict::Keep, 12),
        (ready(yes, 100), lease(at(6)), 13, Verdict::Keep, 13),
        (ready(yes, 100), lease(at(6)), 14, Verdict::Keep, 13),
        (ready(yes, 100), lease(at(6)), 55, mark, 13),
    ];
    for (ready, lease, now, verdict, probe) in table {
        let seen = node(rt.alloc(), ready);
        let told = health.look(10, &seen, lease, Local(now), &GRACE)?;
        assert_eq!(rt; told, verdict);
        assert_eq!(rt; health.probe(10), Some(Local(probe)));
    }
    // After the mark the Lease that was seen is kept, and a pass that doesn't find the node forgets nothing.
    health.note_mark(10, lease(None));
    let none = NumberList::new(rt.alloc());
    health.forget_others(&none);
    health.reset_probes(&none, Local(60));
    let seen = node(rt.alloc(), ready(unknown, 100));
    let told = health.look(10, &seen, lease(at(9)), Local(61), &GRACE)?;
    assert_eq!(rt; told, Verdict::Keep);
    assert_eq!(rt; health.probe(10), Some(Local(13)));
    Ok(())
}
