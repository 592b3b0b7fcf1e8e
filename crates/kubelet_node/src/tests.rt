// Rounds of a kubelet, call by call. A beat is 100 ms, a call's timeout is 2 s. The rounds are worked out by hand.
ghost use Rattle.std.specs.Prelude.{◌≤◌};
ghost use Rattle.kube_base.specs.Bounds.{most_local};

use super::*;
use kube_base::{KUBE_NODE_LEASE, Local, Version, Wall};
use kube_objects::{Ask, Holder, Key, Kind, Lease, ReadyStatus, Reply, Request};
use std::process::Abort;

const NODE: u32 = 20;

const TIMEOUT: u64 = 2_000_000_000_000;

const LEASE: Key = Key {
    kind: Kind::Lease,
    space: KUBE_NODE_LEASE,
    name: NODE,
};

#[derive(Clone, Copy, Debug, PartialEq, Eq)]
enum Call {
    Turn(ReadyStatus),
    Reply(u64, Reply),
}

/// A number and a request, or nothing.
type Want = Option<(u64, Request)>;

fn at(beat: u8) -> Local
    ensures { result.0 ≤ most_local }
{
    Local(beat as u64 * 100_000_000_000)
}

/// 2024-01-01T00:00:00Z at beat 0.
fn wall(beat: u8) -> Wall {
    Wall(1_704_067_200_000_000 + beat as u64 * 100_000)
}

fn post(number: u64, status: ReadyStatus, beat: u8) -> Want {
    Some((number, Request::PostStatus(NODE, status, wall(beat))))
}

fn get(number: u64) -> Want {
    Some((number, Request::Get(LEASE)))
}

/// The Lease of 40 s as the kubelet creates it.
fn new_lease(beat: u8) -> Lease {
    Lease {
        holder: Holder::Foreign(NODE),
        duration: Some(40),
        acquired: None,
        renewed: Some(wall(beat)),
        transitions: None,
    }
}

/// A Lease that somebody else wrote.
fn old(holder: Holder, duration: u32, renewed: u8) -> Lease {
    Lease {
        holder,
        duration: Some(duration),
        acquired: Some(wall(3)),
        renewed: Some(wall(renewed)),
        transitions: Some(7),
    }
}

/// Each call sends what the table says.
fn replay(rt: &impl Abort, mut kubelet: Kubelet, calls: &[(u8, Call, Want)]) {
    for (beat, call, want) in calls {
        let ask = match *call {
            Call::Turn(status) => kubelet.on_timer(at(*beat), wall(*beat), status),
            Call::Reply(number, reply) => {
                kubelet.on_reply(number, reply, at(*beat), wall(*beat))
            }
        };
        let sent = match ask {
            Some(Ask { number, request }) => Some((number, request)),
            None => None,
        };
        assert_eq!(rt; sent, *want, "at beat {beat}");
    }
}

#[test]
fn renews_each_quarter_of_the_duration(rt: HostRuntime) {
    let turn = Call::Turn(ReadyStatus::True);
    let done = Reply::Done(Version(9));
    let found = Reply::Found(Version(5), old(Holder::Foreign(30), 15, 90));
    let renewed = old(Holder::Foreign(NODE), 40, 104);
    let update = Request::Update(LEASE, Version(5), renewed);
    let calls = [
        (0, turn, post(1, ReadyStatus::True, 0)),
        (1, turn, None),
        (2, Call::Reply(1, done), get(2)),
        (
            4,
            Call::Reply(2, Reply::Absent),
            Some((3, Request::Create(LEASE, new_lease(4)))),
        ),
        (6, Call::Reply(3, done), None),
        (99, turn, None),
        (
            100,
            Call::Turn(ReadyStatus::False),
            post(4, ReadyStatus::False, 100),
        ),
        (102, Call::Reply(4, Reply::Unchanged), get(5)),
        (104, Call::Reply(5, found), Some((6, update))),
        (106, Call::Reply(6, Reply::Conflict(Version(6))), None),
        (199, turn, None),
        (200, turn, post(7, ReadyStatus::True, 200)),
        (220, turn, None),
        (221, turn, get(8)),
        (222, Call::Reply(7, done), None),
        (223, Call::Reply(8, done), None),
        (250, turn, None),
    ];
    replay(&rt, Kubelet::start(NODE, 1, 40, TIMEOUT, at(0)), &calls);
}

#[test]
fn begins_anew_in_the_turn_of_an_expiry(rt: HostRuntime) {
    let turn = Call::Turn(ReadyStatus::True);
    let calls = [
        (0, turn, post(1, ReadyStatus::True, 0)),
        (21, turn, get(2)),
        (42, turn, post(3, ReadyStatus::True, 42)),
        (44, Call::Reply(3, Reply::Absent), get(4)),
    ];
    replay(&rt, Kubelet::start(NODE, 1, 4, TIMEOUT, at(0)), &calls);
}

#[test]
fn wakes_after_the_timeout(rt: HostRuntime) {
    let mut kubelet = Kubelet::start(NODE, 3, 40, TIMEOUT, at(7));
    assert_eq!(rt; kubelet.incarnation(), 3);
    assert_eq!(rt; kubelet.wake(), at(7));
    let ask = kubelet.on_timer(at(7), wall(7), ReadyStatus::True);
    assert!(rt; ask.is_some());
    assert_eq!(rt; kubelet.wake(), Local(2_700_000_000_001));
}
