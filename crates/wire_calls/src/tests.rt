// The wire's calls, by tables.
use crate::{Fate, Wire};
use kube_base::{Beat, ProcId, Version};
use kube_objects::{Ask, Key, Kind, Reply, Request};
use std::test::Fail;

fn ask(number: u64) -> Ask {
    Ask {
        number,
        request: Request::Get(Key {
            kind: Kind::Lease,
            space: 7,
            name: 8,
        }),
    }
}

#[test]
fn sends_and_loses(rt: HostRuntime) -> Result<(), Fail> {
    let mut wire = Wire::new(rt.alloc(), 2)?;
    let who = ProcId(1);
    assert_eq!(rt; wire.next(), None);
    let travels = wire.request_travel(who, Beat(5));
    assert_eq!(rt; travels, Fate::InFlight(Beat(6)));
    wire.send(who, 1, ask(1), travels)?;
    assert_eq!(rt; wire.next(), Some(Beat(6)));
    assert!(rt; !wire.has_request(Beat(5)));
    assert_eq!(rt; wire.arrival(Beat(5)), None);
    assert!(rt; wire.has_request(Beat(6)));
    match wire.arrival(Beat(6)) {
        Some(arrived) => {
            assert_eq!(rt; arrived.who, who);
            assert_eq!(rt; arrived.incarnation, 1);
            assert_eq!(rt; arrived.number, 1);
            assert_eq!(rt; arrived.request, ask(1).request);
        }
        None => assert!(rt; false, "it arrives"),
    }
    assert!(rt; !wire.has_request(Beat(6)));
    assert_eq!(rt; wire.arrival(Beat(6)), None);
    assert!(rt; wire.passes(who));
    wire.set_loss(who, true, false);
    assert!(rt; !wire.passes(who));
    assert!(rt; wire.passes(ProcId(0)));
    assert_eq!(rt; wire.request_travel(who, Beat(6)), Fate::Lost);
    wire.send(who, 1, ask(2), Fate::Lost)?;
    assert_eq!(rt; wire.next(), None);
    Ok(())
}

#[test]
fn keeps_the_order_of_sending(rt: HostRuntime) -> Result<(), Fail> {
    let mut wire = Wire::new(rt.alloc(), 2)?;
    wire.set_delay(ProcId(0), 3, 1);
    for (who, number, now, arrives) in [(0, 1, 0, 3), (0, 2, 1, 4), (1, 3, 2, 3), (1, 4, 3, 4)] {
        let travels = wire.request_travel(ProcId(who), Beat(now));
        assert_eq!(rt; travels, Fate::InFlight(Beat(arrives)), "{number}");
        wire.send(ProcId(who), 1, ask(number), travels)?;
    }
    // A delay that is set later doesn't move what was sent before.
    wire.set_delay(ProcId(0), 9, 1);
    assert_eq!(rt; wire.next(), Some(Beat(3)));
    for (beat, number) in [(3, 1), (3, 3), (4, 2), (4, 4)] {
        match wire.arrival(Beat(beat)) {
            Some(arrived) => assert_eq!(rt; arrived.number, number),
            None => assert!(rt; false, "it arrives"),
        }
    }
    assert_eq!(rt; wire.next(), None);
    Ok(())
}

#[test]
fn replies_and_loses(rt: HostRuntime) -> Result<(), Fail> {
    let mut wire = Wire::new(rt.alloc(), 1)?;
    let who = ProcId(0);
    wire.set_delay(who, 1, 60);
    wire.send(who, 2, ask(7), Fate::InFlight(Beat(1)))?;
    let Some(arrived) = wire.arrival(Beat(1)) else {
        assert!(rt; false, "it arrives");
        return Ok(());
    };
    let reply = Reply::Done(Version(1));
    let travels = wire.reply_travel(who, Beat(1));
    assert_eq!(rt; travels, Fate::InFlight(Beat(61)));
    wire.reply(&arrived, reply, travels)?;
    // A reply comes at the beat that is handed in, and a lost one never.
    wire.reply(&arrived, Reply::Absent, Fate::InFlight(Beat(70)))?;
    wire.reply(&arrived, Reply::Exists, Fate::Lost)?;
    for (beat, told) in [(61, reply), (70, Reply::Absent)] {
        assert_eq!(rt; wire.next(), Some(Beat(beat)));
        assert!(rt; !wire.has_reply(Beat(beat - 1)));
        assert_eq!(rt; wire.delivery(Beat(beat - 1)), None);
        assert!(rt; wire.has_reply(Beat(beat)));
        match wire.delivery(Beat(beat)) {
            Some(delivered) => {
                assert_eq!(rt; delivered.who, who);
                assert_eq!(rt; delivered.incarnation, 2);
                assert_eq!(rt; delivered.number, 7);
                assert_eq!(rt; delivered.reply, told);
            }
            None => assert!(rt; false, "it comes"),
        }
    }
    assert_eq!(rt; wire.next(), None);
    wire.set_loss(who, false, true);
    assert!(rt; wire.passes(who));
    assert_eq!(rt; wire.reply_travel(who, Beat(70)), Fate::Lost);
    Ok(())
}
