// Readings that were worked out by hand.
use crate::Clock;
use kube_base::{Beat, Local, Wall};
use std::test::Fail;

const EPOCH: Wall = Wall(1_704_067_200_000_000);

#[test]
fn reads_by_its_rates(rt: HostRuntime) -> Result<(), Fail> {
    let mut clock = Clock::new(rt.alloc(), EPOCH, 0, 100_000, Beat(20), 1_000_000)?;
    clock.set_rate(Beat(10), 2_000_000)?;
    assert_eq!(rt; clock.local(Beat(10)), Local(1_000_000_000_000));
    assert_eq!(rt; clock.local(Beat(15)), Local(2_000_000_000_000));
    assert_eq!(rt; clock.local(Beat(20)), Local(3_000_000_000_000));
    assert_eq!(rt; clock.wall(Beat(15)), Wall(1_704_067_202_000_000));
    for (at, beat) in [
        (0, Some(Beat(0))),
        (1_200_000_000_000, Some(Beat(11))),
        (1_200_000_000_001, Some(Beat(12))),
        (3_000_000_000_001, None),
    ] {
        assert_eq!(rt; clock.first_beat(Local(at)), beat, "reading {at}");
    }
    Ok(())
}

// The clock is an hour behind and runs 500 microseconds in each beat of a millisecond, and a nanosecond more.
#[test]
fn rounds_down_behind_the_epoch(rt: HostRuntime) -> Result<(), Fail> {
    let clock = Clock::new(
        rt.alloc(),
        EPOCH,
        -3_600_000_000,
        1_000,
        Beat(1_000),
        500_001,
    )?;
    assert_eq!(rt; clock.wall(Beat(0)), Wall(1_704_063_600_000_000));
    assert_eq!(rt; clock.wall(Beat(1)), Wall(1_704_063_600_000_500));
    assert_eq!(rt; clock.wall(Beat(1_000)), Wall(1_704_063_600_500_001));
    assert_eq!(rt; clock.wall_at(Local(999_999)), Wall(1_704_063_600_000_000));
    assert_eq!(rt;
        clock.wall_at(Local(1_000_000)),
        Wall(1_704_063_600_000_001)
    );
    for (at, beat) in [
        (0, Some(Beat(0))),
        (1_704_063_600_000_000, Some(Beat(0))),
        (1_704_063_600_000_500, Some(Beat(1))),
        (1_704_063_600_000_501, Some(Beat(2))),
        (1_704_063_600_500_001, Some(Beat(1_000))),
        (1_704_063_600_500_002, None),
        (10_000_000_000_000_000, None),
    ] {
        assert_eq!(rt; clock.first_wall(Wall(at)), beat, "time {at}");
    }
    Ok(())
}
