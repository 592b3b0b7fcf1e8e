// A first line and the lines of deeds, in the forms that the trace's format shows.
ghost use Rattle.std.specs.Prelude.{◌≡◌, length};
ghost use Rattle.kube_base.specs.Names.{fixed_names};

use crate::{FirstLine, WriteFault, write_deed, write_first};
use byte_edge::MemSink;
use kube_base::{Beat, Name, Names, ProcId, Version, Wall};
use kube_objects::{Act, Actor, Answer, Deed, Key, Kind};
use std::alloc::Global;
use std::test::Fail;

const SETTINGS: FirstLine = FirstLine {
    beat_millis: 100,
    end: Beat(204),
};

/// The first controller's first start creates the election Lease.
const CREATE: Deed = Deed {
    beat: Beat(3),
    actor: Actor::Proc(ProcId(0), 1),
    act: Act::Create(Key::ELECTION, Answer::Done(Version(6)), 0),
};

/// The first controller stands still for 45 beats.
const PAUSE: Deed = Deed {
    beat: Beat(20),
    actor: Actor::Proc(ProcId(0), 1),
    act: Act::Pause(45),
};

/// The node of the fixed name 7 isn't tainted, since another write was before.
const TAINT: Deed = Deed {
    beat: Beat(104),
    actor: Actor::Proc(ProcId(0), 1),
    act: Act::Tainted(7, 5, Answer::Conflict(Version(8))),
};

/// A second after the start of 2024 the pod of the fixed names 7 and 8 was due, and it is gone.
const EVICTION: Deed = Deed {
    beat: Beat(104),
    actor: Actor::Proc(ProcId(0), 1),
    act: Act::Evicted(
        Key {
            kind: Kind::Pod,
            space: 7,
            name: 8,
        },
        Wall(1_704_067_201_000_000),
        Answer::Absent,
    ),
};

const LINES: &str = "trace 1 beat=100 end=204 premise=yes
3 c1_1 create election v=6 t=0
20 c1_1 pause beats=45
104 c1_1 taint kube-system not-ready conflict v=8
104 c1_1 evict kube-system/kube-controller-manager due=2024-01-01T00:00:01Z absent
";

fn write(
    alloc: Global,
    sink: &mut MemSink,
    names: &Names,
    processes: &[Name],
) -> Result<(), WriteFault>
    requires names { names.now ≡ fixed_names }
    requires one { length processes.now ≡ 1 }
{
    write_first(alloc, sink, &SETTINGS, true)?;
    write_deed(alloc, sink, names, processes, &CREATE)?;
    write_deed(alloc, sink, names, processes, &PAUSE)?;
    write_deed(alloc, sink, names, processes, &TAINT)?;
    write_deed(alloc, sink, names, processes, &EVICTION)
}

/// Lines that fit are written, and of the others a prefix.
#[test]
fn writes_lines(rt: HostRuntime) -> Result<(), Fail> {
    let alloc = rt.alloc();
    let names = Names::new(alloc)?;
    let processes = [Name::from_bytes(alloc, b"c1")?];
    for (room, ended) in [(300, Ok(())), (60, Err(WriteFault::Sink))] {
        let mut sink = MemSink::new(alloc, room, 7, Vec::new(alloc))?;
        assert_eq!(rt; write(alloc, &mut sink, &names, &processes), ended);
        assert!(rt; LINES.as_bytes().starts_with(sink.held()));
        assert_eq!(rt; sink.held().len(), room.min(LINES.len()));
    }
    Ok(())
}
