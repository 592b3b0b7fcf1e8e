// Whole inputs and whole outputs, over memory and over std's readers and writers.
use crate::{
    Failed, MemSink, MemSource, Sink, Source, StdSink, StdSource, TakeFault, give_all, take_all,
};
use std::test::Fail;

#[test]
fn takes_all_up_to_the_limit(rt: HostRuntime) -> Result<(), Fail> {
    let alloc = rt.alloc();
    for chunk in 1..6 {
        let mut source = MemSource::new(b"abc".to_vec(alloc)?, chunk, Vec::new(alloc));
        let bytes = take_all(alloc, &mut source, 3)?;
        assert_eq!(rt; bytes.as_slice(), b"abc".as_slice(), "in pieces of {chunk}");
        let mut source = MemSource::new(b"abcd".to_vec(alloc)?, chunk, Vec::new(alloc));
        let refused = take_all(alloc, &mut source, 3).err();
        assert_eq!(rt; refused, Some(TakeFault::TooLarge), "in pieces of {chunk}");
    }
    let mut source = MemSource::new(b"abc".to_vec(alloc)?, 2, [1].to_vec(alloc)?);
    assert_eq!(rt;
        take_all(alloc, &mut source, 3).err(),
        Some(TakeFault::Fault)
    );
    let rest = take_all(alloc, &mut source, 3)?;
    assert_eq!(rt; rest.as_slice(), b"c".as_slice());
    Ok(())
}

#[test]
fn gives_all_that_fits(rt: HostRuntime) -> Result<(), Fail> {
    let alloc = rt.alloc();
    for chunk in 1..7 {
        let mut sink = MemSink::new(alloc, 5, chunk, Vec::new(alloc))
            .ok()
            .ok_or("no memory")?;
        assert_eq!(rt;
            give_all(&mut sink, b"abcd"),
            Ok(()),
            "in pieces of {chunk}"
        );
        assert_eq!(rt;
            give_all(&mut sink, b"efg"),
            Err(Failed),
            "in pieces of {chunk}"
        );
        assert_eq!(rt; sink.held(), b"abcde".as_slice(), "in pieces of {chunk}");
    }
    let mut sink = MemSink::new(alloc, 5, 2, [1].to_vec(alloc)?)
        .ok()
        .ok_or("no memory")?;
    assert_eq!(rt; give_all(&mut sink, b"abcd"), Err(Failed));
    assert_eq!(rt; sink.held(), b"ab".as_slice());
    Ok(())
}

#[test]
fn reads_and_writes_through(rt: HostRuntime) -> Result<(), Fail> {
    let alloc = rt.alloc();
    let mut source = StdSource::new(b"abc".as_slice());
    let mut piece = [0u8; 2];
    assert_eq!(rt; source.take(&mut piece), Ok(2));
    assert_eq!(rt; piece, [97, 98]);
    let mut sink = StdSink::new(Vec::new(alloc));
    assert_eq!(rt; sink.give(b"abc"), Ok(3));
    let mut full = StdSink::new(NoRoom);
    assert_eq!(rt; full.give(b"abc"), Err(Failed));
    Ok(())
}

/// A writer that takes nothing.
#[derive(Debug, Drop)]
struct NoRoom;

impl std::io::Write for NoRoom {
    fn write(&mut self, _: &[u8]) -> std::io::Result<usize> {
        Ok(0)
    }

    fn flush(&mut self) -> std::io::Result<()> {
        Ok(())
    }
}
