use super::*;
use std::cell::Cell;
use std::io;
use std::io::{BufWriter, Cursor, ErrorKind, Read, Write};
use std::test::Fail;
use std::thread::join;

/// Takes what a source gives, through its bound, and says whether the end was reached.
fn drain<S: Source>(source: &mut S, room: &mut [u8], all: &mut Vec<u8>) -> Result<bool, Fail> {
    for _ in 0..20 {
        match source.take(room) {
            Ok(0) => return Ok(true),
            Ok(count) => all.extend_from_slice(&room[..count])?,
            Err(Failed) => return Ok(false),
        }
    }
    Ok(false)
}

/// Gives a piece to a sink, through its bound.
fn put<K: Sink>(sink: &mut K, piece: &[u8]) -> Result<(), GiveError> {
    sink.give(piece)
}

/// Passes a gate, through its bound.
fn pass_each<G: Gate>(gate: &G) {
    gate.pass(1, TASK);
    gate.pass(2, HELD);
    gate.pass(0, PUBLISHED);
}

#[test]
fn a_source_in_memory_gives_its_bytes_in_pieces(rt: HostRuntime) -> Result<(), Fail> {
    let alloc = rt.alloc();
    for (piece, failing, whole, given) in [
        (1, 0, true, "0123456789"),
        (7, 0, true, "0123456789"),
        (1, 4, false, "012"),
        (7, 2, false, "0123456"),
    ] {
        let bytes = b"0123456789".to_vec(alloc)?;
        let mut source = MemorySource::new(bytes, piece, vec![in alloc; failing]?);
        let mut all = Vec::new(alloc);
        assert_eq!(rt;
            drain(&mut source, &mut [0; 8], &mut all)?,
            whole,
            "pieces of {piece}"
        );
        assert_eq!(rt; all.as_slice(), given.as_bytes(), "pieces of {piece}");
    }
    Ok(())
}

#[test]
fn a_sink_in_memory_fails_at_the_first_entry_of_a_call(rt: HostRuntime) -> Result<(), Fail> {
    let alloc = rt.alloc();
    let failing = vec![in alloc;
        Cutoff { call: 2, kept: 4 },
        Cutoff { call: 2, kept: 1 },
        Cutoff { call: 4, kept: 9 },
    ]?;
    let mut sink = MemorySink::new(alloc, failing);
    assert_eq!(rt; put(&mut sink, b"first "), Ok(()));
    assert_eq!(rt; put(&mut sink, b"second "), Err(GiveError::Failed));
    assert_eq!(rt; put(&mut sink, b" third "), Ok(()));
    assert_eq!(rt; put(&mut sink, b"last"), Err(GiveError::Failed));
    assert_eq!(rt; sink.held(), b"first seco third last".as_slice());
    Ok(())
}

/// A reader whose second read fails.
#[derive(Drop)]
struct Halting {
    reads: u8,
}

impl Read for Halting {
    fn read(&mut self, buf: &mut [u8]) -> io::Result<usize> {
        self.reads = self.reads.saturating_add(1);
        if self.reads == 2 {
            return Err(ErrorKind::BrokenPipe.into());
        }
        match buf.first_mut() {
            Some(first) => {
                *first = b'x';
                Ok(1)
            }
            None => Ok(0),
        }
    }
}

#[test]
fn a_reader_is_a_source(rt: HostRuntime) -> Result<(), Fail> {
    let alloc = rt.alloc();
    for room in [1, 7] {
        let mut source = StdSource::new(Cursor::new(b"0123456789".as_slice()));
        let mut all = Vec::new(alloc);
        let mut buffer = [0; 7];
        assert!(rt;
            drain(&mut source, &mut buffer[..room], &mut all)?,
            "room for {room}"
        );
        assert_eq!(rt; all.as_slice(), b"0123456789".as_slice(), "room for {room}");
    }
    Ok(())
}

#[test]
fn a_reader_that_fails_once_is_heard_once(rt: HostRuntime) -> Result<(), Fail> {
    let mut source = StdSource::new(Halting { reads: 0 });
    let mut room = [0; 7];
    assert_eq!(rt; source.take(&mut room), Ok(1));
    assert_eq!(rt; source.take(&mut room), Err(Failed));
    assert_eq!(rt; source.take(&mut room), Ok(1));
    Ok(())
}

#[test]
fn a_writer_is_a_sink(rt: HostRuntime) -> Result<(), Fail> {
    let alloc = rt.alloc();
    let mut sink = StdSink::new(Vec::new(alloc));
    assert_eq!(rt; put(&mut sink, b"one "), Ok(()));
    assert_eq!(rt; put(&mut sink, b"two"), Ok(()));

    // A slice takes what it has room for, and then no bytes.
    let mut room = [0u8; 5];
    let mut short = StdSink::new(room.as_mut_slice());
    assert_eq!(rt; put(&mut short, b"1234"), Ok(()));
    assert_eq!(rt; put(&mut short, b"5678"), Err(GiveError::Failed));
    assert_eq!(rt; put(&mut short, b""), Ok(()));
    Ok(())
}

/// A writer that takes two bytes at a write, and fails at the write and at the flush of these
/// numbers, counted from 1. It tells how many bytes it took.
#[derive(Drop)]
struct Faltering<'a> {
    taken: &'a Cell<usize>,
    writes: u8,
    flushes: u8,
    failing_write: u8,
    failing_flush: u8,
}

impl Faltering<'_> {
    fn new(taken: &Cell<usize>, failing_write: u8, failing_flush: u8) -> Faltering<'_> {
        Faltering {
            taken,
            writes: 0,
            flushes: 0,
            failing_write,
            failing_flush,
        }
    }
}

impl Write for Faltering<'_> {
    fn write(&mut self, buf: &[u8]) -> io::Result<usize> {
        self.writes = self.writes.saturating_add(1);
        if self.writes == self.failing_write {
            return Err(ErrorKind::BrokenPipe.into());
        }
        let count = buf.len().min(2);
        self.taken.set(self.taken.get().saturating_add(count));
        Ok(count)
    }

    fn flush(&mut self) -> io::Result<()> {
        self.flushes = self.flushes.saturating_add(1);
        if self.flushes == self.failing_flush {
            return Err(ErrorKind::BrokenPipe.into());
        }
        Ok(())
    }
}

/// No error is passed over, and each is told once: three pieces of five bytes, each of which is
/// three writes and a flush.
#[test]
fn a_writer_that_fails_once_is_heard_once(rt: HostRuntime) -> Result<(), Fail> {
    let failed = Err(GiveError::Failed);
    for (failing_write, failing_flush, answers, taken) in [
        (0, 0, [Ok(()), Ok(()), Ok(())], [5, 10, 15]),
        (5, 0, [Ok(()), failed, Ok(())], [5, 7, 12]),
        (0, 2, [Ok(()), failed, Ok(())], [5, 10, 15]),
    ] {
        let count = Cell::new(0);
        let mut sink = StdSink::new(Faltering::new(&count, failing_write, failing_flush));
        for i in 0..3 {
            assert_eq!(rt;
                put(&mut sink, b"piece"),
                answers[i],
                "write {failing_write}, flush {failing_flush}, piece {i}"
            );
            assert_eq!(rt;
                count.get(),
                taken[i],
                "write {failing_write}, flush {failing_flush}, piece {i}"
            );
        }
    }
    Ok(())
}

/// What stands behind a buffer has the whole piece after each give: it was flushed.
#[test]
fn each_piece_is_flushed(rt: HostRuntime) -> Result<(), Fail> {
    let alloc = rt.alloc();
    let count = Cell::new(0);
    let mut sink = StdSink::new(BufWriter::new(alloc, Faltering::new(&count, 0, 0))?);
    for given in [5, 10, 15] {
        assert_eq!(rt; put(&mut sink, b"piece"), Ok(()));
        assert_eq!(rt; count.get(), given);
    }
    Ok(())
}

#[test]
fn an_open_gate_keeps_nobody() {
    pass_each(&OpenGate);
}

#[test]
fn a_pair_gate_shows_two_passes_of_its_kind_at_once(rt: HostRuntime) {
    let alone = PairGate::new(TASK, 1000);
    pass_each(&alone);
    pass_each(&alone);
    assert!(rt; !alone.met());

    let other = PairGate::new(HELD, 1000);
    join(&rt, || other.pass(0, TASK), || other.pass(1, TASK));
    assert!(rt; !other.met());

    let pair = PairGate::new(TASK, 100_000_000);
    join(&rt, || pair.pass(0, TASK), || pair.pass(1, TASK));
    assert!(rt; pair.met());
}
