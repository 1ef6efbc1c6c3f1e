ghost use Rattle.std.specs.Prelude.{IsTrue};
ghost use Rattle.units.specs.Count.{HasRisen};
ghost use Rattle.discard_io.specs.Adapters.{sink_faults};

use super::*;
use std::alloc::Global;
use std::io::{Read, Write};
use std::sync::Wait;
use std::test::Fail;
use std::thread::{Threads, join};
use std::{fs, io};
use units::LAST_MOMENT;

#[test]
fn reads_to_the_end(rt: HostRuntime) -> Result<(), Fail> {
    let mut whole = MemSource::new(rt.alloc(), b"abcd", 3, &[])?;
    assert!(rt; reads(rt.alloc(), &mut whole, Ok(b"abcd")));
    assert!(rt; reads(rt.alloc(), &mut whole, Ok(b"")));
    let mut failing = MemSource::new(rt.alloc(), b"abcd", 1, &[9, 3])?;
    assert!(rt; reads(rt.alloc(), &mut failing, Err(ReadEnd::Failed)));
    // The third call took nothing, so the source goes on from there.
    assert!(rt; reads(rt.alloc(), &mut failing, Ok(b"cd")));
    let mut long = NeverSource::new(rt.alloc(), b"abcdefg")?;
    assert!(rt; reads(rt.alloc(), &mut long, Err(ReadEnd::TooLong)));
    assert!(rt; reads(rt.alloc(), &mut long, Ok(b"fg")));
    Ok(())
}

// Whether reading to the end, at most 4 bytes, is answered so.
fn reads<S: Source>(alloc: Global, source: &mut S, want: Result<&[u8], ReadEnd>) -> bool {
    match (read_to_end(alloc, source, 4), want) {
        (Ok(got), Ok(want)) => got.as_slice() == want,
        (Err(got), Err(want)) => got == want,
        _ => false,
    }
}

#[test]
fn writes_all_or_a_front(rt: HostRuntime) -> Result<(), Fail> {
    let mut wide = MemSink::new(rt.alloc(), 4, 3, &[])?;
    assert!(rt; write_all(&mut wide, b"abcd").is_ok() && wide.written() == b"abcd".as_slice());
    let mut failing = MemSink::new(rt.alloc(), 9, 1, &[3])?;
    assert!(rt; write_all(&mut failing, b"abcd").is_err() && failing.written() == b"ab".as_slice());
    assert!(rt; write_all(&mut NeverSink::new(), b"abcd").is_ok());
    Ok(())
}

#[test]
fn keeps_files_by_name(rt: HostRuntime) -> Result<(), Fail> {
    let mut files = MemFiles::new(rt.alloc(), &[2])?;
    files.add(rt.alloc(), "a.pgm", b"old")?;
    files.add(rt.alloc(), "a.pgm", b"newer")?;
    assert!(rt; finds(rt.alloc(), &mut files, "a.pgm", Ok(b"newer")));
    assert!(rt; finds(rt.alloc(), &mut files, "a.pgm", Err(FileFault::Failed)));
    let mut same = NeverFiles::new(rt.alloc(), b"same")?;
    assert!(rt; finds(rt.alloc(), &mut same, "any", Ok(b"same")));
    Ok(())
}

#[test]
fn reads_files_of_the_system(rt: HostRuntime) -> Result<(), Fail> {
    fs::write(&rt, "four.bytes", b"four".as_slice())?;
    fs::write(&rt, "six.bytes", b"sixsix".as_slice())?;
    let mut files = DirFiles::new(&rt);
    assert!(rt; finds(rt.alloc(), &mut files, "four.bytes", Ok(b"four")));
    assert!(rt; finds(rt.alloc(), &mut files, "six.bytes", Err(FileFault::TooLong)));
    assert!(rt; finds(rt.alloc(), &mut files, "none.bytes", Err(FileFault::Failed)));
    assert!(rt; finds(rt.alloc(), &mut files, ".", Err(FileFault::Failed)));
    fs::remove_file(&rt, "four.bytes")?;
    fs::remove_file(&rt, "six.bytes")?;
    Ok(())
}

// Whether reading this name, at most 5 bytes, is answered so.
fn finds<F: Files>(
    alloc: Global,
    files: &mut F,
    name: &str,
    want: Result<&[u8], FileFault>,
) -> bool {
    match (files.read_all(alloc, name, 5), want) {
        (Ok(got), Ok(want)) => got.as_slice() == want,
        (Err(got), Err(want)) => got == want,
        _ => false,
    }
}

#[test]
fn counts_moments_and_passes(rt: HostRuntime) {
    let clock = CountClock::new(LAST_MOMENT - 1);
    assert!(rt; moment(&clock) == LAST_MOMENT - 1);
    assert!(rt; moment(&clock) == LAST_MOMENT);
    assert!(rt; moment(&clock) == LAST_MOMENT);
    pass(&rt, 1, 0, &OpenGate::new());
}

#[test]
fn the_system_tells_the_time(rt: HostRuntime) {
    // The year 2020 is behind us.
    let moment = moment(&SystemClock::new(&rt));
    assert!(rt; moment > 1_577_836_800_000_000 && moment <= LAST_MOMENT);
}

#[test]
fn two_clients_meet(rt: HostRuntime) {
    let gate = MeetGate::new();
    let client = |who: u32| {
        pass(&rt, who, 0, &gate);
        pass(&rt, who, 1, &gate);
    };
    join(&rt, || client(1), || client(2));
    assert!(rt; !gate.stuck() && gate.passes() == 4);
}

fn moment<C: Clock + Sync>(clock: &C) -> u64 {
    clock.now()
}

fn pass<H: Threads + Wait + Sync, G: Gate + Sync>(rt: &H, who: u32, place: u64, gate: &G) {
    gate.pass(rt, who, place);
}

#[test]
fn reads_the_standard_input(rt: HostRuntime) {
    let mut input = StdSource::new(rt.stdin());
    assert!(rt; input.read(&mut [0; 16]) == Ok(0));
    let mut text = StdSource::new(b"text".as_slice());
    assert!(rt; reads(rt.alloc(), &mut text, Ok(b"text")));
    assert!(rt;
        reads(
            rt.alloc(),
            &mut StdSource::new(Broken),
            Err(ReadEnd::Failed)
        )
    );
}

// A reader whose reads fail.
#[derive(Drop)]
struct Broken;

impl Read for Broken {
    fn read(&mut self, _buf: &mut [u8]) -> io::Result<usize> {
        Err(io::Error::from(io::ErrorKind::Other))
    }
}

#[test]
fn writes_to_std(rt: HostRuntime) {
    assert!(rt; StdSink::new(rt.stdout()).write(b"") == Ok(0));
    let mut full = StdSink::new(Fake {
        takes: 0,
        flushes: true,
    });
    assert!(rt; fails(&mut full));
    // The byte was taken, and the flush alone fails.
    let mut unflushed = StdSink::new(Fake {
        takes: 1,
        flushes: false,
    });
    assert!(rt; fails(&mut unflushed));
    let mut well = StdSink::new(Fake {
        takes: 1,
        flushes: true,
    });
    assert!(rt; !fails(&mut well));
}

// Whether a write of one byte fails, and counts a fault.
fn fails(sink: &mut StdSink<Fake>) -> bool
    ensures { IsTrue result → HasRisen (sink_faults sink.old) (sink_faults sink.new) }
{
    sink.write(b"a") == Err(Failed)
}

// A writer that takes a limited number of bytes a call, and flushes well or never.
#[derive(Drop)]
struct Fake {
    takes: usize,
    flushes: bool,
}

impl Write for Fake {
    fn write(&mut self, buf: &[u8]) -> io::Result<usize> {
        Ok(self.takes.min(buf.len()))
    }

    fn flush(&mut self) -> io::Result<()> {
        if self.flushes {
            Ok(())
        } else {
            Err(io::Error::from(io::ErrorKind::Other))
        }
    }
}
