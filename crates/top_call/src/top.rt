ghost use Rattle.std.specs.Prelude.{◌≡◌, ◌≢◌, [], Some, IfOk};
ghost use Rattle.command_line.specs.Words.{texts};
ghost use Rattle.command_line.specs.Commands.{order_of};
ghost use Rattle.command_line.specs.Orders.{order_value, IsLawful};
ghost use Rattle.serve_run.specs.Served.{report_of};
ghost use Rattle.top_call.specs.Devices.{outside_before, outside_after};
ghost use Rattle.top_call.specs.Outside.{outside, telling};
ghost use Rattle.top_call.specs.Report.{IsMadeFor};
ghost use Rattle.top_call.specs.ServeRun.{served_by};
ghost use Rattle.top_call.specs.Top.{Runs, ProgramEnds, TellsUsage, ended_by, handed_on};

use crate::devices::Devices;
use crate::report::reported;
use crate::served_run::{Answer, serve_drawn};
use crate::tile_run::write_tile;
use command_line::{Order, order_of};
use discard_io::{Clock, Files, Gate, Sink, Source, Status};
use replay_run::{Replayed, replay};
use serve_run::Served;
use std::alloc::Global;
use std::sync::Wait;
use std::thread::Threads;
use units::NoMemory;

/// What a run handed on.
#[derive(Drop)]
pub enum Run {
    /// The run ended before it was done, or has nothing to hand on.
    Nothing,
    /// What the replay answered.
    Replay(Replayed),
    /// What was served.
    Serve(Served),
}

/// How a run ended.
#[derive(Drop)]
pub struct Ended {
    pub status: Status,
    pub run: Run,
}

/// A run of the program, by its words, which don't hold the program's name.
///
/// `replay` reads a script from `input` to its end, runs it, and writes the reply to each command on `out`. `--limit` is
/// the limit of its manager, 0 to 1,048,576 pages, and 1,048,576 where it is not given: a grant above it reduces first,
/// and comes in any case. `--standard` is the standard size of a client's segments, 1 to 512 pages, and 64 where it is
/// not given; `--keep` how many blocks the pool keeps, 0 to 256, and 16 where it is not given. Where two runs of the
/// script differ, `report` gets the line of a command on which they do.
/// `tile FILE Z X Y` reads the image in a file, and writes one of its tiles on `out`, with a head of its own. With
/// `--side` the tile has 64, 128 or 256 pixels a side, and 256 without it.
/// `serve FILE` reads the image in a file, and then requests for its tiles from `input` to its end. Clients in threads
/// of their own keep tiles in memory that may vanish; the replies go to `out` in the order of the requests, and the
/// report of the run to `report`. Its options are `--clients`, `--limit`, `--side`, `--entries`, `--rounds`,
/// `--standard` and `--keep`.
/// `gen N` serves a workload that is drawn from N, from 0 to 999,999, writes a line on `out` that tells its replies, and
/// the report on `report`.
/// All that is written on `out` is made before the first byte is written, so a run that is out of memory has written
/// nothing there.
///
/// A run that is not done tells its status on `report` in one line.
pub fn discard<
    H: Threads + Wait + Sync,
    S: Source,
    O: Sink,
    E: Sink,
    F: Files,
    C: Clock + Sync,
    T: Gate + Sync,
>(
    rt: &H,
    alloc: Global,
    words: &[String],
    input: &mut S,
    out: &mut O,
    report: &mut E,
    files: &mut F,
    clock: &C,
    gate: &T,
) -> Ended
    ensures ends { ProgramEnds (order_of (texts words.now)) result
        (outside (S.left input.old) (S.faults input.old) (O.written out.old) (O.faults out.old)
        (F.bytes files.old) (F.faults files.old))
        (outside (S.left input.new) (S.faults input.new) (O.written out.new) (O.faults out.new)
        (F.bytes files.new) (F.faults files.new))
        (telling (E.written report.old) (E.faults report.old))
        (telling (E.written report.new) (E.faults report.new)) }
    // Usage comes exactly for words that are not lawful, or they were not read for want of memory.
    ensures usage { TellsUsage (order_of (texts words.now)) result.status }
{
    let devices = Devices {
        input,
        out,
        files,
        clock,
        gate,
    };
    let ran = devices.run_words(rt, alloc, words);
    reported(report, ran.ended, &ran.report)
}

/// A run without its report.
#[derive(Drop)]
struct Ran {
    ended: Ended,
    /// The report of a run that served, which is made before anything is written, and else nothing.
    report: Vec<u8>,
}

impl<S: Source, O: Sink, F: Files, C: Clock + Sync, T: Gate + Sync> Devices<'_, S, O, F, C, T> {
    /// Reads the words, and runs what they ask for.
    fn run_words<H: Threads + Wait + Sync>(self, rt: &H, alloc: Global, words: &[String]) -> Ran
        ensures runs { Runs (order_of (texts words.now)) result.ended
            (outside_before S.Source O.Sink F.Files self.entry)
            (outside_after S.Source O.Sink F.Files self.exit) }
        ensures usage { TellsUsage (order_of (texts words.now)) result.ended.status }
        ensures report { IsMadeFor result.ended.run result.report.items }
    {
        match order_of(alloc, words) {
            Ok(Some(order)) => self.run_order(rt, alloc, order),
            Ok(None) => unreported(alloc, empty_handed(Status::Usage)),
            Err(NoMemory) => unreported(alloc, empty_handed(Status::NoMemory)),
        }
    }

    /// A run by what its words ask for.
    fn run_order<H: Threads + Wait + Sync>(self, rt: &H, alloc: Global, order: Order<'_>) -> Ran
        requires lawful { IsLawful order }
        ensures runs { Runs (Some (order_value order.entry)) result.ended
            (outside_before S.Source O.Sink F.Files self.entry)
            (outside_after S.Source O.Sink F.Files self.exit) }
        ensures lawful { result.ended.status ≢ Status.Usage }
        ensures report { IsMadeFor result.ended.run result.report.items }
    {
        match order {
            Order::Replay(cfg) => {
                let Devices { input, out, .. } = self;
                unreported(alloc, handed_on(replay(alloc, &cfg, input, out)))
            }
            Order::Tile { file, tile, side } => {
                let Devices { out, files, .. } = self;
                let status = write_tile(alloc, file, tile, side, out, files);
                unreported(alloc, empty_handed(status))
            }
            Order::Serve { file, cfg } => answered(alloc, self.serve_file(rt, alloc, file, &cfg)),
            Order::Gen(n) => {
                let Devices {
                    out,
                    clock,
                    gate,
                    ..
                } = self;
                answered(alloc, serve_drawn(rt, alloc, n, out, clock, gate))
            }
        }
    }
}

/// A run whose report needs no text that takes memory.
fn unreported(alloc: Global, ended: Ended) -> Ran
    ensures ended { result.ended ≡ ended }
    ensures report { result.report.items ≡ [] }
{
    Ran {
        ended,
        report: Vec::new(alloc),
    }
}

/// A run that serves hands on what it served, and its report, where it is done, and else nothing.
fn answered(alloc: Global, answer: Result<Answer, Status>) -> Ran
    requires { IfOk answer (λ a. a.report.items ≡ report_of a.served) }
    ensures ended { result.ended ≡ ended_by (served_by answer) }
    ensures report { IsMadeFor result.ended.run result.report.items }
{
    match answer {
        Ok(Answer { served, report }) => Ran {
            ended: Ended {
                status: Status::Done,
                run: Run::Serve(served),
            },
            report,
        },
        Err(status) => unreported(alloc, empty_handed(status)),
    }
}

/// A run that has nothing to hand on.
fn empty_handed(status: Status) -> Ended
    ensures { result ≡ record { status = status; run = Run.Nothing } }
{
    Ended {
        status,
        run: Run::Nothing,
    }
}

/// A replay hands on its answer where it is done, and else nothing.
fn handed_on(replayed: Replayed) -> Ended
    ensures { result ≡ record { status = replayed.status; run = handed_on replayed } }
{
    let status = replayed.status;
    let run = match status {
        Status::Done => Run::Replay(replayed),
        _ => Run::Nothing,
    };
    Ended { status, run }
}
