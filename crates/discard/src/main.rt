#![tactic(auto)]
//! `discard`: soft memory for caches. `discard replay` runs a script of events from the standard input, and writes a
//! line of reply to each on the standard output. `discard tile` writes one tile of the image in a file. `discard serve`
//! serves its tiles to many clients, as requests from the standard input ask, and `discard gen` a workload that it draws.

ghost use Rattle.std.specs.Prelude.{◌≡◌, ◌≢◌};
ghost use Rattle.std.specs.IoError.{error_kind};
ghost use Rattle.top_call.specs.Outside.{telling};
ghost use Rattle.top_call.specs.Report.{status_line, Told};

use discard_io::{DirFiles, OpenGate, Sink, Status, StdSink, StdSource, SystemClock};
use std::io::ErrorKind;
use std::process::ExitCode;
use std::{env, io};
use top_call::{discard, tell};

fn main(rt: HostRuntime) -> ExitCode {
    let alloc = rt.alloc();
    let mut report = StdSink::new(rt.stderr());
    let words = match env::args(&rt) {
        Ok(words) => words,
        Err(error) => return failed(&mut report, unread_words(&error)),
    };
    let Ok(words) = words.skip(1).collect::<Vec<String>>(alloc) else {
        return failed(&mut report, Status::NoMemory);
    };
    let mut input = StdSource::new(rt.stdin());
    let mut out = StdSink::new(rt.stdout());
    let mut files = DirFiles::new(&rt);
    let clock = SystemClock::new(&rt);
    let gate = OpenGate::new();
    let ended = discard(
        &rt,
        alloc,
        &words,
        &mut input,
        &mut out,
        &mut report,
        &mut files,
        &clock,
        &gate,
    );
    ExitCode::from(ended.status.code())
}

/// How a run ends whose words cannot be read: it is out of memory, or a word is no text.
fn unread_words(error: &io::Error) -> Status
    ensures memory { error_kind error.now ≡ ErrorKind.OutOfMemory → result ≡ Status.NoMemory }
    ensures usage { error_kind error.now ≢ ErrorKind.OutOfMemory → result ≡ Status.Usage }
{
    match error.kind() {
        ErrorKind::OutOfMemory => Status::NoMemory,
        _ => Status::Usage,
    }
}

/// Tells a status on the report, and is its exit code.
fn failed<E: Sink>(report: &mut E, status: Status) -> ExitCode
    ensures { Told (status_line status)
        (telling (E.written report.old) (E.faults report.old))
        (telling (E.written report.new) (E.faults report.new)) }
{
    tell(report, status);
    ExitCode::from(status.code())
}
