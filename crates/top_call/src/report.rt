ghost use Rattle.std.specs.Prelude.{◌≡◌, ◌≤◌, ◌++◌, [], codes, decimal, length, OnOk, OnErr};
ghost use Rattle.discard_io.specs.Streams.{appended, WroteFront};
ghost use Rattle.discard_io.specs.WriteAll.{WritesNothing};
ghost use Rattle.units.specs.Count.{HasRisen};
ghost use Rattle.top_call.specs.Outside.{telling};
ghost use Rattle.top_call.specs.Report.{status_line, run_text, IsMadeFor, Told, Reports, EndsOn};

use crate::top::{Ended, Run};
use arrayvec::ArrayString;
use discard_io::{Failed, Sink, Status, write_all};
use itoa::Buffer;

/// Room for the longest line of a status.
const ROOM: usize = 64;

/// Makes the report of a run, and is how the program ends: as the run did, or as a write fault where the run is done and
/// the report fails. `text` was made for the report of a run that served. It takes no memory.
pub(crate) fn reported<E: Sink>(report: &mut E, ran: Ended, text: &[u8]) -> Ended
    requires { IsMadeFor ran.run text.now }
    ensures reports { Reports ran result
        (telling (E.written report.old) (E.faults report.old))
        (telling (E.written report.new) (E.faults report.new)) }
    ensures status { EndsOn ran.status result.status }
{
    let status = ran.status;
    match status {
        Status::Done => reported_done(report, ran, text),
        _ => {
            tell(report, status);
            ran
        }
    }
}

/// Makes the report of a run that is done.
fn reported_done<E: Sink>(report: &mut E, ran: Ended, text: &[u8]) -> Ended
    requires done { ran.status ≡ Status.Done }
    requires text { IsMadeFor ran.run text.now }
    ensures reports { Reports ran result
        (telling (E.written report.old) (E.faults report.old))
        (telling (E.written report.new) (E.faults report.new)) }
    ensures status { EndsOn Status.Done result.status }
{
    match write_run(report, &ran.run, text) {
        Ok(()) => ran,
        Err(_) => {
            tell(report, Status::WriteFault);
            Ended {
                status: Status::WriteFault,
                run: Run::Nothing,
            }
        }
    }
}

/// Writes what the report gets for a run that is done, as `write_all` does.
fn write_run<E: Sink>(report: &mut E, run: &Run, text: &[u8]) -> Result<(), Failed>
    requires { IsMadeFor run.now text.now }
    ensures all { OnOk result
        (E.written report.new ≡ appended (E.written report.old) (run_text run.now)) }
    ensures front { OnErr result
        (WroteFront (E.written report.old) (run_text run.now) (E.written report.new)) }
    ensures nothing { run_text run.now ≡ [] → WritesNothing result report.old report.new }
    ensures failed { OnErr result (HasRisen (E.faults report.old) (E.faults report.new)) }
    ensures later { E.faults report.old ≤ E.faults report.new }
{
    match run {
        Run::Nothing => Ok(()),
        Run::Replay(replayed) => match &replayed.differs {
            None => Ok(()),
            Some(differ) => write_all(report, differ_line(differ.place).as_str().as_bytes()),
        },
        Run::Serve(_) => write_all(report, text),
    }
}

fn differ_line(place: u64) -> ArrayString<ROOM>
    ensures { result.bytes ≡ codes "discard: line " ++ decimal place ++ codes " differs\n" }
{
    let mut digits = Buffer::new();
    let mut line = line("discard: line ");
    line.push_str(digits.format(place));
    line.push_str(" differs\n");
    line
}

/// Writes the line of a status on the report, and nothing for Done. It takes no memory.
pub fn tell<E: Sink>(report: &mut E, status: Status)
    ensures { Told (status_line status)
        (telling (E.written report.old) (E.faults report.old))
        (telling (E.written report.new) (E.faults report.new)) }
{
    let line = line_of(status);
    let _ = write_all(report, line.as_str().as_bytes());
}

fn line_of(status: Status) -> ArrayString<ROOM>
    ensures { result.bytes ≡ status_line status }
{
    match status {
        Status::Done => line(""),
        Status::NoMemory => line("discard: no memory\n"),
        Status::Usage => line("discard: usage\n"),
        Status::BadInput { place, cause } => refusal_line(place, cause),
        Status::ReadFault => line("discard: read fault\n"),
        Status::WriteFault => line("discard: write fault\n"),
        Status::FileFault => line("discard: file fault\n"),
    }
}

fn line(text: &str) -> ArrayString<ROOM>
    requires { length text.now ≤ ROOM }
    ensures { result.bytes ≡ text.now }
{
    let mut line = ArrayString::new();
    line.push_str(text);
    line
}

fn refusal_line(place: u64, cause: u32) -> ArrayString<ROOM>
    ensures { result.bytes ≡ status_line (Status.BadInput place cause) }
{
    let mut digits = Buffer::new();
    let mut line = line("discard: bad input ");
    line.push_str(digits.format(place));
    line.push_str(" ");
    line.push_str(digits.format(cause));
    line.push_str("\n");
    line
}
