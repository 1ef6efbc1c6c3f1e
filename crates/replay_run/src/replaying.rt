ghost use Rattle.std.specs.Prelude.{◌≡◌, None};
ghost use Rattle.replay_plain.specs.State.{first_state};
ghost use Rattle.replay_run.specs.Ending.{devices, Ends, Runs, IsDoneBy};

use crate::both::{Beside, BothRuns, run_both};
use crate::differ::Differ;
use discard_io::{ReadEnd, Sink, Source, Status, read_to_end, write_all};
use line_text::{Cause, MOST_TEXT_BYTES};
use manager_state::State;
use replay_plain::ReplayCfg;
use script_text::{ScriptFault, law_in_range, read_script};
use std::alloc::Global;
use units::NoMemory;

/// How a replay ended.
#[derive(Drop)]
pub struct Replayed {
    pub status: Status,
    /// Where the two runs differ first. It comes only where the replay is done.
    pub differs: Option<Differ>,
    /// The state of the real run's manager. It comes exactly where the replay is done and the two
    /// runs do not differ.
    pub state: Option<State>,
}

/// Reads a script from a source to its end, runs it on plain segments and on real ones, and writes
/// the reply of the plain run to each command as a line.
///
/// A text that is no script is refused before anything runs. All replies are made before the first
/// is written, so a replay that is out of memory has written nothing. The records of the two runs
/// are compared. At the first difference the real run ends, and the plain one goes on.
pub fn replay<S: Source, O: Sink>(
    alloc: Global,
    cfg: &ReplayCfg,
    source: &mut S,
    sink: &mut O,
) -> Replayed
    ensures ends { Ends cfg.now result
        (devices (S.left source.old) (S.faults source.old)
        (O.written sink.old) (O.faults sink.old))
        (devices (S.left source.new) (S.faults source.new)
        (O.written sink.new) (O.faults sink.new)) }
{
    let bytes = match read_to_end(alloc, source, MOST_TEXT_BYTES) {
        Ok(bytes) => bytes,
        Err(ReadEnd::Failed) => return ended(Status::ReadFault),
        Err(ReadEnd::TooLong) => return refused(MOST_TEXT_BYTES, Cause::Long.number()),
        Err(ReadEnd::NoMemory) => return ended(Status::NoMemory),
    };
    let runs = match runs_of(alloc, cfg, bytes) {
        Ok(runs) => runs,
        Err(ScriptFault::Bad { place, cause }) => return refused(place, cause),
        Err(ScriptFault::NoMemory) => return ended(Status::NoMemory),
    };
    match write_all(sink, &runs.text) {
        Ok(()) => done(runs),
        Err(_) => ended(Status::WriteFault),
    }
}

fn refused(place: u64, cause: u32) -> Replayed
    ensures { result
        ≡ record { status = Status.BadInput place cause; differs = None; state = None } }
{
    ended(Status::BadInput { place, cause })
}

/// The answer of a replay that ended so, and is not done.
fn ended(status: Status) -> Replayed
    ensures { result ≡ record { status = status; differs = None; state = None } }
{
    Replayed {
        status,
        differs: None,
        state: None,
    }
}

/// The answer of a replay that is done.
fn done(runs: BothRuns) -> Replayed
    ensures { IsDoneBy runs result }
{
    let BothRuns { beside, .. } = runs;
    match beside {
        Beside::Agrees(real) => Replayed {
            status: Status::Done,
            differs: None,
            state: Some(real.into_state()),
        },
        Beside::Differs(differ) => Replayed {
            status: Status::Done,
            differs: Some(differ),
            state: None,
        },
    }
}

/// Both runs of a script, or where it is refused.
fn runs_of(alloc: Global, cfg: &ReplayCfg, bytes: Vec<u8>) -> Result<BothRuns, ScriptFault>
    ensures { Runs result cfg.now bytes.items }
{
    let script = read_script(alloc, &bytes)?;
    drop(bytes);
    law_in_range();
    match run_both(alloc, cfg, script) {
        Ok(runs) => Ok(runs),
        Err(NoMemory) => Err(ScriptFault::NoMemory),
    }
}
