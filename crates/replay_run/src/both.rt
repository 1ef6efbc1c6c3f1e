//! Both runs of a script, command by command.
ghost use Rattle.std.specs.Prelude.{◌≡◌, ◌++◌, ◌∷◌, [], IfOk, OnOk};
ghost use Rattle.script_text.specs.Script.{Commands};
ghost use Rattle.script_text.specs.Ranges.{IsInRange, AreInRange};
ghost use Rattle.replay_plain.specs.State.{ReplayState, first_state};
ghost use Rattle.replay_run.specs.Both.{BothStand, Stands, GoesOn, RanBeside};

use crate::differ::Differ;
use crate::records::{same_entries, same_words, tell};
use discard_book::Entry;
use replay_plain::{PlainRun, ReplayCfg};
use replay_real::RealRun;
use script_text::{Command, Script};
use std::alloc::Global;
use units::NoMemory;

/// The real run beside the plain one: it agrees so far, or it ended at the first difference.
#[derive(Drop)]
pub(crate) enum Beside {
    Agrees(RealRun),
    Differs(Differ),
}

/// Both runs of a script.
#[derive(Drop)]
pub(crate) struct BothRuns {
    plain: PlainRun,
    /// The replies of the plain run, each a line.
    pub(crate) text: Vec<u8>,
    pub(crate) beside: Beside,
    /// Room for a reply of the real run, kept from one command to the next.
    room: Vec<u8>,
}

impl BothRuns {
    /// Both runs before their first command.
    fn new(alloc: Global, cfg: &ReplayCfg) -> Result<BothRuns, NoMemory>
        ensures { IfOk result (λ runs. BothStand runs (first_state cfg.now) []) }
    {
        Ok(BothRuns {
            plain: PlainRun::new(alloc, cfg)?,
            text: Vec::new(alloc),
            beside: Beside::Agrees(RealRun::new(alloc, cfg)?),
            room: Vec::new(alloc),
        })
    }

    /// Runs the command of a line on both.
    fn run(&mut self, alloc: Global, place: u64, command: &Command) -> Result<(), NoMemory>
        requires range { IsInRange command.now }
        requires stands { Stands self.old }
        ensures { OnOk result ((first : ReplayState) (done : Commands)
            → BothStand self.old first done
            → BothStand self.new first (done ++ (place, command.now) ∷ [])) }
    {
        let start = self.text.len();
        let before = self.plain.entries().len();
        self.plain.run(alloc, command, &mut self.text)?;
        go_on(
            alloc,
            &mut self.beside,
            place,
            command,
            &self.text[start..],
            &self.plain.entries()[before..],
            &mut self.room,
        )?;
        self.text.push(b'\n')?;
        Ok(())
    }
}

/// Runs the command of a line on real segments, where they agree so far.
fn go_on(
    alloc: Global,
    beside: &mut Beside,
    place: u64,
    command: &Command,
    reply: &[u8],
    added: &[Entry],
    room: &mut Vec<u8>,
) -> Result<(), NoMemory>
    requires { IsInRange command.now }
    ensures { OnOk result (GoesOn beside.old beside.new place command.now reply.now added.now) }
{
    let Beside::Agrees(real) = beside else {
        return Ok(());
    };
    if let Some(differ) = run_beside(alloc, real, place, command, reply, added, room)? {
        *beside = Beside::Differs(differ);
    }
    Ok(())
}

/// Runs the command of a line on real segments, and compares its record with the plain one.
fn run_beside(
    alloc: Global,
    real: &mut RealRun,
    place: u64,
    command: &Command,
    reply: &[u8],
    added: &[Entry],
    room: &mut Vec<u8>,
) -> Result<Option<Differ>, NoMemory>
    requires { IsInRange command.now }
    ensures { IfOk result (λ differ.
        RanBeside differ place command.now reply.now added.now real.old real.new) }
{
    room.clear();
    let before = real.entries().len();
    real.run(alloc, command, room)?;
    let more = &real.entries()[before..];
    if same_words(room.as_slice(), reply) && same_entries(more, added) {
        return Ok(None);
    }
    Ok(Some(tell(alloc, place, room.as_slice(), more, reply, added)?))
}

/// Runs a script on both.
pub(crate) fn run_both(alloc: Global, cfg: &ReplayCfg, script: Script) -> Result<BothRuns, NoMemory>
    requires { AreInRange script }
    ensures { IfOk result (λ runs. BothStand runs (first_state cfg.now) script) }
{
    let mut runs = BothRuns::new(alloc, cfg)?;
    for (place, command) in script.into_commands() {
        runs.run(alloc, place, &command)?;
    }
    Ok(runs)
}
