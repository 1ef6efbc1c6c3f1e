ghost use Rattle.std.specs.Prelude.{◌≡◌, ◌≢◌, ℕ, ◌+◌, ◌*◌, ◌<◌, ◌≤◌, ◌^◌, true, false, nat_lt};
ghost use Rattle.std.specs.Prelude.{◌++◌, length, drop, None, is_some, IfOk, OnOk};
ghost use Rattle.units.specs.Moment.{IsMoment};
ghost use Rattle.units.specs.declared.TheConstants.{MOST_PAGES};
ghost use Rattle.machine.specs.declared.event.Event.TheVariants as event;
ghost use Rattle.machine.specs.Answers.{granted};
ghost use Rattle.block_pool.specs.Stock.{no_blocks};
ghost use Rattle.discard_book.specs.Legal.{room};
ghost use Rattle.discard_book.specs.Live.{granted as granted_pages};
ghost use Rattle.manager_state.specs.Calls.{limit_under};
ghost use Rattle.script_text.specs.declared.command.Command.TheVariants as command;
ghost use Rattle.script_text.specs.Ranges.{IsInRange};
ghost use Rattle.replay_plain.specs.State.{ReplayState, first_state, after_event};
ghost use Rattle.replay_plain.specs.Commands.{after_grant, state_after, is_finding, pressed};
ghost use Rattle.replay_plain.specs.Replies.{answered_text, read_text, grant_text, granted_text};
ghost use Rattle.replay_plain.specs.Replies.{granted_words, reduced_words, reply_of};
ghost use Rattle.replay_real.specs.Owners.{given_at};
ghost use Rattle.replay_real.specs.Standing.{RealStandsFor, Follows, LockFollows, AppendsWords};
ghost use Rattle.replay_real.specs.Standing.{Grows};
ghost use Rattle.replay_real.specs.Acts.{Acts, GrantsAndTells, ReducesAndTells, SetsAndTells};
ghost use Rattle.replay_real.specs.Acts.{TriesAndTells, ReturnsAndTells, HandsIn, Releases};
ghost use Rattle.replay_real.specs.Acts.{RemovesAndTells, BacksAndTells, try_answer, back_answer};

use crate::heaps::Heaps;
use crate::owners::Owners;
use discard_book::Entry;
use lru_reduce::Reduced;
use machine::Answer;
use manager_state::{Back, Level, State, Tried};
use replay_plain::{
    ReplayCfg, push_answer, push_back_answer, push_granted, push_hex, push_reduced, push_removed,
};
use script_text::Command;
use std::alloc::Global;
use units::NoMemory;

/// A run of a script on real segments: one manager's state, the owners of the plain segments, and the
/// clients with their pieces.
/// It waits for nobody.
#[derive(Drop)]
pub struct RealRun {
    pub(crate) state: State,
    pub(crate) owners: Owners,
    pub(crate) heaps: Heaps,
}

impl RealRun {
    /// A run before its first command.
    pub fn new(alloc: Global, cfg: &ReplayCfg) -> Result<RealRun, NoMemory>
        ensures first { IfOk result (λ run. RealStandsFor run (first_state cfg.now)) }
        ensures stock { IfOk result (λ run. run.state.stock ≡ no_blocks cfg.now.keep) }
    {
        Ok(RealRun {
            state: State::new(alloc, cfg.limit, cfg.keep)?,
            owners: Owners::new(alloc)?,
            heaps: Heaps::new(alloc, cfg.standard),
        })
    }

    /// The entries of the book of its manager.
    pub fn entries(&self) -> &[Entry]
        ensures { result.now ≡ self.now.state.entries }
    {
        self.state.book().entries()
    }

    /// The state of its manager.
    pub fn into_state(self) -> State
        ensures { result ≡ self.state }
    {
        self.state
    }

    /// Runs a command, and adds the words of its reply. As long as no command asked a segment what
    /// happened to it, the reply is that of the state that the run stands for, and the run stands
    /// for the state after the command. In any case the reply has no LF, and the book only grows.
    /// After `NoMemory` only the book is told of: the run has come to its end.
    pub fn run(
        &mut self,
        alloc: Global,
        command: &Command,
        reply: &mut Vec<u8>,
    ) -> Result<(), NoMemory>
        requires { IsInRange command.now }
        ensures follows { OnOk result ((state : ReplayState) → RealStandsFor self.old state
            → is_finding state command.now ≡ false
            → Follows self.new reply.old.items reply.new.items
            (reply_of state command.now) (state_after state command.now)) }
        ensures locks { OnOk result ((state : ReplayState) → RealStandsFor self.old state
            → LockFollows command.now self.new reply.old.items reply.new.items state) }
        ensures acts { OnOk result (Acts command.now
            self.old self.new reply.old.items reply.new.items) }
        ensures words { OnOk result (AppendsWords reply.old.items reply.new.items) }
        ensures book { Grows self.old.state.entries self.new.state.entries }
    {
        match command {
            Command::Grant { client, pages, at } => {
                self.grant(alloc, *client as u32, *pages as u32, *at, reply)
            }
            Command::Lock { id, first, count } => {
                self.lock(*id, *first as u32, *count as u32, reply)
            }
            Command::Unlock {
                id,
                first,
                count,
                at,
            } => self.unlock(*id, *first as u32, *count as u32, *at, reply),
            Command::Write { id, place, bytes } => {
                self.write(*id, *place, bytes.as_slice(), reply)
            }
            Command::Read { id, place, count } => self.read(*id, *place, *count, reply),
            Command::Try { id, at } => self.try_purge(*id, *at, reply),
            Command::Back { id } => self.back_numbered(*id, reply),
            Command::Reduce { limit, at } => self.reduce(alloc, *limit, *at, reply),
            Command::Enforce { at } => self.enforce(alloc, *at, reply),
            Command::Pressure { critical, at } => self.pressure(alloc, *critical, *at, reply),
            Command::Limit { limit, at } => self.limit(alloc, *limit, *at, reply),
            Command::Remove { client } => self.remove(*client as u32, reply),
            Command::Alloc { client, size, at } => {
                self.allocate(alloc, *client, *size, *at, reply)
            }
            Command::PieceLock { piece } => self.lock_piece(*piece, reply),
            Command::PieceUnlock { piece, at } => self.unlock_piece(*piece, *at, reply),
            Command::PieceWrite {
                piece,
                place,
                bytes,
            } => self.write_piece(*piece, *place, bytes.as_slice(), reply),
            Command::PieceRead {
                piece,
                place,
                count,
            } => self.read_piece(*piece, *place, *count, reply),
            Command::PieceFree { piece, at } => self.free_piece(*piece, *at, reply),
            Command::Sweep { client } => self.swept(*client, reply),
            Command::Release { client } => self.released(*client, reply),
            Command::Runs { client } => self.runs(alloc, *client, reply),
            Command::Granted => self.tell_granted(reply),
        }
    }

    /// Adds the reply to a grant of a segment of these pages to a client at a moment.
    fn grant(
        &mut self,
        alloc: Global,
        client: u32,
        pages: u32,
        now: u64,
        reply: &mut Vec<u8>,
    ) -> Result<(), NoMemory>
        requires client { 1 ≤ client }
        requires pages { (1 ≤ pages) × (pages ≤ MOST_PAGES) }
        requires moment { IsMoment now }
        ensures follows { OnOk result ((state : ReplayState) → RealStandsFor self.old state
            → nat_lt (room state.limit pages) (granted state.events) ≡ false
            → Follows self.new reply.old.items reply.new.items
            (grant_text state client pages) (after_grant state client pages)) }
        ensures grants { OnOk result (GrantsAndTells client pages now
            self.old.state self.new.state reply.old.items reply.new.items) }
        ensures words { OnOk result (AppendsWords reply.old.items reply.new.items) }
        ensures book { Grows self.old.state.entries self.new.state.entries }
    {
        let side = self.state.grant(alloc, client, pages, now)?;
        let id = side.id();
        self.owners.add(alloc, client, side)?;
        push_answer(reply, Answer::Granted { id })
    }

    /// Adds the reply to a lock of a range of pages.
    fn lock(&mut self, id: u64, first: u32, count: u32, reply: &mut Vec<u8>) -> Result<(), NoMemory>
        ensures follows { OnOk result ((state : ReplayState) → RealStandsFor self.old state
            → LockFollows (command.Lock id first count)
            self.new reply.old.items reply.new.items state) }
        ensures words { OnOk result (AppendsWords reply.old.items reply.new.items) }
        ensures state { self.new.state ≡ self.old.state }
    {
        push_answer(reply, self.owners.lock(id, first, count))
    }

    /// Adds the reply to an unlock of a range of pages at a moment.
    fn unlock(
        &mut self,
        id: u64,
        first: u32,
        count: u32,
        now: u64,
        reply: &mut Vec<u8>,
    ) -> Result<(), NoMemory>
        requires { IsMoment now }
        ensures follows { OnOk result ((state : ReplayState) → RealStandsFor self.old state
            → Follows self.new reply.old.items reply.new.items
            (answered_text state (event.Unlock id first count now))
            (after_event state (event.Unlock id first count now))) }
        ensures words { OnOk result (AppendsWords reply.old.items reply.new.items) }
        ensures state { self.new.state ≡ self.old.state }
    {
        push_answer(reply, self.owners.unlock(id, first, count, now))
    }

    /// Adds the reply to a write of bytes at a place.
    fn write(
        &mut self,
        id: u64,
        place: u64,
        bytes: &[u8],
        reply: &mut Vec<u8>,
    ) -> Result<(), NoMemory>
        requires some { 0 < length bytes.now }
        requires near { place + length bytes.now ≤ 2 ^ 32 }
        ensures follows { OnOk result ((state : ReplayState) → RealStandsFor self.old state
            → Follows self.new reply.old.items reply.new.items
            (answered_text state (event.Write id place bytes.now))
            (after_event state (event.Write id place bytes.now))) }
        ensures words { OnOk result (AppendsWords reply.old.items reply.new.items) }
        ensures state { self.new.state ≡ self.old.state }
    {
        push_answer(reply, self.owners.write(id, place, bytes))
    }

    /// Adds the reply to a read of bytes at a place.
    fn read(&self, id: u64, place: u64, count: u64, reply: &mut Vec<u8>) -> Result<(), NoMemory>
        requires some { 0 < count }
        requires near { place + count ≤ 2 ^ 32 }
        ensures follows { OnOk result ((state : ReplayState) → RealStandsFor self.now state
            → reply.new.items ≡ reply.old.items ++ read_text state id place count) }
        ensures words { OnOk result (AppendsWords reply.old.items reply.new.items) }
    {
        match self.owners.read(id, place, count) {
            Some(bytes) => push_hex(reply, bytes),
            None => push_answer(reply, Answer::Misuse),
        }
    }

    /// Adds the reply to a purge try at a moment.
    fn try_purge(&mut self, id: u64, now: u64, reply: &mut Vec<u8>) -> Result<(), NoMemory>
        requires { IsMoment now }
        ensures tells { OnOk result (TriesAndTells id now
            self.old.state self.new.state reply.old.items reply.new.items) }
        ensures words { OnOk result (AppendsWords reply.old.items reply.new.items) }
        ensures book { Grows self.old.state.entries self.new.state.entries }
    {
        let told = self.state.try_one(id, now);
        push_answer(reply, answer_to_try(told))
    }

    /// Adds the reply to a return. On a segment of a client's heap it is misuse.
    fn back_numbered(&mut self, id: u64, reply: &mut Vec<u8>) -> Result<(), NoMemory>
        ensures tells { OnOk result (BacksAndTells id self.old self.new
            reply.old.items reply.new.items) }
        ensures words { OnOk result (AppendsWords reply.old.items reply.new.items) }
        ensures book { Grows self.old.state.entries self.new.state.entries }
    {
        if self.heaps.owns(id) {
            return push_answer(reply, Answer::Misuse);
        }
        self.back(id, reply)
    }

    /// Adds the reply to a return. The segment is given up first, where it is plain.
    fn back(&mut self, id: u64, reply: &mut Vec<u8>) -> Result<(), NoMemory>
        ensures tells { OnOk result (ReturnsAndTells id self.old.owners self.new.owners
            self.old.state self.new.state reply.old.items reply.new.items) }
        ensures words { OnOk result (AppendsWords reply.old.items reply.new.items) }
        ensures book { Grows self.old.state.entries self.new.state.entries }
    {
        let client = self.owners.client(id);
        let block = self.owners.give_up(id);
        let told = self.state.back(client, id, block);
        push_back_answer(reply, answer_to_back(told))
    }

    /// Adds the reply to a reduction to a limit at a moment.
    fn reduce(
        &mut self,
        alloc: Global,
        limit: u64,
        now: u64,
        reply: &mut Vec<u8>,
    ) -> Result<(), NoMemory>
        requires { IsMoment now }
        ensures tells { OnOk result (ReducesAndTells limit now
            self.old.state self.new.state reply.old.items reply.new.items) }
        ensures words { OnOk result (AppendsWords reply.old.items reply.new.items) }
        ensures book { Grows self.old.state.entries self.new.state.entries }
    {
        let before = self.entries().len();
        let told = self.state.reduce_to(alloc, limit, now)?;
        self.tell(before, told, reply)
    }

    /// Adds the reply to a reduction to the manager's limit at a moment.
    fn enforce(&mut self, alloc: Global, now: u64, reply: &mut Vec<u8>) -> Result<(), NoMemory>
        requires { IsMoment now }
        ensures tells { OnOk result (ReducesAndTells self.old.state.limit now
            self.old.state self.new.state reply.old.items reply.new.items) }
        ensures words { OnOk result (AppendsWords reply.old.items reply.new.items) }
        ensures book { Grows self.old.state.entries self.new.state.entries }
    {
        let before = self.entries().len();
        let told = self.state.enforce(alloc, now)?;
        self.tell(before, told, reply)
    }

    /// Adds the reply to want of memory at a moment.
    fn pressure(
        &mut self,
        alloc: Global,
        critical: bool,
        now: u64,
        reply: &mut Vec<u8>,
    ) -> Result<(), NoMemory>
        requires { IsMoment now }
        ensures tells { OnOk result (ReducesAndTells (pressed critical self.old.state.limit) now
            self.old.state self.new.state reply.old.items reply.new.items) }
        ensures words { OnOk result (AppendsWords reply.old.items reply.new.items) }
        ensures book { Grows self.old.state.entries self.new.state.entries }
    {
        let before = self.entries().len();
        let told = self.state.pressure(alloc, level(critical), now)?;
        self.tell(before, told, reply)
    }

    /// Adds the reply to a new limit, to which it reduces at a moment.
    fn limit(
        &mut self,
        alloc: Global,
        limit: u64,
        now: u64,
        reply: &mut Vec<u8>,
    ) -> Result<(), NoMemory>
        requires { IsMoment now }
        ensures tells { OnOk result (SetsAndTells limit now
            self.old.state self.new.state reply.old.items reply.new.items) }
        ensures words { OnOk result (AppendsWords reply.old.items reply.new.items) }
        ensures book { Grows self.old.state.entries self.new.state.entries }
    {
        let before = self.entries().len();
        let told = self.state.set_limit(alloc, limit, now)?;
        self.tell(before, told, reply)
    }

    /// Adds the reply to the removal of a client.
    fn remove(&mut self, client: u32, reply: &mut Vec<u8>) -> Result<(), NoMemory>
        ensures tells { OnOk result (RemovesAndTells client
            self.old self.new reply.old.items reply.new.items) }
        ensures words { OnOk result (AppendsWords reply.old.items reply.new.items) }
        ensures book { Grows self.old.state.entries self.new.state.entries }
    {
        let removed = self.state.remove_client(client);
        self.release(client);
        self.heaps.empty(u64::from(client), &mut self.state);
        push_removed(reply, removed)
    }

    /// Gives up each plain segment of a client, and hands it in.
    fn release(&mut self, client: u32)
        ensures released { Releases client self.old.owners self.new.owners }
        ensures book { Grows self.old.state.entries self.new.state.entries }
    {
        for id in 0..self.owners.places() {
            self.hand_in(client, id);
        }
    }

    /// Gives up the segment of a number and hands it in, where it is plain and with this client.
    fn hand_in(&mut self, client: u32, id: u64)
        ensures hands { (given_at self.old.owners id).client ≡ client
            → is_some (given_at self.old.owners id).owner ≡ true
            → HandsIn client id self.old self.new }
        ensures ended { (given_at self.old.owners id).client ≡ client
            → (given_at self.new.owners id).owner ≡ None }
        ensures same { (given_at self.old.owners id).client ≢ client
            → given_at self.new.owners id ≡ given_at self.old.owners id }
        ensures others { (n : ℕ) → n ≢ id
            → given_at self.new.owners n ≡ given_at self.old.owners n }
        ensures client { (given_at self.new.owners id).client
            ≡ (given_at self.old.owners id).client }
        ensures places { length self.new.owners ≡ length self.old.owners }
        ensures book { Grows self.old.state.entries self.new.state.entries }
    {
        if !self.owners.is_plain_of(client, id) {
            return;
        }
        let block = self.owners.give_up(id);
        self.state.back(client, id, block);
    }

    /// Adds the number of granted pages.
    fn tell_granted(&self, reply: &mut Vec<u8>) -> Result<(), NoMemory>
        ensures follows { OnOk result ((state : ReplayState) → RealStandsFor self.now state
            → reply.new.items ≡ reply.old.items ++ granted_text state) }
        ensures tells { OnOk result (reply.new.items
            ≡ reply.old.items ++ granted_words (granted_pages self.now.state.entries)) }
        ensures words { OnOk result (AppendsWords reply.old.items reply.new.items) }
    {
        push_granted(reply, self.state.granted())
    }

    /// Adds the words of a reduction, before which the book had so many entries.
    fn tell(&self, before: usize, told: Reduced, reply: &mut Vec<u8>) -> Result<(), NoMemory>
        requires { before ≤ length self.now.state.entries }
        ensures told { OnOk result (reply.new.items ≡ reply.old.items
            ++ reduced_words told.after told.least (drop before self.now.state.entries)) }
        ensures words { OnOk result (AppendsWords reply.old.items reply.new.items) }
    {
        push_reduced(reply, told.after, told.least, &self.entries()[before..])
    }
}

/// What a try answered, as an answer of the machine.
fn answer_to_try(told: Tried) -> Answer
    ensures { result ≡ try_answer told }
{
    match told {
        Tried::Taken => Answer::Taken,
        Tried::Used { known } => Answer::Used { known },
        Tried::NotLive => Answer::Misuse,
    }
}

/// What a return answered, as an answer of the machine.
fn answer_to_back(told: Back) -> Answer
    ensures { result ≡ back_answer told }
{
    match told {
        Back::Counted => Answer::Counted,
        Back::Purged => Answer::Purged,
        Back::Unknown => Answer::Misuse,
    }
}

/// The level of a want of memory.
fn level(critical: bool) -> Level
    ensures { (limit : ℕ) → limit_under result limit ≡ pressed critical limit }
{
    if critical {
        Level::Critical
    } else {
        Level::Moderate
    }
}
