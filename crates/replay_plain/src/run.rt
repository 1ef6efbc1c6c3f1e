ghost use Rattle.std.specs.Prelude.{◌≡◌, ◌≤◌, ◌++◌, vec_len, OnOk, IfOk};
ghost use Rattle.script_text.specs.Ranges.{IsByteCount, IsClient, IsInRange};
ghost use Rattle.replay_plain.specs.State.{ReplayState, first_state};
ghost use Rattle.replay_plain.specs.Reductions.{after_reduction};
ghost use Rattle.replay_plain.specs.Commands.{after_removal, state_after};
ghost use Rattle.replay_plain.specs.Replies.{read_text, reduced_text, removed_text, reply_of};
ghost use Rattle.replay_plain.specs.Run.{RunStandsFor};

use crate::config::ReplayCfg;
use crate::known::KnownSegments;
use crate::reply::{push_answer, push_granted, push_hex, push_reduced, push_removed};
use discard_book::Entry;
use machine::{Answer, Event, PlainSegments};
use script_heaps::ScriptHeaps;
use script_text::Command;
use std::alloc::Global;
use units::NoMemory;

/// A run of commands on plain segments and the heaps of the clients, with the entries of its book. It stands for the state of a
/// replay. After `NoMemory` it stands for none.
#[derive(Drop)]
pub struct PlainRun {
    pub(crate) segments: PlainSegments,
    /// What a reduction has to know of each granted segment.
    pub(crate) known: KnownSegments,
    /// The entries of the book, the oldest first.
    pub(crate) entries: Vec<Entry>,
    /// The limit of granted pages now.
    pub(crate) limit: u64,
    /// The standard size of a segment in pages.
    pub(crate) standard: u32,
    pub(crate) heaps: ScriptHeaps,
    /// Room for the bytes of a read, kept from one read to the next.
    room: Vec<u8>,
}

impl PlainRun {
    /// A run before its first command.
    pub fn new(alloc: Global, cfg: &ReplayCfg) -> Result<PlainRun, NoMemory>
        ensures { IfOk result (λ run. RunStandsFor run (first_state cfg.now)) }
    {
        Ok(PlainRun {
            segments: PlainSegments::new(alloc)?,
            known: KnownSegments::new(alloc)?,
            entries: Vec::new(alloc),
            limit: cfg.limit,
            standard: cfg.standard,
            heaps: ScriptHeaps::new(alloc)?,
            room: Vec::new(alloc),
        })
    }

    /// The entries of its book, the oldest first.
    pub fn entries(&self) -> &[Entry]
        ensures items { result.now ≡ self.now.entries.items }
        ensures state { (state : ReplayState) → RunStandsFor self.now state
            → result.now ≡ state.entries }
    {
        self.entries.as_slice()
    }

    /// Runs a command, and adds the words of its reply to a text, without the end of the line.
    pub fn run(
        &mut self,
        alloc: Global,
        command: &Command,
        reply: &mut Vec<u8>,
    ) -> Result<(), NoMemory>
        requires range { IsInRange command.now }
        ensures reply { OnOk result ((state : ReplayState) → RunStandsFor self.old state
            → reply.new.items ≡ reply.old.items ++ reply_of state command.now) }
        ensures state { OnOk result ((state : ReplayState) → RunStandsFor self.old state
            → RunStandsFor self.new (state_after state command.now)) }
        ensures more { OnOk result (vec_len self.old.entries ≤ vec_len self.new.entries) }
    {
        match command {
            Command::Grant { client, pages, at } => {
                let (client, pages) = (*client as u32, *pages as u32);
                self.make_room(alloc, pages, *at)?;
                push_answer(reply, self.draw(alloc, client, pages)?)
            }
            Command::Lock { id, first, count } => {
                let (id, first, count) = (*id, *first as u32, *count as u32);
                push_answer(
                    reply,
                    self.numbered(alloc, id, &Event::Lock { id, first, count })?,
                )
            }
            Command::Unlock {
                id,
                first,
                count,
                at,
            } => {
                let (id, first, count, at) = (*id, *first as u32, *count as u32, *at);
                push_answer(
                    reply,
                    self.numbered(
                        alloc,
                        id,
                        &Event::Unlock {
                            id,
                            first,
                            count,
                            at,
                        },
                    )?,
                )
            }
            Command::Write { id, place, bytes } => {
                push_answer(reply, self.write_numbered(alloc, *id, *place, bytes)?)
            }
            Command::Read { id, place, count } => { self.read_numbered(*id, *place, *count, reply) }
            Command::Try { id, at } => push_answer(reply, self.try_purge(alloc, *id, *at)?),
            Command::Back { id } => self.back_numbered(alloc, *id, reply),
            Command::Reduce { limit, at } => self.reduced(alloc, *limit, *at, reply),
            Command::Enforce { at } => self.reduced(alloc, self.limit, *at, reply),
            Command::Pressure { critical, at } => {
                let limit = if *critical { 0 } else { self.limit / 2 };
                self.reduced(alloc, limit, *at, reply)
            }
            Command::Limit { limit, at } => self.limited(alloc, *limit, *at, reply),
            Command::Remove { client } => self.remove(alloc, *client, reply),
            Command::Alloc { client, size, at } => {
                self.allocate(alloc, *client, *size, *at, reply)
            }
            Command::PieceLock { piece } => self.lock_piece(alloc, *piece, reply),
            Command::PieceUnlock { piece, at } => self.unlock_piece(alloc, *piece, *at, reply),
            Command::PieceWrite {
                piece,
                place,
                bytes,
            } => self.write_piece(alloc, *piece, *place, bytes, reply),
            Command::PieceRead {
                piece,
                place,
                count,
            } => self.read_piece(*piece, *place, *count, reply),
            Command::PieceFree { piece, at } => self.free_piece(alloc, *piece, *at, reply),
            Command::Sweep { client } => self.swept(alloc, *client, reply),
            Command::Release { client } => self.release(alloc, *client, reply),
            Command::Runs { client } => self.runs(alloc, *client, reply),
            Command::Granted => push_granted(reply, self.known.pages()),
        }
    }

    /// The reply to a read, which changes nothing but the room.
    pub(crate) fn read(
        &mut self,
        id: u64,
        place: u64,
        count: u64,
        reply: &mut Vec<u8>,
    ) -> Result<(), NoMemory>
        requires { IsByteCount count }
        ensures reply { OnOk result ((state : ReplayState) → RunStandsFor self.old state
            → reply.new.items ≡ reply.old.items ++ read_text state id place count) }
        ensures others { self.new ≡ record self.old { room = self.new.room } }
    {
        self.room.resize(count as usize, 0)?;
        if self.segments.read(id, place, count as u32, &mut self.room) {
            push_hex(reply, &self.room)
        } else {
            push_answer(reply, Answer::Misuse)
        }
    }

    /// The reply to a reduction to a limit at a moment, which is made.
    fn reduced(
        &mut self,
        alloc: Global,
        limit: u64,
        now: u64,
        reply: &mut Vec<u8>,
    ) -> Result<(), NoMemory>
        ensures reply { OnOk result ((state : ReplayState) → RunStandsFor self.old state
            → reply.new.items
            ≡ reply.old.items ++ reduced_text state (after_reduction state limit now)) }
        ensures state { OnOk result ((state : ReplayState) → RunStandsFor self.old state
            → RunStandsFor self.new (after_reduction state limit now)) }
        ensures more { OnOk result (vec_len self.old.entries ≤ vec_len self.new.entries) }
    {
        let before = self.entries.len();
        let least = self.reduce(alloc, limit, now)?;
        push_reduced(reply, self.known.pages(), least, &self.entries[before..])
    }

    /// The reply to a new limit, to which a reduction is made.
    fn limited(
        &mut self,
        alloc: Global,
        limit: u64,
        now: u64,
        reply: &mut Vec<u8>,
    ) -> Result<(), NoMemory>
        ensures reply { OnOk result ((state : ReplayState) → RunStandsFor self.old state
            → reply.new.items ≡ reply.old.items
            ++ reduced_text state (after_reduction (record state { limit = limit }) limit now)) }
        ensures state { OnOk result ((state : ReplayState) → RunStandsFor self.old state
            → RunStandsFor self.new (after_reduction (record state { limit = limit }) limit now)) }
        ensures more { OnOk result (vec_len self.old.entries ≤ vec_len self.new.entries) }
    {
        self.set_limit(limit);
        self.reduced(alloc, limit, now, reply)?;
        Ok(())
    }

    /// The limit from now on.
    fn set_limit(&mut self, limit: u64)
        ensures state { (state : ReplayState) → RunStandsFor self.old state
            → RunStandsFor self.new (record state { limit = limit }) }
        ensures entries { self.new.entries ≡ self.old.entries }
    {
        self.limit = limit;
    }

    /// The reply to the removal of a client, whose segments are given back.
    fn remove(&mut self, alloc: Global, client: u64, reply: &mut Vec<u8>) -> Result<(), NoMemory>
        requires { IsClient client }
        ensures reply { OnOk result ((state : ReplayState) → RunStandsFor self.old state
            → reply.new.items ≡ reply.old.items
            ++ removed_text state (after_removal state client)) }
        ensures state { OnOk result ((state : ReplayState) → RunStandsFor self.old state
            → RunStandsFor self.new (after_removal state client)) }
        ensures more { OnOk result (vec_len self.old.entries ≤ vec_len self.new.entries) }
    {
        let before = self.entries.len();
        self.give_back_all(alloc, client as u32)?;
        self.heaps.empty(alloc, client)?;
        push_removed(reply, (self.entries.len() - before) as u64)
    }
}
