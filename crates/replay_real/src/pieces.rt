//! The commands on the pieces of a run's clients.
ghost use Rattle.std.specs.Prelude.{◌≡◌, ◌≤◌, ◌<◌, ◌+◌, ◌^◌, ◌++◌, length, OnOk, IfOk};
ghost use Rattle.units.specs.declared.TheConstants.{MOST_PAGES};
ghost use Rattle.units.specs.Moment.{IsMoment};
ghost use Rattle.line_text.specs.declared.limits.TheConstants.{MOST_SEGMENT_PAGES};
ghost use Rattle.script_text.specs.declared.command.Command.TheVariants as command;
ghost use Rattle.script_text.specs.Ranges.{IsClient, IsPieceSize};
ghost use Rattle.replay_plain.specs.State.{ReplayState};
ghost use Rattle.replay_plain.specs.Commands.{state_after};
ghost use Rattle.replay_plain.specs.Replies.{reply_of, runs_words};
ghost use Rattle.replay_real.specs.Standing.{RealStandsFor, Follows, AppendsWords, Grows};
ghost use Rattle.replay_real.specs.PieceCalls.{LocksSlot, UnlocksSlot, WritesSlot, piece_bytes, free_runs};
ghost use Rattle.units.specs.Sizes.{pages_for};
ghost use Rattle.replay_real.specs.Acts.{AllocatesAndTells, BeginsPiece, GrantsPiece, AnswersPiece, FreesAndTells, SweepsAndTells, ReleasesAndTells, shown_words};

use crate::run::RealRun;
use machine::Answer;
use replay_plain::{
    pages_for, push_answer, push_freed, push_hex, push_piece, push_released, push_runs, push_swept,
};
use span_heap::{Run, Runs};
use std::alloc::Global;
use units::NoMemory;

impl RealRun {
    /// Adds the reply to an allocation of so many bytes for a client at a moment.
    pub(crate) fn allocate(
        &mut self,
        alloc: Global,
        client: u64,
        size: u64,
        now: u64,
        reply: &mut Vec<u8>,
    ) -> Result<(), NoMemory>
        requires client { IsClient client }
        requires size { IsPieceSize size }
        requires moment { IsMoment now }
        ensures tells { OnOk result (AllocatesAndTells client (pages_for size) now
            self.old self.new reply.old.items reply.new.items) }
        ensures words { OnOk result (AppendsWords reply.old.items reply.new.items) }
        ensures book { Grows self.old.state.entries self.new.state.entries }
    {
        let pages = pages_for(size);
        match self.heaps.find(client, pages)? {
            Some(run) => push_piece(reply, self.heaps.last_piece(), true, run),
            None => {
                let run = self.begin_segment(alloc, client, pages, now)?;
                push_piece(reply, self.heaps.last_piece(), false, run)
            }
        }
    }

    /// A new segment for a client, whose first pages are the next piece. Before that the segments that
    /// were purged leave, and the manager is told.
    fn begin_segment(
        &mut self,
        alloc: Global,
        client: u64,
        pages: u32,
        now: u64,
    ) -> Result<Run, NoMemory>
        requires client { IsClient client }
        requires pages { (1 ≤ pages) × (pages ≤ MOST_SEGMENT_PAGES) }
        requires moment { IsMoment now }
        ensures begins { IfOk result (λ run. BeginsPiece client pages now run self.old self.new) }
        ensures book { Grows self.old.state.entries self.new.state.entries }
    {
        self.heaps.sweep(client);
        self.heaps.tell(client, &mut self.state);
        self.adopt(alloc, client, pages, now)
    }

    /// Grants a client a segment, whose first pages are the next piece.
    fn adopt(&mut self, alloc: Global, client: u64, pages: u32, now: u64) -> Result<Run, NoMemory>
        requires client { IsClient client }
        requires pages { (1 ≤ pages) × (pages ≤ MOST_SEGMENT_PAGES) }
        requires moment { IsMoment now }
        ensures grants { IfOk result (λ run. GrantsPiece client pages now self.old.heaps.standard
            run self.old.state self.new.state) }
        ensures book { Grows self.old.state.entries self.new.state.entries }
    {
        let whole = pages.max(self.heaps.standard());
        let side = self.state.grant(alloc, client as u32, whole, now)?;
        self.owners.add_nobody()?;
        self.heaps.adopt(alloc, client, side, pages, now)
    }

    /// Adds the reply to a lock of a piece.
    pub(crate) fn lock_piece(&mut self, piece: u64, reply: &mut Vec<u8>) -> Result<(), NoMemory>
        ensures tells { OnOk result (AnswersPiece piece LocksSlot
            self.old self.new reply.old.items reply.new.items) }
        ensures words { OnOk result (AppendsWords reply.old.items reply.new.items) }
        ensures state { self.new.state ≡ self.old.state }
    {
        push_answer(reply, self.heaps.lock(piece))
    }

    /// Adds the reply to an unlock of a piece at a moment.
    pub(crate) fn unlock_piece(
        &mut self,
        piece: u64,
        now: u64,
        reply: &mut Vec<u8>,
    ) -> Result<(), NoMemory>
        requires { IsMoment now }
        ensures follows { OnOk result ((state : ReplayState) → RealStandsFor self.old state
            → Follows self.new reply.old.items reply.new.items
            (reply_of state (command.PieceUnlock piece now))
            (state_after state (command.PieceUnlock piece now))) }
        ensures tells { OnOk result (AnswersPiece piece (UnlocksSlot now)
            self.old self.new reply.old.items reply.new.items) }
        ensures words { OnOk result (AppendsWords reply.old.items reply.new.items) }
        ensures state { self.new.state ≡ self.old.state }
    {
        push_answer(reply, self.heaps.unlock(piece, now))
    }

    /// Adds the reply to a write of bytes to a piece.
    pub(crate) fn write_piece(
        &mut self,
        piece: u64,
        place: u64,
        bytes: &[u8],
        reply: &mut Vec<u8>,
    ) -> Result<(), NoMemory>
        requires { place + length bytes.now ≤ 2 ^ 32 }
        ensures follows { OnOk result ((state : ReplayState) → RealStandsFor self.old state
            → Follows self.new reply.old.items reply.new.items
            (reply_of state (command.PieceWrite piece place bytes.now))
            (state_after state (command.PieceWrite piece place bytes.now))) }
        ensures tells { OnOk result (AnswersPiece piece (WritesSlot place bytes.now)
            self.old self.new reply.old.items reply.new.items) }
        ensures words { OnOk result (AppendsWords reply.old.items reply.new.items) }
        ensures state { self.new.state ≡ self.old.state }
    {
        push_answer(reply, self.heaps.write(piece, place, bytes))
    }

    /// Adds the reply to a read of bytes of a piece.
    pub(crate) fn read_piece(
        &self,
        piece: u64,
        place: u64,
        count: u64,
        reply: &mut Vec<u8>,
    ) -> Result<(), NoMemory>
        requires { place + count ≤ 2 ^ 32 }
        ensures follows { OnOk result ((state : ReplayState) → RealStandsFor self.now state
            → reply.new.items
            ≡ reply.old.items ++ reply_of state (command.PieceRead piece place count)) }
        ensures tells { OnOk result (reply.new.items ≡ reply.old.items
            ++ shown_words (piece_bytes self.now.heaps piece place count)) }
        ensures words { OnOk result (AppendsWords reply.old.items reply.new.items) }
    {
        match self.heaps.read(piece, place, count) {
            Some(bytes) => push_hex(reply, bytes),
            None => push_answer(reply, Answer::Misuse),
        }
    }

    /// Adds the reply to a free of a piece at a moment.
    pub(crate) fn free_piece(
        &mut self,
        piece: u64,
        now: u64,
        reply: &mut Vec<u8>,
    ) -> Result<(), NoMemory>
        requires { IsMoment now }
        ensures follows { OnOk result ((state : ReplayState) → RealStandsFor self.old state
            → Follows self.new reply.old.items reply.new.items
            (reply_of state (command.PieceFree piece now))
            (state_after state (command.PieceFree piece now))) }
        ensures tells { OnOk result (FreesAndTells piece now
            self.old self.new reply.old.items reply.new.items) }
        ensures words { OnOk result (AppendsWords reply.old.items reply.new.items) }
        ensures state { self.new.state ≡ self.old.state }
    {
        match self.heaps.free(piece, now) {
            Some(there) => push_freed(reply, there),
            None => push_answer(reply, Answer::Misuse),
        }
    }

    /// Adds the reply to a sweep of a client.
    pub(crate) fn swept(&mut self, client: u64, reply: &mut Vec<u8>) -> Result<(), NoMemory>
        ensures tells { OnOk result (SweepsAndTells client
            self.old self.new reply.old.items reply.new.items) }
        ensures words { OnOk result (AppendsWords reply.old.items reply.new.items) }
        ensures state { self.new.state ≡ self.old.state }
    {
        push_swept(reply, self.heaps.sweep(client))
    }

    /// Adds the reply to the release of a client: its segments that are all free are given back.
    pub(crate) fn released(&mut self, client: u64, reply: &mut Vec<u8>) -> Result<(), NoMemory>
        ensures tells { OnOk result (ReleasesAndTells client
            self.old self.new reply.old.items reply.new.items) }
        ensures words { OnOk result (AppendsWords reply.old.items reply.new.items) }
        ensures book { Grows self.old.state.entries self.new.state.entries }
    {
        let before = self.entries().len();
        self.heaps.release(client, &mut self.state);
        push_released(reply, (self.entries().len() - before) as u64)
    }

    /// Adds the free runs of a client.
    pub(crate) fn runs(
        &self,
        alloc: Global,
        client: u64,
        reply: &mut Vec<u8>,
    ) -> Result<(), NoMemory>
        ensures follows { OnOk result ((state : ReplayState) → RealStandsFor self.now state
            → reply.new.items ≡ reply.old.items ++ reply_of state (command.Runs client)) }
        ensures tells { OnOk result (reply.new.items
            ≡ reply.old.items ++ runs_words (free_runs self.now.heaps client)) }
        ensures words { OnOk result (AppendsWords reply.old.items reply.new.items) }
    {
        let runs = self.heaps.runs(alloc, client)?;
        told_runs(reply, &runs)
    }
}

/// Adds these free runs.
fn told_runs(reply: &mut Vec<u8>, runs: &Runs) -> Result<(), NoMemory>
    ensures told { OnOk result (reply.new.items ≡ reply.old.items ++ runs_words runs.now) }
    ensures words { OnOk result (AppendsWords reply.old.items reply.new.items) }
{
    push_runs(reply, runs)
}
