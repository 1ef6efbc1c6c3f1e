//! The pieces of a run's clients: what they are allocated, lock, unlock, write, read and give up.
ghost use Rattle.std.specs.Prelude.{◌≡◌, ◌≤◌, ◌++◌, ℕ, map, length, vec_len, true, Some, OnOk, IfOk};
ghost use Rattle.machine.specs.declared.event.Event.TheVariants as event;
ghost use Rattle.machine.specs.History.{number_of};
ghost use Rattle.machine.specs.Reduction.{is_owners};
ghost use Rattle.machine.specs.Answers.{answer, live};
ghost use Rattle.line_text.specs.declared.limits.TheConstants.{MOST_SEGMENT_PAGES};
ghost use Rattle.script_text.specs.Ranges.{IsClient, IsPieceSize, IsBytePlace, IsByteCount};
ghost use Rattle.span_heap.specs.declared.run.Run.{Run};
ghost use Rattle.span_heap.specs.Runs.{front_of};
ghost use Rattle.script_heaps.specs.Holding.{has, told, purged, all_free};
ghost use Rattle.script_heaps.specs.Heaps.{piece_of};
ghost use Rattle.replay_plain.specs.State.{ReplayState, after_event, after_events};
ghost use Rattle.replay_plain.specs.Pieces.{pages_for, holding_of, with_holding, after_sweep, after_telling, before_adoption, with_free_rest, with_new_piece, next_run, new_pages, after_allocation, on_piece, after_piece_lock, after_piece_unlock, lock_of, unlock_of, after_piece_write, after_piece_free, after_release, after_loss, after_pick, fits_in, place_in};
ghost use Rattle.replay_plain.specs.Commands.{after_numbered};
ghost use Rattle.replay_plain.specs.Replies.{answer_text, numbered_text, numbered_read_text, numbered_back_text, allocation_text, piece_text, piece_lock_text, piece_unlock_text, piece_write_text, piece_read_text, piece_free_text, swept_text, released_text, runs_text};
ghost use Rattle.replay_plain.specs.Run.{RunStandsFor};
ghost use Rattle.replay_plain.specs.Searching.{PicksNext, Finds};

use crate::reply::{
    push_answer, push_back_answer, push_freed, push_piece, push_released, push_runs, push_swept,
};
use crate::run::PlainRun;
use line_text::MOST_SEGMENT_PAGES;
use machine::{Answer, Event};
use span_heap::Run;
use std::alloc::Global;
use units::{Bytes, NoMemory, PAGE};

/// The pages for a piece of 0 to 2,097,152 bytes: whole ones, and at least one.
pub fn pages_for(size: u64) -> u32
    requires { IsPieceSize size }
    ensures value { result ≡ pages_for size }
    ensures range { (1 ≤ result) × (result ≤ MOST_SEGMENT_PAGES) }
{
    units::pages_for(size) as u32
}

impl PlainRun {
    /// The reply to an allocation of so many bytes for a client, at a moment.
    pub(crate) fn allocate(
        &mut self,
        alloc: Global,
        client: u64,
        size: u64,
        at: u64,
        reply: &mut Vec<u8>,
    ) -> Result<(), NoMemory>
        requires client { IsClient client }
        requires size { IsPieceSize size }
        ensures reply { OnOk result ((state : ReplayState) → RunStandsFor self.old state
            → reply.new.items ≡ reply.old.items
            ++ allocation_text state client (pages_for size) at) }
        ensures state { OnOk result ((state : ReplayState) → RunStandsFor self.old state
            → RunStandsFor self.new (after_allocation state client (pages_for size) at)) }
        ensures more { OnOk result (vec_len self.old.entries ≤ vec_len self.new.entries) }
    {
        let pages = pages_for(size);
        match self.find(alloc, client, pages)? {
            Some(run) => push_piece(reply, self.heaps.last_piece(), true, run),
            None => {
                let run = self.begin_segment(alloc, client, pages, at)?;
                push_piece(reply, self.heaps.last_piece(), false, run)
            }
        }
    }

    /// Looks for free pages of a client, and locks them: they are the next piece. A segment that is
    /// found gone leaves, and the search goes on.
    fn find(&mut self, alloc: Global, client: u64, pages: u32) -> Result<Option<Run>, NoMemory>
        requires { 1 ≤ pages }
        ensures finds { IfOk result (λ found. (state : ReplayState) → RunStandsFor self.old state
            → Finds self.new state client pages found) }
        ensures more { OnOk result (vec_len self.old.entries ≤ vec_len self.new.entries) }
    {
        for _ in 0..self.heaps.free_pages(client) {
            let Some(run) = self.pick(client, pages)? else {
                return Ok(None);
            };
            match self.lock(alloc, run)? {
                Answer::Gone => self.lose_last(client)?,
                _ => return Ok(Some(run)),
            }
        }
        Ok(None)
    }

    /// Takes the first pages of the free run of a client that a search picks, as the next piece.
    fn pick(&mut self, client: u64, pages: u32) -> Result<Option<Run>, NoMemory>
        requires { 1 ≤ pages }
        ensures picks { IfOk result (λ found. (state : ReplayState) → RunStandsFor self.old state
            → PicksNext self.new state client pages found) }
        ensures more { OnOk result (vec_len self.old.entries ≤ vec_len self.new.entries) }
    {
        let slack = self.standard.saturating_sub(pages);
        self.heaps.search(client, pages, slack)
    }

    /// The pages that were picked are lost: their segment was purged, and leaves.
    fn lose_last(&mut self, client: u64) -> Result<(), NoMemory>
        ensures state { OnOk result ((state : ReplayState) (run : Run) (n : ℕ)
            → RunStandsFor self.old
            (after_event (after_pick state client run n) (lock_of (front_of run n)))
            → has (holding_of state client) run.segment ≡ true
            → RunStandsFor self.new (after_loss state client run n)) }
        ensures more { OnOk result (vec_len self.old.entries ≤ vec_len self.new.entries) }
    {
        self.heaps.lose_last(client)
    }

    /// A lock of these pages.
    fn lock(&mut self, alloc: Global, run: Run) -> Result<Answer, NoMemory>
        ensures answer { IfOk result (λ a. (state : ReplayState) → RunStandsFor self.old state
            → a ≡ answer state.events (lock_of run)) }
        ensures state { OnOk result ((state : ReplayState) → RunStandsFor self.old state
            → RunStandsFor self.new (after_event state (lock_of run))) }
        ensures more { OnOk result (vec_len self.old.entries ≤ vec_len self.new.entries) }
    {
        self.happen(
            alloc,
            &Event::Lock {
                id: run.segment,
                first: run.first,
                count: run.pages,
            },
        )
    }

    /// An unlock of these pages at a moment.
    fn unlock(&mut self, alloc: Global, run: Run, at: u64) -> Result<Answer, NoMemory>
        ensures answer { IfOk result (λ a. (state : ReplayState) → RunStandsFor self.old state
            → a ≡ answer state.events (unlock_of run at)) }
        ensures state { OnOk result ((state : ReplayState) → RunStandsFor self.old state
            → RunStandsFor self.new (after_event state (unlock_of run at))) }
        ensures more { OnOk result (vec_len self.old.entries ≤ vec_len self.new.entries) }
    {
        self.happen(
            alloc,
            &Event::Unlock {
                id: run.segment,
                first: run.first,
                count: run.pages,
                at,
            },
        )
    }

    /// Grants a client a new segment at a moment: its first pages are the next piece, locked, and the rest
    /// is free. Before that the segments that were purged leave, and the manager is told.
    fn begin_segment(
        &mut self,
        alloc: Global,
        client: u64,
        pages: u32,
        at: u64,
    ) -> Result<Run, NoMemory>
        requires client { IsClient client }
        requires pages { (1 ≤ pages) × (pages ≤ MOST_SEGMENT_PAGES) }
        ensures run { IfOk result (λ run. (state : ReplayState) → RunStandsFor self.old state
            → run ≡ next_run (before_adoption state client pages at) pages) }
        ensures state { OnOk result ((state : ReplayState) → RunStandsFor self.old state
            → RunStandsFor self.new
            (with_new_piece (before_adoption state client pages at) client pages at)) }
        ensures more { OnOk result (vec_len self.old.entries ≤ vec_len self.new.entries) }
    {
        let whole = self.new_pages(pages);
        self.sweep(alloc, client)?;
        self.tell(alloc, client)?;
        self.make_room(alloc, whole, at)?;
        let run = self.adopt(alloc, client, whole, pages, at)?;
        Ok(run)
    }

    /// How many pages a new segment has for so many pages: the standard size, or more where more are
    /// wanted.
    fn new_pages(&self, pages: u32) -> u32
        requires { pages ≤ MOST_SEGMENT_PAGES }
        ensures value { (state : ReplayState) → RunStandsFor self.now state
            → result ≡ new_pages state pages }
        ensures range { (pages ≤ result) × (result ≤ MOST_SEGMENT_PAGES) }
    {
        pages.max(self.standard.min(MOST_SEGMENT_PAGES as u32))
    }

    /// Grants a client a segment of `whole` pages, whose first pages are the next piece.
    fn adopt(
        &mut self,
        alloc: Global,
        client: u64,
        whole: u32,
        pages: u32,
        at: u64,
    ) -> Result<Run, NoMemory>
        requires client { IsClient client }
        requires some { 1 ≤ pages }
        requires whole { (pages ≤ whole) × (whole ≤ MOST_SEGMENT_PAGES) }
        ensures run { IfOk result (λ run. (state : ReplayState) → RunStandsFor self.old state
            → whole ≡ new_pages state pages → run ≡ next_run state pages) }
        ensures state { OnOk result ((state : ReplayState) → RunStandsFor self.old state
            → whole ≡ new_pages state pages
            → RunStandsFor self.new (with_new_piece state client pages at)) }
        ensures more { OnOk result (vec_len self.old.entries ≤ vec_len self.new.entries) }
    {
        let id = self.known.next();
        self.draw(alloc, client as u32, whole)?;
        self.free_rest(alloc, id, pages, whole, at)?;
        self.heaps.adopt(alloc, client, id, whole, pages)?;
        Ok(Run {
            segment: id,
            first: 0,
            pages,
        })
    }

    /// Unlocks the pages of a new segment behind its first ones, where there are any.
    fn free_rest(
        &mut self,
        alloc: Global,
        id: u64,
        first: u32,
        whole: u32,
        at: u64,
    ) -> Result<(), NoMemory>
        ensures state { OnOk result ((state : ReplayState) → RunStandsFor self.old state
            → RunStandsFor self.new (with_free_rest state id first whole at)) }
        ensures more { OnOk result (vec_len self.old.entries ≤ vec_len self.new.entries) }
    {
        if first < whole {
            let count = whole - first;
            self.happen(
                alloc,
                &Event::Unlock {
                    id,
                    first,
                    count,
                    at,
                },
            )?;
        }
        Ok(())
    }

    /// Each segment of a client that was purged leaves. It answers how many.
    fn sweep(&mut self, alloc: Global, client: u64) -> Result<u64, NoMemory>
        ensures count { IfOk result (λ count. (state : ReplayState) → RunStandsFor self.old state
            → count ≡ length (purged (live state.events) (holding_of state client))) }
        ensures state { OnOk result ((state : ReplayState) → RunStandsFor self.old state
            → RunStandsFor self.new (after_sweep state client)) }
        ensures more { OnOk result (vec_len self.old.entries ≤ vec_len self.new.entries) }
    {
        let ids = self.purged(alloc, client)?;
        self.heaps.lose_all(client, &ids)?;
        Ok(ids.len() as u64)
    }

    /// The numbers of a client's segments that are live no more, in the order in which they came.
    fn purged(&self, alloc: Global, client: u64) -> Result<Vec<u64>, NoMemory>
        ensures { IfOk result (λ ids. (state : ReplayState) → RunStandsFor self.now state
            → ids.items ≡ purged (live state.events) (holding_of state client)) }
    {
        let mut ids = Vec::new(alloc);
        for id in self.heaps.segments(client) {
            if !self.known.is_live(*id) {
                ids.push(*id)?;
            }
        }
        Ok(ids)
    }

    /// Tells the manager of each segment of a client that left since it was purged.
    fn tell(&mut self, alloc: Global, client: u64) -> Result<(), NoMemory>
        ensures state { OnOk result ((state : ReplayState) → RunStandsFor self.old state
            → RunStandsFor self.new (after_telling state client)) }
        ensures more { OnOk result (vec_len self.old.entries ≤ vec_len self.new.entries) }
    {
        let ids = self.heaps.take_untold(alloc, client);
        self.give_back_each(alloc, &ids)
    }

    /// Gives back each of these segments, in this order.
    fn give_back_each(&mut self, alloc: Global, ids: &[u64]) -> Result<(), NoMemory>
        ensures state { OnOk result ((state : ReplayState) → RunStandsFor self.old state
            → RunStandsFor self.new (after_events state (map (λ id. event.Back id) ids.now))) }
        ensures more { OnOk result (vec_len self.old.entries ≤ vec_len self.new.entries) }
    {
        for id in ids {
            self.give_back(alloc, *id)?;
        }
        Ok(())
    }

    /// An owner's event on a segment by its number: on one of a client's heap it is misuse.
    pub(crate) fn numbered(
        &mut self,
        alloc: Global,
        id: u64,
        event: &Event,
    ) -> Result<Answer, NoMemory>
        requires owners { is_owners event.now ≡ true }
        requires number { number_of event.now ≡ id }
        ensures answer { IfOk result (λ a. (state : ReplayState) → RunStandsFor self.old state
            → answer_text a ≡ numbered_text state event.now) }
        ensures state { OnOk result ((state : ReplayState) → RunStandsFor self.old state
            → RunStandsFor self.new (after_numbered state event.now)) }
        ensures more { OnOk result (vec_len self.old.entries ≤ vec_len self.new.entries) }
    {
        if self.heaps.owns(id) {
            return Ok(Answer::Misuse);
        }
        self.happen(alloc, event)
    }

    /// A write to a segment by its number: to one of a client's heap it is misuse.
    pub(crate) fn write_numbered(
        &mut self,
        alloc: Global,
        id: u64,
        place: u64,
        bytes: &Bytes,
    ) -> Result<Answer, NoMemory>
        ensures answer { IfOk result (λ a. (state : ReplayState) → RunStandsFor self.old state
            → answer_text a ≡ numbered_text state (event.Write id place bytes.now)) }
        ensures state { OnOk result ((state : ReplayState) → RunStandsFor self.old state
            → RunStandsFor self.new (after_numbered state (event.Write id place bytes.now))) }
        ensures more { OnOk result (vec_len self.old.entries ≤ vec_len self.new.entries) }
    {
        if self.heaps.owns(id) {
            return Ok(Answer::Misuse);
        }
        self.write(alloc, id, place, bytes)
    }

    /// The reply to a read of a segment by its number: of one of a client's heap it is misuse.
    pub(crate) fn read_numbered(
        &mut self,
        id: u64,
        place: u64,
        count: u64,
        reply: &mut Vec<u8>,
    ) -> Result<(), NoMemory>
        requires { IsByteCount count }
        ensures reply { OnOk result ((state : ReplayState) → RunStandsFor self.old state
            → reply.new.items ≡ reply.old.items ++ numbered_read_text state id place count) }
        ensures state { OnOk result ((state : ReplayState) → RunStandsFor self.old state
            → RunStandsFor self.new (state)) }
        ensures more { OnOk result (vec_len self.old.entries ≤ vec_len self.new.entries) }
    {
        if self.heaps.owns(id) {
            return push_answer(reply, Answer::Misuse);
        }
        self.read(id, place, count, reply)
    }

    /// The reply to a return of a segment by its number: of one of a client's heap it is misuse.
    pub(crate) fn back_numbered(
        &mut self,
        alloc: Global,
        id: u64,
        reply: &mut Vec<u8>,
    ) -> Result<(), NoMemory>
        ensures reply { OnOk result ((state : ReplayState) → RunStandsFor self.old state
            → reply.new.items ≡ reply.old.items ++ numbered_back_text state id) }
        ensures state { OnOk result ((state : ReplayState) → RunStandsFor self.old state
            → RunStandsFor self.new (after_numbered state (event.Back id))) }
        ensures more { OnOk result (vec_len self.old.entries ≤ vec_len self.new.entries) }
    {
        if self.heaps.owns(id) {
            return push_answer(reply, Answer::Misuse);
        }
        push_back_answer(reply, self.give_back(alloc, id)?)
    }

    /// The reply to a lock of a piece.
    pub(crate) fn lock_piece(
        &mut self,
        alloc: Global,
        piece: u64,
        reply: &mut Vec<u8>,
    ) -> Result<(), NoMemory>
        ensures reply { OnOk result ((state : ReplayState) → RunStandsFor self.old state
            → reply.new.items ≡ reply.old.items
            ++ piece_text (piece_of state.heaps piece) (piece_lock_text state)) }
        ensures state { OnOk result ((state : ReplayState) → RunStandsFor self.old state
            → RunStandsFor self.new
            (on_piece (piece_of state.heaps piece) state (after_piece_lock state piece))) }
        ensures more { OnOk result (vec_len self.old.entries ≤ vec_len self.new.entries) }
    {
        match self.heaps.piece(piece) {
            Some(run) => self.lock_piece_of(alloc, piece, run, reply),
            None => push_answer(reply, Answer::Misuse),
        }
    }

    /// The same for a piece with these pages: where its segment is live no more, that leaves.
    fn lock_piece_of(
        &mut self,
        alloc: Global,
        piece: u64,
        run: Run,
        reply: &mut Vec<u8>,
    ) -> Result<(), NoMemory>
        ensures reply { OnOk result ((state : ReplayState) → RunStandsFor self.old state
            → reply.new.items ≡ reply.old.items ++ piece_lock_text state run) }
        ensures state { OnOk result ((state : ReplayState) → RunStandsFor self.old state
            → RunStandsFor self.new (after_piece_lock state piece run)) }
        ensures more { OnOk result (vec_len self.old.entries ≤ vec_len self.new.entries) }
    {
        let there = self.known.is_live(run.segment);
        let answer = self.lock(alloc, run)?;
        if there {
            return push_answer(reply, answer);
        }
        let client = self.heaps.client_of(piece);
        self.heaps.lose(client, run.segment)?;
        push_answer(reply, Answer::Gone)
    }

    /// The reply to an unlock of a piece, at a moment.
    pub(crate) fn unlock_piece(
        &mut self,
        alloc: Global,
        piece: u64,
        at: u64,
        reply: &mut Vec<u8>,
    ) -> Result<(), NoMemory>
        ensures reply { OnOk result ((state : ReplayState) → RunStandsFor self.old state
            → reply.new.items ≡ reply.old.items
            ++ piece_text (piece_of state.heaps piece) (piece_unlock_text state at)) }
        ensures state { OnOk result ((state : ReplayState) → RunStandsFor self.old state
            → RunStandsFor self.new
            (on_piece (piece_of state.heaps piece) state (after_piece_unlock state at))) }
        ensures more { OnOk result (vec_len self.old.entries ≤ vec_len self.new.entries) }
    {
        match self.heaps.piece(piece) {
            Some(run) => self.unlock_piece_of(alloc, run, at, reply),
            None => push_answer(reply, Answer::Misuse),
        }
    }

    /// The same for a piece with these pages.
    fn unlock_piece_of(
        &mut self,
        alloc: Global,
        run: Run,
        at: u64,
        reply: &mut Vec<u8>,
    ) -> Result<(), NoMemory>
        ensures reply { OnOk result ((state : ReplayState) → RunStandsFor self.old state
            → reply.new.items ≡ reply.old.items ++ piece_unlock_text state at run) }
        ensures state { OnOk result ((state : ReplayState) → RunStandsFor self.old state
            → RunStandsFor self.new (after_piece_unlock state at run)) }
        ensures more { OnOk result (vec_len self.old.entries ≤ vec_len self.new.entries) }
    {
        push_answer(reply, self.unlock(alloc, run, at)?)
    }

    /// The reply to a write of bytes to a piece.
    pub(crate) fn write_piece(
        &mut self,
        alloc: Global,
        piece: u64,
        place: u64,
        bytes: &Bytes,
        reply: &mut Vec<u8>,
    ) -> Result<(), NoMemory>
        requires place { IsBytePlace place }
        requires bytes { IsByteCount (length bytes.now) }
        ensures reply { OnOk result ((state : ReplayState) → RunStandsFor self.old state
            → reply.new.items ≡ reply.old.items ++ piece_text (piece_of state.heaps piece)
            (piece_write_text state place bytes.now)) }
        ensures state { OnOk result ((state : ReplayState) → RunStandsFor self.old state
            → RunStandsFor self.new (on_piece (piece_of state.heaps piece) state
            (after_piece_write state place bytes.now))) }
        ensures more { OnOk result (vec_len self.old.entries ≤ vec_len self.new.entries) }
    {
        match self.heaps.piece(piece) {
            Some(run) => self.write_piece_of(alloc, run, place, bytes, reply),
            None => push_answer(reply, Answer::Misuse),
        }
    }

    /// The same for a piece with these pages: past them it is misuse.
    fn write_piece_of(
        &mut self,
        alloc: Global,
        run: Run,
        place: u64,
        bytes: &Bytes,
        reply: &mut Vec<u8>,
    ) -> Result<(), NoMemory>
        requires place { IsBytePlace place }
        requires bytes { IsByteCount (length bytes.now) }
        ensures reply { OnOk result ((state : ReplayState) → RunStandsFor self.old state
            → reply.new.items ≡ reply.old.items ++ piece_write_text state place bytes.now run) }
        ensures state { OnOk result ((state : ReplayState) → RunStandsFor self.old state
            → RunStandsFor self.new (after_piece_write state place bytes.now run)) }
        ensures more { OnOk result (vec_len self.old.entries ≤ vec_len self.new.entries) }
    {
        if !fits_in(run, place, bytes.as_slice().len() as u64) {
            return push_answer(reply, Answer::Misuse);
        }
        push_answer(
            reply,
            self.write(alloc, run.segment, place_in(run, place), bytes)?,
        )
    }

    /// The reply to a read of bytes of a piece.
    pub(crate) fn read_piece(
        &mut self,
        piece: u64,
        place: u64,
        count: u64,
        reply: &mut Vec<u8>,
    ) -> Result<(), NoMemory>
        requires place { IsBytePlace place }
        requires count { IsByteCount count }
        ensures reply { OnOk result ((state : ReplayState) → RunStandsFor self.old state
            → reply.new.items ≡ reply.old.items
            ++ piece_text (piece_of state.heaps piece) (piece_read_text state place count)) }
        ensures state { OnOk result ((state : ReplayState) → RunStandsFor self.old state
            → RunStandsFor self.new (state)) }
        ensures more { OnOk result (vec_len self.old.entries ≤ vec_len self.new.entries) }
    {
        match self.heaps.piece(piece) {
            Some(run) => self.read_piece_of(run, place, count, reply),
            None => push_answer(reply, Answer::Misuse),
        }
    }

    /// The same for a piece with these pages: past them it is misuse.
    fn read_piece_of(
        &mut self,
        run: Run,
        place: u64,
        count: u64,
        reply: &mut Vec<u8>,
    ) -> Result<(), NoMemory>
        requires place { IsBytePlace place }
        requires count { IsByteCount count }
        ensures reply { OnOk result ((state : ReplayState) → RunStandsFor self.old state
            → reply.new.items ≡ reply.old.items ++ piece_read_text state place count run) }
        ensures state { OnOk result ((state : ReplayState) → RunStandsFor self.old state
            → RunStandsFor self.new (state)) }
        ensures more { OnOk result (vec_len self.old.entries ≤ vec_len self.new.entries) }
    {
        if !fits_in(run, place, count) {
            return push_answer(reply, Answer::Misuse);
        }
        self.read(run.segment, place_in(run, place), count, reply)
    }

    /// The reply to a free of a piece, at a moment.
    pub(crate) fn free_piece(
        &mut self,
        alloc: Global,
        piece: u64,
        at: u64,
        reply: &mut Vec<u8>,
    ) -> Result<(), NoMemory>
        ensures reply { OnOk result ((state : ReplayState) → RunStandsFor self.old state
            → reply.new.items ≡ reply.old.items
            ++ piece_text (piece_of state.heaps piece) (piece_free_text state piece)) }
        ensures state { OnOk result ((state : ReplayState) → RunStandsFor self.old state
            → RunStandsFor self.new
            (on_piece (piece_of state.heaps piece) state (after_piece_free state piece at))) }
        ensures more { OnOk result (vec_len self.old.entries ≤ vec_len self.new.entries) }
    {
        match self.heaps.piece(piece) {
            Some(run) => self.free_piece_of(alloc, piece, run, at, reply),
            None => push_answer(reply, Answer::Misuse),
        }
    }

    /// The same for a piece with these pages: they are unlocked, where they are locked, and free.
    fn free_piece_of(
        &mut self,
        alloc: Global,
        piece: u64,
        run: Run,
        at: u64,
        reply: &mut Vec<u8>,
    ) -> Result<(), NoMemory>
        ensures reply { OnOk result ((state : ReplayState) → RunStandsFor self.old state
            → piece_of state.heaps piece ≡ Some run
            → reply.new.items ≡ reply.old.items ++ piece_free_text state piece run) }
        ensures state { OnOk result ((state : ReplayState) → RunStandsFor self.old state
            → piece_of state.heaps piece ≡ Some run
            → RunStandsFor self.new (after_piece_free state piece at run)) }
        ensures more { OnOk result (vec_len self.old.entries ≤ vec_len self.new.entries) }
    {
        self.unlock(alloc, run, at)?;
        let there = self.heaps.free(piece) == Some(true);
        push_freed(reply, there)
    }

    /// The reply to a sweep of a client.
    pub(crate) fn swept(
        &mut self,
        alloc: Global,
        client: u64,
        reply: &mut Vec<u8>,
    ) -> Result<(), NoMemory>
        ensures reply { OnOk result ((state : ReplayState) → RunStandsFor self.old state
            → reply.new.items ≡ reply.old.items ++ swept_text state client) }
        ensures state { OnOk result ((state : ReplayState) → RunStandsFor self.old state
            → RunStandsFor self.new (after_sweep state client)) }
        ensures more { OnOk result (vec_len self.old.entries ≤ vec_len self.new.entries) }
    {
        push_swept(reply, self.sweep(alloc, client)?)
    }

    /// The reply to the release of a client: each of its segments that is all free is given back.
    pub(crate) fn release(
        &mut self,
        alloc: Global,
        client: u64,
        reply: &mut Vec<u8>,
    ) -> Result<(), NoMemory>
        ensures reply { OnOk result ((state : ReplayState) → RunStandsFor self.old state
            → reply.new.items ≡ reply.old.items
            ++ released_text state (after_release state client)) }
        ensures state { OnOk result ((state : ReplayState) → RunStandsFor self.old state
            → RunStandsFor self.new (after_release state client)) }
        ensures more { OnOk result (vec_len self.old.entries ≤ vec_len self.new.entries) }
    {
        let before = self.entries.len();
        let ids = self.heaps.all_free(alloc, client)?;
        self.release_each(alloc, client, &ids)?;
        push_released(reply, (self.entries.len() - before) as u64)
    }

    /// These segments of a client, which are those that are all free, are given back and leave.
    fn release_each(&mut self, alloc: Global, client: u64, ids: &[u64]) -> Result<(), NoMemory>
        ensures state { OnOk result ((state : ReplayState) → RunStandsFor self.old state
            → ids.now ≡ all_free (holding_of state client)
            → RunStandsFor self.new (after_release state client)) }
        ensures more { OnOk result (vec_len self.old.entries ≤ vec_len self.new.entries) }
    {
        self.give_back_each(alloc, ids)?;
        self.heaps.leave_all(client, ids);
        Ok(())
    }

    /// The reply to the question for a client's free runs.
    pub(crate) fn runs(
        &self,
        alloc: Global,
        client: u64,
        reply: &mut Vec<u8>,
    ) -> Result<(), NoMemory>
        ensures { OnOk result ((state : ReplayState) → RunStandsFor self.now state
            → reply.new.items ≡ reply.old.items ++ runs_text state client) }
    {
        push_runs(reply, &self.heaps.runs(alloc, client)?)
    }
}

/// Whether so many bytes from a place on lie within these pages.
fn fits_in(run: Run, place: u64, count: u64) -> bool
    requires place { IsBytePlace place }
    requires count { IsByteCount count }
    ensures { result ≡ fits_in run place count }
{
    place + count <= u64::from(run.pages) * PAGE
}

/// The place in its segment of a byte of these pages.
fn place_in(run: Run, place: u64) -> u64
    requires { IsBytePlace place }
    ensures { result ≡ place_in run place }
{
    u64::from(run.first) * PAGE + place
}
