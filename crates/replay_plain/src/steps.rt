//! The events of a run: each happens on the plain segments, and what is kept follows its answer.
ghost use Rattle.std.specs.Prelude.{◌≡◌, ◌≤◌, true, vec_len, OnOk, IfOk};
ghost use Rattle.units.specs.declared.TheConstants.{MOST_PAGES};
ghost use Rattle.machine.specs.declared.event.Event.TheVariants as event;
ghost use Rattle.machine.specs.Answers.{answer};
ghost use Rattle.machine.specs.Reduction.{is_owners};
ghost use Rattle.replay_plain.specs.State.{ReplayState, after_event, next_grant};
ghost use Rattle.replay_plain.specs.Run.{RunStandsFor};

use crate::run::PlainRun;
use discard_book::Entry;
use machine::{Answer, Event};
use std::alloc::Global;
use units::{Bytes, NoMemory};

impl PlainRun {
    /// An owner's event: it locks, unlocks or writes.
    pub(crate) fn happen(&mut self, alloc: Global, event: &Event) -> Result<Answer, NoMemory>
        requires { is_owners event.now ≡ true }
        ensures answer { IfOk result (λ a. (state : ReplayState) → RunStandsFor self.old state
            → a ≡ answer state.events event.now) }
        ensures state { OnOk result ((state : ReplayState) → RunStandsFor self.old state
            → RunStandsFor self.new (after_event state event.now)) }
        ensures more { OnOk result (vec_len self.old.entries ≤ vec_len self.new.entries) }
    {
        let answer = self.segments.step(alloc, event)?;
        Ok(answer)
    }

    /// The owner writes a copy of these bytes.
    pub(crate) fn write(
        &mut self,
        alloc: Global,
        id: u64,
        place: u64,
        bytes: &Bytes,
    ) -> Result<Answer, NoMemory>
        ensures answer { IfOk result (λ a. (state : ReplayState) → RunStandsFor self.old state
            → a ≡ answer state.events (event.Write id place bytes.now)) }
        ensures state { OnOk result ((state : ReplayState) → RunStandsFor self.old state
            → RunStandsFor self.new (after_event state (event.Write id place bytes.now))) }
        ensures more { OnOk result (vec_len self.old.entries ≤ vec_len self.new.entries) }
    {
        let mut copy = Vec::new(alloc);
        copy.extend_from_slice(bytes.as_slice())?;
        let bytes = Bytes::from_vec(copy);
        self.happen(alloc, &Event::Write { id, place, bytes })
    }

    /// A client is granted pages, under the next number.
    pub(crate) fn draw(
        &mut self,
        alloc: Global,
        client: u32,
        pages: u32,
    ) -> Result<Answer, NoMemory>
        requires client { 1 ≤ client }
        requires some { 1 ≤ pages }
        requires few { pages ≤ MOST_PAGES }
        ensures answer { IfOk result (λ a. (state : ReplayState) → RunStandsFor self.old state
            → a ≡ answer state.events (next_grant state client pages)) }
        ensures state { OnOk result ((state : ReplayState) → RunStandsFor self.old state
            → RunStandsFor self.new (after_event state (next_grant state client pages))) }
        ensures more { OnOk result (vec_len self.old.entries ≤ vec_len self.new.entries) }
    {
        let id = self.known.next();
        let answer = self
            .segments
            .step(alloc, &Event::Grant { id, client, pages })?;
        self.known.granted(client, pages)?;
        let limit = self.limit;
        self.entries.push(Entry::Grant {
            id,
            client,
            pages,
            limit,
        })?;
        Ok(answer)
    }

    /// A try to purge a segment, at a moment.
    pub(crate) fn try_purge(&mut self, alloc: Global, id: u64, now: u64) -> Result<Answer, NoMemory>
        ensures answer { IfOk result (λ a. (state : ReplayState) → RunStandsFor self.old state
            → a ≡ answer state.events (event.Try id now)) }
        ensures state { OnOk result ((state : ReplayState) → RunStandsFor self.old state
            → RunStandsFor self.new (after_event state (event.Try id now))) }
        ensures more { OnOk result (vec_len self.old.entries ≤ vec_len self.new.entries) }
    {
        let answer = self.segments.step(alloc, &Event::Try { id, now })?;
        match answer {
            Answer::Taken => {
                let known = self.known.purged(id);
                self.entries.push(Entry::Purge { id, known })?;
                Ok(Answer::Taken)
            }
            Answer::Used { known } => {
                self.known.used(id, known);
                Ok(Answer::Used { known })
            }
            other => Ok(other),
        }
    }

    /// A segment is given back.
    pub(crate) fn give_back(&mut self, alloc: Global, id: u64) -> Result<Answer, NoMemory>
        ensures answer { IfOk result (λ a. (state : ReplayState) → RunStandsFor self.old state
            → a ≡ answer state.events (event.Back id)) }
        ensures state { OnOk result ((state : ReplayState) → RunStandsFor self.old state
            → RunStandsFor self.new (after_event state (event.Back id))) }
        ensures more { OnOk result (vec_len self.old.entries ≤ vec_len self.new.entries) }
    {
        let answer = self.segments.step(alloc, &Event::Back { id })?;
        match answer {
            Answer::Counted => {
                self.known.counted(id);
                self.entries.push(Entry::Back { id })?;
                Ok(Answer::Counted)
            }
            Answer::Purged => {
                self.known.returned(id);
                Ok(Answer::Purged)
            }
            other => Ok(other),
        }
    }
}
