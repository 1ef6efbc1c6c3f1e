//! The reductions of a run, and the returns of a whole client.
ghost use Rattle.std.specs.Prelude.{◌≡◌, ◌≤◌, vec_len, OnOk, IfOk};
ghost use Rattle.replay_plain.specs.State.{ReplayState, after_events};
ghost use Rattle.replay_plain.specs.Reductions.{after_reduction, least_use, next_try, reduction, with_room};
ghost use Rattle.replay_plain.specs.Commands.{returns_of};
ghost use Rattle.replay_plain.specs.Run.{RunStandsFor};

use crate::run::PlainRun;
use discard_book::Entry;
use std::alloc::Global;
use units::NoMemory;

impl PlainRun {
    /// Makes room for a grant of these pages.
    pub(crate) fn make_room(&mut self, alloc: Global, pages: u32, now: u64) -> Result<(), NoMemory>
        ensures state { OnOk result ((state : ReplayState) → RunStandsFor self.old state
            → RunStandsFor self.new (with_room state pages now)) }
        ensures more { OnOk result (vec_len self.old.entries ≤ vec_len self.new.entries) }
    {
        let room = self.limit.saturating_sub(u64::from(pages));
        if self.known.pages() > u128::from(room) {
            self.reduce(alloc, room, now)?;
        }
        Ok(())
    }

    /// Reduces the granted pages to a limit at a moment. It answers the least known use of a live
    /// segment after it, or None where nothing is live.
    pub(crate) fn reduce(
        &mut self,
        alloc: Global,
        limit: u64,
        now: u64,
    ) -> Result<Option<u64>, NoMemory>
        ensures least { IfOk result (λ least. (state : ReplayState) → RunStandsFor self.old state
            → least ≡ least_use (after_reduction state limit now).events) }
        ensures state { OnOk result ((state : ReplayState) → RunStandsFor self.old state
            → RunStandsFor self.new (after_reduction state limit now)) }
        ensures more { OnOk result (vec_len self.old.entries ≤ vec_len self.new.entries) }
    {
        self.purge_to(alloc, limit, now)?;
        let least = self.least_use();
        let after = self.known.pages();
        self.entries.push(Entry::Reduced {
            limit,
            now,
            after,
            least,
        })?;
        Ok(least)
    }

    /// The tries of a reduction.
    fn purge_to(&mut self, alloc: Global, limit: u64, now: u64) -> Result<(), NoMemory>
        ensures state { OnOk result ((state : ReplayState) → RunStandsFor self.old state
            → RunStandsFor self.new (after_events state (reduction limit now state.events))) }
        ensures more { OnOk result (vec_len self.old.entries ≤ vec_len self.new.entries) }
    {
        for _ in 0..2 * (self.known.next() - 1) {
            let Some(id) = self.next_try(limit, now) else {
                return Ok(());
            };
            self.try_purge(alloc, id, now)?;
        }
        Ok(())
    }

    /// The number of the segment that a reduction tries next, or None where it has ended.
    fn next_try(&self, limit: u64, now: u64) -> Option<u64>
        ensures { (state : ReplayState) → RunStandsFor self.now state
            → result ≡ next_try limit now state.events }
    {
        if self.known.pages() <= u128::from(limit) {
            return None;
        }
        match self.known.least() {
            Some(least) => {
                if least.known < now {
                    Some(least.id)
                } else {
                    None
                }
            }
            None => None,
        }
    }

    /// The least known use of a live segment, or None where nothing is live.
    fn least_use(&self) -> Option<u64>
        ensures { (state : ReplayState) → RunStandsFor self.now state
            → result ≡ least_use state.events }
    {
        match self.known.least() {
            Some(least) => Some(least.known),
            None => None,
        }
    }

    /// Gives back each segment of a client, the least number first.
    pub(crate) fn give_back_all(&mut self, alloc: Global, client: u32) -> Result<(), NoMemory>
        ensures state { OnOk result ((state : ReplayState) → RunStandsFor self.old state
            → RunStandsFor self.new (after_events state (returns_of state client))) }
        ensures more { OnOk result (vec_len self.old.entries ≤ vec_len self.new.entries) }
    {
        for id in 1..self.known.next() {
            if self.known.has(client, id) {
                self.give_back(alloc, id)?;
            }
        }
        Ok(())
    }
}
