ghost use Rattle.std.specs.Prelude.{◌≡◌, ℕ, ◌+◌, ◌≤◌, ◌<◌, Bool, true, false, List, [], ◌∷◌, ◌++◌, length, min, ◌^◌, ◌-◌};
ghost use Rattle.return_queue.specs.Order.{Starts, notes, InOrder, AllTaken, Keeps};
ghost use Rattle.return_queue.specs.declared.note.Note.{Note};
ghost use Rattle.std.specs.Borrow.{sem};
ghost use Rattle.manager.specs.Counted.{answer_to, after_note, CountsNotes, CountsBehind};
ghost use Rattle.manager.specs.Lending.{LendsState};

use manager_state::{Back, State};
use return_queue::{Note, Returns};
use std::sync::Wait;

/// What stands behind a manager's lock: its state, and the one taker of its queue. Notes are taken
/// by `settle`, `settle_behind` and `drain` alone, and each is counted at once.
#[derive(Drop)]
pub struct Desk<R: Returns> {
    pub(crate) state: State,
    pub(crate) taker: R::Taker,
}

/// Counts the return that a note tells of.
fn count_back(state: &mut State, note: Note) -> Back
    ensures told { result ≡ answer_to note state.old }
    ensures state { state.new ≡ after_note state.old note }
    ensures limit { state.new.limit ≡ state.old.limit }
{
    state.back(note.client, note.id, note.block)
}

impl<R: Returns> Desk<R> {
    /// A desk of this state and this taker.
    pub fn new(state: State, taker: R::Taker) -> Desk<R>
        ensures state { result.state ≡ state }
        ensures taker { result.taker ≡ taker }
    {
        Desk { state, taker }
    }

    /// The state.
    pub fn state(&self) -> &State
        ensures { result.now ≡ self.now.state }
    {
        &self.state
    }

    /// The state, to be changed. The taker stays.
    pub fn state_mut(&mut self) -> &mut State
        ensures* writes_back { sem 𝓛 (LendsState R.row R.Pass.row R.Taker.row self.entry result) }
        ensures value { result.now ≡ self.old.state }
    {
        &mut self.state
    }

    /// Takes one note and counts it, and tells whether there was one.
    fn turn<H: Wait>(&mut self, rt: &H, returns: &R) -> bool
        requires { R.is_taker (R.name returns.now) self.old.taker }
        ensures queue { R.is_taker (R.name returns.now) self.new.taker }
        ensures took { result ≡ true → ((note : Note)
            × (R.taken self.new.taker ≡ R.taken self.old.taker ++ note ∷ [])
            × (self.new.state ≡ after_note self.old.state note)) }
        ensures none { result ≡ false → (R.taken self.new.taker ≡ R.taken self.old.taker)
            × (self.new.state ≡ self.old.state) }
        ensures limit { self.new.state.limit ≡ self.old.state.limit }
        ensures knows { Keeps (R.knows self.old.taker) (R.knows self.new.taker) }
        ensures until { R.until self.new.taker ≡ R.until self.old.taker }
        ensures empty { result ≡ false
            → InOrder (R.taken self.new.taker) [] (R.knows self.new.taker) }
        ensures all_at_none { result ≡ false
            → AllTaken (R.taken self.new.taker) (R.knows self.new.taker) }
        ensures all_at_some { result ≡ true
            → R.until self.new.taker ≤ length (R.taken self.new.taker)
            → AllTaken (R.taken self.new.taker) (R.knows self.new.taker) }
    {
        match returns.take(rt, &mut self.taker) {
            Some(next) => {
                count_back(&mut self.state, next);
                true
            }
            None => false,
        }
    }

    /// Takes and counts as many notes as the queue holds, or fewer where there was none at a step
    /// of this call. It answers how many it took.
    pub fn settle<H: Wait>(&mut self, rt: &H, returns: &R) -> u64
        requires { R.is_taker (R.name returns.now) self.old.taker }
        ensures queue { R.is_taker (R.name returns.now) self.new.taker }
        ensures counted { CountsNotes
            self.old.state (R.taken self.old.taker)
            self.new.state (R.taken self.new.taker) (λ n. result ≡ n) }
        ensures limit { self.new.state.limit ≡ self.old.state.limit }
        ensures knows { Keeps (R.knows self.old.taker) (R.knows self.new.taker) }
        ensures most { result ≤ R.most returns.now }
        ensures fewer { result < R.most returns.now
            → InOrder (R.taken self.new.taker) [] (R.knows self.new.taker) }
        ensures all { (R.until self.old.taker ≤ length (R.taken self.old.taker)
            → AllTaken (R.taken self.old.taker) (R.knows self.old.taker))
            → R.until self.old.taker ≤ length (R.taken self.old.taker) + R.most returns.now
            → AllTaken (R.taken self.new.taker) (R.knows self.new.taker) }
    {
        let mut count = 0u64;
        for _ in 0..returns.capacity() {
            if !self.turn(rt, returns) {
                return count;
            }
            count += 1;
        }
        count
    }

    /// Takes a pass in, settles, and counts a note after what it took, so that the note overtakes
    /// none that its pass had seen given. It answers what the note's return comes to.
    pub fn settle_behind<H: Wait>(&mut self, rt: &H, returns: &R, pass: R::Pass, note: Note) -> Back
        requires taker { R.is_taker (R.name returns.now) self.old.taker }
        requires pass { R.is_pass (R.name returns.now) pass }
        ensures queue { R.is_taker (R.name returns.now) self.new.taker }
        ensures counted { CountsBehind result note
            self.old.state (R.taken self.old.taker)
            self.new.state (R.taken self.new.taker)
            (λ n. (n ≤ R.most returns.now) × (n < R.most returns.now
            → InOrder (R.taken self.new.taker) [] (R.knows self.new.taker))) }
        ensures limit { self.new.state.limit ≡ self.old.state.limit }
        ensures all { Starts (R.taken self.new.taker) (notes (R.seen pass)) }
    {
        returns.take_in(&mut self.taker, pass);
        self.settle(rt, returns);
        count_back(&mut self.state, note)
    }

    /// Takes a pass in, and takes and counts notes until there is none. It answers how many it
    /// took, or the last value of u64 where they were more.
    pub fn drain<H: Wait>(&mut self, rt: &H, returns: &R, pass: R::Pass) -> u64
        requires taker { R.is_taker (R.name returns.now) self.old.taker }
        requires pass { R.is_pass (R.name returns.now) pass }
        ensures queue { R.is_taker (R.name returns.now) self.new.taker }
        ensures counted { CountsNotes
            self.old.state (R.taken self.old.taker)
            self.new.state (R.taken self.new.taker) (λ n. result ≡ min n (2 ^ 64 - 1)) }
        ensures limit { self.new.state.limit ≡ self.old.state.limit }
        ensures empty { InOrder (R.taken self.new.taker) [] (R.knows self.new.taker) }
        ensures all { Starts (R.taken self.new.taker) (notes (R.seen pass)) }
    {
        returns.take_in(&mut self.taker, pass);
        let mut count = 0u64;
        for _ in rt.forever() {
            if !self.turn(rt, returns) {
                return count;
            }
            count = count.saturating_add(1);
        }
        unreachable!()
    }
}
