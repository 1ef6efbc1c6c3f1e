ghost use Rattle.std.specs.Prelude.{◌≡◌, [], ℕ};

use crate::{Note, Returns};
use std::sync::Wait;

/// The queue that keeps no note: its capacity is 0, so each note that is given comes back.
#[derive(Drop)]
pub struct PlainReturns;

/// A pass of the queue that keeps no note.
#[derive(Clone, Copy)]
pub struct PlainPass;

/// The taker of the queue that keeps no note.
#[derive(Drop)]
pub struct PlainTaker;

impl PlainReturns {
    /// The queue, its first pass and its taker.
    pub fn new() -> (PlainReturns, PlainPass, PlainTaker) {
        (PlainReturns, PlainPass, PlainTaker)
    }
}

impl Returns for PlainReturns {
    ghost use Rattle.std.specs.Prelude.{⊤, ◌≡◌, []};
    ghost use Rattle.return_queue.specs.Name.{no_queue};

    type Pass = PlainPass;

    type Taker = PlainTaker;

    ghost most = { λ _. 0 };

    ghost name = { λ _. no_queue };

    ghost is_pass = { λ _ _. ⊤ };

    ghost is_taker = { λ _ _. ⊤ };

    ghost own = { λ _. [] };

    ghost seen = { λ _. [] };

    ghost taken = { λ _. [] };

    ghost knows = { λ _ gave saw. (gave ≡ []) × (saw ≡ []) };

    ghost until = { λ _. 0 };

    fn give<R: Wait>(&self, _rt: &R, _pass: &mut PlainPass, note: Note) -> Result<(), Note> {
        Err(note)
    }

    fn take<R: Wait>(&self, _rt: &R, _taker: &mut PlainTaker) -> Option<Note> {
        None
    }

    fn split(&self, pass: &mut PlainPass) -> PlainPass {
        *pass
    }

    fn take_in(&self, _taker: &mut PlainTaker, _pass: PlainPass) {}

    fn capacity(&self) -> u32 {
        0
    }
}
