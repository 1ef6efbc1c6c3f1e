//! The rule of the queue: what each pass and the taker know.
ghost use Rattle.std.specs.Prelude.{◌≡◌, ℕ};

use crate::Note;
use crossbeam_queue::RuledArrayQueue;
use crossbeam_queue::protocol::{Join, Lesson, Outcome, Protocol, Split};
use std::collections::LinkedList;
use std::marker::{Brand, PhantomData};

/// What a pass had given and seen when it was taken in. No value of it is made.
pub struct Past {
    pub own: LinkedList<Note>,
    pub seen: LinkedList<(u64, Note)>,
}

/// What a pass or the taker knows. No value of it is made.
pub struct View {
    /// It is a pass.
    pub gives: bool,
    /// It is the taker.
    pub takes: bool,
    /// The capacity of its queue.
    pub cap: u64,
    /// The notes that a pass gave.
    pub own: LinkedList<Note>,
    /// The notes that a pass has seen given, each with the number of its pass.
    pub seen: LinkedList<(u64, Note)>,
    /// The notes that the taker took.
    pub got: LinkedList<Note>,
    /// The passes that the taker took in.
    pub past: LinkedList<Past>,
    /// How many notes are taken once all is that these passes had seen given.
    pub until: u64,
}

/// The rule: `Holds`.
pub struct InOrder;

impl Protocol<Note, View> for InOrder {
    ghost use Rattle.return_queue.specs.Rule.{Holds, blank};

    ghost holds = { Holds };

    ghost first = { blank };
}

/// The capacity with which a queue is opened.
pub trait Capacity {
    ghost most: { ℕ };
}

impl Capacity for Brand {
    ghost most = { 1 };
}

/// The first step of a queue, by which its taker and its first pass learn the capacity.
pub struct Opens<C: Capacity> {
    capacity: PhantomData<C>,
}

impl<C: Capacity> Split<View> for Opens<C> {
    ghost use Rattle.return_queue.specs.Rule.{new_taker, new_pass};

    ghost left = { λ _. new_taker C.most };

    ghost right = { λ _. new_pass C.most };
}

/// A note was given, or the queue was full.
pub struct Gave;

impl Outcome<Note, View> for Gave {
    ghost use Rattle.return_queue.specs.Rule.{Gave};

    ghost then = { Gave };
}

impl Lesson<Note, View> for Gave {
    ghost use Rattle.return_queue.specs.Order.{Stood};

    ghost fact = { λ v items. Stood items v.own v.seen };
}

/// A note was taken, or there was none.
pub struct Took;

impl Outcome<Note, View> for Took {
    ghost use Rattle.return_queue.specs.Rule.{Took};

    ghost then = { Took };
}

impl Lesson<Note, View> for Took {
    ghost use Rattle.return_queue.specs.Rule.{Tells};

    ghost fact = { λ v items. Tells v.got v.past v.until items };
}

/// A pass is split.
pub struct Twin;

impl Split<View> for Twin {
    ghost use Rattle.return_queue.specs.Rule.{twin};

    ghost left = { λ v. v };

    ghost right = { twin };
}

/// A pass is taken in.
pub struct Ends;

impl Join<View> for Ends {
    ghost use Rattle.return_queue.specs.Rule.{taken_in, spent};

    ghost both = { taken_in };

    ghost spent = { spent };
}

pub type Line = RuledArrayQueue<Note, View, InOrder>;
