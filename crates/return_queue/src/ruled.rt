ghost use Rattle.std.specs.Prelude.{◌≡◌, ◌≤◌, ℕ, [], true, false, IfOk};
ghost use Rattle.crossbeam_queue.specs.Passes.{view, IsPassOf, ruled_capacity};
ghost use Rattle.return_queue.specs.Rule.{blank, new_taker, new_pass};
ghost use Rattle.return_queue.specs.Ties.{name_of, IsGivingPass, IsTakingPass};

use crate::rule::{Capacity, Ends, Gave, Line, Opens, Took, Twin, View};
use crate::{Note, Returns};
use crossbeam_queue::Pass;
use std::alloc::Global;
use std::marker::Brand;
use std::sync::Wait;
use units::NoMemory;

/// A queue of a fixed capacity that threads share. Its passes and its taker may each be in a thread
/// of its own. After 2^62 notes a `give` may wait for ever.
#[derive(Drop)]
pub struct RuledReturns {
    line: Line,
    capacity: u32,
    ghost sized: { (ruled_capacity line ≡ capacity) × (1 ≤ capacity) },
}

/// A pass of a queue, through which one thread gives.
#[derive(Drop)]
pub struct ReturnPass {
    pass: Pass<Note, View>,
}

/// The taker of a queue.
#[derive(Drop)]
pub struct ReturnTaker {
    pass: Pass<Note, View>,
}

/// The taker and the first pass of a new queue learn its capacity.
fn open<C: Capacity>(line: &Line, first: &mut Pass<Note, View>, capacity: u32) -> Pass<Note, View>
    requires queue { IsPassOf line.now first.old }
    requires blank { view first.old ≡ blank }
    requires capacity { C.most ≡ capacity }
    ensures taker { IsPassOf line.now first.new × (view first.new ≡ new_taker capacity) }
    ensures pass { IsPassOf line.now result × (view result ≡ new_pass capacity) }
{
    // The contract alone reads it.
    let _ = capacity;
    line.another::<Opens<C>>(first)
}

impl RuledReturns {
    /// A queue of 1 to 4,096 notes, its first pass and its taker, which has taken nothing.
    pub fn new(
        alloc: Global,
        capacity: u32,
    ) -> Result<(RuledReturns, ReturnPass, ReturnTaker), NoMemory>
        requires { (1 ≤ capacity) × (capacity ≤ 4096) }
        ensures capacity { IfOk result (λ made. made.0.capacity ≡ capacity) }
        ensures pass { IfOk result (λ made. IsGivingPass (name_of made.0.line) made.1.pass) }
        ensures taker { IfOk result (λ made. IsTakingPass (name_of made.0.line) made.2.pass) }
        ensures new_pass { IfOk result (λ made. view made.1.pass ≡ new_pass capacity) }
        ensures new_taker { IfOk result (λ made. view made.2.pass ≡ new_taker capacity) }
    {
        let (line, mut first) = match Line::ruled(alloc, capacity as usize) {
            Ok(made) => made,
            Err(_) => return Err(NoMemory),
        };
        let pass = open::<Brand>(&line, &mut first, capacity);
        Ok((
            RuledReturns { line, capacity },
            ReturnPass { pass },
            ReturnTaker { pass: first },
        ))
    }
}

impl Returns for RuledReturns {
    ghost use Rattle.crossbeam_queue.specs.Passes.{view};
    ghost use Rattle.return_queue.specs.Rule.{KnowsIn};
    ghost use Rattle.return_queue.specs.Ties.{name_of, IsGivingPass, IsTakingPass};

    type Pass = ReturnPass;

    type Taker = ReturnTaker;

    ghost most = { λ r. r.capacity };

    ghost name = { λ r. name_of r.line };

    ghost is_pass = { λ name p. IsGivingPass name p.pass };

    ghost is_taker = { λ name t. IsTakingPass name t.pass };

    ghost own = { λ p. (view p.pass).own };

    ghost seen = { λ p. (view p.pass).seen };

    ghost taken = { λ t. (view t.pass).got };

    ghost knows = { λ t. KnowsIn (view t.pass).past };

    ghost until = { λ t. (view t.pass).until };

    fn give<R: Wait>(&self, rt: &R, pass: &mut ReturnPass, note: Note) -> Result<(), Note> {
        self.line.push_as::<Gave, R>(rt, &mut pass.pass, note)
    }

    fn take<R: Wait>(&self, rt: &R, taker: &mut ReturnTaker) -> Option<Note> {
        self.line.pop_as::<Took, R>(rt, &mut taker.pass)
    }

    fn split(&self, pass: &mut ReturnPass) -> ReturnPass {
        ReturnPass {
            pass: self.line.another::<Twin>(&mut pass.pass),
        }
    }

    fn take_in(&self, taker: &mut ReturnTaker, pass: ReturnPass) {
        self.line.absorb::<Ends>(&mut taker.pass, pass.pass);
    }

    fn capacity(&self) -> u32 {
        self.capacity
    }
}
