ghost use Rattle.std.specs.Prelude.{◌≡◌, ℕ, ◌+◌, ◌≤◌, List, [], ◌∷◌, ◌++◌, length, OnOk, IfErr, IfSome, IfNone};
ghost use Rattle.return_queue.specs.Name.{QueueName};
ghost use Rattle.return_queue.specs.Order.{Gives, IsFull, InOrder, AllTaken, Keeps};
ghost use Rattle.return_queue.specs.declared.note.Note.{Note};

use crate::Note;
use std::sync::Wait;

/// A queue of notes, to which passes give and from which one taker takes.
///
/// There is one order of all notes given. Those taken are the first of it, those that stand in the
/// queue the rest. Each pass and the taker is of one queue; a thread gives through a pass of its
/// own, which `split` makes. A pass knows a beginning of the order, the one that it has seen, and
/// what it gave of it. Once the taker took a pass in, it knows what that pass had seen, and that all
/// of this was taken once a take answers None, or once as many notes were taken as the queue holds.
pub trait Returns {
    type Pass: Drop;

    type Taker: Drop;

    /// The capacity, in notes.
    ghost most: { Self → ℕ };

    /// The queue's name.
    ghost name: { Self → QueueName };

    /// The pass is of the queue of this name.
    ghost is_pass: { QueueName → Self.Pass → Type 0 };

    /// The taker is of the queue of this name.
    ghost is_taker: { QueueName → Self.Taker → Type 0 };

    /// The notes that the pass gave.
    ghost own: { Self.Pass → List Note };

    /// All notes that the pass has seen given, each with the number of the pass that gave it.
    ghost seen: { Self.Pass → List (ℕ × Note) };

    /// The notes that the taker took.
    ghost taken: { Self.Taker → List Note };

    /// The taker took in a pass that had given and had seen this.
    ghost knows: { Self.Taker → List Note → List (ℕ × Note) → Type 0 };

    /// How many notes are taken once all is that the passes taken in had seen given.
    ghost until: { Self.Taker → ℕ };

    /// Gives a note, or hands it back where the queue was full at a step of this call.
    fn give<R: Wait>(&self, rt: &R, pass: &mut Self::Pass, note: Note) -> Result<(), Note>
        requires { is_pass (name self.now) pass.old }
        ensures queue { is_pass (name self.now) pass.new }
        ensures given { OnOk result
            (Gives (own pass.old) (seen pass.old) note (own pass.new) (seen pass.new)) }
        ensures back { IfErr result (λ back. back ≡ note) }
        ensures own { IfErr result (λ _. own pass.new ≡ own pass.old) }
        ensures seen { IfErr result (λ _. seen pass.new ≡ seen pass.old) }
        ensures full { IfErr result (λ _. IsFull (most self.now) (own pass.old) (seen pass.old)) };

    /// Takes the next note, or None where there was none at a step of this call.
    fn take<R: Wait>(&self, rt: &R, taker: &mut Self::Taker) -> Option<Note>
        requires { is_taker (name self.now) taker.old }
        ensures queue { is_taker (name self.now) taker.new }
        ensures some { IfSome result (λ note. taken taker.new ≡ taken taker.old ++ note ∷ []) }
        ensures none { IfNone result (taken taker.new ≡ taken taker.old) }
        ensures until { until taker.new ≡ until taker.old }
        ensures knows { Keeps (knows taker.old) (knows taker.new) }
        ensures order { (rest : List Note) × InOrder (taken taker.new) rest (knows taker.new) }
        ensures empty { IfNone result (InOrder (taken taker.new) [] (knows taker.new)) }
        ensures all_at_none { IfNone result (AllTaken (taken taker.new) (knows taker.new)) }
        ensures all_at_some { IfSome result (λ _.
            until taker.new ≤ length (taken taker.new)
            → AllTaken (taken taker.new) (knows taker.new)) };

    /// A second pass of the same queue, which gave nothing and has seen the same.
    fn split(&self, pass: &mut Self::Pass) -> Self::Pass
        requires { is_pass (name self.now) pass.old }
        ensures queue { is_pass (name self.now) pass.new × is_pass (name self.now) result }
        ensures own { own pass.new ≡ own pass.old }
        ensures seen { seen pass.new ≡ seen pass.old }
        ensures second { (own result ≡ []) × (seen result ≡ seen pass.old) };

    /// The taker takes a pass in, and knows what it had given and had seen.
    fn take_in(&self, taker: &mut Self::Taker, pass: Self::Pass)
        requires taker { is_taker (name self.now) taker.old }
        requires pass { is_pass (name self.now) pass }
        ensures queue { is_taker (name self.now) taker.new }
        ensures taken { taken taker.new ≡ taken taker.old }
        ensures pass { knows taker.new (own pass) (seen pass) }
        ensures knows { Keeps (knows taker.old) (knows taker.new) }
        ensures until { until taker.new ≡ length (taken taker.old) + most self.now }
        ensures all { until taker.new ≤ length (taken taker.new)
            → AllTaken (taken taker.new) (knows taker.new) };

    /// How many notes the queue holds at most.
    fn capacity(&self) -> u32
        ensures { result ≡ most self.now };
}
