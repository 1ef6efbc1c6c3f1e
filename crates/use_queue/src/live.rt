//! Which entries are live.

ghost use Rattle.std.specs.Prelude.{◌≡◌, ◌≤◌, ℕ, [], true, false, length};
ghost use Rattle.std.specs.List.{Contains};

use crate::queue::UseQueue;

/// What tells the live entries of a queue: each a known use and a number.
pub trait LiveUses {
    /// this is a live entry
    ghost IsLive: { Self → ℕ × ℕ → Type 0 };

    /// at most so many entries are live
    ghost most: { Self → ℕ };

    /// Whether this is a live entry.
    fn is_live(&self, known: u64, id: u64) -> bool
        ensures yes { result ≡ true → IsLive self.now (known, id) }
        ensures no { result ≡ false → IsLive self.now (known, id) → ⊥ };

    /// Adds the live entries to an empty queue.
    fn fill(&self, queue: &mut UseQueue)
        requires empty { queue.old.entries ≡ [] }
        requires room { most self.now ≤ queue.old.room }
        ensures each { (k : ℕ × ℕ) → IsLive self.now k → Contains queue.new.entries k }
        ensures few { length queue.new.entries ≤ most self.now }
        ensures room { queue.old.room ≤ queue.new.room };
}
