ghost use Rattle.std.specs.Prelude.{ℕ, Bool, false, List, []};
ghost use Rattle.discard_book.specs.declared.entry.Entry.{Entry};
ghost use Rattle.return_queue.specs.Name.{QueueName, no_queue};

use std::marker::Brand;

/// What is fixed when a manager is made. Who makes a manager is generic in this, and its caller
/// chooses the values: those of the state and of the queue that are handed in.
pub trait Fixed {
    /// The limit of pages.
    ghost limit: { ℕ };

    /// The entries of the book that is handed in.
    ghost handed: { List Entry };

    /// The name of the queue of returns.
    ghost queue: { QueueName };

    /// Whether grants and enforcements enter ledgers.
    ghost counts: { Bool };
}

impl Fixed for Brand {
    ghost limit = { 0 };

    ghost handed = { [] };

    ghost queue = { no_queue };

    ghost counts = { false };
}
