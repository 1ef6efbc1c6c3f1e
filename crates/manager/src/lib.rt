#![tactic(auto)]
//! A manager of soft memory that many threads share: a state behind a lock, handles that grant and
//! take back, and a queue of returns that waits for no lock.
//!
//! Promises: whenever the lock is free, the book is legal and grew from the entries handed in, its
//! limit is the one with which the manager was made, and each grant since carries it. Where the manager
//! has ledgers, the shares of all handles together count the grants and the enforcements of the book.
//!
//! A `Desk` is the state and the queue's one taker; it counts notes in the order in which they were
//! given. Behind the lock stands the desk with the totals of two ledgers (`Behind`); a handle counts
//! what it does in its own shares. What is fixed when a manager is made (the limit, the entries handed
//! in, the queue's name) is a set of ghost values that its maker picks (`Fixed`).
//!
//! A handle's numbers rise, since it compares them under the lock before it grants. No block is made
//! under the lock. Three tokens make sure that no step is left out: a handle's grant owes a `Settled`,
//! which only counting the queue's notes makes, `Drains` rises only where a pass is drained, and
//! `DirectNotes` only where a note is counted past the queue.
//!
//! A handle tells what its calls made of it: a grant by `GrantsSegment`, a return by `GivesNote`. One
//! turn under the lock says all that it makes of the state and of the taker.

mod behind;
mod desk;
mod fixed;
mod handle;
mod manager;
mod shares;

pub use behind::Drains;
pub use desk::Desk;
pub use fixed::Fixed;
pub use handle::Handle;
pub use manager::Manager;
pub use manager_state::{Back, Level, State, Tried};
pub use shares::{PARTS, Shares};
