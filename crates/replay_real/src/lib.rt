#![tactic(auto)]
//! Runs the commands of a script on real segments, whose owners, clients and manager each have their
//! side of them: the reply to each command, and the book that the manager keeps.
//!
//! Promises: before the first finding command the real run agrees with the definitions, and in every
//! case each command is the manager's call with this command's number, client, limit and moment
//! (`Acts`), adds words without a line end, and only adds to the book. `RealRun` has one `State`, and by
//! number the client that it was granted to and, while the segment is plain, its owner's side with its
//! locked pages. The owner's side makes a step only where the count of locked pages leaves zero or falls
//! to zero. Beside these it has a `Client` for each client of the script that was allocated a piece
//! (`ScriptClient`), with its pieces by place; the invariant is that the client owns each of them and no
//! two have the same pages. Before the first finding command there is no piece.
//!
//! A command on a piece is stated in three layers: what a call does with the piece at a place
//! (`LocksSlot`, ..), that it changes no other place of its client (`CallsAt`), and no other client
//! (`OnPiece`, `OnClient`). After a finding command no contract joins what the two sides of a segment
//! found; there the two runs are compared when they run.

mod heaps;
mod owner;
mod owners;
mod pieces;
mod run;
mod script_client;

pub use run::RealRun;
