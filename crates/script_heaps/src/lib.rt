#![tactic(auto)]
//! The heaps of a script's clients: the segments and the free runs of each, its pieces, and the
//! segments that left since they were purged. Which segments are purged is told by the caller.
//!
//! Promises: what the clients of a script have, as one value (`Heaps`: a `Holding` a client, and the
//! owner of each piece). A `ClientHeap` has a span heap, the numbers of its segments and the pages of
//! each piece by place; its calls are equations on the definition's own record, and its invariant
//! (`IsSoundClientHeap`) says that each piece that is there is a used span where its segment is, and
//! that no two pieces have the same pages. `ScriptHeaps` has one by client, in a map, and for each piece
//! number its owner (client and place), so a piece is found at once and no call goes along all pieces.
//! It knows no words and no events, so it stands below the scripts.

mod client_heap;
mod heaps;

pub use heaps::{PieceOwner, ScriptHeaps};

#[cfg(test)]
mod tests;
