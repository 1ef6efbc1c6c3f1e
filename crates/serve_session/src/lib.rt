#![tactic(auto)]
//! One client's session of a served run: its requests go through its own cache of tiles in soft
//! memory, over anything that grants segments.
//!
//! Promises: the client's replies, each in the place of its request, are those of the image, whatever
//! was purged meanwhile. The tally says how often a tile was kept and how often it was made, and the
//! grants that it counts are those of the granter.
//!
//! A `Serving` is the settings, what replies are made of (`Tiling`), the requests, the clock and the
//! gate, all behind references; all threads share it, and nothing of it changes. A session is one loop
//! over the client's places; a turn is one get, two appends into the place, and one rest. A place holds
//! the reply to the request of its number (`specs/Places.antt`), so no clause asks which of a client's
//! requests it serves. Between two requests no piece is locked, so all of the client's memory may be
//! purged.

mod served;
mod serving;
mod tiling;

pub use served::{ServedClient, ServedClients};
pub use serving::Serving;
pub use tiling::{MOST_REPLY, Tiling};
