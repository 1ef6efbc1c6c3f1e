#![tactic(auto)]
//! A workload that anyone can draw again: an image and the requests for its tiles, the same from the
//! same start.
//!
//! Promises: what is drawn from a number is a function of that number (`drawn_image`,
//! `gen_requests`), and each request is one of four clients for a tile that may be asked for. The
//! line that tells the replies is a function of the number and of their bytes (`gen_line`).
//!
//! The draws are those of Knuth's linear congruential generator on 64 bits, and serve for tests and
//! measurements: they are predictable, not for security. The sum of the replies goes over parts of
//! 64 KiB in 32-bit numbers, so that the loop is vectorised.

mod draws;
mod generated;

pub use draws::{DRAWN_HEIGHT, DRAWN_MAXVAL, DRAWN_WIDTH, Draws, GenRequest, OfDraws};
pub use generated::{GEN_CLIENTS, GEN_REQUESTS, Generated, gen_line, gen_settings, generate};

#[cfg(test)]
mod tests;
