//! Test images and requests that are drawn by numbers, the same from the same start.

ghost use Rattle.std.specs.Prelude.{◌≡◌, ◌<◌, ◌≤◌, ◌+◌, ◌*◌, ◌%◌, ◌^◌, length, map, IfOk};
ghost use Rattle.drawn_workload.specs.Draws.{next_state, drawn, state_after, draws_from, sample_of, drawn_request};
ghost use Rattle.tile_source.specs.Tile.{IsTile};

use std::alloc::{AllocError, Global};
use std::marker::Model;
use tile_source::{Image, Sample, Tile};
use units::NoMemory;

// The multiplier and the increment of Knuth's linear congruential generator on 64 bits.
const MULTIPLIER: u64 = 6364136223846793005;

const INCREMENT: u64 = 1442695040888963407;

/// How many samples a row of an image of draws has.
pub const DRAWN_WIDTH: u32 = 640;

/// How many rows an image of draws has.
pub const DRAWN_HEIGHT: u32 = 480;

/// The maxval of an image of draws.
pub const DRAWN_MAXVAL: u32 = 255;

/// A request that was drawn: a client, and the tile that it asks for.
#[derive(Clone, Copy)]
pub struct GenRequest {
    /// The client, from 1 to 4.
    pub client: u32,
    /// The tile: its zoom and its column from 0 to 2, its row 0 or 1.
    pub tile: Tile,
}

/// A generator of numbers, seen by contracts as its state, a number of 64 bits. Its numbers follow
/// from its start, and serve for tests: they are easy to foretell.
#[derive(Drop)]
pub struct Draws {
    state: u64,
}

impl Model for Draws {
    ghost use Rattle.std.specs.Prelude.{ℕ};

    ghost Value = { ℕ };

    ghost view = { λ d. d.state };
}

// The state that follows a state.
fn next_state(state: u64) -> u64
    ensures { result ≡ next_state state }
{
    state.wrapping_mul(MULTIPLIER).wrapping_add(INCREMENT)
}

// What is drawn where a state is reached.
fn drawn(state: u64) -> u64
    ensures value { result ≡ drawn state }
    ensures range { result < 2 ^ 31 }
{
    state >> 33
}

// Draws the samples of an image. The answer is the state after the draws.
fn draw_samples(start: u64, samples: &mut [Sample]) -> u64
    ensures samples { samples.new ≡ map sample_of (draws_from (length samples.old) start) }
    ensures state { result ≡ state_after (length samples.old) start }
{
    // A local state stays in a register.
    let mut state = start;
    for sample in samples.iter_mut() {
        state = next_state(state);
        *sample = (drawn(state) % (DRAWN_MAXVAL as u64 + 1)) as Sample;
    }
    state
}

impl Draws {
    /// Draws that start from a number.
    pub fn new(n: u64) -> Draws
        ensures { result ≡ n }
    {
        Draws { state: n }
    }

    /// The next number, below 2 ^ 31.
    ///
    /// The state `s` becomes `(s * 6364136223846793005 + 1442695040888963407) mod 2 ^ 64`, and the
    /// number is the new state divided by `2 ^ 33`, rounded down.
    pub fn draw(&mut self) -> u64
        ensures drawn { result ≡ drawn self.new }
        ensures moved { self.new ≡ next_state self.old }
        ensures range { result < 2 ^ 31 }
    {
        self.state = next_state(self.state);
        drawn(self.state)
    }

    /// The request of the next four draws `a`, `b`, `c` and `d`: the client `1 + a mod 4`, the zoom
    /// `b mod 3`, the column `c mod 3` and the row `d mod 2`.
    pub fn request(&mut self) -> GenRequest
        ensures request { result ≡ drawn_request self.old }
        ensures moved { self.new ≡ state_after 4 self.old }
        ensures client { (1 ≤ result.client) × (result.client ≤ 4) }
        ensures tile { IsTile result.tile }
    {
        let client = 1 + self.draw_below(4);
        let z = self.draw_below(3);
        let x = self.draw_below(3);
        let y = self.draw_below(2);
        GenRequest {
            client,
            tile: Tile { z, x, y },
        }
    }

    // The remainder of the next draw by a number.
    fn draw_below(&mut self, limit: u32) -> u32
        requires { 0 < limit }
        ensures value { result ≡ drawn (next_state self.old) % limit }
        ensures moved { self.new ≡ next_state self.old }
        ensures range { result < limit }
    {
        (self.draw() % u64::from(limit)) as u32
    }
}

// Memory for so many samples.
fn samples(alloc: Global, count: usize) -> Result<Vec<Sample>, AllocError>
    ensures { IfOk result (λ samples. length samples.items ≡ count) }
{
    Vec::from_elem(alloc, 0, count)
}

/// What is drawn as a whole.
pub trait OfDraws {
    ghost use Rattle.std.specs.Prelude.{◌≡◌, ℕ, IfOk, OnOk, OnErr};
    ghost use Rattle.drawn_workload.specs.Draws.{state_after};

    // What is drawn from a state on.
    ghost is_drawn: { Self → ℕ → Type 0 };

    // How many draws it takes.
    ghost count: { ℕ };

    /// What the next draws are. The draws move on by as many as it takes. Out of memory, they stay as
    /// they were.
    fn of_draws(alloc: Global, draws: &mut Draws) -> Result<Self, NoMemory>
        ensures drawn { IfOk result (λ whole. is_drawn whole draws.old) }
        ensures moved { OnOk result (draws.new ≡ state_after count draws.old) }
        ensures kept { OnErr result (draws.new ≡ draws.old) };
}

/// An image of draws: 640 by 480 with maxval 255. Each sample is the next draw modulo 256, rows from
/// the top, each from the left, so the draws move on by 307,200.
impl OfDraws for Image {
    ghost use Rattle.std.specs.Prelude.{◌≡◌};
    ghost use Rattle.drawn_workload.specs.Draws.{drawn_image, image_draws};

    ghost is_drawn = { λ image state. image ≡ drawn_image state };

    ghost count = { image_draws };

    fn of_draws(alloc: Global, draws: &mut Draws) -> Result<Image, NoMemory> {
        let mut samples = samples(alloc, DRAWN_WIDTH as usize * DRAWN_HEIGHT as usize)?;
        draws.state = draw_samples(draws.state, &mut samples);
        Ok(Image::from_parts(DRAWN_WIDTH, DRAWN_HEIGHT, DRAWN_MAXVAL, samples, 0))
    }
}
