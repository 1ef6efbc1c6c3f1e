ghost use Rattle.std.specs.Prelude.{◌≡◌, ◌*◌, ◌^◌, ◌<◌, ◌≤◌, length, sum, IfOk};
ghost use Rattle.request_text.specs.Requests.{IsRequest, AreRequests};
ghost use Rattle.drawn_workload.specs.Draws.{state_after, drawn_image};
ghost use Rattle.serve_texts.specs.Config.{IsServeCfg};
ghost use Rattle.drawn_workload.specs.Generated.{gen_cfg, request_from, requests_from, gen_requests, gen_line};

use crate::draws::{Draws, OfDraws};
use request_text::{Request, Requests};
use serve_texts::{Replies, ServeCfg};
use std::alloc::Global;
use tile_source::Image;
use units::NoMemory;

/// How many requests a workload that is drawn has.
pub const GEN_REQUESTS: u32 = 512;

/// How many clients ask in a workload that is drawn.
pub const GEN_CLIENTS: u32 = 4;

// The definitions cite both, so each is held to its number.
const _: () = prove!(GEN_REQUESTS == 512);

const _: () = prove!(GEN_CLIENTS == 4);

/// How many bytes are added up in one go: their sum fits 32 bits.
const PART: usize = 65_536;

/// A workload that is drawn: an image, and the requests for its tiles.
#[derive(Drop)]
pub struct Generated {
    /// The image: 640 by 480 with maxval 255.
    pub image: Image,
    /// The requests: 512, of clients 1 to 4.
    pub requests: Requests,
}

/// The settings that a workload that is drawn is served with: 4 clients, a limit of 128 pages, tiles
/// of 256 by 256, caches of 8 tiles, 8 enforcements, standard segments of 64 pages, and a pool that
/// keeps 4 blocks.
pub fn gen_settings() -> ServeCfg
    ensures value { result ≡ gen_cfg }
    ensures lawful { IsServeCfg result }
{
    ServeCfg {
        clients: GEN_CLIENTS,
        limit: 128,
        side: 256,
        entries: 8,
        rounds: 8,
        standard: 64,
        keep: 4,
    }
}

/// The workload that is drawn from a number: the image first, then the requests, four draws each.
pub fn generate(alloc: Global, n: u64) -> Result<Generated, NoMemory>
    ensures image { IfOk result (λ drawn. drawn.image ≡ drawn_image n) }
    ensures requests { IfOk result (λ drawn. drawn.requests ≡ gen_requests n) }
    ensures lawful { IfOk result (λ drawn. AreRequests GEN_CLIENTS drawn.requests) }
{
    let mut draws = Draws::new(n);
    let image = Image::of_draws(alloc, &mut draws)?;
    let requests = draw_requests(alloc, &mut draws)?;
    Ok(Generated { image, requests })
}

/// Draws the requests of a workload.
fn draw_requests(alloc: Global, draws: &mut Draws) -> Result<Requests, NoMemory>
    ensures requests { IfOk result (λ requests. requests ≡ requests_from GEN_REQUESTS draws.old) }
    ensures lawful { IfOk result (λ requests. AreRequests GEN_CLIENTS requests) }
{
    let mut requests = Vec::with_capacity(alloc, GEN_REQUESTS as usize)?;
    for _ in 0..GEN_REQUESTS {
        requests.push(draw_request(draws))?;
    }
    Ok(Requests::from_vec(requests))
}

/// Draws a request.
fn draw_request(draws: &mut Draws) -> Request
    ensures request { result ≡ request_from draws.old }
    ensures moved { draws.new ≡ state_after 4 draws.old }
    ensures lawful { IsRequest GEN_CLIENTS result }
{
    let drawn = draws.request();
    Request {
        client: drawn.client,
        tile: drawn.tile,
    }
}

/// The line that tells the replies to a workload that was drawn from `n`: `gen N tiles 512 bytes B
/// sum S`, ended by LF, with the number of their bytes and the sum of all of them.
pub fn gen_line(alloc: Global, n: u64, replies: &Replies) -> Result<Vec<u8>, NoMemory>
    ensures { IfOk result (λ line. line.items ≡ gen_line n replies.now) }
{
    let bytes = replies.as_slice();
    let count = bytes.len();
    let sum = byte_sum(bytes);
    let line = format!(in alloc; "gen {n} tiles {GEN_REQUESTS} bytes {count} sum {sum}\n")?;
    Ok(line.into_bytes())
}

/// The sum of some bytes.
fn byte_sum(bytes: &[u8]) -> u128
    ensures { result ≡ sum bytes.now }
{
    let mut total = 0;
    let mut rest = bytes;
    while !rest.is_empty() {
        let (part, later) = rest.split_at(rest.len().min(PART));
        total += u128::from(part_sum(part));
        rest = later;
    }
    total
}

/// The sum of a few bytes, which fits a register.
fn part_sum(bytes: &[u8]) -> u32
    requires few { length bytes.now ≤ PART }
    ensures value { result ≡ sum bytes.now }
    ensures bound { result ≤ 255 * length bytes.now }
{
    let mut total = 0;
    for byte in bytes {
        total += u32::from(*byte);
    }
    total
}
