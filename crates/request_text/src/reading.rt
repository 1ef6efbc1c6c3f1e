ghost use Rattle.std.specs.Prelude.{◌≡◌, ◌≢◌, ◌≤◌, ◌<◌, ◌+◌, [], ◌∷◌, length, drop, slice_get, IfOk, IfErr, IfSome, MatchOption, Some};
ghost use Rattle.line_text.specs.declared.cause.Cause.TheVariants.{Count};
ghost use Rattle.line_text.specs.Refusals.{number};
ghost use Rattle.request_text.specs.Requests.{request_of, next_request, requests_after, Answers, Reads, AreRequests};

use crate::fault::{RequestFault, refused};
use crate::limits::MOST_REQUESTS;
use crate::request::{Request, Requests};
use line_text::{Cause, Cut, Line, MOST_TEXT_BYTES, cut, read_number};
use std::alloc::Global;
use tile_source::{LAST_TILE, MOST_ZOOM, Tile};

/// Reads a request file whole: its requests, or the first place where it is refused and the cause.
///
/// Each line that is not skipped is four numbers: a client from 1 to `clients`, a zoom from 0 to 6,
/// and a column and a row from 0 to 65535. A text of more than 1,048,576 bytes is refused before all
/// else. Then the first line that is refused counts: by how many words it has, then by the words
/// from left to right, and then where it is the 4,097th request.
pub fn read_requests(alloc: Global, clients: u32, bytes: &[u8]) -> Result<Requests, RequestFault>
    ensures reads { Reads result clients bytes.now }
    ensures requests { IfOk result (λ requests. AreRequests clients requests) }
{
    if bytes.len() as u64 > MOST_TEXT_BYTES {
        return Err(refused(MOST_TEXT_BYTES, Cause::Long));
    }
    let lines = cut(alloc, bytes)?;
    read_lines(alloc, clients, &lines)
}

/// The requests of the lines that are kept.
fn read_lines(alloc: Global, clients: u32, lines: &Cut<'_>) -> Result<Requests, RequestFault>
    ensures { Answers result (requests_after clients [] lines.now) }
{
    let most = lines.len().min(MOST_REQUESTS) as usize;
    let mut requests = Vec::with_capacity(alloc, most)?;
    let mut place = 0;
    while let Some(line) = line_at(lines, place) {
        match next_request(clients, requests.len() as u64, &line) {
            Ok(request) => requests.push(request)?,
            Err(why) => return Err(refused(line.number(), why)),
        }
        place += 1;
    }
    Ok(Requests::from_vec(requests))
}

/// A line by its place, which counts from 0.
fn line_at<'a>(lines: &'a Cut<'_>, place: u64) -> Option<Line<'a>>
    ensures lines { MatchOption result (drop place lines.now ≡ [])
        (λ line. drop place lines.now ≡ line ∷ drop (place + 1) lines.now) }
    ensures within { IfSome result (λ line. place < length lines.now) }
{
    lines.get(place)
}

/// The request of a line, after this many before it.
fn next_request(clients: u32, before: u64, line: &Line<'_>) -> Result<Request, Cause>
    ensures { result ≡ next_request clients before line.now.1 }
{
    let request = request(clients, line)?;
    if before >= MOST_REQUESTS {
        return Err(Cause::Many);
    }
    Ok(request)
}

/// The request that a line is.
fn request(clients: u32, line: &Line<'_>) -> Result<Request, Cause>
    ensures { result ≡ request_of clients line.now.1 }
{
    let (client, z, x, y) = four_words(line)?;
    Ok(Request {
        client: number(client, 1, clients)?,
        tile: Tile {
            z: number(z, 0, MOST_ZOOM)?,
            x: number(x, 0, LAST_TILE)?,
            y: number(y, 0, LAST_TILE)?,
        },
    })
}

/// The words of a line that has four.
fn four_words<'a>(line: &Line<'a>) -> Result<(&'a [u8], &'a [u8], &'a [u8], &'a [u8]), Cause>
    ensures ok { IfOk result (λ words. line.now.1
        ≡ words.0.now ∷ words.1.now ∷ words.2.now ∷ words.3.now ∷ []) }
    ensures err { IfErr result (λ why. (why ≡ Count) × (length line.now.1 ≢ 4)) }
{
    if line.words() != 4 {
        return Err(Cause::Count);
    }
    let first = word(line, 0)?;
    let second = word(line, 1)?;
    let third = word(line, 2)?;
    let fourth = word(line, 3)?;
    Ok((first, second, third, fourth))
}

/// A word of a line by its place, which counts from 0.
fn word<'a>(line: &Line<'a>, place: u64) -> Result<&'a [u8], Cause>
    ensures ok { IfOk result (λ word. slice_get line.now.1 place ≡ Some word.now) }
    ensures err { IfErr result (λ why. (why ≡ Count) × (length line.now.1 ≤ place)) }
{
    line.word(place).ok_or(Cause::Count)
}

/// The number from `least` to `most` that a word is.
fn number(word: &[u8], least: u32, most: u32) -> Result<u32, Cause>
    ensures { result ≡ number word.now least most }
{
    match read_number(word, u64::from(least), u64::from(most)) {
        Some(value) => Ok(value as u32),
        None => Err(Cause::Number),
    }
}
