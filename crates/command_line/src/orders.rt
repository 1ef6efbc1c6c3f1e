//! What the words of the command line ask for.

ghost use Rattle.std.specs.Prelude.{◌≡◌, ◌≤◌, option_map, IfSome, IfOk};
ghost use Rattle.line_text.specs.Number.{number_in};
ghost use Rattle.serve_texts.specs.Config.{IsSide, IsServeCfg};
ghost use Rattle.command_line.specs.Words.{GivenWords, texts};
ghost use Rattle.command_line.specs.ClapWords.{IsGiven};
ghost use Rattle.command_line.specs.Commands.{order_of, replay_order, replay_of, tile_order, tile_of, serve_order, serve_of, serve_cfg, gen_order, gen_of, named, side_of};
ghost use Rattle.command_line.specs.Orders.{order_value, IsLawful};

use crate::clap_words::{positional, read, set_to};
use crate::order::Order;
use crate::setting::{
    CLIENTS, ENTRIES, KEEP, REPLAY_LIMIT, ROUNDS, SERVE_LIMIT, SIDE, STANDARD, allowed_side,
};
use clap::ArgMatches;
use line_text::read_number;
use replay_plain::ReplayCfg;
use serve_texts::ServeCfg;
use std::alloc::Global;
use tile_source::{LAST_TILE, MOST_ZOOM, Tile};
use units::NoMemory;

/// The greatest number that a workload is drawn from.
const MOST_DRAWN: u32 = 999_999;

/// What the words of the command line ask for, of which the first is the command. None comes exactly
/// where they are not lawful.
pub fn order_of<'a>(alloc: Global, words: &'a [String]) -> Result<Option<Order<'a>>, NoMemory>
    ensures value { IfOk result (λ order.
        option_map order_value order ≡ order_of (texts words.entry.now)) }
    ensures lawful { IfOk result (λ order. IfSome order IsLawful) }
{
    let Some((command, words)) = words.split_first() else {
        return Ok(None);
    };
    let command = command.as_str();
    if command == "replay" {
        return replay_order(alloc, words);
    }
    if command == "tile" {
        return tile_order(alloc, words);
    }
    if command == "serve" {
        return serve_order(alloc, words);
    }
    if command == "gen" {
        return gen_order(alloc, words);
    }
    Ok(None)
}

/// What the words after `replay` ask for.
fn replay_order<'a>(alloc: Global, words: &'a [String]) -> Result<Option<Order<'a>>, NoMemory>
    ensures value { IfOk result (λ order.
        option_map order_value order ≡ replay_order (texts words.entry.now)) }
    ensures lawful { IfOk result (λ order. IfSome order IsLawful) }
{
    match read(alloc, &[REPLAY_LIMIT.name, STANDARD.name, KEEP.name], words)? {
        Some(given) => Ok(replay_of(&given)),
        None => Ok(None),
    }
}

fn replay_of<'a>(given: &ArgMatches<'a>) -> Option<Order<'a>>
    ensures value { (all : GivenWords) → IsGiven given.now all
        → option_map order_value result ≡ replay_of all }
    ensures lawful { IfSome result IsLawful }
{
    if positional(given).is_some() {
        return None;
    }
    let limit = set_to(given, REPLAY_LIMIT)?;
    let standard = set_to(given, STANDARD)?;
    let keep = set_to(given, KEEP)?;
    Some(Order::Replay(ReplayCfg {
        limit,
        standard: standard as u32,
        keep: keep as u32,
    }))
}

/// What the words after `tile` ask for.
fn tile_order<'a>(alloc: Global, words: &'a [String]) -> Result<Option<Order<'a>>, NoMemory>
    ensures value { IfOk result (λ order.
        option_map order_value order ≡ tile_order (texts words.entry.now)) }
    ensures lawful { IfOk result (λ order. IfSome order IsLawful) }
{
    match read(alloc, &[SIDE.name], words)? {
        Some(given) => Ok(tile_of(&given)),
        None => Ok(None),
    }
}

fn tile_of<'a>(given: &ArgMatches<'a>) -> Option<Order<'a>>
    ensures value { (all : GivenWords) → IsGiven given.now all
        → option_map order_value result ≡ tile_of all }
    ensures lawful { IfSome result IsLawful }
{
    let words = positional(given)?;
    let [file, z, x, y] = words else {
        return None;
    };
    let file = named(file)?;
    let z = number(z, MOST_ZOOM)?;
    let x = number(x, LAST_TILE)?;
    let y = number(y, LAST_TILE)?;
    let side = side_of(given)?;
    let tile = Tile { z, x, y };
    Some(Order::Tile { file, tile, side })
}

/// What the words after `serve` ask for.
fn serve_order<'a>(alloc: Global, words: &'a [String]) -> Result<Option<Order<'a>>, NoMemory>
    ensures value { IfOk result (λ order.
        option_map order_value order ≡ serve_order (texts words.entry.now)) }
    ensures lawful { IfOk result (λ order. IfSome order IsLawful) }
{
    match read(
        alloc,
        &[
            CLIENTS.name,
            SERVE_LIMIT.name,
            SIDE.name,
            ENTRIES.name,
            ROUNDS.name,
            STANDARD.name,
            KEEP.name,
        ],
        words,
    )? {
        Some(given) => Ok(serve_of(&given)),
        None => Ok(None),
    }
}

fn serve_of<'a>(given: &ArgMatches<'a>) -> Option<Order<'a>>
    ensures value { (all : GivenWords) → IsGiven given.now all
        → option_map order_value result ≡ serve_of all }
    ensures lawful { IfSome result IsLawful }
{
    let words = positional(given)?;
    let [file] = words else {
        return None;
    };
    let file = named(file)?;
    let cfg = serve_cfg(given)?;
    Some(Order::Serve { file, cfg })
}

/// The settings of a served run.
fn serve_cfg(given: &ArgMatches<'_>) -> Option<ServeCfg>
    ensures value { (all : GivenWords) → IsGiven given.now all → result ≡ serve_cfg all }
    ensures lawful { IfSome result IsServeCfg }
{
    let clients = set_to(given, CLIENTS)?;
    let limit = set_to(given, SERVE_LIMIT)?;
    let side = side_of(given)?;
    let entries = set_to(given, ENTRIES)?;
    let rounds = set_to(given, ROUNDS)?;
    let standard = set_to(given, STANDARD)?;
    let keep = set_to(given, KEEP)?;
    Some(ServeCfg {
        clients: clients as u32,
        limit,
        side,
        entries: entries as u32,
        rounds: rounds as u32,
        standard: standard as u32,
        keep: keep as u32,
    })
}

/// What the words after `gen` ask for.
fn gen_order<'a>(alloc: Global, words: &'a [String]) -> Result<Option<Order<'a>>, NoMemory>
    ensures value { IfOk result (λ order.
        option_map order_value order ≡ gen_order (texts words.entry.now)) }
    ensures lawful { IfOk result (λ order. IfSome order IsLawful) }
{
    match read(alloc, &[], words)? {
        Some(given) => Ok(gen_of(&given)),
        None => Ok(None),
    }
}

fn gen_of<'a>(given: &ArgMatches<'a>) -> Option<Order<'a>>
    ensures value { (all : GivenWords) → IsGiven given.now all
        → option_map order_value result ≡ gen_of all }
    ensures lawful { IfSome result IsLawful }
{
    let words = positional(given)?;
    let [n] = words else {
        return None;
    };
    let n = number(n, MOST_DRAWN)?;
    Some(Order::Gen(u64::from(n)))
}

/// The name of a file, which is not empty.
fn named<'a>(word: &'a str) -> Option<&'a str>
    ensures { option_map (λ name. name.now) result ≡ named word.entry.now }
{
    if word.is_empty() { None } else { Some(word) }
}

/// The number that a word is, if it is at most this.
fn number(word: &str, most: u32) -> Option<u32>
    ensures value { result ≡ number_in word.now 0 most }
    ensures within { IfSome result (λ n. n ≤ most) }
{
    let number = read_number(word.as_bytes(), 0, u64::from(most))?;
    Some(number as u32)
}

/// The side of a tile that is asked for.
fn side_of(given: &ArgMatches<'_>) -> Option<u32>
    ensures value { (all : GivenWords) → IsGiven given.now all → result ≡ side_of all }
    ensures lawful { IfSome result IsSide }
{
    let side = set_to(given, SIDE)?;
    allowed_side(side)
}
