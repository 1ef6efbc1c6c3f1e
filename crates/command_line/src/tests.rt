use crate::{Order, order_of};
use replay_plain::ReplayCfg;
use serve_texts::ServeCfg;
use std::alloc::Global;
use std::test::Fail;
use tile_source::Tile;

/// The words that stand between single spaces, none in an empty text.
fn cut(alloc: Global, text: &str) -> Result<Vec<String>, Fail> {
    let mut words = Vec::new(alloc);
    if !text.is_empty() {
        for word in text.split(' ') {
            words.push(word.to_string(alloc)?)?;
        }
    }
    Ok(words)
}

/// Whether these words ask for a replay with this limit and standard size, and keep this many blocks.
fn replays(alloc: Global, text: &str, limit: u64, standard: u32, keep: u32) -> Result<bool, Fail> {
    let words = cut(alloc, text)?;
    let wanted = ReplayCfg {
        limit,
        standard,
        keep,
    };
    Ok(match order_of(alloc, &words)? {
        Some(Order::Replay(cfg)) => cfg == wanted,
        _ => false,
    })
}

/// Whether these words ask for this tile of the file `a.pgm`, with this side.
fn is_tile(alloc: Global, text: &str, wanted: Tile, pixels: u32) -> Result<bool, Fail> {
    let words = cut(alloc, text)?;
    Ok(match order_of(alloc, &words)? {
        Some(Order::Tile { file, tile, side }) => {
            file == "a.pgm" && tile == wanted && side == pixels
        }
        _ => false,
    })
}

/// Whether these words ask to serve the file `a.pgm` with these settings.
fn serves(alloc: Global, text: &str, wanted: ServeCfg) -> Result<bool, Fail> {
    let words = cut(alloc, text)?;
    Ok(match order_of(alloc, &words)? {
        Some(Order::Serve { file, cfg }) => file == "a.pgm" && cfg == wanted,
        _ => false,
    })
}

fn is_refused(alloc: Global, text: &str) -> Result<bool, Fail> {
    let words = cut(alloc, text)?;
    Ok(order_of(alloc, &words)?.is_none())
}

#[test]
fn lawful_words_ask(rt: HostRuntime) -> Result<(), Fail> {
    let alloc = rt.alloc();
    let last = Tile {
        z: 6,
        x: 65535,
        y: 0,
    };
    assert!(rt;
        replays(alloc, "replay", 1_048_576, 64, 16)?
            && replays(alloc, "replay --keep=0 --limit 7 --standard 2 --", 7, 2, 0)?
            && is_tile(alloc, "tile a.pgm 6 65535 0", last, 256)?
            && is_tile(alloc, "tile --side 64 -- a.pgm 6 65535 0", last, 64)?
    );
    let settings = ServeCfg {
        rounds: 1000,
        entries: 1,
        ..ServeCfg::default()
    };
    assert!(rt; serves(alloc, "serve --rounds=1000 a.pgm --entries 1", settings)?);
    let words = cut(alloc, "gen 999999")?;
    assert!(rt; matches!(order_of(alloc, &words)?, Some(Order::Gen(999_999))));
    Ok(())
}

#[test]
fn other_words_are_refused(rt: HostRuntime) -> Result<(), Fail> {
    for text in [
        "",
        "--help",
        "replay x",
        "replay --help",
        "replay -h",
        "replay --limit",
        "replay --limit=",
        "replay --limit --",
        "replay --limit 04",
        "replay --limit -4",
        "replay --limit 1048577",
        "replay --lim 4",
        "replay --keep 4 --keep=4",
        "replay --standard 513",
        "tile a.pgm 0 0",
        "tile -- a.pgm 0 0 0 0",
        "tile a.pgm 0 0 0 --side 100",
        "serve",
        "serve a.pgm --clients 65",
        "gen 1000000",
        "gen 0 --limit 4",
    ] {
        assert!(rt; is_refused(rt.alloc(), text)?);
    }
    Ok(())
}
