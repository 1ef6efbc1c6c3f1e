use replay_plain::ReplayCfg;
use serve_texts::ServeCfg;
use tile_source::Tile;

/// What the words of the command line ask for.
#[derive(Clone, Copy)]
pub enum Order<'a> {
    /// A script from the input is run.
    Replay(ReplayCfg),
    /// One tile of the image in a file is written.
    Tile {
        file: &'a str,
        tile: Tile,
        side: u32,
    },
    /// Tiles of the image in a file are served, as the requests in the input ask.
    Serve {
        file: &'a str,
        cfg: ServeCfg,
    },
    /// A workload is drawn from this number, and served.
    Gen(u64),
}
