//! The options: their names, ranges and defaults.

ghost use Rattle.std.specs.Prelude.{◌≡◌, ◌≤◌, option_map, IfSome};
ghost use Rattle.command_line.specs.Settings.{number_or, allowed_side};
ghost use Rattle.serve_texts.specs.Config.{IsSide};

use line_text::{MOST_CLIENTS, MOST_LIMIT, MOST_SEGMENT_PAGES, read_number};
use serve_texts::{MOST_ENTRIES, MOST_KEPT, MOST_ROUNDS};

/// An option whose value is a number.
#[derive(Clone, Copy)]
pub(crate) struct Setting {
    /// Its name, which stands after `--`.
    pub(crate) name: &'static str,
    pub(crate) least: u64,
    pub(crate) most: u64,
    /// Its number where the words name none.
    pub(crate) default: u64,
}

/// The limit in pages of the manager of a replay.
pub(crate) const REPLAY_LIMIT: Setting = Setting {
    name: "limit",
    least: 0,
    most: MOST_LIMIT,
    default: MOST_LIMIT,
};

/// The limit in pages of the manager of a served run.
pub(crate) const SERVE_LIMIT: Setting = Setting {
    name: "limit",
    least: 0,
    most: MOST_LIMIT,
    default: 16_384,
};

/// How many pages a standard segment has.
pub(crate) const STANDARD: Setting = Setting {
    name: "standard",
    least: 1,
    most: MOST_SEGMENT_PAGES,
    default: 64,
};

/// How many blocks the pool keeps.
pub(crate) const KEEP: Setting = Setting {
    name: "keep",
    least: 0,
    most: MOST_KEPT as u64,
    default: 16,
};

/// How many clients there are.
pub(crate) const CLIENTS: Setting = Setting {
    name: "clients",
    least: 1,
    most: MOST_CLIENTS,
    default: 4,
};

/// How many pixels a side of a tile has. It is 64, 128 or 256.
pub(crate) const SIDE: Setting = Setting {
    name: "side",
    least: 64,
    most: 256,
    default: 256,
};

/// How many tiles a client's cache has.
pub(crate) const ENTRIES: Setting = Setting {
    name: "entries",
    least: 1,
    most: MOST_ENTRIES as u64,
    default: 256,
};

/// How often the limit is enforced beside the clients.
pub(crate) const ROUNDS: Setting = Setting {
    name: "rounds",
    least: 0,
    most: MOST_ROUNDS as u64,
    default: 0,
};

impl Setting {
    /// The number that a value is, or the default where there is no value. None where the value is
    /// no number in the range.
    pub(crate) fn number(self, value: Option<&str>) -> Option<u64>
        requires { (self.least ≤ self.default) × (self.default ≤ self.most) }
        ensures value { result ≡ number_or self.least self.most self.default
            (option_map (λ word. word.now) value.entry) }
        ensures within { IfSome result (λ n. (self.least ≤ n) × (n ≤ self.most)) }
    {
        match value {
            None => Some(self.default),
            Some(word) => read_number(word.as_bytes(), self.least, self.most),
        }
    }
}

/// The side of a tile, where a number is one.
pub(crate) fn allowed_side(side: u64) -> Option<u32>
    ensures value { result ≡ allowed_side side }
    ensures lawful { IfSome result IsSide }
{
    match side {
        64 => Some(64),
        128 => Some(128),
        256 => Some(256),
        _ => None,
    }
}
