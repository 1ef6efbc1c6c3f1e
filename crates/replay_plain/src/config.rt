use line_text::MOST_LIMIT;

/// The settings of a replay.
#[derive(Clone, Copy, Debug, PartialEq, Eq)]
pub struct ReplayCfg {
    /// The limit of granted pages, from 0 to 1,048,576.
    pub limit: u64,
    /// How many pages a standard segment has, from 1 to 512.
    pub standard: u32,
    /// How many blocks the pool keeps, from 0 to 256.
    pub keep: u32,
}

impl Default for ReplayCfg {
    ghost use Rattle.replay_plain.specs.Config.{HoldsDefaults};

    ghost is_default = { HoldsDefaults };

    /// The settings where the words name none. No grant of a script passes this limit.
    fn default() -> ReplayCfg {
        ReplayCfg {
            limit: MOST_LIMIT,
            standard: 64,
            keep: 16,
        }
    }
}
