/// The settings of a served run.
#[derive(Clone, Copy, PartialEq, Eq)]
pub struct ServeCfg {
    /// How many clients there are, from 1 to 64.
    pub clients: u32,
    /// The limit of granted pages, from 0 to 1,048,576.
    pub limit: u64,
    /// A tile's side in pixels: 64, 128 or 256.
    pub side: u32,
    /// How many tiles a client's cache has, from 1 to 4,096.
    pub entries: u32,
    /// How often the limit is enforced beside the clients, from 0 to 1,000.
    pub rounds: u32,
    /// How many pages a standard segment has, from 1 to 512.
    pub standard: u32,
    /// How many blocks the pool keeps, from 0 to 256.
    pub keep: u32,
}

impl Default for ServeCfg {
    ghost use Rattle.serve_texts.specs.Config.{HoldsDefaults};

    ghost is_default = { HoldsDefaults };

    /// The settings where the words name none.
    fn default() -> ServeCfg {
        ServeCfg {
            clients: 4,
            limit: 16_384,
            side: 256,
            entries: 256,
            rounds: 0,
            standard: 64,
            keep: 16,
        }
    }
}
