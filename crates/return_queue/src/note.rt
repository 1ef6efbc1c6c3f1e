use block_pool::Block;

/// A segment that a client gives back, by its number, and its block where the client holds it.
#[derive(Drop)]
pub struct Note {
    pub client: u32,
    pub id: u64,
    pub block: Option<Block>,
}
