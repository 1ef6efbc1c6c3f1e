use std::collections::LinkedList;

/// What the owner knows of its segment. New is its stage while the segment is made.
#[derive(Clone, Copy)]
pub enum Stage {
    New,
    Held,
    Idle,
    Gone,
}

/// What the owner knows. No value of it is made: it is the meaning of a seat.
pub struct OwnerView {
    pub id: u64,
    pub pages: u32,
    pub phase: Stage,
    /// The stamp of the last unlock, or 0.
    pub last: u64,
    /// The bytes left at the last unlock.
    pub left: LinkedList<u8>,
    /// Whether the warden has a seat.
    pub apart: bool,
    /// How many steps it has made on the word.
    pub steps: u64,
}

/// What the warden knows. No value of it is made: it is the meaning of a seat.
pub struct WardenView {
    pub id: u64,
    pub pages: u32,
    /// Its tries, the latest first, each with its moment and the word that it found.
    pub tries: LinkedList<(u64, u64)>,
    /// Whether it has taken the block.
    pub taken: bool,
}

/// What a seat knows.
pub enum View {
    Owner(OwnerView),
    Warden(WardenView),
}
