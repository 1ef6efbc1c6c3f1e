use units::Bytes;

/// The first command at which the two runs of a script gave different records. A record is the
/// reply as a line, and then a line for each entry that the command added to the book.
#[derive(Debug, Drop)]
pub struct Differ {
    /// The line of the command.
    pub place: u64,
    /// The record of the real run.
    pub real: Bytes,
    /// The record of the plain run.
    pub plain: Bytes,
}
