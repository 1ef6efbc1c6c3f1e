ghost use Rattle.std.specs.Prelude.{◌≡◌};
ghost use Rattle.line_text.specs.Refusals.{cause_number};

/// Why a script or a request file is refused.
#[derive(Clone, Copy)]
pub enum Cause {
    /// The first word of the line is no command, or the word after `pressure` is neither `moderate`
    /// nor `critical`.
    Word,
    /// The line has too few words for its command, or too many.
    Count,
    /// A word that stands for a number is no number, or is out of its range.
    Number,
    /// A word that stands for bytes is not an even number of hexadecimal digits, from 2 to 8192.
    Bytes,
    /// The line is the 4,097th command or request, or the 1,025th command that may be granted a
    /// segment.
    Many,
    /// The text has more than 1,048,576 bytes.
    Long,
}

impl Cause {
    /// The number by which a report tells it, from 1 to 6 in the order of the variants.
    pub fn number(self) -> u32
        ensures { result ≡ cause_number self }
    {
        match self {
            Cause::Word => 1,
            Cause::Count => 2,
            Cause::Number => 3,
            Cause::Bytes => 4,
            Cause::Many => 5,
            Cause::Long => 6,
        }
    }
}
