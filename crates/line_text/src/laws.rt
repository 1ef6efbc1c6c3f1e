ghost use Rattle.line_text.specs.Laws.{EachNumberHasOneSpelling};

/// A word is a number exactly where it is how that number is written in decimal digits, and the
/// number is below 2^64. So each number has one spelling, and what is written is read again.
pub fn law_one_spelling()
    ensures { EachNumberHasOneSpelling }
{}
