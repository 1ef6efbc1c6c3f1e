ghost use Rattle.std.specs.Prelude.{◌≡◌};
ghost use Rattle.units.specs.Moment.{IsMoment};
ghost use Rattle.machine.specs.Word.{word_of, Held, Idle, Gone};
ghost use Rattle.segment_rule.specs.Words.{Reads};

use units::LAST_MOMENT;

/// What a word tells.
#[derive(Clone, Copy, Debug, PartialEq, Eq)]
pub enum State {
    /// Some page is held.
    Held,
    /// No page is held since this moment.
    Idle { at: u64 },
    /// The segment was purged.
    Gone,
}

/// The word of a held segment.
pub fn locked() -> u64
    ensures { result ≡ word_of Held }
{
    1
}

/// The word of a segment that is idle since a moment.
pub fn unlocked(at: u64) -> u64
    requires { IsMoment at }
    ensures { result ≡ word_of (Idle at) }
{
    2 * at
}

/// The word of a purged segment.
pub fn purged() -> u64
    ensures { result ≡ word_of Gone }
{
    0
}

/// What a number tells as a word: none exactly where it is the word of no state, as an odd number
/// other than 1 is, and an even one past twice the last moment.
pub fn read_word(word: u64) -> Option<State>
    ensures { Reads word result }
{
    match word {
        0 => Some(State::Gone),
        1 => Some(State::Held),
        _ if word % 2 == 0 && word / 2 <= LAST_MOMENT => Some(State::Idle { at: word / 2 }),
        _ => None,
    }
}
