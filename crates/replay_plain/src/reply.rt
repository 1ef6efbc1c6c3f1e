//! The words of replies. Each function adds them to the end of a text, without the end of the line.
ghost use Rattle.std.specs.Prelude.{◌≡◌, ◌++◌, ◌≤◌, ◌^◌, OnOk, decimal, length};
ghost use Rattle.std.specs.List.{flat_map};
ghost use Rattle.hex.specs.Hex.{encode_lower};
ghost use Rattle.discard_book.specs.Text.{spaced_or_dash};
ghost use Rattle.replay_plain.specs.Replies.{answer_text, back_answer_text, purged_text, reduced_words, removed_words, granted_words, piece_words, freed_words, swept_words, released_words, run_words, runs_words};

use discard_book::Entry;
use itoa::{Buffer, Integer};
use machine::Answer;
use span_heap::{Run, Runs};
use units::NoMemory;

/// The words of an answer.
pub fn push_answer(text: &mut Vec<u8>, answer: Answer) -> Result<(), NoMemory>
    ensures { OnOk result (text.new.items ≡ text.old.items ++ answer_text answer) }
{
    match answer {
        Answer::Granted { id } => push_number(text, b"segment ", id),
        Answer::Held => push_words(text, b"held"),
        Answer::Gone => push_words(text, b"gone"),
        Answer::Idle { at } => push_number(text, b"idle ", at),
        Answer::StillHeld { pages } => push_number(text, b"held ", pages),
        Answer::Written => push_words(text, b"ok"),
        Answer::Taken => push_words(text, b"taken"),
        Answer::Used { known } => push_number(text, b"used ", known),
        Answer::Counted => push_words(text, b"counted"),
        Answer::Purged => push_words(text, b"purged"),
        Answer::Misuse => push_words(text, b"misuse"),
    }
}

/// The words of the answer to a return: `unknown` where it is misuse.
pub fn push_back_answer(text: &mut Vec<u8>, answer: Answer) -> Result<(), NoMemory>
    ensures { OnOk result (text.new.items ≡ text.old.items ++ back_answer_text answer) }
{
    match answer {
        Answer::Misuse => push_words(text, b"unknown"),
        other => push_answer(text, other),
    }
}

/// The words of a reduction: the granted pages after it, the least known use or a dash, and the
/// number of each segment that was purged by the entries that it added.
pub fn push_reduced(
    text: &mut Vec<u8>,
    after: u128,
    least: Option<u64>,
    added: &[Entry],
) -> Result<(), NoMemory>
    ensures { OnOk result (text.new.items ≡ text.old.items ++ reduced_words after least added.now) }
{
    push_number(text, b"reduced ", after)?;
    push_number_or_dash(text, least)?;
    push_purged(text, added)
}

/// A space and the number of each segment that these entries purge, in order.
fn push_purged(text: &mut Vec<u8>, entries: &[Entry]) -> Result<(), NoMemory>
    ensures { OnOk result (text.new.items ≡ text.old.items ++ flat_map purged_text entries.now) }
{
    for entry in entries {
        push_purge(text, entry)?;
    }
    Ok(())
}

/// A space and the number of the segment that an entry purges, or nothing for another entry.
fn push_purge(text: &mut Vec<u8>, entry: &Entry) -> Result<(), NoMemory>
    ensures { OnOk result (text.new.items ≡ text.old.items ++ purged_text entry.now) }
{
    match *entry {
        Entry::Purge { id, .. } => push_number(text, b" ", id),
        _ => Ok(()),
    }
}

/// The words of the removal of a client: how many segments were counted off.
pub fn push_removed(text: &mut Vec<u8>, count: u64) -> Result<(), NoMemory>
    ensures { OnOk result (text.new.items ≡ text.old.items ++ removed_words count) }
{
    push_number(text, b"removed ", count)
}

/// The words of the answer to the question for the granted pages.
pub fn push_granted(text: &mut Vec<u8>, pages: u128) -> Result<(), NoMemory>
    ensures { OnOk result (text.new.items ≡ text.old.items ++ granted_words pages) }
{
    push_number(text, b"granted ", pages)
}

/// The words of a piece: its number, whether free pages served it or a new segment, and its pages.
pub fn push_piece(text: &mut Vec<u8>, number: u64, old: bool, run: Run) -> Result<(), NoMemory>
    ensures { OnOk result (text.new.items ≡ text.old.items ++ piece_words number old run) }
{
    push_number(text, b"piece ", number)?;
    push_words(text, if old { b" old" } else { b" new" })?;
    push_number(text, b" ", run.segment)?;
    push_number(text, b" ", run.first)?;
    push_number(text, b" ", run.pages)
}

/// The words of a freed piece: whether its segment was still its client's.
pub fn push_freed(text: &mut Vec<u8>, there: bool) -> Result<(), NoMemory>
    ensures { OnOk result (text.new.items ≡ text.old.items ++ freed_words there) }
{
    if there {
        push_words(text, b"freed")
    } else {
        push_words(text, b"dead")
    }
}

/// The words of a sweep: how many segments were found gone.
pub fn push_swept(text: &mut Vec<u8>, count: u64) -> Result<(), NoMemory>
    ensures { OnOk result (text.new.items ≡ text.old.items ++ swept_words count) }
{
    push_number(text, b"swept ", count)
}

/// The words of a release: how many segments were counted off.
pub fn push_released(text: &mut Vec<u8>, count: u64) -> Result<(), NoMemory>
    ensures { OnOk result (text.new.items ≡ text.old.items ++ released_words count) }
{
    push_number(text, b"released ", count)
}

/// The words of free runs, the oldest first.
pub fn push_runs(text: &mut Vec<u8>, runs: &Runs) -> Result<(), NoMemory>
    ensures { OnOk result (text.new.items ≡ text.old.items ++ runs_words runs.now) }
{
    push_words(text, b"runs")?;
    for place in 0..runs.len() {
        if let Some(run) = runs.get(place) {
            push_run(text, run)?;
        }
    }
    Ok(())
}

/// A free run, behind a space: its segment, its first page and its pages.
fn push_run(text: &mut Vec<u8>, run: Run) -> Result<(), NoMemory>
    ensures { OnOk result (text.new.items ≡ text.old.items ++ run_words run) }
{
    push_number(text, b" ", run.segment)?;
    push_number(text, b":", run.first)?;
    push_number(text, b"+", run.pages)
}

/// Bytes in lower-case hexadecimal digits.
pub fn push_hex(text: &mut Vec<u8>, bytes: &[u8]) -> Result<(), NoMemory>
    requires { length bytes.now ≤ 2 ^ 32 }
    ensures { OnOk result (text.new.items ≡ text.old.items ++ encode_lower bytes.now) }
{
    let start = text.len();
    text.resize(start + 2 * bytes.len(), 0)?;
    let _ = hex::encode_to_slice(bytes, &mut text[start..]);
    Ok(())
}

fn push_words(text: &mut Vec<u8>, words: &[u8]) -> Result<(), NoMemory>
    ensures { OnOk result (text.new.items ≡ text.old.items ++ words.now) }
{
    Ok(text.extend_from_slice(words)?)
}

/// These words, and a number behind them.
fn push_number<I: Integer>(text: &mut Vec<u8>, words: &[u8], number: I) -> Result<(), NoMemory>
    ensures { OnOk result (text.new.items ≡ text.old.items ++ (words.now ++ I.text number)) }
{
    push_words(text, words)?;
    let mut buffer = Buffer::new();
    push_words(text, buffer.format(number).as_bytes())
}

/// A space and a number, or a dash where there is none.
fn push_number_or_dash(text: &mut Vec<u8>, number: Option<u64>) -> Result<(), NoMemory>
    ensures { OnOk result (text.new.items ≡ text.old.items ++ spaced_or_dash number) }
{
    match number {
        Some(number) => push_number(text, b" ", number),
        None => push_words(text, b" -"),
    }
}
