ghost use Rattle.std.specs.Prelude.{◌≡◌, ◌++◌, IfOk, OnOk};
ghost use Rattle.serve_texts.specs.Report.{asked_words, shown_words, tally_line, tally_lines, granted_line, report};

use crate::tally::Tally;
use discard_book::Book;
use itoa::{Buffer, Integer};
use std::alloc::Global;
use units::NoMemory;

/// The report of a served run: the text of the manager's book, then a line for each client, and
/// then how many pages are granted. Each line ends with LF.
///
/// A client's line is `client C requests N first A kept B rebuilt R again G grants H`, and the last
/// line is `granted N`.
pub fn report_bytes(
    alloc: Global,
    book: &Book,
    tallies: &[Tally],
    granted: u128,
) -> Result<Vec<u8>, NoMemory>
    ensures { IfOk result (λ text. text.items ≡ report book.now.entries tallies.now granted) }
{
    let mut text = book.text(alloc)?;
    push_tallies(&mut text, tallies)?;
    push_granted(&mut text, granted)?;
    Ok(text)
}

fn push_tallies(text: &mut Vec<u8>, tallies: &[Tally]) -> Result<(), NoMemory>
    ensures { OnOk result (text.new.items ≡ text.old.items ++ tally_lines tallies.now) }
{
    for tally in tallies {
        push_tally(text, tally)?;
    }
    Ok(())
}

fn push_tally(text: &mut Vec<u8>, tally: &Tally) -> Result<(), NoMemory>
    ensures { OnOk result (text.new.items ≡ text.old.items ++ tally_line tally.now) }
{
    push_asked(text, tally)?;
    push_shown(text, tally)?;
    push_told(text, b" grants ", tally.grants)?;
    text.push(b'\n')?;
    Ok(())
}

/// Appends who asked, and how often.
fn push_asked(text: &mut Vec<u8>, tally: &Tally) -> Result<(), NoMemory>
    ensures { OnOk result (text.new.items ≡ text.old.items ++ asked_words tally.now) }
{
    push_told(text, b"client ", tally.client)?;
    push_told(text, b" requests ", tally.requests)
}

/// Appends how the tiles were come by.
fn push_shown(text: &mut Vec<u8>, tally: &Tally) -> Result<(), NoMemory>
    ensures { OnOk result (text.new.items ≡ text.old.items ++ shown_words tally.now) }
{
    push_told(text, b" first ", tally.first)?;
    push_told(text, b" kept ", tally.kept)?;
    push_told(text, b" rebuilt ", tally.rebuilt)?;
    push_told(text, b" again ", tally.again)
}

fn push_granted(text: &mut Vec<u8>, granted: u128) -> Result<(), NoMemory>
    ensures { OnOk result (text.new.items ≡ text.old.items ++ granted_line granted) }
{
    push_told(text, b"granted ", granted)?;
    text.push(b'\n')?;
    Ok(())
}

/// Appends what a number is, and the number.
fn push_told<I: Integer>(text: &mut Vec<u8>, name: &[u8], number: I) -> Result<(), NoMemory>
    ensures { OnOk result (text.new.items ≡ text.old.items ++ name.now ++ I.text number) }
{
    let mut buffer = Buffer::new();
    text.extend_from_slice(name)?;
    text.extend_from_slice(buffer.format(number).as_bytes())?;
    Ok(())
}
