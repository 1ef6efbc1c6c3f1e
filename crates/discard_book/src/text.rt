ghost use Rattle.std.specs.Prelude.{◌≡◌, ℕ, List, [], ◌∷◌, ◌++◌, IfOk, OnOk};
ghost use Rattle.discard_book.specs.Text.{spaced_or_dash, words_of, line_of, text_of};

use crate::entry::Entry;
use itoa::{Buffer, Integer};
use std::alloc::Global;
use units::NoMemory;

/// The text of some entries: for each a line, ended by LF, in their order. A Grant's line is
/// `grant ID CLIENT PAGES LIMIT`, a reduction's is `reduced LIMIT NOW AFTER LEAST` with `-` where
/// no segment is live, and the others are `purge ID KNOWN` and `back ID`.
pub fn book_text(alloc: Global, entries: &[Entry]) -> Result<Vec<u8>, NoMemory>
    ensures { IfOk result (λ text. text.items ≡ text_of entries.now) }
{
    let mut text = Vec::new(alloc);
    for entry in entries {
        push_line(&mut text, entry)?;
    }
    Ok(text)
}

/// Appends the line of an entry.
fn push_line(text: &mut Vec<u8>, entry: &Entry) -> Result<(), NoMemory>
    ensures { OnOk result (text.new.items ≡ text.old.items ++ line_of entry.now) }
{
    push_words(text, entry)?;
    text.push(b'\n')?;
    Ok(())
}

/// Appends the words of an entry.
fn push_words(text: &mut Vec<u8>, entry: &Entry) -> Result<(), NoMemory>
    ensures { OnOk result (text.new.items ≡ text.old.items ++ words_of entry.now) }
{
    match *entry {
        Entry::Grant {
            id,
            client,
            pages,
            limit,
        } => {
            text.extend_from_slice(b"grant")?;
            push_number(text, id)?;
            push_number(text, client)?;
            push_number(text, pages)?;
            push_number(text, limit)
        }
        Entry::Reduced {
            limit,
            now,
            after,
            least,
        } => {
            text.extend_from_slice(b"reduced")?;
            push_number(text, limit)?;
            push_number(text, now)?;
            push_number(text, after)?;
            push_number_or_dash(text, least)
        }
        Entry::Purge { id, known } => {
            text.extend_from_slice(b"purge")?;
            push_number(text, id)?;
            push_number(text, known)
        }
        Entry::Back { id } => {
            text.extend_from_slice(b"back")?;
            push_number(text, id)
        }
    }
}

/// Appends a space and a number.
fn push_number<I: Integer>(text: &mut Vec<u8>, number: I) -> Result<(), NoMemory>
    ensures { OnOk result (text.new.items ≡ text.old.items ++ 32 ∷ I.text number) }
{
    let mut buffer = Buffer::new();
    text.push(b' ')?;
    text.extend_from_slice(buffer.format(number).as_bytes())?;
    Ok(())
}

/// Appends a space and a number, or a dash where there is none.
fn push_number_or_dash(text: &mut Vec<u8>, number: Option<u64>) -> Result<(), NoMemory>
    ensures { OnOk result (text.new.items ≡ text.old.items ++ spaced_or_dash number) }
{
    match number {
        Some(number) => push_number(text, number),
        None => {
            text.extend_from_slice(b" -")?;
            Ok(())
        }
    }
}
