//! Records as texts, which are made only where two of them differ.
ghost use Rattle.std.specs.Prelude.{◌≡◌, ◌≢◌, ◌↔◌, true, IfOk, IfSome, All};
ghost use Rattle.replay_plain.specs.Records.{record_text};
ghost use Rattle.replay_real.specs.Standing.{IsOneLine};
ghost use Rattle.replay_run.specs.Fitting.{IsShort, Fits};
ghost use Rattle.replay_run.specs.Telling.{Tells};

use crate::differ::Differ;
use discard_book::{Entry, book_text};
use std::alloc::Global;
use units::{Bytes, NoMemory};

/// Tells a difference: the reply and the added entries of the real run, and those of the plain one.
pub(crate) fn tell(
    alloc: Global,
    place: u64,
    words: &[u8],
    more: &[Entry],
    reply: &[u8],
    added: &[Entry],
) -> Result<Differ, NoMemory>
    ensures { IfOk result (λ differ. Tells differ place words.now more.now reply.now added.now) }
{
    fit(more);
    fit(added);
    Ok(Differ {
        place,
        real: record(alloc, words, more)?,
        plain: record(alloc, reply, added)?,
    })
}

/// A reply as a line, and then a line for each entry.
fn record(alloc: Global, reply: &[u8], entries: &[Entry]) -> Result<Bytes, NoMemory>
    ensures { IfOk result (λ text. text ≡ record_text reply.now entries.now) }
{
    let lines = book_text(alloc, entries)?;
    let mut text = Vec::new(alloc);
    text.extend_from_slice(reply)?;
    text.push(b'\n')?;
    text.extend_from_slice(lines.as_slice())?;
    Ok(Bytes::from_vec(text))
}

/// The numbers of entries have the lengths of their types.
fn fit(entries: &[Entry])
    ensures { All Fits entries.now }
{
    for entry in entries {
        fits(entry);
    }
}

/// The numbers of an entry have the lengths of their types.
fn fits(entry: &Entry)
    ensures { Fits entry.now }
{
    match *entry {
        Entry::Grant {
            id,
            client,
            pages,
            limit,
        } => {
            is_short(u128::from(id));
            is_short(u128::from(client));
            is_short(u128::from(pages));
            is_short(u128::from(limit));
        }
        Entry::Reduced {
            limit,
            now,
            after,
            least,
        } => {
            is_short(u128::from(limit));
            is_short(u128::from(now));
            is_short(after);
            is_short_if_some(least);
        }
        Entry::Purge { id, known } => {
            is_short(u128::from(id));
            is_short(u128::from(known));
        }
        Entry::Back { id } => is_short(u128::from(id)),
    }
}

fn is_short(_number: u128)
    ensures { IsShort _number }
{}

fn is_short_if_some(number: Option<u64>)
    ensures { IfSome number IsShort }
{
    if let Some(number) = number {
        is_short(u128::from(number));
    }
}

/// Whether two lists of entries are the same.
pub(crate) fn same_entries(some: &[Entry], others: &[Entry]) -> bool
    ensures { (result ≡ true) ↔ (some.now ≡ others.now) }
{
    some == others
}

/// Whether two entries are the same.
pub(crate) fn same_entry(some: &Entry, other: &Entry) -> bool
    ensures { (result ≡ true) ↔ (some.now ≡ other.now) }
{
    *some == *other
}

/// Whether two replies are the same.
pub(crate) fn same_words(some: &[u8], others: &[u8]) -> bool
    ensures { (result ≡ true) ↔ (some.now ≡ others.now) }
{
    some == others
}
