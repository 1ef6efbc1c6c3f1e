ghost use Rattle.std.specs.Prelude.{◌≡◌, ◌≢◌, [], ◌∷◌, length, IfOk, IfErr};
ghost use Rattle.line_text.specs.Lines.{words_of, HasNoWord, HasFirstWord};
ghost use Rattle.line_text.specs.Refusals.{number};
ghost use Rattle.script_text.specs.Script.{segment, client, moment, first_page, page_count, byte_place, byte_count, grant, lock, unlock, write, read, try_purge, back, reduce, enforce, pressure, limit, remove, granted, page_limit, is_critical, piece_size, piece, alloc, piece_lock, piece_unlock, piece_write, piece_read, piece_free, sweep, release, runs, manager_command, piece_command, command_of, Gives};
ghost use Rattle.line_text.specs.declared.cause.Cause.TheVariants.{Count};

use crate::command::Command;
use crate::fault::LineFault;
use line_text::{
    Cause, MOST_CLIENTS, MOST_LIMIT, MOST_MOVED_BYTES, MOST_SEGMENT_PAGES, read_hex, read_number,
    split_word,
};
use std::alloc::Global;
use units::{LAST_MOMENT, PAGE};

fn next_word(line: &[u8]) -> Result<(&[u8], &[u8]), Cause>
    ensures ok { IfOk result (λ word. HasFirstWord line.now word.0.now word.1.now) }
    ensures err { IfErr result (λ why. (why ≡ Count) × HasNoWord line.now) }
{
    split_word(line).ok_or(Cause::Count)
}

fn one_word(line: &[u8]) -> Result<&[u8], Cause>
    ensures ok { IfOk result (λ word. words_of line.now ≡ word.now ∷ []) }
    ensures err { IfErr result (λ why. (why ≡ Count) × (length (words_of line.now) ≢ 1)) }
{
    let (word, rest) = next_word(line)?;
    match split_word(rest) {
        None => Ok(word),
        Some(_) => Err(Cause::Count),
    }
}

fn two_words(line: &[u8]) -> Result<(&[u8], &[u8]), Cause>
    ensures ok { IfOk result (λ words. words_of line.now ≡ words.0.now ∷ words.1.now ∷ []) }
    ensures err { IfErr result (λ why. (why ≡ Count) × (length (words_of line.now) ≢ 2)) }
{
    let (first, rest) = next_word(line)?;
    let second = one_word(rest)?;
    Ok((first, second))
}

fn three_words(line: &[u8]) -> Result<(&[u8], &[u8], &[u8]), Cause>
    ensures ok { IfOk result (λ words. words_of line.now
        ≡ words.0.now ∷ words.1.now ∷ words.2.now ∷ []) }
    ensures err { IfErr result (λ why. (why ≡ Count) × (length (words_of line.now) ≢ 3)) }
{
    let (first, rest) = next_word(line)?;
    let (second, third) = two_words(rest)?;
    Ok((first, second, third))
}

fn four_words(line: &[u8]) -> Result<(&[u8], &[u8], &[u8], &[u8]), Cause>
    ensures ok { IfOk result (λ words. words_of line.now
        ≡ words.0.now ∷ words.1.now ∷ words.2.now ∷ words.3.now ∷ []) }
    ensures err { IfErr result (λ why. (why ≡ Count) × (length (words_of line.now) ≢ 4)) }
{
    let (first, rest) = next_word(line)?;
    let (second, third, fourth) = three_words(rest)?;
    Ok((first, second, third, fourth))
}

fn number(word: &[u8], least: u64, most: u64) -> Result<u64, Cause>
    ensures { result ≡ number word.now least most }
{
    read_number(word, least, most).ok_or(Cause::Number)
}

fn segment(word: &[u8]) -> Result<u64, Cause>
    ensures { result ≡ segment word.now }
{
    number(word, 0, u64::MAX)
}

fn client(word: &[u8]) -> Result<u64, Cause>
    ensures { result ≡ client word.now }
{
    number(word, 1, MOST_CLIENTS)
}

fn moment(word: &[u8]) -> Result<u64, Cause>
    ensures { result ≡ moment word.now }
{
    number(word, 1, LAST_MOMENT)
}

fn first_page(word: &[u8]) -> Result<u64, Cause>
    ensures { result ≡ first_page word.now }
{
    number(word, 0, MOST_SEGMENT_PAGES - 1)
}

fn page_count(word: &[u8]) -> Result<u64, Cause>
    ensures { result ≡ page_count word.now }
{
    number(word, 1, MOST_SEGMENT_PAGES)
}

fn page_limit(word: &[u8]) -> Result<u64, Cause>
    ensures { result ≡ page_limit word.now }
{
    number(word, 0, MOST_LIMIT)
}

fn is_critical(word: &[u8]) -> Result<bool, Cause>
    ensures { result ≡ is_critical word.now }
{
    if word == b"critical".as_slice() {
        Ok(true)
    } else if word == b"moderate".as_slice() {
        Ok(false)
    } else {
        Err(Cause::Word)
    }
}

fn byte_place(word: &[u8]) -> Result<u64, Cause>
    ensures { result ≡ byte_place word.now }
{
    number(word, 0, MOST_SEGMENT_PAGES * PAGE - 1)
}

fn piece_size(word: &[u8]) -> Result<u64, Cause>
    ensures { result ≡ piece_size word.now }
{
    number(word, 0, MOST_SEGMENT_PAGES * PAGE)
}

fn piece(word: &[u8]) -> Result<u64, Cause>
    ensures { result ≡ piece word.now }
{
    number(word, 0, u64::MAX)
}

fn byte_count(word: &[u8]) -> Result<u64, Cause>
    ensures { result ≡ byte_count word.now }
{
    number(word, 1, MOST_MOVED_BYTES)
}

fn grant(words: &[u8]) -> Result<Command, Cause>
    ensures { result ≡ grant (words_of words.now) }
{
    let (owner, pages, at) = three_words(words)?;
    Ok(Command::Grant {
        client: client(owner)?,
        pages: page_count(pages)?,
        at: moment(at)?,
    })
}

fn lock(words: &[u8]) -> Result<Command, Cause>
    ensures { result ≡ lock (words_of words.now) }
{
    let (id, first, count) = three_words(words)?;
    Ok(Command::Lock {
        id: segment(id)?,
        first: first_page(first)?,
        count: page_count(count)?,
    })
}

fn unlock(words: &[u8]) -> Result<Command, Cause>
    ensures { result ≡ unlock (words_of words.now) }
{
    let (id, first, count, at) = four_words(words)?;
    Ok(Command::Unlock {
        id: segment(id)?,
        first: first_page(first)?,
        count: page_count(count)?,
        at: moment(at)?,
    })
}

fn write(alloc: Global, words: &[u8]) -> Result<Command, LineFault>
    ensures { Gives result (write (words_of words.now)) }
{
    let (id, place, bytes) = three_words(words)?;
    let id = segment(id)?;
    let place = byte_place(place)?;
    let bytes = read_hex(alloc, bytes)?.ok_or(Cause::Bytes)?;
    Ok(Command::Write { id, place, bytes })
}

fn read(words: &[u8]) -> Result<Command, Cause>
    ensures { result ≡ read (words_of words.now) }
{
    let (id, place, count) = three_words(words)?;
    Ok(Command::Read {
        id: segment(id)?,
        place: byte_place(place)?,
        count: byte_count(count)?,
    })
}

fn try_purge(words: &[u8]) -> Result<Command, Cause>
    ensures { result ≡ try_purge (words_of words.now) }
{
    let (id, at) = two_words(words)?;
    Ok(Command::Try {
        id: segment(id)?,
        at: moment(at)?,
    })
}

fn back(words: &[u8]) -> Result<Command, Cause>
    ensures { result ≡ back (words_of words.now) }
{
    let id = one_word(words)?;
    Ok(Command::Back { id: segment(id)? })
}

fn reduce(words: &[u8]) -> Result<Command, Cause>
    ensures { result ≡ reduce (words_of words.now) }
{
    let (limit, at) = two_words(words)?;
    Ok(Command::Reduce {
        limit: page_limit(limit)?,
        at: moment(at)?,
    })
}

fn enforce(words: &[u8]) -> Result<Command, Cause>
    ensures { result ≡ enforce (words_of words.now) }
{
    let at = one_word(words)?;
    Ok(Command::Enforce { at: moment(at)? })
}

fn pressure(words: &[u8]) -> Result<Command, Cause>
    ensures { result ≡ pressure (words_of words.now) }
{
    let (want, at) = two_words(words)?;
    Ok(Command::Pressure {
        critical: is_critical(want)?,
        at: moment(at)?,
    })
}

fn limit(words: &[u8]) -> Result<Command, Cause>
    ensures { result ≡ limit (words_of words.now) }
{
    let (limit, at) = two_words(words)?;
    Ok(Command::Limit {
        limit: page_limit(limit)?,
        at: moment(at)?,
    })
}

fn remove(words: &[u8]) -> Result<Command, Cause>
    ensures { result ≡ remove (words_of words.now) }
{
    let owner = one_word(words)?;
    Ok(Command::Remove {
        client: client(owner)?,
    })
}

fn granted(words: &[u8]) -> Result<Command, Cause>
    ensures { result ≡ granted (words_of words.now) }
{
    match split_word(words) {
        None => Ok(Command::Granted),
        Some(_) => Err(Cause::Count),
    }
}

fn alloc(words: &[u8]) -> Result<Command, Cause>
    ensures { result ≡ alloc (words_of words.now) }
{
    let (owner, size, at) = three_words(words)?;
    Ok(Command::Alloc {
        client: client(owner)?,
        size: piece_size(size)?,
        at: moment(at)?,
    })
}

fn piece_lock(words: &[u8]) -> Result<Command, Cause>
    ensures { result ≡ piece_lock (words_of words.now) }
{
    let told = one_word(words)?;
    Ok(Command::PieceLock {
        piece: piece(told)?,
    })
}

fn piece_unlock(words: &[u8]) -> Result<Command, Cause>
    ensures { result ≡ piece_unlock (words_of words.now) }
{
    let (told, at) = two_words(words)?;
    Ok(Command::PieceUnlock {
        piece: piece(told)?,
        at: moment(at)?,
    })
}

fn piece_write(memory: Global, words: &[u8]) -> Result<Command, LineFault>
    ensures { Gives result (piece_write (words_of words.now)) }
{
    let (told, place, bytes) = three_words(words)?;
    let piece = piece(told)?;
    let place = byte_place(place)?;
    let bytes = read_hex(memory, bytes)?.ok_or(Cause::Bytes)?;
    Ok(Command::PieceWrite {
        piece,
        place,
        bytes,
    })
}

fn piece_read(words: &[u8]) -> Result<Command, Cause>
    ensures { result ≡ piece_read (words_of words.now) }
{
    let (told, place, count) = three_words(words)?;
    Ok(Command::PieceRead {
        piece: piece(told)?,
        place: byte_place(place)?,
        count: byte_count(count)?,
    })
}

fn piece_free(words: &[u8]) -> Result<Command, Cause>
    ensures { result ≡ piece_free (words_of words.now) }
{
    let (told, at) = two_words(words)?;
    Ok(Command::PieceFree {
        piece: piece(told)?,
        at: moment(at)?,
    })
}

fn sweep(words: &[u8]) -> Result<Command, Cause>
    ensures { result ≡ sweep (words_of words.now) }
{
    let owner = one_word(words)?;
    Ok(Command::Sweep {
        client: client(owner)?,
    })
}

fn release(words: &[u8]) -> Result<Command, Cause>
    ensures { result ≡ release (words_of words.now) }
{
    let owner = one_word(words)?;
    Ok(Command::Release {
        client: client(owner)?,
    })
}

fn runs(words: &[u8]) -> Result<Command, Cause>
    ensures { result ≡ runs (words_of words.now) }
{
    let owner = one_word(words)?;
    Ok(Command::Runs {
        client: client(owner)?,
    })
}

fn manager_command(name: &[u8], words: &[u8]) -> Result<Command, Cause>
    ensures { result ≡ manager_command name.now (words_of words.now) }
{
    if name == b"back".as_slice() {
        back(words)
    } else if name == b"reduce".as_slice() {
        reduce(words)
    } else if name == b"enforce".as_slice() {
        enforce(words)
    } else if name == b"pressure".as_slice() {
        pressure(words)
    } else if name == b"limit".as_slice() {
        limit(words)
    } else if name == b"remove".as_slice() {
        remove(words)
    } else if name == b"granted".as_slice() {
        granted(words)
    } else {
        Err(Cause::Word)
    }
}

fn piece_command(memory: Global, name: &[u8], words: &[u8]) -> Result<Command, LineFault>
    ensures { Gives result (piece_command name.now (words_of words.now)) }
{
    if name == b"alloc".as_slice() {
        Ok(alloc(words)?)
    } else if name == b"plock".as_slice() {
        Ok(piece_lock(words)?)
    } else if name == b"punlock".as_slice() {
        Ok(piece_unlock(words)?)
    } else if name == b"pwrite".as_slice() {
        piece_write(memory, words)
    } else if name == b"pread".as_slice() {
        Ok(piece_read(words)?)
    } else if name == b"pfree".as_slice() {
        Ok(piece_free(words)?)
    } else if name == b"sweep".as_slice() {
        Ok(sweep(words)?)
    } else if name == b"release".as_slice() {
        Ok(release(words)?)
    } else if name == b"runs".as_slice() {
        Ok(runs(words)?)
    } else {
        Ok(manager_command(name, words)?)
    }
}

/// The command that a line is, whose first word is its name.
pub(crate) fn command(alloc: Global, name: &[u8], words: &[u8]) -> Result<Command, LineFault>
    ensures { Gives result (command_of (name.now ∷ words_of words.now)) }
{
    if name == b"grant".as_slice() {
        Ok(grant(words)?)
    } else if name == b"lock".as_slice() {
        Ok(lock(words)?)
    } else if name == b"unlock".as_slice() {
        Ok(unlock(words)?)
    } else if name == b"write".as_slice() {
        write(alloc, words)
    } else if name == b"read".as_slice() {
        Ok(read(words)?)
    } else if name == b"try".as_slice() {
        Ok(try_purge(words)?)
    } else {
        piece_command(alloc, name, words)
    }
}
