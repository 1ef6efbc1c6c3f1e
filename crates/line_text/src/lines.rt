ghost use Rattle.std.specs.Prelude.{◌≡◌, ◌<◌, ◌||◌, ◌==◌, [], ◌∷◌, ◌++◌, length, IfSome, MatchOption, position, not, IfOk, OnOk};
ghost use Rattle.line_text.specs.Lines.{words_of, is_feed, is_blank, kept_lines, HasNoLine, HasFirstLine, HasNoWord, HasFirstWord, IsSkipped, IsNotSkipped};
ghost use Rattle.line_text.specs.Spans.{texts_of, lines_at, AreWithin};

use crate::line::{Cut, Span};
use std::alloc::Global;
use units::NoMemory;

/// Space, TAB and CR stand between words.
fn is_blank(byte: u8) -> bool
    ensures { result ≡ is_blank byte }
{
    byte == b' ' || byte == b'\t' || byte == b'\r'
}

/// Where the first line of a text ends, if it has an end.
fn line_end(text: &[u8]) -> Option<usize>
    ensures { result ≡ position is_feed text.now }
{
    text.iter().position(|byte| *byte == b'\n')
}

/// Where the first word of a line begins, if there is one.
fn word_start(line: &[u8]) -> Option<usize>
    ensures { result ≡ position (λ b. not (is_blank b)) line.now }
{
    line.iter().position(|byte| !is_blank(*byte))
}

/// Where a word at the front of a line ends, if something follows it.
fn word_end(line: &[u8]) -> Option<usize>
    ensures { result ≡ position is_blank line.now }
{
    line.iter().position(|byte| is_blank(*byte))
}

/// The first line of a text, and what follows its end.
pub fn split_line(text: &[u8]) -> Option<(&[u8], &[u8])>
    ensures lines { MatchOption result (HasNoLine text.now)
        (λ line. HasFirstLine text.now line.0.now line.1.now) }
    ensures shorter { IfSome result (λ line. length line.1.now < length text.now) }
{
    if text.is_empty() {
        return None;
    }
    match line_end(text) {
        Some(end) => Some((&text[..end], &text[end + 1..])),
        None => Some((text, &[])),
    }
}

/// The first word of a line, and what follows it.
pub fn split_word(line: &[u8]) -> Option<(&[u8], &[u8])>
    ensures words { MatchOption result (HasNoWord line.now)
        (λ word. HasFirstWord line.now word.0.now word.1.now) }
    ensures some { IfSome result (λ word. 0 < length word.0.now) }
    ensures shorter { IfSome result (λ word. length word.1.now < length line.now) }
{
    let start = word_start(line)?;
    let word = &line[start..];
    match word_end(word) {
        Some(end) => Some((&word[..end], &word[end + 1..])),
        None => Some((word, &[])),
    }
}

/// The first word of a line and what follows it, unless the line is skipped.
pub fn split_kept(line: &[u8]) -> Option<(&[u8], &[u8])>
    ensures { MatchOption result (IsSkipped line.now)
        (λ word. IsNotSkipped line.now word.0.now word.1.now) }
{
    let (first, rest) = split_word(line)?;
    if first[0] == b'#' {
        return None;
    }
    Some((first, rest))
}

/// Appends the words of a line to those that are there.
fn push_words<'a>(line: &'a [u8], words: &mut Vec<&'a [u8]>) -> Result<(), NoMemory>
    ensures { OnOk result (texts_of words.new ≡ texts_of words.old ++ words_of line.now) }
{
    let mut rest = line;
    while let Some((word, after)) = split_word(rest) {
        words.push(word)?;
        rest = after;
    }
    Ok(())
}

/// Appends a line to those that are there. Its first word and what follows it are given.
fn push_line<'a>(
    number: u64,
    first: &'a [u8],
    rest: &'a [u8],
    words: &mut Vec<&'a [u8]>,
    spans: &mut Vec<Span>,
) -> Result<(), NoMemory>
    requires { AreWithin (length words.old.items) spans.old.items }
    ensures line { OnOk result (lines_at words.new spans.new
        ≡ lines_at words.old spans.old ++ (number, first.now ∷ words_of rest.now) ∷ []) }
    ensures within { OnOk result (AreWithin (length words.new.items) spans.new.items) }
{
    let start = words.len();
    words.push(first)?;
    push_words(rest, words)?;
    let end = words.len();
    spans.push(Span { number, start, end })?;
    Ok(())
}

/// Cuts a text into its lines and their words. Lines end with LF, and space, TAB and CR stand
/// between words. A line is skipped where it has no word or its first word begins with `#`. Words
/// are borrowed from the text.
pub fn cut(alloc: Global, bytes: &[u8]) -> Result<Cut<'_>, NoMemory>
    ensures { IfOk result (λ lines. lines ≡ kept_lines bytes.now) }
{
    let mut words = Vec::new(alloc);
    let mut spans = Vec::new(alloc);
    let mut number = 0;
    let mut rest = bytes;
    while let Some((line, after)) = split_line(rest) {
        rest = after;
        number += 1;
        if let Some((first, others)) = split_kept(line) {
            push_line(number, first, others, &mut words, &mut spans)?;
        }
    }
    Ok(Cut { words, spans })
}
