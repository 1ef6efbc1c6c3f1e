ghost use Rattle.std.specs.Prelude.{◌≡◌, ℕ, List, length, map, slice_get};
ghost use Rattle.std.specs.Option.{option_copied};

use std::marker::Model;

/// A line that is kept, seen by contracts as its number and its words.
#[derive(Drop)]
pub struct Line<'a> {
    number: u64,
    words: &'a [&'a [u8]],
}

impl<'a> Model for Line<'a> {
    ghost Value = { ℕ × List (List ℕ) };

    ghost view = { λ l. (l.number, map (λ w. w.now) l.words.now) };
}

impl<'a> Line<'a> {
    /// Its number in the text. Lines are counted from 1, the skipped ones too.
    pub fn number(&self) -> u64
        ensures { result ≡ self.now.0 }
    {
        self.number
    }

    /// How many words it has.
    pub fn words(&self) -> u64
        ensures { result ≡ length self.now.1 }
    {
        self.words.len() as u64
    }

    /// A word by its place, which counts from 0. None comes exactly at a place from `words` on.
    pub fn word(&self, place: u64) -> Option<&'a [u8]>
        ensures { option_copied result ≡ slice_get self.now.1 place }
    {
        self.words.get(place as usize).copied()
    }
}

/// Where the words of a line lie among the words of all lines.
#[derive(Clone, Copy)]
pub(crate) struct Span {
    pub(crate) number: u64,
    pub(crate) start: usize,
    pub(crate) end: usize,
}

/// The lines of a text that are kept, seen by contracts as the list of them.
#[derive(Drop)]
pub struct Cut<'a> {
    pub(crate) words: Vec<&'a [u8]>,
    pub(crate) spans: Vec<Span>,
}

impl<'a> Model for Cut<'a> {
    ghost use Rattle.std.specs.Prelude.{ℕ, List, length};

    ghost Value = { List (ℕ × List (List ℕ)) };

    ghost use Rattle.line_text.specs.Spans.{lines_at, AreWithin};

    ghost view = { λ c. lines_at c.words c.spans };

    ghost invariant = { λ c. AreWithin (length c.words.items) c.spans.items };
}

impl<'a> Cut<'a> {
    /// How many lines there are.
    pub fn len(&self) -> u64
        ensures { result ≡ length self.now }
    {
        self.spans.len() as u64
    }

    /// A line by its place, which counts from 0. None comes exactly at a place from `len` on.
    pub fn get(&self, place: u64) -> Option<Line<'_>>
        ensures { result ≡ slice_get self.now place }
    {
        let span = *self.spans.get(place as usize)?;
        Some(Line {
            number: span.number,
            words: &self.words[span.start..span.end],
        })
    }
}
