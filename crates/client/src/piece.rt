ghost use Rattle.std.specs.Prelude.{◌≡◌, true};

use span_heap::Span;
use std::marker::Model;

/// Neighbouring pages of a segment that a client has given out. Only a client makes one, and it has
/// no copy. Its pages are its own: no other piece of the client has one of them.
#[must_use = "a piece that is let go keeps its pages"]
#[derive(Drop)]
pub struct Piece {
    client: u32,
    span: Span,
    locked: bool,
}

impl Model for Piece {
    ghost use Rattle.client.specs.Pieces.{Part};

    ghost Value = { Part };

    ghost view = { λ p. record { client = p.client; run = p.span; locked = p.locked } };
}

impl Piece {
    /// A locked piece of a client.
    pub(crate) fn locked_piece(client: u32, span: Span) -> Piece
        ensures { result ≡ record { client = client; run = span; locked = true } }
    {
        Piece {
            client,
            span,
            locked: true,
        }
    }

    /// The number of its client.
    pub fn client(&self) -> u32
        ensures { result ≡ self.now.client }
    {
        self.client
    }

    /// The number of its segment.
    pub fn segment(&self) -> u64
        ensures { result ≡ self.now.run.segment }
    {
        self.span.segment()
    }

    /// Its first page, counted from 0 in the segment.
    pub fn first(&self) -> u32
        ensures { result ≡ self.now.run.first }
    {
        self.span.first()
    }

    /// How many pages it has.
    pub fn pages(&self) -> u32
        ensures { result ≡ self.now.run.pages }
    {
        self.span.pages()
    }

    /// Whether it is locked: its bytes are there, and its segment is not purged.
    pub fn locked(&self) -> bool
        ensures { result ≡ self.now.locked }
    {
        self.locked
    }

    /// Notes whether it is locked.
    pub(crate) fn note(&mut self, locked: bool)
        ensures { self.new ≡ record self.old { locked = locked } }
    {
        self.locked = locked;
    }

    /// Its span.
    pub(crate) fn span(&self) -> &Span
        ensures { result.now ≡ self.now.run }
    {
        &self.span
    }

    /// Its span, of which there is no piece any more.
    pub(crate) fn into_span(self) -> Span
        ensures { result ≡ self.run }
    {
        let Piece { span, .. } = self;
        span
    }
}
