use crate::{Book, Entry, book_text};
use std::test::Fail;

fn crosses_threads<T: Send + Sync>(value: T) -> T {
    value
}

/// A purge under pressure, before its reduction, and then a reduction where nothing is live.
const ENTRIES: [Entry; 4] = [
    Entry::Grant {
        id: 1,
        client: 1,
        pages: 4,
        limit: 8,
    },
    Entry::Purge { id: 1, known: 2 },
    Entry::Reduced {
        limit: 0,
        now: 3,
        after: 0,
        least: None,
    },
    Entry::Reduced {
        limit: 8,
        now: 4,
        after: 0,
        least: None,
    },
];

/// Adds an entry where it fits, and tells whether it did.
fn is_added(book: &mut Book, entry: Entry) -> bool {
    let fits = book.spare() >= 1 && book.fits(&entry);
    if fits {
        book.add(entry);
    }
    fits
}

#[test]
fn a_book_is_told_in_lines(rt: HostRuntime) -> Result<(), Fail> {
    let mut book = crosses_threads(Book::new(rt.alloc())?);
    book.reserve(rt.alloc(), 4)?;
    for entry in ENTRIES {
        assert!(rt; is_added(&mut book, entry));
    }
    let text = book.text(rt.alloc())?;
    let want = b"grant 1 1 4 8\npurge 1 2\nreduced 0 3 0 -\nreduced 8 4 0 -\n";
    assert!(rt; book.granted() == 0 && book.grants() == 1 && text.as_slice() == want.as_slice());
    let last = book_text(rt.alloc(), &[Entry::Back { id: 2 }])?;
    assert!(rt; last.as_slice() == b"back 2\n".as_slice());
    Ok(())
}
