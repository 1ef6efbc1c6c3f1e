use crate::{ServeCfg, Tally, report_bytes};
use discard_book::{Book, Entry};
use std::test::Fail;

#[test]
fn settings(rt: HostRuntime) {
    let cfg = ServeCfg::default();
    assert!(rt; cfg.clients == 4 && cfg.limit == 16_384 && cfg.side == 256 && cfg.entries == 256);
    assert!(rt; cfg.rounds == 0 && cfg.standard == 64 && cfg.keep == 16);
}

const REPORT: &[u8] = b"grant 1 1 64 64
client 1 requests 16 first 8 kept 1 rebuilt 5 again 2 grants 4
client 2 requests 0 first 0 kept 0 rebuilt 0 again 0 grants 0
granted 64
";

#[test]
fn a_report_has_the_book_and_a_line_for_each_client(rt: HostRuntime) -> Result<(), Fail> {
    let mut book = Book::new(rt.alloc())?;
    book.reserve(rt.alloc(), 1)?;
    let entry = Entry::Grant {
        id: 1,
        client: 1,
        pages: 64,
        limit: 64,
    };
    assert!(rt; book.spare() >= 1 && book.fits(&entry));
    if book.spare() >= 1 && book.fits(&entry) {
        book.add(entry);
    }
    let tallies = [busy_client(), idle_client()];
    let text = report_bytes(rt.alloc(), &book, &tallies, book.granted())?;
    assert!(rt; text.as_slice() == REPORT);
    Ok(())
}

fn busy_client() -> Tally {
    Tally {
        client: 1,
        requests: 16,
        first: 8,
        kept: 1,
        rebuilt: 5,
        again: 2,
        grants: 4,
    }
}

fn idle_client() -> Tally {
    Tally {
        client: 2,
        requests: 0,
        first: 0,
        kept: 0,
        rebuilt: 0,
        again: 0,
        grants: 0,
    }
}
