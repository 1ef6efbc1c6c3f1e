use super::*;
use line_text::MOST_TEXT_BYTES;
use std::alloc::{AllocError, Global};
use std::test::Fail;
use tile_source::Tile;

const REQUESTS: &[u8] = b"# client z x y\n\n1 0 0 0\n  3 6\t65535 65535\r\n2 1 0 3";

#[test]
fn a_file_has_its_requests(rt: HostRuntime) -> Result<(), Fail> {
    let requests = read_requests(rt.alloc(), 3, REQUESTS)?;
    let second = Request {
        client: 3,
        tile: Tile {
            z: 6,
            x: 65_535,
            y: 65_535,
        },
    };
    assert!(rt; requests.len() == 3 && requests.get(1) == Some(second));
    assert!(rt; requests.as_slice().len() == 3 && requests.get(3).is_none());
    Ok(())
}

#[test]
fn refused_files(rt: HostRuntime) -> Result<(), Fail> {
    assert!(rt; is_refused(rt.alloc(), b"1 0 0", 1, 2));
    assert!(rt; is_refused(rt.alloc(), b"1 0 0 0 0", 1, 2));
    assert!(rt; is_refused(rt.alloc(), b"# a\n\n5 0 0 0", 3, 3));
    assert!(rt; is_refused(rt.alloc(), b"1 0 0 0\n1 7 0 0", 2, 3));
    assert!(rt; is_refused(rt.alloc(), b"1 0 0 65536", 1, 3));
    let many = repeated(rt.alloc(), b"1 0 0 0\n", 4097)?;
    assert!(rt; is_refused(rt.alloc(), &many, 4097, 5));
    let long = repeated(rt.alloc(), b" ", MOST_TEXT_BYTES + 1)?;
    assert!(rt; is_refused(rt.alloc(), &long, MOST_TEXT_BYTES, 6));
    Ok(())
}

fn repeated(alloc: Global, line: &[u8], times: u64) -> Result<Vec<u8>, AllocError> {
    let mut text = Vec::new(alloc);
    for _ in 0..times {
        text.extend_from_slice(line)?;
    }
    Ok(text)
}

/// Whether a text is refused at this place for this cause, with 4 clients.
fn is_refused(alloc: Global, text: &[u8], place: u64, cause: u32) -> bool {
    match read_requests(alloc, 4, text) {
        Err(fault) => fault == RequestFault::Bad { place, cause },
        Ok(_) => false,
    }
}
