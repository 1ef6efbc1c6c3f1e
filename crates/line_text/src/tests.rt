use super::*;
use std::test::Fail;

#[test]
fn numbers(rt: HostRuntime) {
    assert!(rt;
        read_number(b"0", 0, 9) == Some(0)
            && read_number(b"18446744073709551615", 0, u64::MAX) == Some(u64::MAX)
            && read_number(b"18446744073709551616", 0, u64::MAX).is_none()
            && read_number(b"01", 0, 9).is_none()
    );
}

#[test]
fn bytes(rt: HostRuntime) -> Result<(), Fail> {
    let read = read_hex(rt.alloc(), b"0aBF")?;
    assert!(rt; read.is_some_and(|bytes| bytes.as_slice() == b"\x0a\xbf".as_slice()));
    Ok(())
}

#[test]
fn lines(rt: HostRuntime) -> Result<(), Fail> {
    let lines = cut(rt.alloc(), b"# no\n\n a\tbc \r\nend")?;
    assert!(rt;
        lines.len() == 2 && has_word(&lines, 0, 3, 1, b"bc") && has_word(&lines, 1, 4, 0, b"end")
    );
    Ok(())
}

/// Whether the line at a place has this number, and this word at a place of its own.
fn has_word(lines: &Cut<'_>, place: u64, number: u64, at: u64, word: &[u8]) -> bool {
    match lines.get(place) {
        Some(line) => {
            line.number() == number && line.words() > at && line.word(at) == Some(word)
        }
        None => false,
    }
}
