use super::*;
use line_text::{Cause, MOST_TEXT_BYTES};
use std::alloc::{AllocError, Global};
use std::test::Fail;

const SCRIPT: &[u8] = b"# all\r\n\ngrant 1 2 3\r\n\tlock 4 5 6\nunlock 7 8 9 10\nwrite 11 12 aBcD
read 13 14 15\n\ntry 18446744073709551615 4611686018427387904\nback 0\nreduce 0 1\nenforce 2
pressure moderate 3\npressure critical 4\nlimit 1048576 5\nremove 64\nalloc 64 2097152 6\nplock 1
punlock 1 7\npwrite 1 2 0B\npread 1 2 3\npfree 1 8\nsweep 1\nrelease 1\nruns 1\ngranted";

#[test]
fn a_script_has_its_commands(rt: HostRuntime) {
    assert!(rt; read_script(rt.alloc(), SCRIPT).is_ok_and(|script| script.len() == 23));
}

#[test]
fn refused_scripts(rt: HostRuntime) -> Result<(), Fail> {
    assert!(rt; is_refused(rt.alloc(), b"grnt 1 1 1", 1, Cause::Word));
    assert!(rt; is_refused(rt.alloc(), b"grant 1 1", 1, Cause::Count));
    assert!(rt; is_refused(rt.alloc(), b"# a\n\ngrant 0 1 1", 3, Cause::Number));
    assert!(rt; is_refused(rt.alloc(), b"write 1 0 abc", 1, Cause::Bytes));
    assert!(rt; is_refused(rt.alloc(), b"pressure low", 1, Cause::Count));
    assert!(rt; is_refused(rt.alloc(), b"pressure low 0", 1, Cause::Word));
    assert!(rt; is_refused(rt.alloc(), b"granted\nlimit 1048577 1", 2, Cause::Number));
    assert!(rt; is_refused(rt.alloc(), b"alloc 1 2097153 1", 1, Cause::Number));
    let grants = repeated(rt.alloc(), b"grant 1 1 1\n", 1025)?;
    assert!(rt; is_refused(rt.alloc(), &grants, 1025, Cause::Many));
    let long = repeated(rt.alloc(), b" ", MOST_TEXT_BYTES + 1)?;
    assert!(rt; is_refused(rt.alloc(), &long, MOST_TEXT_BYTES, Cause::Long));
    Ok(())
}

fn repeated(alloc: Global, line: &[u8], times: u64) -> Result<Vec<u8>, AllocError> {
    let mut text = Vec::new(alloc);
    for _ in 0..times {
        text.extend_from_slice(line)?;
    }
    Ok(text)
}

/// Whether a text is refused at this place for this cause.
fn is_refused(alloc: Global, text: &[u8], place: u64, cause: Cause) -> bool {
    match read_script(alloc, text) {
        Err(
            ScriptFault::Bad {
                place: at,
                cause: told,
            },
        ) => at == place && told == cause.number(),
        _ => false,
    }
}
