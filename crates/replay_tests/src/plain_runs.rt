use discard_book::book_text;
use replay_plain::{PlainRun, ReplayCfg};
use script_text::Command;
use std::alloc::Global;
use std::test::Fail;

/// Whether a few commands give their replies and their book.
fn runs(alloc: Global) -> Result<bool, Fail> {
    let mut run = PlainRun::new(alloc, &ReplayCfg::default())?;
    let mut text = Vec::new(alloc);
    let grant = Command::Grant {
        client: 1,
        pages: 1,
        at: 1,
    };
    let unlock = Command::Unlock {
        id: 1,
        first: 0,
        count: 1,
        at: 5,
    };
    run.run(alloc, &grant, &mut text)?;
    run.run(alloc, &grant, &mut text)?;
    run.run(alloc, &unlock, &mut text)?;
    run.run(alloc, &Command::Reduce { limit: 0, at: 9 }, &mut text)?;
    run.run(alloc, &Command::Remove { client: 1 }, &mut text)?;
    let book = book_text(alloc, run.entries())?;
    Ok(
        text.as_slice() == b"segment 1segment 2idle 5reduced 1 9 1removed 1".as_slice()
            && book.as_slice()
                == b"grant 1 1 1 1048576\ngrant 2 1 1 1048576\npurge 1 5\nreduced 0 9 1 9\nback 2\n".as_slice(),
    )
}

#[test]
fn commands_give_their_replies(rt: HostRuntime) -> Result<(), Fail> {
    assert!(rt; runs(rt.alloc())?);
    Ok(())
}
