ghost use Rattle.script_text.specs.Ranges.{AreInRange};

use replay_plain::ReplayCfg;
use replay_real::RealRun;
use script_text::{Script, law_in_range, read_script};
use std::alloc::Global;
use std::test::Fail;

/// The replies of a run to all commands of a script, each a line.
fn replies(alloc: Global, mut run: RealRun, script: Script) -> Result<Vec<u8>, Fail>
    requires { AreInRange script }
{
    let mut text = Vec::new(alloc);
    for (_, command) in script.into_commands() {
        run.run(alloc, &command, &mut text)?;
        text.push(b'\n')?;
    }
    Ok(text)
}

/// Whether a script gets these replies, with a limit, and a pool that keeps so many blocks.
fn replays(alloc: Global, limit: u64, keep: u32, script: &str, wanted: &str) -> Result<bool, Fail> {
    let cfg = ReplayCfg {
        limit,
        standard: 64,
        keep,
    };
    let Ok(script) = read_script(alloc, script.as_bytes()) else {
        return Ok(false);
    };
    law_in_range();
    let replied = replies(alloc, RealRun::new(alloc, &cfg)?, script)?;
    Ok(replied.as_slice() == wanted.as_bytes())
}

/// What owners do alone.
#[test]
fn owners_lock_and_write(rt: HostRuntime) -> Result<(), Fail> {
    let alloc = rt.alloc();
    assert!(rt;
        replays(
            alloc,
            8,
            1,
            "grant 1 1 1\nwrite 1 0 48656c6c6f\nunlock 1 0 1 5\nlock 1 0 1\nread 1 0 6\n",
            "segment 1\nok\nidle 5\nheld\n48656c6c6f00\n",
        )?
    );
    assert!(rt;
        replays(
            alloc,
            8,
            1,
            "lock 1 0 1\ngrant 1 2 1\nlock 1 0 1\nunlock 1 1 2 2\nunlock 1 0 1 2\nwrite 1 4095 0102\nwrite 1 4096 0102\nread 1 4096 3\nread 1 8191 2\nlock 1 0 1\ngranted\n",
            "misuse\nsegment 1\nmisuse\nmisuse\nheld 1\nmisuse\nok\n010200\nmisuse\nheld\ngranted 2\n",
        )?
    );
    Ok(())
}

/// Purge tries find what owners did, and locks find what tries did.
#[test]
fn tries_find_their_segment(rt: HostRuntime) -> Result<(), Fail> {
    let alloc = rt.alloc();
    assert!(rt;
        replays(
            alloc,
            8,
            1,
            "grant 1 2 1\nunlock 1 1 1 4\ntry 1 6\nunlock 1 0 1 5\ntry 1 7\ntry 1 7\nlock 1 0 1\nlock 1 0 1\ntry 1 8\ngranted\n",
            "segment 1\nheld 1\nused 6\nidle 5\nused 5\ntaken\ngone\ngone\nmisuse\ngranted 0\n",
        )?
    );
    assert!(rt;
        replays(
            alloc,
            4,
            1,
            "grant 1 4 1\ngrant 1 1 2\ngranted\nunlock 1 0 4 3\ngrant 2 5 4\ngranted\nlock 1 0 4\n",
            "segment 1\nsegment 2\ngranted 5\nidle 3\nsegment 3\ngranted 6\ngone\n",
        )?
    );
    Ok(())
}

/// Reductions, and the numbers of the segments that they purge, in order.
#[test]
fn reductions_tell_their_purges(rt: HostRuntime) -> Result<(), Fail> {
    let alloc = rt.alloc();
    assert!(rt;
        replays(
            alloc,
            8,
            1,
            "grant 1 1 1\ngrant 1 1 1\ngrant 1 1 1\nunlock 1 0 1 4\nunlock 2 0 1 4\nunlock 3 0 1 3\nreduce 2 6\nreduce 1 6\nreduce 0 4\n",
            "segment 1\nsegment 2\nsegment 3\nidle 4\nidle 4\nidle 3\nreduced 2 4 3\nreduced 1 4 1\nreduced 1 4\n",
        )?
    );
    assert!(rt;
        replays(
            alloc,
            5,
            1,
            "grant 1 1 1\ngrant 1 1 1\ngrant 1 2 1\nunlock 1 0 1 2\nunlock 2 0 1 3\nunlock 3 0 2 4\npressure moderate 9\nenforce 9\nlimit 1 9\npressure critical 9\n",
            "segment 1\nsegment 2\nsegment 3\nidle 2\nidle 3\nidle 4\nreduced 2 4 1 2\nreduced 2 4\nreduced 0 - 3\nreduced 0 -\n",
        )?
    );
    Ok(())
}

/// What comes back, and how a client's removal gives up its segments.
#[test]
fn segments_come_back(rt: HostRuntime) -> Result<(), Fail> {
    let alloc = rt.alloc();
    assert!(rt;
        replays(
            alloc,
            8,
            1,
            "grant 1 2 1\nunlock 1 0 2 3\ntry 1 5\ntry 1 5\nback 1\ngranted\ngrant 1 1 6\nback 2\nback 2\nback 9\ngranted\n",
            "segment 1\nidle 3\nused 3\ntaken\npurged\ngranted 0\nsegment 2\ncounted\nunknown\nunknown\ngranted 0\n",
        )?
    );
    assert!(rt;
        replays(
            alloc,
            8,
            1,
            "grant 1 1 1\nwrite 1 0 ff\nback 1\ngrant 2 1 2\nread 2 0 1\nread 1 0 1\n",
            "segment 1\nok\ncounted\nsegment 2\n00\nmisuse\n",
        )?
    );
    assert!(rt;
        replays(
            alloc,
            8,
            1,
            "grant 1 2 1\ngrant 2 1 1\nremove 1\ngranted\nback 1\nlock 1 0 1\nlimit 0 3\ngranted\n",
            "segment 1\nsegment 2\nremoved 1\ngranted 1\nunknown\nmisuse\nreduced 1 3\ngranted 1\n",
        )?
    );
    Ok(())
}
