use discard_io::{MemSink, MemSource, Status};
use replay_run::{ReplayCfg, replay};
use std::alloc::Global;
use std::test::Fail;

/// Whether a script is run to its end with this limit, these replies are written, and the two runs
/// do not differ.
fn replays(alloc: Global, limit: u64, script: &str, replies: &str) -> Result<bool, Fail> {
    replays_with(alloc, limit, 64, script, replies)
}

/// The same with segments of this standard size.
fn replays_with(
    alloc: Global,
    limit: u64,
    standard: u32,
    script: &str,
    replies: &str,
) -> Result<bool, Fail> {
    let mut source = MemSource::new(alloc, script.as_bytes(), 7, &[])?;
    let mut out = MemSink::new(alloc, 300, 3, &[])?;
    let cfg = ReplayCfg {
        limit,
        standard,
        keep: 1,
    };
    let replayed = replay(alloc, &cfg, &mut source, &mut out);
    Ok(
        replayed.status == Status::Done
            && replayed.differs.is_none()
            && replayed.state.is_some()
            && out.written() == replies.as_bytes(),
    )
}

#[test]
fn owners_and_tries_give_their_replies(rt: HostRuntime) -> Result<(), Fail> {
    let alloc = rt.alloc();
    assert!(rt; replays(alloc, 9, "", "")?);
    assert!(rt;
        replays(
            alloc,
            9,
            "grant 1 1 1\nwrite 1 0 48656c6c6f\nunlock 1 0 1 5\nlock 1 0 1\nread 1 0 6\n",
            "segment 1\nok\nidle 5\nheld\n48656c6c6f00\n",
        )?
    );
    assert!(rt;
        replays(
            alloc,
            9,
            "grant 1 1 1\nunlock 1 0 1 5\ntry 1 9\ntry 1 9\nlock 1 0 1\nlock 1 0 1\ntry 1 10\n",
            "segment 1\nidle 5\nused 5\ntaken\ngone\ngone\nmisuse\n",
        )?
    );
    assert!(rt;
        replays(
            alloc,
            9,
            "grant 1 1 1\ntry 1 9\nunlock 1 0 1 7\ntry 1 10\ntry 1 10\n",
            "segment 1\nused 9\nidle 7\nused 7\ntaken\n",
        )?
    );
    assert!(rt;
        replays(
            alloc,
            9,
            "grant 1 2 1\nunlock 1 1 1 4\ntry 1 6\nunlock 1 0 1 5\ntry 1 7\ntry 1 7\ngranted\n",
            "segment 1\nheld 1\nused 6\nidle 5\nused 5\ntaken\ngranted 0\n",
        )?
    );
    assert!(rt;
        replays(
            alloc,
            9,
            "lock 1 0 1\ngrant 1 2 1\nlock 1 0 1\nunlock 1 1 2 2\nunlock 1 0 1 2\nwrite 1 4095 0102\nwrite 1 4096 0102\nread 1 4096 3\nread 1 8191 2\n",
            "misuse\nsegment 1\nmisuse\nmisuse\nheld 1\nmisuse\nok\n010200\nmisuse\n",
        )?
    );
    Ok(())
}

#[test]
fn reductions_and_returns_give_their_replies(rt: HostRuntime) -> Result<(), Fail> {
    let alloc = rt.alloc();
    assert!(rt;
        replays(
            alloc,
            4,
            "grant 1 4 1\ngrant 1 1 2\ngranted\nunlock 1 0 4 3\ngrant 2 5 4\ngranted\nlock 1 0 4\n",
            "segment 1\nsegment 2\ngranted 5\nidle 3\nsegment 3\ngranted 6\ngone\n",
        )?
    );
    assert!(rt;
        replays(
            alloc,
            9,
            "grant 1 1 1\ngrant 1 1 1\nunlock 1 0 1 5\nunlock 2 0 1 8\nreduce 0 8\nreduce 0 9\n",
            "segment 1\nsegment 2\nidle 5\nidle 8\nreduced 1 8 1\nreduced 0 - 2\n",
        )?
    );
    assert!(rt;
        replays(
            alloc,
            9,
            "grant 1 1 1\ngrant 1 1 1\ngrant 1 1 1\nunlock 1 0 1 4\nunlock 2 0 1 4\nunlock 3 0 1 3\nreduce 2 6\nreduce 1 6\nreduce 0 4\n",
            "segment 1\nsegment 2\nsegment 3\nidle 4\nidle 4\nidle 3\nreduced 2 4 3\nreduced 1 4 1\nreduced 1 4\n",
        )?
    );
    assert!(rt;
        replays(
            alloc,
            9,
            "grant 1 2 1\nunlock 1 0 2 3\ntry 1 5\ntry 1 5\ngranted\nback 1\ngranted\ngrant 1 1 6\nback 2\nback 2\nback 9\ngranted\n",
            "segment 1\nidle 3\nused 3\ntaken\ngranted 0\npurged\ngranted 0\nsegment 2\ncounted\nunknown\nunknown\ngranted 0\n",
        )?
    );
    assert!(rt;
        replays(
            alloc,
            9,
            "grant 1 1 1\nwrite 1 0 ff\nback 1\ngrant 2 1 2\nread 2 0 1\n",
            "segment 1\nok\ncounted\nsegment 2\n00\n",
        )?
    );
    assert!(rt;
        replays(
            alloc,
            9,
            "grant 1 2 1\ngrant 2 1 1\nremove 1\ngranted\nback 1\nlock 1 0 1\nlimit 0 3\ngranted\n",
            "segment 1\nsegment 2\nremoved 1\ngranted 1\nunknown\nmisuse\nreduced 1 3\ngranted 1\n",
        )?
    );
    assert!(rt;
        replays(
            alloc,
            1,
            "grant 1 2 1\nunlock 1 0 2 3\nenforce 4\ngranted\n",
            "segment 1\nidle 3\nreduced 0 - 1\ngranted 0\n",
        )?
    );
    Ok(())
}

#[test]
fn pressure_reduces_by_known_use(rt: HostRuntime) -> Result<(), Fail> {
    let alloc = rt.alloc();
    assert!(rt;
        replays(
            alloc,
            5,
            "grant 1 1 1\ngrant 1 1 1\ngrant 1 1 1\ngrant 1 1 1\nunlock 1 0 1 4611686018427387904\nlock 1 0 1\nunlock 1 0 1 7\nunlock 2 0 1 2\nunlock 3 0 1 3\nunlock 4 0 1 4\npressure moderate 9\npressure critical 9\npressure critical 4611686018427387904\n",
            "segment 1\nsegment 2\nsegment 3\nsegment 4\nidle 4611686018427387904\nheld\nidle 4611686018427387904\nidle 2\nidle 3\nidle 4\nreduced 2 4 2 3\nreduced 1 4611686018427387904 4\nreduced 1 4611686018427387904\n",
        )?
    );
    Ok(())
}

#[test]
fn pieces_give_their_replies(rt: HostRuntime) -> Result<(), Fail> {
    let alloc = rt.alloc();
    assert!(rt;
        replays_with(
            alloc,
            9,
            4,
            "alloc 1 4096 1\npunlock 1 2\nalloc 1 16384 3\npunlock 2 4\npfree 2 4\ntry 1 5\ntry 1 5\nruns 1\nalloc 1 8192 6\nruns 1\nplock 1\nalloc 1 16384 7\ngranted\n",
            "piece 1 new 1 0 1\nidle 2\npiece 2 new 2 0 4\nidle 4\nfreed\nused 2\ntaken\nruns 1:1+3 2:0+4\npiece 3 old 2 0 2\nruns 2:2+2\ngone\npiece 4 new 3 0 4\ngranted 8\n",
        )?
    );
    assert!(rt;
        replays_with(
            alloc,
            9,
            2,
            "alloc 1 1 1\npfree 1 2\nruns 1\nrelease 1\ngranted\nalloc 1 0 3\npunlock 2 4\ntry 2 5\ntry 2 5\nsweep 1\nruns 1\npfree 2 6\n",
            "piece 1 new 1 0 1\nfreed\nruns 1:0+2\nreleased 1\ngranted 0\npiece 2 new 2 0 1\nidle 4\nused 4\ntaken\nswept 1\nruns\ndead\n",
        )?
    );
    Ok(())
}
