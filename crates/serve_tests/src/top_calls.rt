ghost use Rattle.std.specs.Prelude.{◌≤◌};

use discard_io::{CountClock, MemFiles, MemSink, MemSource, OpenGate, Status};
use std::alloc::Global;
use std::sync::Wait;
use std::test::Fail;
use std::thread::Threads;
use top_call::{Ended, Run, discard};

/// What a run is handed, all in memory.
#[derive(Drop)]
struct MemDevices {
    input: MemSource,
    out: MemSink,
    report: MemSink,
    files: MemFiles,
}

impl MemDevices {
    /// Objects with this script, and with this file under the names `a.pgm` and `--x`.
    fn new(alloc: Global, script: &str, file: &[u8]) -> Result<MemDevices, Fail> {
        let mut files = MemFiles::new(alloc, &[])?;
        files.add(alloc, "a.pgm", file)?;
        files.add(alloc, "--x", file)?;
        Ok(MemDevices {
            input: MemSource::new(alloc, script.as_bytes(), 5, &[])?,
            out: MemSink::new(alloc, 1_100_000, 4096, &[])?,
            report: MemSink::new(alloc, 1000, 7, &[])?,
            files,
        })
    }
}

/// A run with the words that stand between single spaces, none in an empty text.
fn run<H: Threads + Wait + Sync>(
    rt: &H,
    alloc: Global,
    words: &str,
    devices: &mut MemDevices,
) -> Result<Ended, Fail> {
    let mut texts = Vec::new(alloc);
    if !words.is_empty() {
        for word in words.split(' ') {
            texts.push(word.to_string(alloc)?)?;
        }
    }
    let clock = CountClock::new(1);
    let gate = OpenGate::new();
    Ok(discard(
        rt,
        alloc,
        &texts,
        &mut devices.input,
        &mut devices.out,
        &mut devices.report,
        &mut devices.files,
        &clock,
        &gate,
    ))
}

/// Whether a replay is done, hands on its answer, and writes these replies and nothing on the report.
fn replays<H: Threads + Wait + Sync>(
    rt: &H,
    alloc: Global,
    words: &str,
    script: &str,
    replies: &str,
) -> Result<bool, Fail> {
    let mut devices = MemDevices::new(alloc, script, b"")?;
    let ended = run(rt, alloc, words, &mut devices)?;
    Ok(
        ended.status == Status::Done
            && matches!(ended.run, Run::Replay(_))
            && devices.out.written() == replies.as_bytes()
            && devices.report.written().is_empty(),
    )
}

/// Whether these words are done and write a tile of 64 by 64 pixels with this first pixel, and zeros.
fn tile_is<H: Threads + Wait + Sync>(
    rt: &H,
    alloc: Global,
    words: &str,
    file: &[u8],
    first: u8,
) -> Result<bool, Fail> {
    let mut devices = MemDevices::new(alloc, "", file)?;
    let ended = run(rt, alloc, words, &mut devices)?;
    Ok(
        ended.status == Status::Done
            && is_dark_tile(devices.out.written(), first)
            && devices.report.written().is_empty(),
    )
}

/// As `tile_is`, for a file of 64 by 64 samples of 255 and a tile of one pixel that is not zero.
fn white_tile_is_white<H: Threads + Wait + Sync>(
    rt: &H,
    alloc: Global,
    words: &str,
) -> Result<bool, Fail> {
    let mut file = Vec::from_slice(alloc, b"P5 64 64 255\n")?;
    file.resize(4109, 255)?;
    tile_is(rt, alloc, words, &file, 255)
}

fn is_dark_tile(bytes: &[u8], first: u8) -> bool {
    match bytes.strip_prefix(b"P5\n64 64\n255\n") {
        Some(pixels) => {
            pixels.len() == 4096
                && pixels[0] == first
                && pixels.iter().skip(1).all(|pixel| *pixel == 0)
        }
        None => false,
    }
}

/// Whether a run tells this line on the report, and writes nothing else. The file has one pixel.
fn is_refused<H: Threads + Wait + Sync>(
    rt: &H,
    alloc: Global,
    words: &str,
    script: &str,
    line: &str,
) -> Result<bool, Fail> {
    let mut devices = MemDevices::new(alloc, script, b"P5 1 1 255\n\x07")?;
    let ended = run(rt, alloc, words, &mut devices)?;
    Ok(
        matches!(ended.run, Run::Nothing)
            && devices.out.written().is_empty()
            && devices.report.written() == line.as_bytes(),
    )
}

#[test]
fn replays_hand_on_what_they_answered(rt: HostRuntime) -> Result<(), Fail> {
    let alloc = rt.alloc();
    let script = "grant 1 2 1\nunlock 1 0 2 3\nenforce 4\ngranted";
    let replies = "segment 1\nidle 3\nreduced 0 - 1\ngranted 0\n";
    assert!(rt;
        replays(&rt, alloc, "replay", "", "")?
            && replays(&rt, alloc, "replay --limit=1 --keep 256", script, replies)?
    );
    Ok(())
}

/// How a served run of one request ends whose report fails at its first call, and whether the report then has this line.
fn unreported<H: Threads + Wait + Sync>(
    rt: &H,
    alloc: Global,
    line: &str,
) -> Result<(Status, bool), Fail> {
    let mut devices = MemDevices::new(alloc, "1 0 0 0", b"P5 1 1 255\n\x07")?;
    devices.report = MemSink::new(alloc, 64, 64, &[1])?;
    let ended = run(rt, alloc, "serve a.pgm", &mut devices)?;
    Ok((ended.status, devices.report.written() == line.as_bytes()))
}

#[test]
fn failing_reports_are_write_faults(rt: HostRuntime) -> Result<(), Fail> {
    let line = "discard: write fault\n";
    assert!(rt; unreported(&rt, rt.alloc(), line)? == (Status::WriteFault, true));
    Ok(())
}

#[test]
fn tiles_are_means_of_samples(rt: HostRuntime) -> Result<(), Fail> {
    let alloc = rt.alloc();
    let one = b"P5 1 1 255\n\xc8";
    assert!(rt;
        tile_is(&rt, alloc, "tile a.pgm 0 0 0 --side 64", one, 200)?
            && tile_is(&rt, alloc, "tile --side=64 a.pgm 1 0 0", one, 50)?
            && tile_is(&rt, alloc, "tile a.pgm 6 --side=64 0 0", one, 0)?
            && tile_is(&rt, alloc, "tile a.pgm 0 1 0 --side=64 --", one, 0)?
    );
    assert!(rt; white_tile_is_white(&rt, alloc, "tile --side=64 -- --x 6 0 0")?);
    Ok(())
}

#[test]
fn other_words_are_usage(rt: HostRuntime) -> Result<(), Fail> {
    for words in [
        "",
        "replay x",
        "replay --limit -4",
        "replay --limit 1048577",
        "replay --keep 257",
        "replay --keep 4 --keep=4",
        "replay --standard 513",
        "tile a.pgm 0 0",
        "tile a.pgm 0 0 0 --side 64 --side 64",
        "serve",
        "serve a.pgm --side 100",
        "gen 1000000",
        "--help",
    ] {
        assert!(rt; is_refused(&rt, rt.alloc(), words, "", "discard: usage\n")?);
    }
    Ok(())
}

/// A file of 600 by 400 samples, of which the one at (x, y) is x + y, modulo 256.
fn ramp(alloc: Global) -> Result<Vec<u8>, Fail> {
    let mut file = Vec::from_slice(alloc, b"P5\n# photo\n600 400\n255\n")?;
    for y in 0..400_u32 {
        for x in 0..600_u32 {
            file.push(((x + y) % 256) as u8)?;
        }
    }
    Ok(file)
}

/// Eight tiles of 16 pages each, and the same again.
const SIXTEEN: &str = "1 0 0 0
1 0 1 0
1 0 2 0
1 0 0 1
1 0 1 1
1 0 2 1
1 1 0 0
1 1 1 0
1 0 0 0
1 0 1 0
1 0 2 0
1 0 0 1
1 0 1 1
1 0 2 1
1 1 0 0
1 1 1 0
";

/// Request `k`, from 1, is served at moment `2 * k - 1` and rests at `2 * k`, and a segment has room for
/// four tiles.
const REPORT: &str = "grant 1 1 64 64
purge 1 8
reduced 0 9 0 -
grant 2 1 64 64
purge 2 16
reduced 0 17 0 -
grant 3 1 64 64
purge 3 24
reduced 0 25 0 -
grant 4 1 64 64
back 4
client 1 requests 16 first 8 kept 0 rebuilt 8 again 0 grants 4
granted 0
";

/// What serving the sixteen requests from the ramp wrote, with these words.
fn served<H: Threads + Wait + Sync>(
    rt: &H,
    alloc: Global,
    words: &str,
) -> Result<MemDevices, Fail> {
    let mut devices = MemDevices::new(alloc, SIXTEEN, &ramp(alloc)?)?;
    let ended = run(rt, alloc, words, &mut devices)?;
    if ended.status != Status::Done || !matches!(ended.run, Run::Serve(_)) {
        return Err(Fail::new("the run was not served"));
    }
    Ok(devices)
}

/// Whether the replies within a limit of 64 pages are those within 16,384 pages, and the report is as it should be.
fn replies_need_no_room<H: Threads + Wait + Sync>(rt: &H, alloc: Global) -> Result<bool, Fail> {
    let narrow = served(rt, alloc, "serve a.pgm --clients 1 --limit 64 --entries 16")?;
    let wide = served(
        rt,
        alloc,
        "serve a.pgm --clients 1 --limit 16384 --entries 16",
    )?;
    Ok(
        narrow.report.written() == REPORT.as_bytes()
            && narrow.out.written().len() == 16 * 65_551
            && narrow.out.written() == wide.out.written(),
    )
}

#[test]
fn tiles_are_served_within_a_limit(rt: HostRuntime) -> Result<(), Fail> {
    assert!(rt; replies_need_no_room(&rt, rt.alloc())?);
    Ok(())
}

/// How a run of one request ends, and how much it wrote, where these calls of the input and of the output
/// fail, and the output takes so many bytes a call.
fn faults<H: Threads + Wait + Sync>(
    rt: &H,
    alloc: Global,
    reads: &[u64],
    writes: &[u64],
    most: u32,
) -> Result<(Status, usize), Fail>
    requires { 1 ≤ most }
{
    let mut devices = MemDevices::new(alloc, "", b"P5 1 1 255\n\x07")?;
    devices.input = MemSource::new(alloc, b"1 0 0 0", 5, reads)?;
    devices.out = MemSink::new(alloc, 300_000, most, writes)?;
    let ended = run(rt, alloc, "serve a.pgm", &mut devices)?;
    Ok((ended.status, devices.out.written().len()))
}

#[test]
fn faults_end_a_served_run(rt: HostRuntime) -> Result<(), Fail> {
    let alloc = rt.alloc();
    assert!(rt; faults(&rt, alloc, &[1], &[], 4096)? == (Status::ReadFault, 0));
    assert!(rt; faults(&rt, alloc, &[], &[1], 4096)? == (Status::WriteFault, 0));
    assert!(rt; faults(&rt, alloc, &[], &[2], 100)? == (Status::WriteFault, 100));
    Ok(())
}

#[test]
fn refused_scripts_say_where_and_why(rt: HostRuntime) -> Result<(), Fail> {
    let alloc = rt.alloc();
    let (word, number) = ("grnt 1 1 1", "# a\n\ngrant 0 1 1");
    assert!(rt;
        is_refused(&rt, alloc, "replay", word, "discard: bad input 1 1\n")?
            && is_refused(&rt, alloc, "replay", number, "discard: bad input 3 3\n")?
    );
    Ok(())
}

#[test]
fn refused_requests_say_where_and_why(rt: HostRuntime) -> Result<(), Fail> {
    let alloc = rt.alloc();
    for requests in ["5 0 0 0", "1 0 18446744073709551616 0", "1 7 0 0"] {
        assert!(rt;
            is_refused(
                &rt,
                alloc,
                "serve a.pgm",
                requests,
                "discard: bad input 1 3\n"
            )?
        );
    }
    assert!(rt;
        is_refused(
            &rt,
            alloc,
            "serve b.pgm",
            "1 0 0 0",
            "discard: file fault\n"
        )?
    );
    Ok(())
}
