ghost use Rattle.std.specs.Prelude.{◌≡◌, ◌≤◌};
ghost use Rattle.serve_texts.specs.Config.{IsServeCfg};

use discard_io::{Clock, CountClock, Gate, MeetGate, OpenGate};
use request_text::read_requests;
use serve_run::{Served, report_text, serve};
use serve_texts::{ServeCfg, Tally};
use std::alloc::Global;
use std::sync::Wait;
use std::sync::atomic::{AtomicU64, Ordering};
use std::test::Fail;
use std::thread::Threads;
use tile_source::read_pgm;
use units::NoMemory;

/// An image of two samples.
const IMAGE: &[u8] = b"P5\n2 1\n255\n\x07\x09";

/// Tiles of 64 by 64, segments of one page, and so many enforcements beside one or two clients.
fn settings(clients: u32, limit: u64, rounds: u32) -> ServeCfg
    requires clients { (1 ≤ clients) × (clients ≤ 2) }
    requires limit { limit ≤ 64 }
    requires rounds { rounds ≤ 3 }
    ensures lawful { IsServeCfg result }
    ensures clients { result.clients ≡ clients }
{
    ServeCfg {
        clients,
        limit,
        side: 64,
        entries: 4,
        rounds,
        standard: 1,
        keep: 0,
    }
}

/// Serves the requests of a text under these settings.
fn served<H: Threads + Wait + Sync, T: Gate + Sync>(
    rt: &H,
    alloc: Global,
    cfg: &ServeCfg,
    text: &[u8],
    clock: &CountClock,
    gate: &T,
) -> Result<Served, Fail>
    requires { IsServeCfg cfg.now }
{
    let image = read_pgm(alloc, IMAGE)?;
    let requests = read_requests(alloc, cfg.clients, text)?;
    Ok(serve(rt, alloc, cfg, &image, &requests, clock, gate)?)
}

/// Two tiles, and the first one again, for which the second is purged.
const REQUESTS: &[u8] = b"1 0 0 0
1 0 1 0
1 0 0 0
";

/// Request `k`, from 1, is served at moment `2 * k - 1` and rests at `2 * k`.
const REPORT: &[u8] = b"grant 1 1 1 1
purge 1 2
reduced 0 3 0 -
grant 2 1 1 1
purge 2 4
reduced 0 5 0 -
grant 3 1 1 1
back 3
client 1 requests 3 first 2 kept 0 rebuilt 1 again 0 grants 3
granted 0
";

/// Whether the replies are three tiles, each with a head of 13 bytes and then 64 by 64 samples, and the
/// first begins with the image.
fn are_three_tiles(replies: &[u8]) -> bool {
    replies.len() == 3 * 4109 && replies.starts_with(b"P5\n64 64\n255\n\x07\x09\x00")
}

#[test]
fn a_purged_tile_is_made_again(rt: HostRuntime) -> Result<(), Fail> {
    let alloc = rt.alloc();
    let cfg = settings(1, 1, 0);
    let served = served(
        &rt,
        alloc,
        &cfg,
        REQUESTS,
        &CountClock::new(1),
        &OpenGate::new(),
    )?;
    let report = report_text(alloc, &served)?;
    assert!(rt; report.as_slice() == REPORT);
    assert!(rt; are_three_tiles(served.replies.as_slice()));
    Ok(())
}

/// A gate that notes where client 1 passes, as the digits of a number, and the sum of the places of
/// worker 0.
#[derive(Drop)]
struct Trace {
    places: AtomicU64,
    rounds: AtomicU64,
}

impl Trace {
    fn new() -> Trace {
        Trace {
            places: AtomicU64::new(9),
            rounds: AtomicU64::new(0),
        }
    }

    /// Whether client 1 passed each place of four requests in turn, and worker 0 its places 0 to 2.
    fn is_whole(&self) -> bool {
        self.places.load(Ordering::SeqCst) == 901_234_567 && self.rounds.load(Ordering::SeqCst) == 3
    }
}

impl Gate for Trace {
    fn pass<H: Threads + Wait + Sync>(&self, _rt: &H, who: u32, place: u64) {
        match who {
            0 => {
                self.rounds.fetch_add(place, Ordering::SeqCst);
            }
            1 => {
                let before = self.places.load(Ordering::SeqCst);
                let after = before.wrapping_mul(10).wrapping_add(place);
                self.places.store(after, Ordering::SeqCst);
            }
            _ => {}
        }
    }
}

/// Four requests of client 1, and one of client 2.
const REQUESTS_OF_TWO: &[u8] = b"1 0 0 0
1 0 1 0
2 0 0 0
1 0 1 0
1 0 0 0
";

/// What client 1 asked, and what came of it.
fn first_client() -> Tally {
    Tally {
        client: 1,
        requests: 4,
        first: 2,
        kept: 2,
        rebuilt: 0,
        again: 0,
        grants: 2,
    }
}

/// Appends a tile of two samples, with its head; what lies outside of the image is 0.
fn add_reply(replies: &mut Vec<u8>, outside: &[u8], one: u8, other: u8) -> Result<(), NoMemory> {
    replies.extend_from_slice(b"P5\n64 64\n255\n")?;
    replies.push(one)?;
    replies.push(other)?;
    replies.extend_from_slice(outside)?;
    Ok(())
}

/// The replies to all requests of the two.
fn wanted(alloc: Global) -> Result<Vec<u8>, NoMemory> {
    let outside = zeros(alloc, 64 * 64 - 2)?;
    let mut replies = Vec::new(alloc);
    add_reply(&mut replies, &outside, 7, 9)?;
    add_reply(&mut replies, &outside, 0, 0)?;
    add_reply(&mut replies, &outside, 7, 9)?;
    add_reply(&mut replies, &outside, 0, 0)?;
    add_reply(&mut replies, &outside, 7, 9)?;
    Ok(replies)
}

fn zeros(alloc: Global, count: usize) -> Result<Vec<u8>, NoMemory> {
    Ok(Vec::from_elem(alloc, 0, count)?)
}

#[test]
fn each_client_is_served_at_its_places_of_the_gate(rt: HostRuntime) -> Result<(), Fail> {
    let alloc = rt.alloc();
    let cfg = settings(2, 64, 3);
    let clock = CountClock::new(1);
    let gate = Trace::new();
    let served = served(&rt, alloc, &cfg, REQUESTS_OF_TWO, &clock, &gate)?;
    assert!(rt; served.replies.as_slice() == wanted(alloc)?.as_slice());
    assert!(rt;
        served
            .clients
            .as_slice()
            .first()
            .is_some_and(|first| first.tally == first_client())
    );
    // The clock was read once for each enforcement, and twice for each request.
    assert!(rt; gate.is_whole() && clock.now() == 14);
    Ok(())
}

#[test]
fn two_clients_run_at_once(rt: HostRuntime) -> Result<(), Fail> {
    let cfg = settings(2, 64, 0);
    let clock = CountClock::new(1);
    let gate = MeetGate::new();
    let _served = served(&rt, rt.alloc(), &cfg, b"1 0 0 0\n2 0 1 0\n", &clock, &gate)?;
    assert!(rt; !gate.stuck() && gate.passes() == 4);
    Ok(())
}
