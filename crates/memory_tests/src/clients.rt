ghost use Rattle.std.specs.Prelude.{◌≡◌, ◌≤◌, length};

use crate::granters::{CLIENT, Grants, Plan, Wardens};
use client::{Client, ClientFault, Granted, Piece, Unlocked};
use segment::Lock;
use std::alloc::Global;
use std::sync::Wait;
use std::test::Fail;
use std::thread::Threads;
use units::{NoMemory, is_moment};

/// A client over a granter, and its pieces. Where one is given up, the last takes its place.
#[derive(Drop)]
struct Bench<'w> {
    wardens: &'w Wardens,
    granted: Granted<Grants<'w>>,
    pieces: Vec<Piece>,
}

/// What a step answers: two letters of a row.
type Told = (u8, u8);

/// The step was not to be made.
const REFUSED: Told = (b'?', b'?');

/// The digit of a number below 10.
fn digit(n: u64) -> u8 {
    if n < 10 { b'0' + n as u8 } else { b'+' }
}

/// A client with segments of a standard size, over a granter that is out of memory at one grant.
fn client_over(
    alloc: Global,
    wardens: &Wardens,
    standard: u32,
    fails: u64,
) -> Result<Granted<Grants<'_>>, NoMemory>
    requires { (1 ≤ standard) × (standard ≤ 64) }
{
    let client = Client::new(alloc, CLIENT, standard)?;
    Ok(Granted::new(client, Grants::new(alloc, wardens, Plan::Fails(fails))?))
}

/// What a piece has as its first and its last byte.
fn mark(piece: &Piece) -> u8 {
    digit(piece.segment()) ^ digit(u64::from(piece.first()))
}

/// Marks a new piece, and answers its segment and its first page.
fn marked(granted: &mut Granted<Grants<'_>>, piece: &Piece) -> Told {
    if !piece.locked() || !granted.owns(piece) {
        return REFUSED;
    }
    write_ends(granted.bytes_mut(piece), mark(piece));
    (digit(piece.segment()), digit(u64::from(piece.first())))
}

/// Writes the first and the last byte.
fn write_ends(bytes: &mut [u8], mark: u8)
    ensures { length bytes.new ≡ length bytes.old }
{
    if bytes.len() == 0 {
        return;
    }
    bytes[0] = mark;
    let last = bytes.len() - 1;
    bytes[last] = mark;
}

/// Whether the first and the last byte of a locked piece are its mark.
fn is_marked(granted: &Granted<Grants<'_>>, piece: &Piece) -> bool {
    if !piece.locked() || !granted.owns(piece) {
        return false;
    }
    let bytes = granted.bytes(piece);
    bytes.first() == Some(&mark(piece)) && bytes.last() == Some(&mark(piece))
}

fn locks(granted: &mut Granted<Grants<'_>>, piece: &mut Piece) -> Told {
    if piece.locked() || !granted.owns(piece) {
        return REFUSED;
    }
    match granted.lock(piece) {
        Lock::Held if is_marked(granted, piece) => (b'H', b'.'),
        Lock::Held => REFUSED,
        Lock::Gone => (b'G', b'.'),
    }
}

fn unlocks(granted: &mut Granted<Grants<'_>>, piece: &mut Piece, now: u64) -> Told {
    if !piece.locked() || !granted.owns(piece) || !is_moment(now) {
        return REFUSED;
    }
    match granted.unlock(piece, now) {
        Unlocked::Idle { at } => (b'I', if at == now { b'.' } else { b'?' }),
        Unlocked::Held { pages } => (b'h', digit(u64::from(pages))),
    }
}

fn frees(granted: &mut Granted<Grants<'_>>, piece: Piece, now: u64) -> Told {
    if !granted.owns(&piece) || !is_moment(now) {
        return REFUSED;
    }
    if granted.free(piece, now) {
        (b't', b'.')
    } else {
        (b'f', b'.')
    }
}

/// What an allocation of so many bytes is to answer where it gives no piece.
fn fault(fault: ClientFault) -> Told {
    match fault {
        ClientFault::NoMemory => (b'x', b'.'),
        ClientFault::TooLarge { pages: 65_537 } => (b'L', b'.'),
        ClientFault::TooLarge { .. } => REFUSED,
    }
}

/// How many bytes the letters of a step stand for: pages, pages and a byte more, or the most and one
/// more.
fn bytes_of(op: u8, arg: u8) -> u64 {
    let pages = u64::from(arg.saturating_sub(b'0'));
    match op {
        b'a' => 4096 * pages,
        b'b' => 4096 * pages + 1,
        b'm' => 268_435_456,
        _ => 268_435_457,
    }
}

impl<'w> Bench<'w> {
    fn allocates<R: Threads + Wait + Sync>(
        &mut self,
        rt: &R,
        alloc: Global,
        bytes: u64,
        now: u64,
    ) -> Told {
        if self.granted.client().heap_pages() >= 1_000_000 || !is_moment(now) {
            return REFUSED;
        }
        match self.granted.allocate(rt, alloc, bytes, now) {
            Ok(piece) => self.keeps(piece, bytes),
            Err(why) => fault(why),
        }
    }

    /// Keeps a new piece for so many bytes as the last.
    fn keeps(&mut self, piece: Piece, bytes: u64) -> Told {
        if u64::from(piece.pages()) != bytes.div_ceil(4096).max(1) {
            return REFUSED;
        }
        let told = marked(&mut self.granted, &piece);
        if self.pieces.push(piece).is_ok() {
            told
        } else {
            REFUSED
        }
    }

    /// One call of the client, or two purge tries on one of its segments.
    fn step<R: Threads + Wait + Sync>(
        &mut self,
        rt: &R,
        alloc: Global,
        op: u8,
        arg: u8,
        now: u64,
    ) -> Told {
        let place = usize::from(arg.saturating_sub(b'0'));
        match op {
            b'p' => self.purges(rt, place as u64, now),
            b'k' => (b'k', digit(self.granted.client().heap_pages())),
            b's' => (b's', digit(self.granted.release_purged(rt))),
            b'r' => (b'r', digit(self.granted.release_free(rt))),
            b'l' | b'u' | b'f' => self.uses(op, place, now),
            _ => self.allocates(rt, alloc, bytes_of(op, arg), now),
        }
    }

    fn purges<R: Threads + Wait + Sync>(&self, rt: &R, id: u64, now: u64) -> Told {
        if self.wardens.try_purge(rt, id, now) || self.wardens.try_purge(rt, id, now) {
            (b'P', b'.')
        } else {
            (b'n', b'.')
        }
    }

    /// A lock, an unlock or a free of the piece at a place.
    fn uses(&mut self, op: u8, place: usize, now: u64) -> Told {
        if place >= self.pieces.len() {
            return REFUSED;
        }
        match op {
            b'l' => locks(&mut self.granted, &mut self.pieces[place]),
            b'u' => unlocks(&mut self.granted, &mut self.pieces[place], now),
            _ => frees(&mut self.granted, self.pieces.swap_remove(place), now),
        }
    }

    /// Ends it: how many segments were granted and how many sides found gone, where each number was
    /// granted to this client and returned once by it.
    fn ends<R: Threads + Wait + Sync>(self, rt: &R) -> Told {
        let Bench { granted, .. } = self;
        let (end, granter) = granted.close_with(rt);
        let right = are_once(granter.returned.as_slice(), end.grants) && granter.strangers == 0;
        if right && end.grants == granter.grants {
            (digit(end.grants), digit(end.gone.len()))
        } else {
            REFUSED
        }
    }
}

/// Whether the client returned each number from 1 to this one, which is below 10, once, and no other.
fn are_once(returned: &[(u32, u64)], most: u64) -> bool {
    let mut seen = [false; 10];
    for &(client, id) in returned {
        if client != CLIENT || id == 0 || id > most || id > 9 || seen[id as usize] {
            return false;
        }
        seen[id as usize] = true;
    }
    returned.len() as u64 == most
}

/// Plays a row. Its first digit is the standard size, where 0 stands for 64, and its second one the
/// grant that is out of memory. Then come the steps, each with what it is to answer, and the end.
fn plays<R: Threads + Wait + Sync>(rt: &R, alloc: Global, row: &[u8]) -> Result<bool, NoMemory> {
    if row.len() % 6 != 5 {
        return Ok(false);
    }
    let standard = match row[0] {
        b'1'..=b'9' => u32::from(row[0] - b'0'),
        _ => 64,
    };
    let wardens = Wardens::new(alloc);
    let fails = u64::from(row[1].saturating_sub(b'0'));
    let mut bench = Bench {
        wardens: &wardens,
        granted: client_over(alloc, &wardens, standard, fails)?,
        pieces: Vec::new(alloc),
    };
    for step in 0..row.len() / 6 {
        let place = 3 + 6 * step;
        let told = bench.step(rt, alloc, row[place], row[place + 1], place as u64);
        if told != (row[place + 3], row[place + 4]) {
            return Ok(false);
        }
    }
    let end = row.len() - 2;
    Ok(bench.ends(rt) == (row[end], row[end + 1]))
}

/// Steps: `a`, `b` allocate so many pages, and one byte more, `m`, `t` 65,536 pages, and one byte
/// more; `l`, `u`, `f` lock, unlock and free the piece at a place; `s` releases the purged segments,
/// `r` the free ones; `p` purges the segment of a number; `k` tells the pages.
///
/// Answers: a piece's segment and first page, `x` out of memory, `L` too large; `H` held with the
/// bytes that it had, `G` gone; `I` idle now, `h` held with so many pages; `t`, `f` freed or not; how
/// many; `P` purged, `n` not.
const ROWS: [&str; 25] = [
    // A purge between each two calls, and none.
    "40 a2:10 u0:I. a1:12 u1:I. l0:H. u0:I. f1:t. s.:s0 f0:t. r.:r1 10",
    "40 a2:10 p1:n. u0:I. a1:12 u1:I. l0:H. u0:I. f1:t. s.:s0 f0:t. r.:r1 10",
    "40 a2:10 u0:I. p1:P. a1:20 u1:I. l0:G. f1:t. s.:s0 f0:f. r.:r1 21",
    "40 a2:10 u0:I. a1:12 p1:n. u1:I. l0:H. u0:I. f1:t. s.:s0 f0:t. r.:r1 10",
    "40 a2:10 u0:I. a1:12 u1:I. p1:P. l0:G. f1:f. s.:s0 f0:f. r.:r0 11",
    "40 a2:10 u0:I. a1:12 u1:I. l0:H. p1:n. u0:I. f1:t. s.:s0 f0:t. r.:r1 10",
    "40 a2:10 u0:I. a1:12 u1:I. l0:H. u0:I. p1:P. f1:t. s.:s1 f0:f. r.:r0 11",
    "40 a2:10 u0:I. a1:12 u1:I. l0:H. u0:I. f1:t. p1:P. s.:s1 f0:f. r.:r0 11",
    "40 a2:10 u0:I. a1:12 u1:I. l0:H. u0:I. f1:t. s.:s0 p1:P. f0:t. r.:r0 11",
    "40 a2:10 u0:I. a1:12 u1:I. l0:H. u0:I. f1:t. s.:s0 f0:t. p1:P. r.:r0 11",
    "40 a2:10 u0:I. a1:12 u1:I. l0:H. u0:I. p1:P. 11",
    "20 a2:10 u0:I. p1:P. a2:20 k.:k2 l0:G. 21",
    // Pieces of one segment: it is idle once none is locked.
    "40 a1:10 a1:11 a2:12 u1:h3 p1:n. u0:h2 l1:H. u2:h1 u1:I. p1:P. l1:G. l0:G. 11",
    // Pages of bytes, the standard size, and more.
    "20 a0:10 b0:11 a1:20 b1:30 a3:40 k.:k9 f4:t. r.:r1 k.:k6 40",
    "00 b1:10 a1:12 a9:13 f1:t. a1:12 k.:k+ 10",
    "40 a1:10 t.:L. k.:k4 u0:I. l0:H. 10",
    // Out of memory at each grant of a row.
    "20 a2:10 u0:I. a2:20 u1:I. a2:30 k.:k6 l0:H. l1:H. 30",
    "21 a2:x. k.:k0 a2:10 u0:I. a2:20 u1:I. k.:k4 l0:H. l1:H. 20",
    "22 a2:10 u0:I. a2:x. k.:k2 l0:H. u0:I. a2:20 u1:I. l0:H. l1:H. 20",
    "23 a2:10 u0:I. a2:20 u1:I. a2:x. k.:k4 l0:H. l1:H. 20",
    "22 a2:10 u0:I. p1:P. a2:x. k.:k0 l0:G. f0:f. a2:20 21",
    // Each number is returned once.
    "10 a1:10 f0:t. r.:r1 a1:20 u0:I. a1:30 u1:I. a1:40 p2:P. s.:s1 p3:P. 42",
    "10 a1:10 u0:I. p1:P. l0:G. s.:s0 s.:s0 r.:r0 11",
    "10 a1:10 a1:20 a1:30 f1:t. p2:P. f1:t. r.:r1 k.:k1 31",
    "40 00",
];

/// Whether each row goes as it says.
fn all_play<R: Threads + Wait + Sync>(rt: &R, alloc: Global) -> Result<bool, NoMemory> {
    for row in ROWS.iter() {
        if !plays(rt, alloc, row.as_bytes())? {
            return Ok(false);
        }
    }
    Ok(true)
}

#[test]
fn pieces_are_kept_and_found_gone(rt: HostRuntime) -> Result<(), Fail> {
    assert!(rt; all_play(&rt, rt.alloc())?);
    Ok(())
}

/// A piece of 65,536 pages, which has 256 MiB.
const LONGEST: &str = "40 m.:10 u0:I. l0:H. u0:I. p1:P. l0:G. f0:f. 11";

#[test]
fn the_longest_piece_is_kept_and_found_gone(rt: HostRuntime) -> Result<(), Fail> {
    assert!(rt; plays(&rt, rt.alloc(), LONGEST.as_bytes())?);
    Ok(())
}
