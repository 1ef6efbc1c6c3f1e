ghost use Rattle.std.specs.Prelude.{◌≡◌, ℕ, ◌+◌, ◌*◌, ◌<◌, ◌≤◌, Bool, true, false, not, ◌&&◌, List, [], ◌∷◌, length, take, drop, IfOk, count_by, slice_index_or};
ghost use Rattle.machine.specs.History.{History, number_of, left_of, put};
ghost use Rattle.units.specs.declared.TheConstants.{MOST_PAGES};
ghost use Rattle.machine.specs.Answers.{answer_of, is_plain, is_live, can_lock, can_unlock, can_write, can_try, can_give_back, bytes_held};
ghost use Rattle.units.specs.Moment.{is_moment};
ghost use Rattle.machine.specs.Segments.{Shows, fresh};

use crate::event::{Answer, Event};
use std::alloc::Global;
use std::marker::Model;
use units::pages::{all_are, set_all};
use units::{NoMemory, PAGE, is_moment};

/// One granted segment.
#[derive(Drop)]
pub(crate) struct Segment {
    /// For each page, whether it is held. None is kept once the segment is given back.
    held: Vec<bool>,
    /// How many pages are held, so that no call counts them.
    held_count: usize,
    stamp: u64,
    known: Option<u64>,
    /// None is kept once the segment is purged or given back.
    bytes: Vec<u8>,
    gone: bool,
    ended: bool,
}

impl Model for Segment {
    ghost use Rattle.std.specs.Prelude.{◌≡◌, ◌*◌, ◌≤◌, true, if◌then◌else◌, vec_len, vec_capacity, count_by};
    ghost use Rattle.units.specs.declared.TheConstants.{PAGE, MOST_PAGES};
    ghost use Rattle.machine.specs.KeptSegment.{KeptSegment};

    ghost Value = { KeptSegment };

    ghost view = { λ s. record { held = s.held.items; stamp = s.stamp; known = s.known; bytes = s.bytes.items; gone = s.gone; ended = s.ended } };

    ghost invariant = { λ s. (s.held_count ≡ count_by (λ b. b) s.held.items)
        × (vec_len s.bytes ≡ (if s.gone then 0 else PAGE * vec_len s.held))
        × (vec_len s.held ≤ MOST_PAGES)
        × (s.gone ≡ true → s.held_count ≡ 0)
        × (s.gone ≡ true → vec_capacity s.bytes ≡ 0)
        × (s.ended ≡ true → (vec_capacity s.held ≡ 0) × (vec_capacity s.bytes ≡ 0)) };
}

impl Segment {
    /// A new segment: all its pages are held, and all its bytes are zero.
    pub(crate) fn new(alloc: Global, pages: u32) -> Result<Segment, NoMemory>
        requires { pages ≤ MOST_PAGES }
        ensures { IfOk result (λ segment. segment ≡ fresh pages) }
    {
        let count = pages as usize;
        Ok(Segment {
            held: vec![in alloc; true; count]?,
            held_count: count,
            stamp: 0,
            known: None,
            bytes: vec![in alloc; 0; PAGE as usize * count]?,
            gone: false,
            ended: false,
        })
    }

    /// The machine's answer to an event on this segment, after which the segment is what the event makes of it.
    pub(crate) fn step(&mut self, alloc: Global, event: &Event) -> Answer
        ensures answer { (h : History) (s : ℕ) → Shows h s self.old → number_of event.now ≡ s
            → result ≡ answer_of h event.now }
        ensures after { (h : History) (s : ℕ) → Shows h s self.old → number_of event.now ≡ s
            → Shows ((event.now, result) ∷ h) s self.new }
    {
        match event {
            Event::Grant { .. } => Answer::Misuse,
            Event::Lock { first, count, .. } => self.lock(*first, *count),
            Event::Unlock {
                first,
                count,
                at,
                ..
            } => self.unlock(*first, *count, *at),
            Event::Write { place, bytes, .. } => self.write(*place, bytes.as_slice()),
            Event::Try { now, .. } => self.try_purge(alloc, *now),
            Event::Back { .. } => self.give_back(alloc),
        }
    }

    /// Whether it is neither gone nor given back.
    fn is_live(&self) -> bool
        ensures { (h : History) (s : ℕ) → Shows h s self.now → result ≡ is_live h s }
    {
        !self.ended && !self.gone
    }

    fn can_lock(&self, first: u32, count: u32) -> bool
        ensures told { (h : History) (s : ℕ) → Shows h s self.now
            → result ≡ can_lock h s first count }
        ensures inside { result ≡ true → first + count ≤ length self.now.held }
        ensures free { result ≡ true → (page : ℕ) → first ≤ page → page < first + count
            → slice_index_or self.now.held page false ≡ false }
    {
        let end = u64::from(first) + u64::from(count);
        if self.ended || count == 0 {
            return false;
        }
        if end > self.held.len() as u64 {
            return false;
        }
        all_are(&self.held, first as usize, end as usize, false)
    }

    fn can_unlock(&self, first: u32, count: u32, at: u64) -> bool
        ensures told { (h : History) (s : ℕ) → Shows h s self.now
            → result ≡ can_unlock h s first count at }
        ensures inside { result ≡ true → first + count ≤ length self.now.held }
        ensures held { result ≡ true → (page : ℕ) → first ≤ page → page < first + count
            → slice_index_or self.now.held page false ≡ true }
    {
        let end = u64::from(first) + u64::from(count);
        if self.ended || count == 0 || !is_moment(at) {
            return false;
        }
        if end > self.held.len() as u64 {
            return false;
        }
        all_are(&self.held, first as usize, end as usize, true)
    }

    fn lock(&mut self, first: u32, count: u32) -> Answer
        ensures answer { (h : History) (s : ℕ) → Shows h s self.old
            → result ≡ answer_of h (Event.Lock s first count) }
        ensures after { (h : History) (s : ℕ) → Shows h s self.old
            → Shows ((Event.Lock s first count, result) ∷ h) s self.new }
    {
        if !self.can_lock(first, count) {
            return Answer::Misuse;
        }
        if self.gone {
            return Answer::Gone;
        }
        set_all(&mut self.held, first as usize, count as usize, true);
        self.held_count += count as usize;
        Answer::Held
    }

    fn unlock(&mut self, first: u32, count: u32, at: u64) -> Answer
        ensures answer { (h : History) (s : ℕ) → Shows h s self.old
            → result ≡ answer_of h (Event.Unlock s first count at) }
        ensures after { (h : History) (s : ℕ) → Shows h s self.old
            → Shows ((Event.Unlock s first count at, result) ∷ h) s self.new }
    {
        if !self.can_unlock(first, count, at) {
            return Answer::Misuse;
        }
        set_all(&mut self.held, first as usize, count as usize, false);
        self.held_count -= count as usize;
        if self.held_count > 0 {
            return Answer::StillHeld {
                pages: self.held_count as u32,
            };
        }
        self.stamp = self.stamp.max(at);
        Answer::Idle { at: self.stamp }
    }

    /// Whether it is not given back, and each byte of a range lies in a held page.
    fn holds(&self, place: u64, count: u64) -> bool
        ensures told { (h : History) (s : ℕ) → Shows h s self.now
            → result ≡ (is_plain h s && bytes_held h s place count) }
        ensures inside { result ≡ true → 0 < count → place + count ≤ length self.now.bytes }
    {
        if self.ended {
            return false;
        }
        let pages = self.held.len() as u64;
        if count == 0 {
            return true;
        }
        let Some(last) = place.checked_add(count - 1) else {
            return false;
        };
        if last / PAGE >= pages {
            return false;
        }
        let first_page = (place / PAGE) as usize;
        let last_page = (last / PAGE) as usize;
        all_are(&self.held, first_page, last_page + 1, true)
    }

    fn write(&mut self, place: u64, bytes: &[u8]) -> Answer
        ensures answer { (h : History) (s : ℕ) → Shows h s self.old
            → result ≡ answer_of h (Event.Write s place bytes.now) }
        ensures after { (h : History) (s : ℕ) → Shows h s self.old
            → Shows ((Event.Write s place bytes.now, result) ∷ h) s self.new }
    {
        if !self.holds(place, bytes.len() as u64) {
            return Answer::Misuse;
        }
        if !bytes.is_empty() {
            put(&mut self.bytes, place as usize, bytes);
        }
        Answer::Written
    }

    fn can_try(&self, now: u64) -> bool
        ensures { (h : History) (s : ℕ) → Shows h s self.now → result ≡ can_try h s now }
    {
        self.is_live() && is_moment(now)
    }

    fn try_purge(&mut self, alloc: Global, now: u64) -> Answer
        ensures answer { (h : History) (s : ℕ) → Shows h s self.old
            → result ≡ answer_of h (Event.Try s now) }
        ensures after { (h : History) (s : ℕ) → Shows h s self.old
            → Shows ((Event.Try s now, result) ∷ h) s self.new }
    {
        if !self.can_try(now) {
            return Answer::Misuse;
        }
        if self.held_count > 0 {
            self.known = Some(now);
            return Answer::Used { known: now };
        }
        if self.known.unwrap_or(0) == self.stamp {
            self.gone = true;
            self.bytes = Vec::new(alloc);
            return Answer::Taken;
        }
        self.known = Some(self.stamp);
        Answer::Used { known: self.stamp }
    }

    fn give_back(&mut self, alloc: Global) -> Answer
        ensures answer { (h : History) (s : ℕ) → Shows h s self.old
            → result ≡ answer_of h (Event.Back s) }
        ensures after { (h : History) (s : ℕ) → Shows h s self.old
            → Shows ((Event.Back s, result) ∷ h) s self.new }
    {
        if self.gone {
            self.end(alloc);
            return Answer::Purged;
        }
        if self.ended {
            return Answer::Misuse;
        }
        self.end(alloc);
        Answer::Counted
    }

    /// It is given back: its flags and its bytes go.
    fn end(&mut self, alloc: Global)
        ensures { self.new ≡ record self.old { held = []; bytes = []; ended = true } }
    {
        self.held = Vec::new(alloc);
        self.held_count = 0;
        self.bytes = Vec::new(alloc);
        self.ended = true;
    }

    /// Reads bytes at a place into `out`, where each lies in a held page and the segment is live.
    pub(crate) fn read(&self, place: u64, out: &mut [u8]) -> bool
        ensures shown { (h : History) (s : ℕ) → Shows h s self.now
            → result ≡ (is_live h s && bytes_held h s place (length out.old)) }
        ensures bytes { (h : History) (s : ℕ) → Shows h s self.now → result ≡ true
            → out.new ≡ take (length out.old) (drop place (left_of h s)) }
        ensures same { result ≡ false → out.new ≡ out.old }
    {
        let count = out.len();
        if self.gone {
            return false;
        }
        if !self.holds(place, count as u64) {
            return false;
        }
        if count > 0 {
            let start = place as usize;
            out.copy_from_slice(&self.bytes[start..start + count]);
        }
        true
    }
}

/// Puts bytes at a place.
fn put(old: &mut [u8], place: usize, bytes: &[u8])
    requires { place + length bytes.now ≤ length old.old }
    ensures { old.new ≡ put place bytes.now old.old }
{
    old[place..place + bytes.len()].copy_from_slice(bytes);
}
