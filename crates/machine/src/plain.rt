ghost use Rattle.std.specs.Prelude.{◌≡◌, ℕ, ◌+◌, Bool, true, false, List, [], ◌∷◌, ◌++◌, length, take, drop, IfOk, OnOk, OnErr};
ghost use Rattle.machine.specs.declared.event.Event.{Event};
ghost use Rattle.machine.specs.History.{History, number_of};
ghost use Rattle.machine.specs.Answers.{answer_of, answer, left, readable};
ghost use Rattle.machine.specs.Segments.{ShowsAll, StandsFor, kept_at};

use crate::event::{Answer, Event};
use crate::segment::Segment;
use std::alloc::Global;
use std::collections::BTreeMap;
use std::marker::Model;
use units::{MOST_PAGES, NoMemory};

/// The segments of a machine of its own, which answers each event as the definition says. It keeps
/// each granted segment's pages and bytes as they are now, and nothing of the events before. The bytes go once the
/// segment is purged or given back, and the flags of its pages once it is given back.
#[derive(Drop)]
pub struct PlainSegments {
    segments: BTreeMap<u64, Segment>,
}

impl Model for PlainSegments {
    ghost use Rattle.std.specs.Prelude.{ℕ, List};
    ghost use Rattle.machine.specs.KeptSegment.{KeptSegment};

    ghost Value = { List (ℕ × KeptSegment) };

    ghost view = { λ s. s.segments.entries };
}

impl PlainSegments {
    /// No segment.
    pub fn new(alloc: Global) -> Result<PlainSegments, NoMemory>
        ensures { IfOk result (λ segments. StandsFor segments []) }
    {
        Ok(PlainSegments {
            segments: BTreeMap::new(alloc),
        })
    }

    /// The machine's answer to an event, after which these segments are those after one more event. `NoMemory` leaves
    /// them as they were.
    pub fn step(&mut self, alloc: Global, event: &Event) -> Result<Answer, NoMemory>
        ensures answer { IfOk result (λ a. (events : List Event) → StandsFor self.old events
            → a ≡ answer events event.now) }
        ensures after { OnOk result ((events : List Event) → StandsFor self.old events
            → StandsFor self.new (events ++ event.now ∷ [])) }
        ensures same { OnErr result (self.new ≡ self.old) }
    {
        match self.segments.get_mut(&event.id()) {
            Some(segment) => Ok(segment.step(alloc, event)),
            None => self.begin(alloc, event),
        }
    }

    /// The same, for an event on a number that was not granted.
    fn begin(&mut self, alloc: Global, event: &Event) -> Result<Answer, NoMemory>
        requires { kept_at self.old (number_of event.now) ≡ None }
        ensures answer { IfOk result (λ a. (h : History) → ShowsAll h self.old
            → a ≡ answer_of h event.now) }
        ensures after { OnOk result ((h : History) → ShowsAll h self.old
            → ShowsAll ((event.now, answer_of h event.now) ∷ h) self.new) }
        ensures same { OnErr result (self.new ≡ self.old) }
    {
        let Event::Grant { id, client, pages } = event else {
            return Ok(Answer::Misuse);
        };
        if *client < 1 || *pages < 1 || *pages > MOST_PAGES {
            return Ok(Answer::Misuse);
        }
        let segment = Segment::new(alloc, *pages)?;
        self.segments.insert(*id, segment)?;
        Ok(Answer::Granted { id: *id })
    }

    /// Reads `count` bytes at a place of a segment into `out`. It answers true and fills `out` exactly where each of
    /// these bytes lies in a held page of a live segment; else `out` stays as it was.
    pub fn read(&self, id: u64, place: u64, count: u32, out: &mut [u8]) -> bool
        requires { length out.old ≡ count }
        ensures shown { (events : List Event) → StandsFor self.now events
            → result ≡ readable events id place count }
        ensures bytes { (events : List Event) → StandsFor self.now events → result ≡ true
            → out.new ≡ take count (drop place (left events id)) }
        ensures same { result ≡ false → out.new ≡ out.old }
    {
        match self.segments.get(&id) {
            Some(segment) => segment.read(place, out),
            None => false,
        }
    }
}
