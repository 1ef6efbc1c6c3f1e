//! Laws of histories. Each is the contract of a function that does nothing: it holds of every list of events.
ghost use Rattle.std.specs.Prelude.{ℕ, List, ◌++◌};
ghost use Rattle.machine.specs.declared.event.Event.{Event};
ghost use Rattle.units.specs.Moment.{IsMoment};
ghost use Rattle.machine.specs.Reduction.{IsReduction, IsReduced, LeavesLive};
ghost use Rattle.machine.specs.Laws.{UnknownBeforeGrant, TakenFree, GoneStays, LeftStays, StampRises, CountedOnce, MisuseChangesNothing};

/// Nothing is known of a number that was not granted: it has no page and none is held, its stamp is 0 and its known use
/// none, and it is neither gone nor given back.
pub fn law_unknown_before_grant()
    ensures { UnknownBeforeGrant }
{}

/// A purge try is answered Taken only where no page of the segment is held.
pub fn law_taken_free()
    ensures { TakenFree }
{}

/// Once a segment is gone it stays so, no page of it is held, and each Lock of it that is no misuse is answered Gone.
pub fn law_gone_stays()
    ensures { GoneStays }
{}

/// The left bytes of a segment are the same from an Unlock that is answered Idle to the next Lock that is answered
/// Held.
pub fn law_left_stays()
    ensures { LeftStays }
{}

/// The stamp of a segment never falls, and it is a moment once the held pages were emptied.
pub fn law_stamp_rises()
    ensures { (events later : List Event) (s : ℕ) → StampRises events later s }
{}

/// Granted pages grow by the pages of each Grant that is answered Granted and shrink by the pages of each segment
/// that is purged or given back. No number is counted off twice.
pub fn law_counted_once()
    ensures { (events : List Event) (e : Event) → CountedOnce events e }
{}

/// An event that is misuse changes none of the definitions.
pub fn law_misuse_changes_nothing()
    ensures { MisuseChangesNothing }
{}

/// After a reduction, whatever owners do in its course, granted pages are within its limit, or each segment that is
/// still live was found used at or after its moment. The words that its tries found leave exactly the live segments.
pub fn law_reduction_ends()
    ensures ends { (before events : List Event) (limit now : ℕ) → IsMoment now
        → IsReduction before limit now events → IsReduced (before ++ events) limit now }
    ensures leaves { (before events : List Event) (limit now : ℕ) → IsMoment now
        → IsReduction before limit now events → LeavesLive before limit now events }
{}
