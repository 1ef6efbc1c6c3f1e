//! Steps on the word are events of the machine: for every list of events that stands for a segment
//! under the rule, and each step, the machine's answer to the event is what the step shows, and the
//! list with the event stands for what the step leaves.
ghost use Rattle.segment_rule.specs.Laws.{MakeIsGrant, LockWinIsHeld, LockLossIsGone, UnlockIsIdle, LookIsNone, TryWinIsTaken, TryLossIsUsed, HeldLock, HeldUnlock, HeldWrite};

use machine::law_unknown_before_grant;

/// What `make` leaves is granted.
pub fn law_make()
    ensures { MakeIsGrant }
{
    law_unknown_before_grant();
}

/// A lock that wins is a Lock that is answered Held.
pub fn law_lock_wins()
    ensures { LockWinIsHeld }
{}

/// A lock that loses is a Lock that is answered Gone.
pub fn law_lock_loses()
    ensures { LockLossIsGone }
{}

/// An unlock is an Unlock that is answered Idle.
pub fn law_unlock()
    ensures { UnlockIsIdle }
{}

/// A look is no event.
pub fn law_look()
    ensures { LookIsNone }
{}

/// A purge try that wins is a Try that is answered Taken.
pub fn law_try_wins()
    ensures { TryWinIsTaken }
{}

/// A purge try that loses is a Try that is answered Used.
pub fn law_try_loses()
    ensures { TryLossIsUsed }
{}

/// While the owner holds, it locks free pages, unlocks some and writes without a step.
pub fn law_held_acts()
    ensures locks { HeldLock }
    ensures unlocks { HeldUnlock }
    ensures writes { HeldWrite }
{}
