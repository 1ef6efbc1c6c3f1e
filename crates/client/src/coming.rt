//! The coming of a segment: its front is a locked piece, and the rest is free.
ghost use Rattle.std.specs.Prelude.{◌≡◌, ◌+◌, ◌^◌, ◌<◌, ◌≤◌, max, IfOk, OnOk, vec_len, vec_capacity};
ghost use Rattle.client.specs.Coming.{IsFrontLocked};

use crate::gone::GoneSides;
use crate::lease::LeasedSegment;
use page_locks::PageLocks;
use std::alloc::Global;
use units::NoMemory;

/// The locks of a segment of `whole` pages, of which the first `pages` are locked.
pub(crate) fn front_locks(alloc: Global, whole: u32, pages: u32) -> Result<PageLocks, NoMemory>
    requires { (1 ≤ pages) × (pages ≤ whole) }
    ensures { IfOk result (IsFrontLocked whole pages) }
{
    let mut locks = PageLocks::all_locked(alloc, whole)?;
    if pages < whole {
        locks.unlock(pages, whole - pages);
    }
    Ok(locks)
}

/// Makes room for one segment more, and for the sides of all that may be found gone later, and of the
/// `taken` ones that may be kept again.
pub(crate) fn make_room(
    leases: &mut Vec<LeasedSegment>,
    gone: &mut GoneSides,
    taken: usize,
) -> Result<(), NoMemory>
    ensures places { OnOk result (vec_len leases.new < vec_capacity leases.new) }
    ensures room { OnOk result (gone.new.room ≡ max gone.old.room (vec_len leases.new + 1 + taken)) }
    ensures more { gone.old.room ≤ gone.new.room }
    ensures full { gone.old.room < 2 ^ 64 → gone.new.room < 2 ^ 64 }
    ensures leases { leases.new.items ≡ leases.old.items }
    ensures sides { gone.new.sides ≡ gone.old.sides }
    ensures told { gone.new.told ≡ gone.old.told }
{
    leases.reserve(1)?;
    // More sides than a usize counts have no room.
    let sides = (leases.len() + 1).checked_add(taken).ok_or(NoMemory)?;
    gone.reserve(sides)
}
