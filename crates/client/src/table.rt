//! The segments of a client in a row.
ghost use Rattle.std.specs.Prelude.{◌≡◌, true};
ghost use Rattle.client.specs.Places.{IsPlaceOf, Rises, AreBelow};

use crate::lease::LeasedSegment;
use segment::OwnerSide;
use units::row_search::{find_row, guess_place};

/// Where the segment of this number stands, if one is there. It is found at once where the numbers
/// rise evenly. Where they rise, as `rising` tells, it is found by halves, or found missing; else by a
/// walk.
pub(crate) fn place_of(leases: &[LeasedSegment], rising: bool, id: u64) -> Option<usize>
    requires { rising ≡ true → Rises leases.now }
    ensures { IsPlaceOf leases.now id result }
{
    let near = guess_place(leases, id);
    if near < leases.len() && leases[near].id() == id {
        return Some(near);
    }
    if rising {
        return leases.binary_search_by_key(&id, |lease| lease.id()).ok();
    }
    find_row(leases, id, near)
}

/// Whether the numbers rise, and that of a side is above them all.
pub(crate) fn rise_to(leases: &[LeasedSegment], rising: bool, side: &OwnerSide) -> bool
    requires { rising ≡ true → Rises leases.now }
    ensures rising { result ≡ true → rising ≡ true }
    ensures below { result ≡ true → AreBelow side.now.id leases.now }
{
    let Some(last) = leases.last() else {
        return rising;
    };
    rising && last.id() < side.id()
}
