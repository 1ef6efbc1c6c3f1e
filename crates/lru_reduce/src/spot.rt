//! Where a number stands among slots.

ghost use Rattle.std.specs.Prelude.{◌≡◌, ◌≢◌, ◌<◌, true, false, length, slice_index_or, IfSome, IfNone};
ghost use Rattle.lru_reduce.specs.Wards.{IsRisingBy};
ghost use Rattle.lru_reduce.specs.Slots.{slot_number, IsSlotOf, HasNoSlot, IsSpot};
ghost use Rattle.lru_reduce.specs.declared.slots.Slot.{Slot};

use crate::slots::Slot;

/// The place of the first slot whose number is not less, or the end.
pub(crate) fn spot_of(slots: &[Slot], id: u64) -> usize
    requires { IsRisingBy slot_number slots.now }
    ensures { IsSpot id result slots.now }
{
    slots.partition_point(|slot| slot.id < id)
}

/// The place of the slot of a number, found at once where numbers rise by one, and else by halves.
pub(crate) fn place_of(slots: &[Slot], id: u64) -> Option<usize>
    requires { IsRisingBy slot_number slots.now }
    ensures some { IfSome result (λ place. IsSlotOf id place slots.now) }
    ensures none { IfNone result (HasNoSlot id slots.now) }
{
    let place = guess(slots, id);
    if is_at(slots, place, id) {
        return Some(place);
    }
    let place = spot_of(slots, id);
    if is_at(slots, place, id) {
        Some(place)
    } else {
        None
    }
}

/// The place of a number where the numbers rise by one.
fn guess(slots: &[Slot], id: u64) -> usize {
    match slots.first() {
        Some(first) => id.saturating_sub(first.id) as usize,
        None => 0,
    }
}

/// Whether the slot of a number stands at a place.
fn is_at(slots: &[Slot], place: usize, id: u64) -> bool
    ensures yes { result ≡ true → IsSlotOf id place slots.now }
    ensures no { result ≡ false
        → (d : Slot) → place < length slots.now → (slice_index_or slots.now place d).id ≢ id }
{
    place < slots.len() && slots[place].id == id
}
