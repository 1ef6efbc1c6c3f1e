ghost use Rattle.std.specs.Prelude.{◌≡◌, ◌^◌, ◌<◌, length, IfOk};

use crate::frame::{Frame, Room};
use crate::joined::Joined;
use crate::place::Layout;
use std::alloc::Global;
use std::marker::Brand;
use std_alloc::vec::Lodged;
use units::NoMemory;

impl Joined {
    /// A copy of these bytes, in an allocation of its own. The one error is being out of memory.
    pub fn copy_of(alloc: Global, bytes: &[u8]) -> Result<Joined, NoMemory>
        ensures { IfOk result (λ joined. joined ≡ bytes.now) }
    {
        if bytes.is_empty() {
            return Ok(Joined::new(Vec::new(Lodged), None));
        }
        let room = Room::new(alloc, 1, bytes.len())?;
        Ok(filled_with::<Brand>(room, bytes))
    }
}

/// The one place of a room, filled with these bytes.
fn filled_with<L: Layout>(room: Room, bytes: &[u8]) -> Joined
    requires room { room ≡ record { base = L.base; size = L.size; count = L.count } }
    requires one { (L.size ≡ length bytes.now) × (L.count ≡ 1) }
    ensures { result ≡ bytes.now }
{
    let mut frame = Frame::<L>::new(room);
    let mut place = frame.next_place();
    place.append(bytes);
    frame.put_back(place).close()
}
