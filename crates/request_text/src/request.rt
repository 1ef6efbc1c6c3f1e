ghost use Rattle.std.specs.Prelude.{◌≡◌, length, slice_get};

use std::marker::Model;
use tile_source::Tile;

/// What a client asks for: a tile.
#[derive(Clone, Copy, PartialEq, Eq)]
pub struct Request {
    /// The client. Clients are numbered from 1.
    pub client: u32,
    /// The tile.
    pub tile: Tile,
}

/// Requests in their order, seen by contracts as the list of them.
#[derive(Drop)]
pub struct Requests {
    requests: Vec<Request>,
}

impl Model for Requests {
    ghost use Rattle.std.specs.Prelude.{List};
    ghost use Rattle.request_text.specs.declared.request.Request.{Request};

    ghost Value = { List Request };

    ghost view = { λ r. r.requests.items };
}

impl Requests {
    /// The requests of a vector, in its order.
    pub fn from_vec(requests: Vec<Request>) -> Requests
        ensures { result ≡ requests.items }
    {
        Requests { requests }
    }

    /// How many requests there are.
    pub fn len(&self) -> u64
        ensures { result ≡ length self.now }
    {
        self.requests.len() as u64
    }

    /// A request by its place, which counts from 0. None comes exactly at a place from `len` on.
    pub fn get(&self, place: u64) -> Option<Request>
        ensures { result ≡ slice_get self.now place }
    {
        let request = *self.requests.get(place as usize)?;
        Some(request)
    }

    /// All of them, to go over them without a copy.
    pub fn as_slice(&self) -> &[Request]
        ensures { result.now ≡ self.now }
    {
        &self.requests
    }
}
