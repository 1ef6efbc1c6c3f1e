ghost use Rattle.std.specs.Prelude.{◌≡◌, length, slice_get, option_map};

use serve_texts::Tally;
use std::marker::Model;
use tile_cache::CacheEnd;

/// What came of a client's requests.
#[derive(Drop)]
pub struct ServedClient {
    /// Its tally.
    pub tally: Tally,
    /// What is left of its cache.
    pub end: CacheEnd,
}

/// What came of each client's requests, by rising number of the client from 1. It is seen by
/// contracts as the list of them.
#[derive(Drop)]
pub struct ServedClients {
    clients: Vec<ServedClient>,
}

impl Model for ServedClients {
    ghost use Rattle.std.specs.Prelude.{List};
    ghost use Rattle.serve_session.specs.declared.served.ServedClient.{ServedClient};

    ghost Value = { List ServedClient };

    ghost view = { λ s. s.clients.items };
}

impl ServedClients {
    /// The clients of a vector, in its order.
    pub fn from_vec(clients: Vec<ServedClient>) -> ServedClients
        ensures { result ≡ clients.items }
    {
        ServedClients { clients }
    }

    /// How many clients there are.
    pub fn len(&self) -> u64
        ensures { result ≡ length self.now }
    {
        self.clients.len() as u64
    }

    /// A client by its place, counted from 0: client 1 stands at place 0. `None` comes exactly at a
    /// place from `len` on.
    pub fn get(&self, place: u64) -> Option<&ServedClient>
        ensures { option_map (λ client. client.now) result ≡ slice_get self.now place }
    {
        self.clients.get(place as usize)
    }

    /// All of them, to go over them without a copy.
    pub fn as_slice(&self) -> &[ServedClient]
        ensures { result.now ≡ self.now }
    {
        &self.clients
    }
}
