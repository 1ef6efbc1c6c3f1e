ghost use Rattle.std.specs.Prelude.{◌≡◌, IfOk};
ghost use Rattle.serve_session.specs.Served.{tallies_of};
ghost use Rattle.serve_run.specs.Served.{report_of};

use manager_state::State;
use serve_session::ServedClients;
use serve_texts::{Replies, Tally, report_bytes};
use std::alloc::Global;
use units::NoMemory;

/// What serving a run came to.
#[derive(Drop)]
pub struct Served {
    /// The replies, in the order of the requests.
    pub replies: Replies,
    /// What came of each client's requests, by rising number of the client.
    pub clients: ServedClients,
    /// The state of the run's manager, when all was over.
    pub state: State,
}

/// The report of a served run: the text of the manager's book, then a line for each client, and then
/// how many pages are granted. The one error is being out of memory.
pub fn report_text(alloc: Global, served: &Served) -> Result<Vec<u8>, NoMemory>
    ensures { IfOk result (λ text. text.items ≡ report_of served.now) }
{
    let tallies = tallies(alloc, &served.clients)?;
    report_bytes(alloc, served.state.book(), &tallies, served.state.granted())
}

/// The tallies of all clients, in their order.
fn tallies(alloc: Global, clients: &ServedClients) -> Result<Vec<Tally>, NoMemory>
    ensures { IfOk result (λ tallies. tallies.items ≡ tallies_of clients.now) }
{
    let mut tallies = Vec::new(alloc);
    for client in clients.as_slice() {
        tallies.push(client.tally)?;
    }
    Ok(tallies)
}
