//! The end of a run: the clients are removed from the manager's state, so that nothing stays granted.
ghost use Rattle.std.specs.Prelude.{◌≡◌, ℕ, ◌≤◌, true};
ghost use Rattle.manager_state.specs.Clients.{grants_to, is_granted_to};
ghost use Rattle.serve_run.specs.Removing.{CountsOff, RemovesAll};

use discard_book::Entry;
use manager_state::State;

/// Removes each client that a Grant of the book names, by rising number. What a client gave back was
/// counted off before, and gets no second entry.
pub(crate) fn remove_all(state: &mut State)
    ensures { RemovesAll state.old state.new }
{
    let last = greatest_client(state.book().entries());
    for removed in 0..last {
        remove(state, removed + 1);
    }
}

/// Counts off what is live of a client.
fn remove(state: &mut State, client: u32)
    ensures { CountsOff client state.old state.new }
{
    // For the proof: calls up the clauses `legal` and `live` of `State::book`.
    let _before = state.book();
    state.remove_client(client);
    // For the proof: calls up the clauses `legal` and `live` of `State::book`.
    let _after = state.book();
}

/// The greatest client that a Grant names, or 0.
fn greatest_client(entries: &[Entry]) -> u32
    ensures { (client id : ℕ) → is_granted_to client id entries.now ≡ true → client ≤ result }
{
    let mut greatest = 0;
    for entry in entries {
        let client = granted_client(entry);
        if client > greatest {
            greatest = client;
        }
    }
    greatest
}

/// The client that an entry names, or 0.
fn granted_client(entry: &Entry) -> u32
    ensures { (client id : ℕ) → grants_to client id entry.now ≡ true → client ≤ result }
{
    match *entry {
        Entry::Grant { client, .. } => client,
        _ => 0,
    }
}
