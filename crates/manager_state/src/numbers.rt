//! Which numbers each client has.

ghost use Rattle.std.specs.Prelude.{◌≡◌, ◌≢◌, ℕ, ◌^◌, ◌<◌, true, false, [], length, IfSome, IfNone, OnOk};
ghost use Rattle.manager_state.specs.Keeping.{has_pair, KeepsLive, KeepsComing};

use discard_book::{Book, Entry};
use std::alloc::Global;
use std::collections::BTreeSet;
use std::marker::Model;
use units::NoMemory;

/// Numbers by client, so that a removal of a client meets its own segments alone. Each live segment's number is among
/// them. One leaves when its segment does; one that a grant out of memory left behind stays.
#[derive(Drop)]
pub(crate) struct Numbers {
    pairs: BTreeSet<(u32, u64)>,
}

impl Model for Numbers {
    ghost use Rattle.std.specs.Prelude.{ℕ, List};

    ghost Value = { List (ℕ × ℕ) };

    ghost view = { λ n. n.pairs.keys };
}

impl Numbers {
    /// No number.
    pub(crate) fn new(alloc: Global) -> Numbers
        ensures { result ≡ [] }
    {
        Numbers {
            pairs: BTreeSet::new(alloc),
        }
    }

    /// Takes a number of a client in.
    pub(crate) fn enter(&mut self, client: u32, id: u64) -> Result<(), NoMemory>
        ensures ok { OnOk result (has_pair self.new client id ≡ true) }
        ensures others { (who number : ℕ)
            → has_pair self.old who number ≡ true → has_pair self.new who number ≡ true }
    {
        self.pairs.insert((client, id))?;
        Ok(())
    }

    /// Lets a number of a client go.
    fn leave(&mut self, client: u32, id: u64)
        ensures gone { has_pair self.new client id ≡ false }
        ensures others { (who number : ℕ)
            → number ≢ id → has_pair self.new who number ≡ has_pair self.old who number }
    {
        self.pairs.remove(&(client, id));
    }

    /// The least number of a client that is greater than `after`.
    pub(crate) fn next(&self, client: u32, after: u64) -> Option<u64>
        ensures later { IfSome result (λ id. after < id) }
        ensures there { IfSome result (λ id. has_pair self.now client id ≡ true) }
        ensures least { IfSome result (λ id. (between : ℕ)
            → after < between → between < id → has_pair self.now client between ≡ false) }
        ensures none { IfNone result ((id : ℕ)
            → after < id → id < 2 ^ 64 → has_pair self.now client id ≡ false) }
    {
        let from = after.checked_add(1)?;
        let (owner, id) = *self.pairs.range((client, from)..).next()?;
        if owner == client { Some(id) } else { None }
    }

    /// Lets a number go where it was drawn and its segment is not live.
    pub(crate) fn drop_dead(&mut self, book: &Book, clients: &[u32], id: u64)
        requires { KeepsLive book.now.entries self.old }
        ensures live { KeepsLive book.now.entries self.new }
        ensures coming { KeepsComing (length clients.now) self.old self.new }
    {
        let drawn = id >= 1 && id <= clients.len() as u64;
        if drawn && !book.fits(&Entry::Back { id }) {
            self.leave(clients[id as usize - 1], id);
        }
    }

    /// Lets the numbers go that were purged from an entry of the book on.
    pub(crate) fn drop_purged(&mut self, book: &Book, clients: &[u32], from: usize)
        requires { KeepsLive book.now.entries self.old }
        ensures live { KeepsLive book.now.entries self.new }
        ensures coming { KeepsComing (length clients.now) self.old self.new }
    {
        let entries = book.entries();
        for at in from..entries.len() {
            if let Entry::Purge { id, .. } = entries[at] {
                self.drop_dead(book, clients, id);
            }
        }
    }
}
