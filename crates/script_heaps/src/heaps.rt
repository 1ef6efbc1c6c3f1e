//! What all clients of a script have of memory.
ghost use Rattle.std.specs.Prelude.{◌≡◌, ℕ, ◌+◌, ◌-◌, ◌^◌, ◌<◌, ◌≤◌, true, length, IfSome, IfOk, OnOk};
ghost use Rattle.units.specs.declared.TheConstants.{MOST_PAGES};
ghost use Rattle.span_heap.specs.declared.run.Run.{Run};
ghost use Rattle.span_heap.specs.Run.{pages_of};
ghost use Rattle.span_heap.specs.Runs.{front_of};
ghost use Rattle.span_heap.specs.Changes.{whole_of};
ghost use Rattle.script_heaps.specs.Holding.{has, numbers, without_all, lost, lost_all, told, taken, adopted, with_piece, emptied, all_free};
ghost use Rattle.script_heaps.specs.Heaps.{Heaps, no_heaps, with_client, next_piece, owner_of, piece_of, with_next, with_owned};
ghost use Rattle.script_heaps.specs.Showing.{Shows, FindsNext, FreesNumbered, IsMarked};

use crate::client_heap::ClientHeap;
use span_heap::{Heap, Run, Runs};
use std::alloc::Global;
use std::collections::BTreeMap;
use units::NoMemory;

/// The client that owns a piece, and where the piece stands there.
#[derive(Clone, Copy)]
pub struct PieceOwner {
    /// The client, or 0 for nobody.
    pub client: u64,
    /// The place of the piece among all pieces of the client, counted from 0.
    pub place: u64,
}

/// The heaps of all clients, the pieces by their numbers, and which segments ever came to a heap. After
/// `NoMemory` it is of no use.
///
/// A call on a client finds its heap among those of the clients that have one; a piece is found by its
/// number at once. `lose` and `leave_all` go along the client's segments for each that leaves.
#[derive(Drop)]
pub struct ScriptHeaps {
    clients: BTreeMap<u64, ClientHeap>,
    /// By the number of the piece. The number 0 is never drawn.
    owners: Vec<PieceOwner>,
    /// By the number of the segment.
    owned: Vec<bool>,
}

impl ScriptHeaps {
    /// No client has anything.
    pub fn new(alloc: Global) -> Result<ScriptHeaps, NoMemory>
        ensures { IfOk result (λ kept. Shows kept no_heaps) }
    {
        let mut owners = Vec::new(alloc);
        owners.push(PieceOwner {
            client: 0,
            place: 0,
        })?;
        Ok(ScriptHeaps {
            clients: BTreeMap::new(alloc),
            owners,
            owned: Vec::new(alloc),
        })
    }

    /// Whether a segment came to a client's heap, also where it left.
    pub fn owns(&self, id: u64) -> bool
        ensures { (heaps : Heaps) → Shows self.now heaps → result ≡ heaps.owned id }
    {
        match self.owned.get(id as usize) {
            Some(owned) => *owned,
            None => false,
        }
    }

    /// The number of the piece that came last, or 0 where none came.
    pub fn last_piece(&self) -> u64
        ensures { (heaps : Heaps) → Shows self.now heaps → result ≡ next_piece heaps - 1 }
    {
        (self.owners.len() as u64).saturating_sub(1)
    }

    /// The client that a piece came for, or 0.
    pub fn client_of(&self, number: u64) -> u64
        ensures { (heaps : Heaps) → Shows self.now heaps → result ≡ (owner_of heaps number).client }
    {
        self.owner(number).client
    }

    /// The pages of a piece, if it is there.
    pub fn piece(&self, number: u64) -> Option<Run>
        ensures { (heaps : Heaps) → Shows self.now heaps → result ≡ piece_of heaps number }
    {
        let owner = self.owner(number);
        match self.clients.get(&owner.client) {
            Some(heap) => heap.piece(owner.place),
            None => None,
        }
    }

    /// The owner of a piece.
    fn owner(&self, number: u64) -> PieceOwner
        ensures { (heaps : Heaps) → Shows self.now heaps → result ≡ owner_of heaps number }
    {
        match self.owners.get(number as usize) {
            Some(owner) => *owner,
            None => PieceOwner {
                client: 0,
                place: 0,
            },
        }
    }

    /// How many pages of a client are free.
    pub fn free_pages(&self, client: u64) -> u64
        ensures { (heaps : Heaps) → Shows self.now heaps
            → result ≡ pages_of (heaps.clients client).runs }
    {
        match self.clients.get(&client) {
            Some(heap) => heap.free_pages(),
            None => 0,
        }
    }

    /// Takes the first `pages` pages of a client's free run that has at most `slack` more, as the next
    /// piece.
    pub fn search(&mut self, client: u64, pages: u32, slack: u32) -> Result<Option<Run>, NoMemory>
        requires sized { 1 ≤ pages }
        requires small { pages + slack < 2 ^ 32 }
        ensures finds { IfOk result (λ found. (heaps : Heaps) → Shows self.old heaps
            → FindsNext self.new heaps client pages slack found) }
        ensures there { IfOk result (λ found. IfSome found (λ run. (heaps : Heaps)
            → Shows self.old heaps → has (heaps.clients client) run.segment ≡ true)) }
    {
        let Some(heap) = self.clients.get_mut(&client) else {
            return Ok(None);
        };
        let Some((place, run)) = heap.search(pages, slack)? else {
            return Ok(None);
        };
        self.owners.push(PieceOwner { client, place })?;
        Ok(Some(run))
    }

    /// The pages that a search found for a client are lost, since their segment was purged: the last
    /// piece is gone, and its segment leaves.
    pub fn lose_last(&mut self, client: u64) -> Result<(), NoMemory>
        ensures { OnOk result ((before : Heaps) (run : Run) (n : ℕ)
            → Shows self.old (with_next (with_client before client
            (taken (before.clients client) run n)) client (front_of run n))
            → has (before.clients client) run.segment ≡ true
            → Shows self.new
            (with_client before client (lost (before.clients client) run.segment))) }
    {
        let _ = self.owners.pop();
        match self.clients.get_mut(&client) {
            Some(heap) => heap.lose_last(),
            None => Ok(()),
        }
    }

    /// A client's segment was purged: it leaves, if it had not left yet, and is to be told.
    pub fn lose(&mut self, client: u64, id: u64) -> Result<(), NoMemory>
        ensures { OnOk result ((heaps : Heaps) → Shows self.old heaps
            → Shows self.new (with_client heaps client (lost (heaps.clients client) id))) }
    {
        match self.clients.get_mut(&client) {
            Some(heap) => heap.lose(id),
            None => Ok(()),
        }
    }

    /// These segments of a client were purged and leave, in this order.
    pub fn lose_all(&mut self, client: u64, ids: &[u64]) -> Result<(), NoMemory>
        ensures { OnOk result ((heaps : Heaps) → Shows self.old heaps
            → Shows self.new (with_client heaps client (lost_all (heaps.clients client) ids.now))) }
    {
        match self.clients.get_mut(&client) {
            Some(heap) => heap.lose_all(ids),
            None => Ok(()),
        }
    }

    /// These segments of a client leave.
    pub fn leave_all(&mut self, client: u64, ids: &[u64])
        ensures { (heaps : Heaps) → Shows self.old heaps
            → Shows self.new
            (with_client heaps client (without_all (heaps.clients client) ids.now)) }
    {
        match self.clients.get_mut(&client) {
            Some(heap) => heap.leave_all(ids),
            None => {}
        }
    }

    /// The numbers of a client's segments, in the order in which they came.
    pub fn segments(&self, client: u64) -> &[u64]
        ensures { (heaps : Heaps) → Shows self.now heaps
            → result.now ≡ numbers (heaps.clients client) }
    {
        match self.clients.get(&client) {
            Some(heap) => heap.segments(),
            None => &[],
        }
    }

    /// A client's segments that left since they were purged and are to be told, which then are.
    pub fn take_untold(&mut self, alloc: Global, client: u64) -> Vec<u64>
        ensures ids { (heaps : Heaps) → Shows self.old heaps
            → result.items ≡ (heaps.clients client).untold }
        ensures told { (heaps : Heaps) → Shows self.old heaps
            → Shows self.new (with_client heaps client (told (heaps.clients client))) }
    {
        match self.clients.get_mut(&client) {
            Some(heap) => heap.take_untold(alloc),
            None => Vec::new(alloc),
        }
    }

    /// A segment of `whole` pages comes to a client. Its first `pages` pages are the next piece, and the
    /// rest is free. `NoMemory` comes also where the number of the segment does not rise, or the client
    /// has 65,535 segments; a script, which draws each number once, does not come so far.
    pub fn adopt(
        &mut self,
        alloc: Global,
        client: u64,
        id: u64,
        whole: u32,
        pages: u32,
    ) -> Result<(), NoMemory>
        requires number { id < 2 ^ 63 }
        requires sized { whole ≤ MOST_PAGES }
        requires front { (1 ≤ pages) × (pages ≤ whole) }
        ensures { OnOk result ((heaps : Heaps) → Shows self.old heaps
            → Shows self.new (with_next (with_owned (with_client heaps client
            (adopted (heaps.clients client) id whole pages)) id) client
            (front_of (whole_of id whole) pages))) }
    {
        let place = self.adopt_first(alloc, client, id, whole, pages)?;
        self.owners.push(PieceOwner { client, place })?;
        mark(&mut self.owned, id as usize)?;
        Ok(())
    }

    /// A segment comes to a client, with a piece. It answers the place of the piece among the client's.
    fn adopt_first(
        &mut self,
        alloc: Global,
        client: u64,
        id: u64,
        whole: u32,
        pages: u32,
    ) -> Result<u64, NoMemory>
        requires sized { whole ≤ MOST_PAGES }
        requires front { (1 ≤ pages) × (pages ≤ whole) }
        ensures place { IfOk result (λ place. (heaps : Heaps) → Shows self.old heaps
            → place ≡ length (heaps.clients client).pieces) }
        ensures adopts { OnOk result ((heaps : Heaps) → Shows self.old heaps
            → Shows self.new (with_client heaps client (with_piece
            (adopted (heaps.clients client) id whole pages)
            (front_of (whole_of id whole) pages)))) }
    {
        match self.clients.get_mut(&client) {
            Some(heap) => heap.adopt(alloc, id, whole, pages),
            None => {
                let mut heap = ClientHeap::new(alloc)?;
                let place = heap.adopt(alloc, id, whole, pages)?;
                self.clients.insert(client, heap)?;
                Ok(place)
            }
        }
    }

    /// Frees a piece, if it is there, and answers whether its segment is still its client's.
    pub fn free(&mut self, number: u64) -> Option<bool>
        ensures { (heaps : Heaps) → Shows self.old heaps
            → FreesNumbered self.new heaps number result }
    {
        let owner = self.owner(number);
        match self.clients.get_mut(&owner.client) {
            Some(heap) => heap.free(owner.place),
            None => None,
        }
    }

    /// The numbers of those segments of a client that are all free, in the order in which they came.
    pub fn all_free(&self, alloc: Global, client: u64) -> Result<Vec<u64>, NoMemory>
        ensures { IfOk result (λ ids. (heaps : Heaps) → Shows self.now heaps
            → ids.items ≡ all_free (heaps.clients client)) }
    {
        match self.clients.get(&client) {
            Some(heap) => heap.all_free(alloc),
            None => Ok(Vec::new(alloc)),
        }
    }

    /// The free runs of a client as they are now, the oldest first.
    pub fn runs(&self, alloc: Global, client: u64) -> Result<Runs, NoMemory>
        ensures { IfOk result (λ runs. (heaps : Heaps) → Shows self.now heaps
            → runs ≡ (heaps.clients client).runs) }
    {
        match self.clients.get(&client) {
            Some(heap) => heap.runs(alloc),
            None => Heap::new(alloc)?.runs(alloc),
        }
    }

    /// A client has nothing more, and its pieces are gone.
    pub fn empty(&mut self, alloc: Global, client: u64) -> Result<(), NoMemory>
        ensures { OnOk result ((heaps : Heaps) → Shows self.old heaps
            → Shows self.new (with_client heaps client (emptied (heaps.clients client)))) }
    {
        match self.clients.get_mut(&client) {
            Some(heap) => heap.empty(alloc),
            None => Ok(()),
        }
    }
}

/// Sets the flag of a number.
fn mark(flags: &mut Vec<bool>, id: usize) -> Result<(), NoMemory>
    requires { id < 2 ^ 63 }
    ensures { OnOk result (IsMarked flags.old.items flags.new.items id) }
{
    if flags.len() <= id {
        flags.resize(id + 1, false)?;
    }
    flags[id] = true;
    Ok(())
}
