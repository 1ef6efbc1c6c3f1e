//! What grants segments in tests, and purges them.

use block_pool::{Block, Pool};
use segment::{Granter, OwnerSide, Purge, WardenSide, make};
use std::alloc::Global;
use std::sync::{Mutex, Wait};
use std::thread::Threads;
use units::{NoMemory, is_moment};

/// The number of the client in tests of one client.
pub(crate) const CLIENT: u32 = 2;

/// What a granter of tests does beside granting.
#[derive(Clone, Copy)]
pub(crate) enum Plan {
    /// It is out of memory at this grant, counted from 1; 0 for none.
    Fails(u64),
    /// Each grant first purges each segment that is not held.
    Purges,
}

/// The wardens of segments with the numbers from 1. A granter and its test share them, since a client
/// lends nobody its granter.
#[derive(Drop)]
pub(crate) struct Wardens {
    sides: Mutex<Vec<WardenSide>>,
}

impl Wardens {
    pub(crate) fn new(alloc: Global) -> Wardens {
        Wardens {
            sides: Mutex::new(Vec::new(alloc)),
        }
    }

    /// Tries to purge the segment of a number at a moment, and tells whether it did.
    pub(crate) fn try_purge<H: Wait>(&self, rt: &H, id: u64, now: u64) -> bool {
        match self.sides.lock(rt).get_mut(id.saturating_sub(1) as usize) {
            Some(warden) => try_purge(warden, now),
            None => false,
        }
    }

    /// Tries each segment twice at a moment, so that each that is not held is purged.
    fn purge_all<H: Wait>(&self, rt: &H, now: u64) {
        for warden in self.sides.lock(rt).iter_mut() {
            let _ = try_purge(warden, now) || try_purge(warden, now);
        }
    }

    fn add<H: Wait>(&self, rt: &H, warden: WardenSide) -> Result<(), NoMemory> {
        Ok(self.sides.lock(rt).push(warden)?)
    }
}

/// One purge try at a moment on what is not purged yet, and whether it purged.
fn try_purge(warden: &mut WardenSide, now: u64) -> bool {
    if warden.taken() || !is_moment(now) {
        return false;
    }
    match warden.try_purge(now) {
        Purge::Taken(_) => true,
        Purge::Used { .. } => false,
    }
}

/// What grants segments in tests: it numbers them from 1, and keeps the client and the number of each
/// return, up to 64 of them.
#[derive(Drop)]
pub(crate) struct Grants<'w> {
    wardens: &'w Wardens,
    pool: Pool,
    pub(crate) returned: Vec<(u32, u64)>,
    /// How many grants another client than `CLIENT` asked for.
    pub(crate) strangers: u64,
    plan: Plan,
    asked: u64,
    pub(crate) grants: u64,
    pub(crate) returns: u64,
    greatest: u64,
}

impl<'w> Grants<'w> {
    pub(crate) fn new(
        alloc: Global,
        wardens: &'w Wardens,
        plan: Plan,
    ) -> Result<Grants<'w>, NoMemory> {
        let mut returned = Vec::new(alloc);
        returned.reserve(64)?;
        Ok(Grants {
            wardens,
            pool: Pool::new(alloc, 0)?,
            returned,
            strangers: 0,
            plan,
            asked: 0,
            grants: 0,
            returns: 0,
            greatest: 0,
        })
    }
}

impl<'w> Granter for Grants<'w> {
    ghost grants = { λ g. g.grants };

    ghost returns = { λ g. g.returns };

    ghost greatest = { λ g. g.greatest };

    ghost granted_to = { λ _ _ _ _ _. Unit {0} };

    ghost took_back = { λ _ _ _ _ _. Unit {0} };

    ghost Standing = { Unit {0} };

    ghost standing = { λ _. tt };

    fn grant<H: Threads + Wait + Sync>(
        &mut self,
        rt: &H,
        alloc: Global,
        client: u32,
        pages: u32,
        now: u64,
    ) -> Result<OwnerSide, NoMemory> {
        if client != CLIENT {
            self.strangers = self.strangers.saturating_add(1);
        }
        self.asked = self.asked.saturating_add(1);
        match self.plan {
            Plan::Fails(grant) if grant == self.asked => return Err(NoMemory),
            Plan::Fails(_) => {}
            Plan::Purges => self.wardens.purge_all(rt, now),
        }
        let id = self.greatest.checked_add(1).ok_or(NoMemory)?;
        let block = self.pool.take(alloc, pages)?;
        let Ok((owner, warden)) = make(alloc, id, block) else {
            return Err(NoMemory);
        };
        self.wardens.add(rt, warden)?;
        self.greatest = id;
        self.grants = self.grants.saturating_add(1);
        Ok(owner)
    }

    fn give_back<H: Threads + Wait + Sync>(
        &mut self,
        _rt: &H,
        client: u32,
        id: u64,
        block: Option<Block>,
    ) {
        if let Some(block) = block {
            self.pool.put(block);
        }
        if self.returned.len() < self.returned.capacity() {
            self.returned.push_reserved((client, id));
        }
        self.returns = self.returns.saturating_add(1);
    }
}
