ghost use Rattle.std.specs.Prelude.{◌≡◌, [], length, true, IfOk};
ghost use Rattle.request_text.specs.Requests.{AreRequests};
ghost use Rattle.manager.specs.declared.shares.TheConstants.{PARTS};
ghost use Rattle.serve_texts.specs.Config.{IsServeCfg};
ghost use Rattle.serve_session.specs.Tiling.{HoldReplies};
ghost use Rattle.serve_run.specs.Served.{Serves};

use crate::ending::remove_all;
use crate::served::Served;
use crate::taking::Taken;
use crate::workers::serve_all;
use discard_io::{Clock, Gate};
use manager::{Fixed, Manager, PARTS};
use manager_state::State;
use reply_places::{Layout, Room};
use request_text::Requests;
use return_queue::{Returns, RuledReturns};
use serve_session::{ServedClients, Serving};
use serve_texts::{Replies, ServeCfg};
use std::alloc::Global;
use std::marker::Brand;
use std::sync::Wait;
use std::sync::ledger::{Blank, Ledger};
use std::thread::Threads;
use tile_source::Image;
use units::NoMemory;

/// How many notes the queue of returns holds.
const RETURNS: u32 = 256;

/// Serves the requests of a run, each client in a worker of its own, beside a worker that enforces the
/// limit. Each client serves its requests in their order; nothing orders two clients. At the end all
/// caches are closed and nothing is granted any more. The one error is being out of memory.
pub fn serve<H: Threads + Wait + Sync, C: Clock + Sync, T: Gate + Sync>(
    rt: &H,
    alloc: Global,
    cfg: &ServeCfg,
    image: &Image,
    requests: &Requests,
    clock: &C,
    gate: &T,
) -> Result<Served, NoMemory>
    requires lawful { IsServeCfg cfg.now }
    requires requests { AreRequests cfg.now.clients requests.now }
    ensures { IfOk result (λ served. Serves cfg.now image.now requests.now served) }
{
    let run = Serving::new(alloc, cfg, image, requests, clock, gate)?;
    let room = Room::new(
        alloc,
        run.requests().as_slice().len(),
        run.tiling().reply_len(),
    )?;
    let state = State::new(alloc, cfg.limit, cfg.keep)?;
    let made = RuledReturns::new(alloc, RETURNS)?;
    let grants = Blank::new(u64::from(PARTS));
    let rounds = Blank::new(u64::from(PARTS));
    serve_as::<RuledReturns, Brand, Brand, Brand, H, C, T>(
        rt, alloc, &run, room, state, made, grants, rounds,
    )
}

/// Serves a run with places for its replies in this room, and a manager of this state and this queue, at
/// names that the caller picks.
fn serve_as<R, F, G, E, H, C, T>(
    rt: &H,
    alloc: Global,
    run: &Serving<'_, C, T>,
    room: Room,
    state: State,
    made: (R, R::Pass, R::Taker),
    grants: Blank,
    rounds: Blank,
) -> Result<Served, NoMemory>
where
    R: Returns + Sync + Send + Drop,
    R::Pass: Send,
    R::Taker: Send,
    F: Fixed + Layout + Send + Sync,
    G: Ledger + Send + Sync,
    E: Ledger + Send + Sync,
    H: Threads + Wait + Sync,
    C: Clock + Sync,
    T: Gate + Sync,
    requires lawful { IsServeCfg run.now.cfg }
    requires requests { AreRequests run.now.cfg.clients run.now.requests }
    requires side { run.now.tiling.side ≡ run.now.cfg.side }
    requires room { room ≡ record { base = F.base; size = F.size; count = F.count } }
    requires sized { HoldReplies run.now.tiling F.size }
    requires places { F.count ≡ length run.now.requests }
    requires limit { (state.limit ≡ F.limit) × (F.limit ≡ run.now.cfg.limit) }
    requires entries { (state.entries ≡ F.handed) × (F.handed ≡ []) }
    requires queue { F.queue ≡ R.name made.0 }
    requires counts { F.counts ≡ true }
    requires pass { R.is_pass (R.name made.0) made.1 }
    requires taker { R.is_taker (R.name made.0) made.2 }
    requires names { (grants.name ≡ G.name) × (rounds.name ≡ E.name) }
    requires parts { (grants.parts ≡ G.parts) × (rounds.parts ≡ E.parts) }
    requires all { (G.parts ≡ PARTS) × (E.parts ≡ PARTS) }
    ensures { IfOk result (λ served.
        Serves run.now.cfg run.now.tiling.image run.now.requests served) }
{
    let (returns, pass, taker) = made;
    let (manager, whole) = Manager::<R, F, G, E>::with_returns(
        state, returns, taker, grants, rounds,
    );
    let (replies, taken) = serve_all(rt, alloc, run, &manager, pass, whole, room)?;
    let Taken {
        clients,
        shares,
        ..
    } = taken;
    let mut state = manager.finish_with(shares);
    remove_all(&mut state);
    Ok(Served {
        replies: Replies::from_joined(replies),
        clients: ServedClients::from_vec(clients),
        state,
    })
}
