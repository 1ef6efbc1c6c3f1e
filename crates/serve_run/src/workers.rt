//! All workers of a run at once.
ghost use Rattle.std.specs.Prelude.{◌≡◌, ◌+◌, ◌-◌, ◌<◌, All, [], length, vec_capacity, true, IsTrue, IsSome, IfOk, OnOk};
ghost use Rattle.request_text.specs.Requests.{AreRequests};
ghost use Rattle.manager.specs.declared.shares.TheConstants.{PARTS};
ghost use Rattle.serve_texts.specs.Config.{IsServeCfg};
ghost use Rattle.serve_texts.specs.Reply.{tiles_of};
ghost use Rattle.serve_session.specs.Tiling.{HoldReplies, replies_to};
ghost use Rattle.serve_run.specs.Dealing.{AreDealt, HaveRoom};
ghost use Rattle.serve_run.specs.Working.{enforced, AllServed, AreComplete, CanServe, HaveEnded, HaveServed, HasTaken};

use crate::dealing::{count_of, deal, gather};
use crate::taking::{Taken, take_all};
use crate::task::work_all;
use crate::worker::{RunTask, Worker};
use discard_io::{Clock, Gate};
use manager::{Drains, Fixed, Handle, Manager, Shares};
use reply_places::{Frame, Joined, Layout, Room};
use return_queue::Returns;
use serve_session::Serving;
use std::alloc::Global;
use std::sync::Wait;
use std::sync::ledger::Ledger;
use std::thread::Threads;
use units::NoMemory;

/// Serves all clients at once, each in a worker of its own, beside worker 0, which enforces the limit.
/// Each reply is written once, to its place in the room. When all have ended, the pass of each is
/// drained, and last the first pass (`drained` counts them), and all shares are merged.
///
/// Nothing may fail while places are out: a worker that is out of memory has no end, which is looked at
/// when all places are joined again.
pub(crate) fn serve_all<R, F, G, E, H, C, T>(
    rt: &H,
    alloc: Global,
    run: &Serving<'_, C, T>,
    manager: &Manager<R, F, G, E>,
    mut first: R::Pass,
    mut whole: Shares<G, E>,
    room: Room,
) -> Result<(Joined, Taken<G, E>), NoMemory>
where
    R: Returns + Sync + Send + Drop,
    R::Pass: Send,
    R::Taker: Send,
    F: Fixed + Layout + Send + Sync,
    G: Ledger + Send + Sync,
    E: Ledger + Send + Sync,
    H: Threads + Wait + Sync,
    C: Clock + Sync,
    T: Gate + Sync,
    requires lawful { IsServeCfg run.now.cfg }
    requires requests { AreRequests run.now.cfg.clients run.now.requests }
    requires counts { F.counts ≡ true }
    requires pass { R.is_pass F.queue first }
    requires whole { whole ≡ record { parts = PARTS; grants = 0; rounds = 0 } }
    requires room { room ≡ record { base = F.base; size = F.size; count = F.count } }
    requires sized { HoldReplies run.now.tiling F.size }
    requires places { F.count ≡ length run.now.requests }
    ensures replies { IfOk result (λ r.
        r.0 ≡ replies_to run.now.tiling (tiles_of run.now.requests)) }
    ensures taken { IfOk result (λ r. HasTaken run.now run.now.cfg.clients
        (record { parts = PARTS - run.now.cfg.clients; grants = 0; rounds = run.now.cfg.rounds })
        r.1.shares r.1.clients.items) }
    ensures drained { IfOk result (λ r. r.1.drains ≡ run.now.cfg.clients + 2) }
{
    let workers = workers_of(alloc, run, manager, &mut first, &mut whole)?;
    let (frame, workers) = dealt(run, room, workers);
    let mut workers = serve_clients(rt, alloc, run, workers);
    let replies = joined(run, frame, &mut workers);
    let (workers, own) = taken_apart(run, workers)?;
    let (pass, share) = own.into_parts();
    let mut drains = Drains::new();
    manager.drain_counted(rt, pass, &mut drains);
    whole.merge(share);
    let mut taken = take_all(rt, alloc, run, manager, workers, whole, drains)?;
    manager.drain_counted(rt, first, &mut taken.drains);
    Ok((replies, taken))
}

/// Cuts the room into a place for each request, and deals them to the workers, who have none.
fn dealt<'m, R: Returns + Drop, F: Fixed + Layout, G: Ledger, E: Ledger, C: Clock, T: Gate>(
    run: &Serving<'_, C, T>,
    room: Room,
    mut workers: Vec<Worker<'m, R, F, G, E>>,
) -> (Frame<F>, Vec<Worker<'m, R, F, G, E>>)
    requires room { room ≡ record { base = F.base; size = F.size; count = F.count } }
    requires sized { HoldReplies run.now.tiling F.size }
    requires places { F.count ≡ length run.now.requests }
    requires all { length workers.items ≡ run.now.cfg.clients + 1 }
    requires none { AreDealt (λ worker. worker.places.items) run.now.requests 0 workers.items }
    requires fits { HaveRoom (λ worker. vec_capacity worker.places) run.now.requests workers.items }
    ensures frame { (result.0.from ≡ F.count) × (result.0.bytes ≡ []) }
    ensures workers { CanServe (λ worker. worker.places.items) run.now F.size result.1.items }
{
    let mut frame = Frame::<F>::new(room);
    let requests = run.requests().as_slice();
    deal(requests, &mut frame, workers.as_mut_slice());
    (frame, workers)
}

/// Takes all places from the workers and joins them. What they hold are the replies, where the worker of
/// each client has ended.
fn joined<R: Returns + Drop, F: Fixed + Layout, G: Ledger, E: Ledger, C: Clock, T: Gate>(
    run: &Serving<'_, C, T>,
    frame: Frame<F>,
    workers: &mut Vec<Worker<'_, R, F, G, E>>,
) -> Joined
    requires sized { HoldReplies run.now.tiling F.size }
    requires places { F.count ≡ length run.now.requests }
    requires frame { (frame.from ≡ F.count) × (frame.bytes ≡ []) }
    requires ended { HaveEnded (λ e. e.served) (λ worker. worker.places.items)
        (λ worker. worker.ended) (λ worker. worker.settled) run.now workers.old.items }
    ensures served { HaveServed (λ e. e.served) (λ worker. worker.ended) (λ worker. worker.settled)
        run.now workers.new.items }
    ensures replies { AreComplete (λ worker. worker.ended) run.now.cfg.clients workers.new.items
        → result ≡ replies_to run.now.tiling (tiles_of run.now.requests) }
{
    let requests = run.requests().as_slice();
    gather(requests, frame, workers.as_mut_slice())
}

/// The workers of all clients, and the handle of worker 0. The one error comes where a worker was out of
/// memory.
fn taken_apart<'m, R, F, G, E, C, T>(
    run: &Serving<'_, C, T>,
    mut workers: Vec<Worker<'m, R, F, G, E>>,
) -> Result<(Vec<Worker<'m, R, F, G, E>>, Handle<'m, R, F, G, E>), NoMemory>
where
    R: Returns + Drop,
    F: Fixed + Layout,
    G: Ledger,
    E: Ledger,
    C: Clock,
    T: Gate,
    requires { HaveServed (λ e. e.served) (λ worker. worker.ended) (λ worker. worker.settled)
        run.now workers.items }
    ensures all { IfOk result (λ r. length r.0.items ≡ run.now.cfg.clients) }
    ensures served { IfOk result (λ r.
        AllServed (λ e. e.served) (λ worker. worker.ended) run.now r.0.items) }
    ensures complete { IfOk result (λ _.
        AreComplete (λ worker. worker.ended) run.now.cfg.clients workers.entry.items) }
    ensures handle { IfOk result (λ r. r.1 ≡ enforced run.now.cfg.rounds) }
{
    let Some(last) = workers.pop() else {
        return Err(NoMemory);
    };
    let Worker { settled, .. } = last;
    let Some(handle) = settled else {
        return Err(NoMemory);
    };
    if !are_complete(&workers) {
        return Err(NoMemory);
    }
    Ok((workers, handle))
}

/// Serves all clients at once, and enforces the limit beside them.
fn serve_clients<'m, R, F, G, E, H, C, T>(
    rt: &H,
    alloc: Global,
    run: &Serving<'_, C, T>,
    mut workers: Vec<Worker<'m, R, F, G, E>>,
) -> Vec<Worker<'m, R, F, G, E>>
where
    R: Returns + Sync + Send + Drop,
    R::Pass: Send,
    R::Taker: Send,
    F: Fixed + Layout + Send + Sync,
    G: Ledger + Send + Sync,
    E: Ledger + Send + Sync,
    H: Threads + Wait + Sync,
    C: Clock + Sync,
    T: Gate + Sync,
    requires { CanServe (λ worker. worker.places.items) run.now F.size workers.items }
    ensures { HaveEnded (λ e. e.served) (λ worker. worker.places.items) (λ worker. worker.ended)
        (λ worker. worker.settled) run.now result.items }
{
    let threads = run.clients() as usize + 1;
    let task = RunTask { rt, alloc, run };
    work_all(rt, threads, &task, workers.as_mut_slice());
    workers
}

/// Whether each worker has ended, and none was out of memory.
fn are_complete<R: Returns, F: Fixed + Layout, G: Ledger, E: Ledger>(
    workers: &[Worker<'_, R, F, G, E>],
) -> bool
    ensures { IsTrue result → All (λ worker. IsSome worker.ended) workers.now }
{
    workers.iter().all(|worker| worker.ended.is_some())
}

/// A worker for each client, with a handle of its own and room for the places of its requests, and then
/// worker 0.
fn workers_of<'m, R, F, G, E, C, T>(
    alloc: Global,
    run: &Serving<'_, C, T>,
    manager: &'m Manager<R, F, G, E>,
    first: &mut R::Pass,
    whole: &mut Shares<G, E>,
) -> Result<Vec<Worker<'m, R, F, G, E>>, NoMemory>
where
    R: Returns + Drop,
    F: Fixed + Layout,
    G: Ledger,
    E: Ledger,
    C: Clock,
    T: Gate,
    requires counts { F.counts ≡ true }
    requires pass { R.is_pass F.queue first.old }
    requires parts { run.now.cfg.clients + 1 < whole.old.parts }
    ensures all { IfOk result (λ workers. length workers.items ≡ run.now.cfg.clients + 1) }
    ensures none { IfOk result (λ workers.
        AreDealt (λ worker. worker.places.items) run.now.requests 0 workers.items) }
    ensures room { IfOk result (λ workers.
        HaveRoom (λ worker. vec_capacity worker.places) run.now.requests workers.items) }
    ensures pass { R.is_pass F.queue first.new }
    ensures parts { OnOk result (whole.new.parts + (run.now.cfg.clients + 1) ≡ whole.old.parts) }
    ensures grants { OnOk result (whole.new.grants ≡ whole.old.grants) }
    ensures rounds { OnOk result (whole.new.rounds ≡ whole.old.rounds) }
{
    let requests = run.requests().as_slice();
    let mut workers = Vec::new(alloc);
    for before in 0..run.clients() + 1 {
        let places = Vec::with_capacity(alloc, count_of(requests, before + 1))?;
        let handle = handle_for(manager, first, whole);
        workers.push(Worker {
            handle: Some(handle),
            places,
            ended: None,
            settled: None,
        })?;
    }
    Ok(workers)
}

/// A handle that gives through a pass of its own and counts in one part of the shares.
fn handle_for<'m, R: Returns + Drop, F: Fixed, G: Ledger, E: Ledger>(
    manager: &'m Manager<R, F, G, E>,
    first: &mut R::Pass,
    whole: &mut Shares<G, E>,
) -> Handle<'m, R, F, G, E>
    requires counts { F.counts ≡ true }
    requires pass { R.is_pass F.queue first.old }
    requires parts { 1 < whole.old.parts }
    ensures fresh { result ≡ enforced 0 }
    ensures pass { R.is_pass F.queue first.new }
    ensures parts { whole.new.parts + 1 ≡ whole.old.parts }
    ensures grants { whole.new.grants ≡ whole.old.grants }
    ensures rounds { whole.new.rounds ≡ whole.old.rounds }
{
    let pass = manager.returns().split(first);
    manager.handle_with(pass, whole.split())
}
