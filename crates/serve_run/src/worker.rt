//! What one worker of a run does.
ghost use Rattle.std.specs.Prelude.{◌≡◌, ◌+◌, ◌<◌, ◌≤◌, ℕ, true, Some, IfOk, IfSome};
ghost use Rattle.std.proofs.Props.{props};
ghost use Rattle.request_text.specs.declared.limits.TheConstants.{MOST_REQUESTS};
ghost use Rattle.line_text.specs.declared.limits.TheConstants.{MOST_CLIENTS};
ghost use Rattle.manager.specs.Tokens.{standing_of};
ghost use Rattle.serve_session.specs.Places.{numbers_of};
ghost use Rattle.serve_run.specs.Working.{one_part, enforced, CanWork, HasEnded};

use crate::task::Task;
use discard_io::{Clock, Gate};
use manager::{Fixed, Handle, Shares};
use reply_places::{Layout, Place};
use return_queue::Returns;
use serve_session::{ServedClient, Serving};
use std::alloc::Global;
use std::sync::Wait;
use std::sync::ledger::Ledger;
use std::thread::Threads;
use units::NoMemory;

/// A worker: what it is given, and what it came to. The worker of client `c` stands at place `c - 1`, and
/// worker 0, who serves nobody, behind those of all clients.
#[derive(Drop)]
pub(crate) struct Worker<'m, R: Returns, F: Fixed + Layout, G: Ledger, E: Ledger> {
    /// Its handle of the manager. `None` once it has begun.
    pub(crate) handle: Option<Handle<'m, R, F, G, E>>,
    /// The places of the replies to the client's requests, in their order.
    pub(crate) places: Vec<Place<F>>,
    /// What a client's worker ended with. `None` until then, and where it was out of memory.
    pub(crate) ended: Option<WorkerEnd<'m, R, F, G, E>>,
    /// The handle of worker 0 after all its enforcements. `None` until then, and where it was out of memory.
    pub(crate) settled: Option<Handle<'m, R, F, G, E>>,
    pub(crate) ghost fresh: { IfSome handle (λ h. h ≡ enforced 0) } by { Prim.hlevel props },
}

/// What a client's worker ends with: what came of the client's requests, and the handle, whose share
/// counts the grants of the tally.
#[derive(Drop)]
pub(crate) struct WorkerEnd<'m, R: Returns, F: Fixed, G: Ledger, E: Ledger> {
    pub(crate) served: ServedClient,
    handle: Handle<'m, R, F, G, E>,
    ghost counted: { handle.grants ≡ served.tally.grants },
    ghost few: { served.tally.grants ≤ MOST_REQUESTS },
    ghost standing: { standing_of handle.base handle.shares ≡ Some (one_part 0 0) },
}

/// The task of each worker of a run, and what all of them share for it.
#[derive(Drop)]
pub(crate) struct RunTask<'h, 'r, 'a, H, C, T> {
    pub(crate) rt: &'h H,
    pub(crate) alloc: Global,
    pub(crate) run: &'r Serving<'a, C, T>,
}

impl<'h, 'r, 'a, 'm, R, F, G, E, H, C, T> Task<Worker<'m, R, F, G, E>>
    for RunTask<'h, 'r, 'a, H, C, T>
where
    R: Returns + Drop,
    F: Fixed + Layout,
    G: Ledger,
    E: Ledger,
    H: Threads + Wait + Sync,
    C: Clock,
    T: Gate,
{
    ghost use denote.Param.Send.{IsSync};
    ghost use Rattle.serve_run.specs.Working.{CanWork, HasWorked};

    // A method of a trait is not told that `H` is Sync, so its clause says it.
    ghost can_begin = { λ task at worker.
        IsSync H.row × CanWork task.run.now F.size at worker.places.items };

    ghost has_worked = { λ task at old new. HasWorked (λ e. e.served) task.run.now at
        old.places.items new.places.items new.ended new.settled };

    fn work(&self, at: usize, worker: &mut Worker<'m, R, F, G, E>) {
        work(self.rt, self.alloc, self.run, at, worker);
    }
}

/// Does the work of the worker at a place, and leaves there what came of it.
fn work<R, F, G, E, H, C, T>(
    rt: &H,
    alloc: Global,
    run: &Serving<'_, C, T>,
    at: usize,
    worker: &mut Worker<'_, R, F, G, E>,
)
where
    R: Returns + Drop,
    F: Fixed + Layout,
    G: Ledger,
    E: Ledger,
    H: Threads + Wait + Sync,
    C: Clock,
    T: Gate,
    requires can { CanWork run.now F.size at worker.old.places.items }
    ensures numbers { numbers_of worker.new.places.items ≡ numbers_of worker.old.places.items }
    ensures ended { at < run.now.cfg.clients
        → HasEnded (λ e. e.served) run.now (at + 1) worker.new.places.items worker.new.ended }
    ensures enforced { at ≡ run.now.cfg.clients
        → IfSome worker.new.settled (λ h. h ≡ enforced run.now.cfg.rounds) }
{
    worker.ended = None;
    worker.settled = None;
    let Some(handle) = worker.handle.take() else {
        return;
    };
    if at == run.clients() as usize {
        worker.settled = enforce_all(rt, alloc, run, handle);
        return;
    }
    worker.ended = serve(rt, alloc, run, at, handle, worker.places.as_mut_slice());
}

/// Serves the client whose worker stands at a place. `None` where it was out of memory.
fn serve<'m, R, F, G, E, H, C, T>(
    rt: &H,
    alloc: Global,
    run: &Serving<'_, C, T>,
    at: usize,
    handle: Handle<'m, R, F, G, E>,
    places: &mut [Place<F>],
) -> Option<WorkerEnd<'m, R, F, G, E>>
where
    R: Returns + Drop,
    F: Fixed + Layout,
    G: Ledger,
    E: Ledger,
    H: Threads + Wait + Sync,
    C: Clock,
    T: Gate,
    requires can { CanWork run.now F.size at places.old }
    requires client { at < MOST_CLIENTS }
    requires fresh { handle ≡ enforced 0 }
    ensures numbers { numbers_of places.new ≡ numbers_of places.old }
    ensures ended { HasEnded (λ e. e.served) run.now (at + 1) places.new result }
{
    match run.serve_client(rt, alloc, at as u32 + 1, handle, places) {
        Ok((served, handle)) => Some(WorkerEnd { served, handle }),
        Err(NoMemory) => None,
    }
}

impl<'m, R: Returns, F: Fixed, G: Ledger, E: Ledger> WorkerEnd<'m, R, F, G, E> {
    /// What came of the requests, and the pass and the share of the handle.
    pub(crate) fn into_parts(self) -> (ServedClient, R::Pass, Shares<G, E>)
        requires { F.counts ≡ true }
        ensures served { result.0 ≡ self.entry.served }
        ensures pass { R.is_pass F.queue result.1 }
        ensures share { result.2 ≡ one_part result.0.tally.grants 0 }
        ensures few { result.0.tally.grants ≤ MOST_REQUESTS }
    {
        let WorkerEnd { served, handle } = self;
        let (pass, share) = handle.into_parts();
        (served, pass, share)
    }
}

/// Makes all enforcements of the limit, each at its place of the gate, and answers the handle. `None`
/// where one was out of memory.
fn enforce_all<'m, R, F, G, E, H, C, T>(
    rt: &H,
    alloc: Global,
    run: &Serving<'_, C, T>,
    mut handle: Handle<'m, R, F, G, E>,
) -> Option<Handle<'m, R, F, G, E>>
where
    R: Returns,
    F: Fixed,
    G: Ledger,
    E: Ledger,
    H: Threads + Wait + Sync,
    C: Clock,
    T: Gate,
    requires fresh { handle ≡ enforced 0 }
    ensures { IfSome result (λ h. h ≡ enforced run.now.cfg.rounds) }
{
    for round in 0..run.rounds() {
        let now = run.begin_round(rt, round);
        handle.enforce(rt, alloc, now).ok()?;
    }
    Some(handle)
}
