//! What the workers ended with is taken in, client by client.
ghost use Rattle.std.specs.Prelude.{◌≡◌, ◌+◌, ◌^◌, ◌<◌, ◌≤◌, ℕ, length, true, IfOk, OnOk};
ghost use Rattle.request_text.specs.declared.limits.TheConstants.{MOST_REQUESTS};
ghost use Rattle.line_text.specs.declared.limits.TheConstants.{MOST_CLIENTS};
ghost use Rattle.serve_texts.specs.declared.limits.TheConstants.{MOST_ROUNDS};
ghost use Rattle.manager.specs.Tokens.{Tokens};
ghost use Rattle.manager.specs.declared.shares.TheConstants.{PARTS};
ghost use Rattle.serve_session.specs.Running.{ServingValue};
ghost use Rattle.serve_session.specs.Served.{IsServed};
ghost use Rattle.serve_run.specs.Working.{AllServed, HasTaken};

use crate::worker::{Worker, WorkerEnd};
use manager::{Drains, Fixed, Manager, Shares};
use reply_places::Layout;
use return_queue::Returns;
use serve_session::{ServedClient, Serving};
use std::alloc::Global;
use std::sync::Wait;
use std::sync::ledger::Ledger;
use units::NoMemory;

/// What was taken in of the clients' ends so far.
#[derive(Drop)]
pub(crate) struct Taken<G: Ledger, E: Ledger> {
    pub(crate) clients: Vec<ServedClient>,
    /// All shares that came back.
    pub(crate) shares: Shares<G, E>,
    /// The passes that were drained.
    pub(crate) drains: Drains,
}

/// Takes the ends of all clients in, in their order: each pass is drained, and each share merged. A
/// client whose worker was out of memory has none.
pub(crate) fn take_all<R, F, G, E, H, C, T>(
    rt: &H,
    alloc: Global,
    run: &Serving<'_, C, T>,
    manager: &Manager<R, F, G, E>,
    workers: Vec<Worker<'_, R, F, G, E>>,
    shares: Shares<G, E>,
    drains: Drains,
) -> Result<Taken<G, E>, NoMemory>
where
    R: Returns + Drop,
    F: Fixed + Layout,
    G: Ledger,
    E: Ledger,
    H: Wait,
    requires counts { F.counts ≡ true }
    requires few { run.now.cfg.clients ≤ MOST_CLIENTS }
    requires all { length workers.items ≡ run.now.cfg.clients }
    requires parts { shares.parts + run.now.cfg.clients ≤ PARTS }
    requires grants { shares.grants ≡ 0 }
    requires rounds { shares.rounds ≤ MOST_ROUNDS }
    requires drains { drains ≤ 1 }
    requires served { AllServed (λ e. e.served) (λ worker. worker.ended) run.now workers.items }
    ensures taken { IfOk result (λ taken.
        HasTaken run.now run.now.cfg.clients shares taken.shares taken.clients.items) }
    ensures drained { IfOk result (λ taken. taken.drains ≡ drains + run.now.cfg.clients) }
{
    let mut taken = Taken {
        clients: Vec::new(alloc),
        shares,
        drains,
    };
    for worker in workers {
        let Worker { ended, .. } = worker;
        let Some(ended) = ended else {
            return Err(NoMemory);
        };
        take_one(rt, manager, ended, &mut taken)?;
    }
    Ok(taken)
}

/// Takes the end of the next client in.
fn take_one<R: Returns + Drop, F: Fixed, G: Ledger, E: Ledger, H: Wait>(
    rt: &H,
    manager: &Manager<R, F, G, E>,
    ended: WorkerEnd<'_, R, F, G, E>,
    taken: &mut Taken<G, E>,
) -> Result<(), NoMemory>
    requires counts { F.counts ≡ true }
    requires parts { taken.old.shares.parts < PARTS }
    requires grants { taken.old.shares.grants + MOST_REQUESTS < 2 ^ 64 }
    requires rounds { taken.old.shares.rounds < 2 ^ 64 }
    requires drains { taken.old.drains + 1 < 2 ^ 64 }
    ensures drained { OnOk result (taken.new.drains ≡ taken.old.drains + 1) }
    ensures taken { OnOk result ((run : ServingValue) (n : ℕ) (start : Tokens)
        → HasTaken run n start taken.old.shares taken.old.clients.items
        → IsServed run.cfg (n + 1) run.requests ended.entry.served
        → HasTaken run (n + 1) start taken.new.shares taken.new.clients.items) }
{
    let (served, pass, share) = ended.into_parts();
    manager.drain_counted(rt, pass, &mut taken.drains);
    taken.shares.merge(share);
    taken.clients.push(served)?;
    Ok(())
}
