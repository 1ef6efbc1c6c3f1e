ghost use Rattle.std.specs.Prelude.{◌≡◌, ◌≤◌, true, false};
ghost use Rattle.return_queue.specs.Name.{no_queue};
ghost use Rattle.manager.specs.declared.shares.TheConstants.{PARTS};

use crate::states::told;
use block_pool::Block;
use manager::{Drains, Fixed, Handle, Level, Manager, PARTS, Shares, State};
use return_queue::{PlainReturns, Returns, RuledReturns};
use segment::{GiveUp, Granter, OwnerSide};
use std::alloc::Global;
use std::marker::Brand;
use std::sync::Wait;
use std::sync::ledger::{Blank, Ledger};
use std::test::Fail;
use std::thread;
use std::thread::Threads;
use units::NoMemory;

/// The block of a segment that its owner gives up.
fn block_of(side: OwnerSide) -> Option<Block> {
    match side.give_up() {
        GiveUp::Whole(block) => Some(block),
        GiveUp::Gone(_) => None,
    }
}

fn has_text(state: &State, alloc: Global, want: &[u8]) -> Result<bool, Fail> {
    Ok(state.book().text(alloc)?.as_slice() == want)
}

/// Pressure purges an idle segment, and an enforcement finds nothing left.
fn pressed<F: Fixed, G: Ledger, E: Ledger, H: Threads + Wait + Sync>(
    rt: &H,
    alloc: Global,
    manager: &Manager<PlainReturns, F, G, E>,
) -> Result<bool, Fail>
    requires { F.counts ≡ false }
{
    let mut handle = manager.handle();
    let mut side = handle.grant(rt, alloc, 1, 4, 1)?;
    side.unlock(2);
    let pressed = manager.pressure(rt, alloc, Level::Critical, 3)? == told(0, None, 1);
    let enforced = manager.enforce(rt, alloc, 4)? == told(0, None, 0);
    handle.give_back(rt, 1, 1, None);
    Ok(pressed && enforced)
}

/// A manager with no queue and no ledgers, from its state to its state.
fn yields<F: Fixed, G: Ledger, E: Ledger, H: Threads + Wait + Sync>(
    rt: &H,
    alloc: Global,
    state: State,
) -> Result<bool, Fail>
    requires limit { state.limit ≡ F.limit }
    requires entries { state.entries ≡ F.handed }
    requires queue { F.queue ≡ no_queue }
    requires counts { F.counts ≡ false }
{
    let manager = Manager::<PlainReturns, F, G, E>::new(state);
    let right = pressed(rt, alloc, &manager)?;
    let state = manager.finish();
    let want = b"grant 1 1 4 8\npurge 1 2\nreduced 0 3 0 -\nreduced 8 4 0 -\n";
    Ok(right && has_text(&state, alloc, want)?)
}

/// A client is granted segments of one page, and gives them back in their order.
fn come_back<Q: Granter, H: Threads + Wait + Sync>(
    rt: &H,
    alloc: Global,
    granter: &mut Q,
    client: u32,
    count: u64,
) -> Result<(), NoMemory>
    requires { 1 ≤ client }
{
    let mut sides = Vec::new(alloc);
    for _ in 0..count {
        sides.push(granter.grant(rt, alloc, client, 1, 1)?)?;
    }
    for side in sides {
        let id = side.id();
        granter.give_back(rt, client, id, block_of(side));
    }
    Ok(())
}

/// What came back is counted before a handle reduces.
fn settles<R: Returns, F: Fixed, G: Ledger, E: Ledger, H: Threads + Wait + Sync>(
    rt: &H,
    alloc: Global,
    handle: &mut Handle<'_, R, F, G, E>,
) -> Result<bool, Fail> {
    let enforced = handle.enforce(rt, alloc, 5)? == told(0, None, 0);
    Ok(enforced && handle.pressure(rt, alloc, Level::Critical, 6)? == told(0, None, 0))
}

/// A handle's segments come back: three and then reductions, or one that the queue still has when
/// it is drained.
fn returns<R: Returns, F: Fixed, G: Ledger, E: Ledger, H: Threads + Wait + Sync>(
    rt: &H,
    alloc: Global,
    manager: &Manager<R, F, G, E>,
    pass: R::Pass,
    shares: Shares<G, E>,
    reduces: bool,
) -> Result<bool, Fail>
    requires counts { F.counts ≡ true }
    requires pass { R.is_pass F.queue pass }
{
    let (grants, rounds, drained) = if reduces { (3, 1, 0) } else { (1, 0, 1) };
    let mut handle = manager.handle_with(pass, shares);
    come_back(rt, alloc, &mut handle, 1, grants)?;
    let right = !reduces || settles(rt, alloc, &mut handle)?;
    let (pass, shares) = handle.into_parts();
    let counted = shares.grants() == grants && shares.rounds() == rounds;
    Ok(right && counted && manager.drain(rt, pass) == drained)
}

/// The same, and the book that is left.
fn returned<R: Returns + Drop, F: Fixed, G: Ledger, E: Ledger, H: Threads + Wait + Sync>(
    rt: &H,
    alloc: Global,
    manager: Manager<R, F, G, E>,
    pass: R::Pass,
    shares: Shares<G, E>,
    reduces: bool,
) -> Result<bool, Fail>
    requires counts { F.counts ≡ true }
    requires pass { R.is_pass F.queue pass }
{
    let right = returns(rt, alloc, &manager, pass, shares, reduces)?;
    let want: &[u8] = if reduces {
        b"grant 1 1 1 64\ngrant 2 1 1 64\ngrant 3 1 1 64\nback 1\nback 2\nback 3\nreduced 64 5 0 -\nreduced 0 6 0 -\n"
    } else {
        b"grant 1 1 1 64\nback 1\n"
    };
    Ok(right && has_text(&manager.finish(), alloc, want)?)
}

/// A client's segments come and go, a hundred of them.
fn work<Q: Granter, H: Threads + Wait + Sync>(
    rt: &H,
    alloc: Global,
    mut granter: Q,
    client: u32,
) -> Q
    requires { 1 ≤ client }
{
    for _ in 0..100u64 {
        let _ = come_back(rt, alloc, &mut granter, client, 1);
    }
    granter
}

/// Two clients in threads of their own share a manager. It ends with all shares together.
fn shared<R, F, G, E, H>(
    rt: &H,
    alloc: Global,
    manager: &Manager<R, F, G, E>,
    mut pass: R::Pass,
    mut whole: Shares<G, E>,
) -> Option<Shares<G, E>>
where
    R: Returns + Sync + Send + Drop,
    R::Pass: Send,
    R::Taker: Send,
    F: Fixed + Send + Sync,
    G: Ledger + Send + Sync,
    E: Ledger + Send + Sync,
    H: Threads + Wait + Sync,
    requires counts { F.counts ≡ true }
    requires pass { R.is_pass F.queue pass }
    requires all { whole.parts ≡ PARTS }
{
    let second = manager.returns().split(&mut pass);
    let one = manager.handle_with(pass, whole.split());
    let two = manager.handle_with(second, whole.split());
    let (one, two) = thread::join(
        rt,
        move || -> Handle<'_, R, F, G, E> { work(rt, alloc, one, 1) },
        move || -> Handle<'_, R, F, G, E> { work(rt, alloc, two, 2) },
    );
    let mut drains = Drains::new();
    let (pass, first) = one.into_parts();
    manager.drain_counted(rt, pass, &mut drains);
    let (pass, second) = two.into_parts();
    manager.drain_counted(rt, pass, &mut drains);
    if drains.passes() != 2 {
        return None;
    }
    joined(joined(whole, first)?, second)
}

/// Shares and other shares together, where these fit.
fn joined<G: Ledger, E: Ledger>(
    mut whole: Shares<G, E>,
    other: Shares<G, E>,
) -> Option<Shares<G, E>> {
    let fits = whole.parts() <= PARTS && other.parts() <= PARTS;
    let few = whole.grants() <= 1000 && other.grants() <= 1000;
    if !fits || !few || whole.rounds() > 1000 || other.rounds() > 1000 {
        return None;
    }
    whole.merge(other);
    Some(whole)
}

/// The manager that two clients shared has granted what their shares count, and all came back.
fn ends<R: Returns + Drop, F: Fixed, G: Ledger, E: Ledger>(
    manager: Manager<R, F, G, E>,
    whole: Option<Shares<G, E>>,
) -> bool
    requires { F.counts ≡ true }
{
    let Some(whole) = whole else {
        return false;
    };
    if whole.parts() != PARTS || whole.grants() != 200 {
        return false;
    }
    let state = manager.finish_with(whole);
    state.book().grants() == 200 && state.granted() == 0
}

/// What is done with a manager.
#[derive(Clone, Copy)]
enum Run {
    Settles,
    Drains,
    Shares,
}

/// Makes a manager over this queue, and does this with it.
fn ruled<R, F, G, E, H>(
    rt: &H,
    alloc: Global,
    state: State,
    made: (R, R::Pass, R::Taker),
    grants: Blank,
    rounds: Blank,
    run: Run,
) -> Result<bool, Fail>
where
    R: Returns + Sync + Send + Drop,
    R::Pass: Send,
    R::Taker: Send,
    F: Fixed + Send + Sync,
    G: Ledger + Send + Sync,
    E: Ledger + Send + Sync,
    H: Threads + Wait + Sync,
    requires limit { state.limit ≡ F.limit }
    requires entries { state.entries ≡ F.handed }
    requires queue { F.queue ≡ R.name made.0 }
    requires counts { F.counts ≡ true }
    requires pass { R.is_pass (R.name made.0) made.1 }
    requires taker { R.is_taker (R.name made.0) made.2 }
    requires names { (grants.name ≡ G.name) × (rounds.name ≡ E.name) }
    requires parts { (grants.parts ≡ G.parts) × (rounds.parts ≡ E.parts) }
    requires all { (G.parts ≡ PARTS) × (E.parts ≡ PARTS) }
{
    let (returns, pass, taker) = made;
    let (manager, whole) = Manager::<R, F, G, E>::with_returns(
        state, returns, taker, grants, rounds,
    );
    match run {
        Run::Settles => returned(rt, alloc, manager, pass, whole, true),
        Run::Drains => returned(rt, alloc, manager, pass, whole, false),
        Run::Shares => {
            let whole = shared(rt, alloc, &manager, pass, whole);
            Ok(ends(manager, whole))
        }
    }
}

/// The same over a queue of this capacity.
fn over<H: Threads + Wait + Sync>(
    rt: &H,
    alloc: Global,
    limit: u64,
    keep: u32,
    capacity: u32,
    run: Run,
) -> Result<bool, Fail>
    requires { (1 ≤ capacity) × (capacity ≤ 4096) }
{
    let state = State::new(alloc, limit, keep)?;
    let made = RuledReturns::new(alloc, capacity)?;
    let grants = Blank::new(128);
    let rounds = Blank::new(128);
    ruled::<RuledReturns, Brand, Brand, Brand, H>(rt, alloc, state, made, grants, rounds, run)
}

#[test]
fn pressure_and_enforcement(rt: HostRuntime) -> Result<(), Fail> {
    let state = State::new(rt.alloc(), 8, 0)?;
    assert!(rt; yields::<Brand, Brand, Brand, HostRuntime>(&rt, rt.alloc(), state)?);
    Ok(())
}

#[test]
fn returns_are_counted_in_order(rt: HostRuntime) -> Result<(), Fail> {
    assert!(rt; over(&rt, rt.alloc(), 64, 0, 1, Run::Settles)?);
    assert!(rt; over(&rt, rt.alloc(), 64, 0, 4, Run::Drains)?);
    Ok(())
}

#[test]
fn two_clients_share_a_manager(rt: HostRuntime) -> Result<(), Fail> {
    assert!(rt; over(&rt, rt.alloc(), 8, 4, 3, Run::Shares)?);
    Ok(())
}
