//! Segments that are given back to what granted them.
ghost use Rattle.std.specs.Prelude.{◌≡◌, ◌-◌, ◌≤◌, [], List, Some, false, filter, reverse, length};
ghost use Rattle.units.specs.Count.{next_count};
ghost use Rattle.segment.specs.declared.owner.Phase.TheVariants as phase;
ghost use Rattle.client.specs.Seen.{IsUnknown};
ghost use Rattle.client.specs.Pieces.{AllStay};
ghost use Rattle.client.specs.Places.{NoneAllFree, LeavesUsed, is_all_free};
ghost use Rattle.client.specs.TakenBack.{Return, TookAll, IsReturned, AreReturned, untold_returns};
ghost use Rattle.client.specs.GivingUp.{FindsGone, KeepsUntold};
ghost use Rattle.client.specs.Granting.{GivesSide, Tracks, Returns, CameWhole, all_told};

use crate::client::Client;
use segment::{GiveUp, Granter, OwnerSide};
use std::sync::Wait;
use std::thread::Threads;

/// Tells the granter each gone side that was not told yet.
pub(crate) fn tell_all<G: Granter, H: Threads + Wait + Sync>(
    client: &mut Client,
    granter: &mut G,
    rt: &H,
)
    ensures client { client.new ≡ all_told client.old }
    ensures took { TookAll G.took_back client.old.number (untold_returns client.old)
        granter.old granter.new }
    ensures returns { Tracks (G.returns granter.old) (G.returns granter.new)
        (length client.old.gone - client.old.told) }
    ensures grants { G.grants granter.new ≡ G.grants granter.old }
    ensures greatest { G.greatest granter.new ≡ G.greatest granter.old }
    ensures standing { G.standing granter.new ≡ G.standing granter.old }
{
    let number = client.number();
    while let Some(id) = client.untold() {
        granter.give_back(rt, number, id, None);
    }
}

/// Gives the segment of a side that was taken out back, with its block where it was not purged, and
/// tells whether it was not. A side that is gone is kept.
pub(crate) fn give_back_side<G: Granter, H: Threads + Wait + Sync>(
    client: &mut Client,
    granter: &mut G,
    rt: &H,
    side: OwnerSide,
) -> bool
    requires taken { 1 ≤ client.old.taken }
    requires unknown { IsUnknown side.id client.old }
    ensures client { GivesSide result side client.old client.new }
    ensures took { (one : Return) × IsReturned client.new.gone side one
        × G.took_back client.old.number one.0 one.1 granter.old granter.new }
    ensures stay { AllStay client.old client.new }
    ensures returns { G.returns granter.new ≡ next_count (G.returns granter.old) }
    ensures grants { G.grants granter.new ≡ G.grants granter.old }
    ensures greatest { G.greatest granter.new ≡ G.greatest granter.old }
    ensures standing { G.standing granter.new ≡ G.standing granter.old }
{
    let number = client.number();
    let id = side.id();
    match side.give_up() {
        GiveUp::Whole(block) => {
            client.note_whole();
            granter.give_back(rt, number, id, Some(block));
            true
        }
        GiveUp::Gone(side) => {
            client.keep_gone(side);
            granter.give_back(rt, number, id, None);
            false
        }
    }
}

/// Gives the segment of a side that holds back, with its block.
pub(crate) fn give_back_held<G: Granter, H: Threads + Wait + Sync>(
    granter: &mut G,
    rt: &H,
    number: u32,
    side: OwnerSide,
)
    requires { side.phase ≡ phase.Held }
    ensures took { G.took_back number side.id (Some side.bytes) granter.old granter.new }
    ensures returns { G.returns granter.new ≡ next_count (G.returns granter.old) }
    ensures grants { G.grants granter.new ≡ G.grants granter.old }
    ensures greatest { G.greatest granter.new ≡ G.greatest granter.old }
    ensures standing { G.standing granter.new ≡ G.standing granter.old }
{
    let id = side.id();
    match side.give_up() {
        GiveUp::Whole(block) => granter.give_back(rt, number, id, Some(block)),
        GiveUp::Gone(_) => unreachable!(),
    }
}

/// Gives back each segment that is all free, and tells how many were whole.
pub(crate) fn give_back_free<G: Granter, H: Threads + Wait + Sync>(
    client: &mut Client,
    granter: &mut G,
    rt: &H,
) -> u64
    ensures returns { Returns (G.returns granter.old) (G.returns granter.new)
        client.old client.new }
    ensures whole { CameWhole result client.old client.new }
    ensures took { (returns : List Return)
        × AreReturned client.new.gone
        (filter (is_all_free client.old.heap.used) client.old.leases) returns
        × TookAll G.took_back client.old.number returns granter.old granter.new }
    ensures left { LeavesUsed client.old client.new }
    ensures none { NoneAllFree client.new }
    ensures stay { AllStay client.old client.new }
    ensures found { FindsGone (filter (is_all_free client.old.heap.used) client.old.leases)
        client.old client.new.gone }
    ensures told { KeepsUntold client.old client.new }
    ensures grants { G.grants granter.new ≡ G.grants granter.old }
    ensures greatest { G.greatest granter.new ≡ G.greatest granter.old }
    ensures standing { G.standing granter.new ≡ G.standing granter.old }
{
    // For the proof, here and at the end: calls up the clause `sound` of `Client::heap_pages`.
    let _before = client.heap_pages();
    let mut whole = 0u64;
    while let Some(side) = client.take_free() {
        if give_back_side(client, granter, rt, side) {
            whole = whole.saturating_add(1);
        }
    }
    let _after = client.heap_pages();
    whole
}

/// Gives back each segment.
pub(crate) fn give_back_all<G: Granter, H: Threads + Wait + Sync>(
    client: &mut Client,
    granter: &mut G,
    rt: &H,
)
    ensures returns { Returns (G.returns granter.old) (G.returns granter.new)
        client.old client.new }
    ensures took { (returns : List Return)
        × AreReturned client.new.gone (reverse client.old.leases) returns
        × TookAll G.took_back client.old.number returns granter.old granter.new }
    ensures none { client.new.leases ≡ [] }
    ensures found { FindsGone client.old.leases client.old client.new.gone }
    ensures told { KeepsUntold client.old client.new }
    ensures grants { G.grants granter.new ≡ G.grants granter.old }
    ensures greatest { G.greatest granter.new ≡ G.greatest granter.old }
    ensures standing { G.standing granter.new ≡ G.standing granter.old }
{
    // For the proof, here and at the end: calls up the clause `sound` of `Client::heap_pages`.
    let _before = client.heap_pages();
    while let Some(side) = client.take_any() {
        give_back_side(client, granter, rt, side);
    }
    let _after = client.heap_pages();
}
