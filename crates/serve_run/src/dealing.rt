//! The place of each request is dealt to the client that asks, and all places are joined again.
ghost use Rattle.std.specs.Prelude.{◌≡◌, ◌+◌, ◌<◌, ◌≤◌, ◌∷◌, ◌++◌, ℕ, [], get_or, length, vec_capacity};
ghost use Rattle.serve_texts.specs.Reply.{tiles_of};
ghost use Rattle.serve_session.specs.Tiling.{TilingValue, HoldReplies, no_request, reply_of, replies_to, tile_at};
ghost use Rattle.serve_run.specs.Dealing.{AreOf, AreDealt, AllAnswer, AllEmpty, AllKeep, HaveRoom, numbers_for};

use crate::worker::Worker;
use manager::Fixed;
use reply_places::{Frame, Joined, Layout, Place};
use request_text::Request;
use return_queue::Returns;
use std::sync::ledger::Ledger;

/// How many requests are a client's.
pub(crate) fn count_of(requests: &[Request], client: u32) -> usize
    ensures { result ≡ length (numbers_for requests.now client (length requests.now)) }
{
    let mut count = 0;
    for number in 0..requests.len() {
        if requests[number].client == client {
            count += 1;
        }
    }
    count
}

/// Where the worker of a request's client stands, among as many workers as there are clients.
fn worker_of(requests: &[Request], number: usize, clients: usize) -> usize
    requires within { number < length requests.now }
    requires known { AreOf clients requests.now }
    ensures client { result + 1 ≡ (get_or requests.now number no_request).client }
    ensures within { result < clients }
{
    requests[number].client as usize - 1
}

/// Deals the place of each request to its client.
pub(crate) fn deal<R: Returns + Drop, F: Fixed + Layout, G: Ledger, E: Ledger>(
    requests: &[Request],
    frame: &mut Frame<F>,
    workers: &mut [Worker<'_, R, F, G, E>],
)
    requires count { F.count ≡ length requests.now }
    requires none { frame.old.given ≡ 0 }
    requires known { AreOf (length workers.old) requests.now }
    requires room { HaveRoom (λ worker. vec_capacity worker.places) requests.now workers.old }
    requires dealt { AreDealt (λ worker. worker.places.items) requests.now 0 workers.old }
    ensures frame { frame.new ≡ record frame.old { given = length requests.now } }
    ensures len { length workers.new ≡ length workers.old }
    ensures dealt { AreDealt (λ worker. worker.places.items)
        requests.now (length requests.now) workers.new }
    ensures empty { AllEmpty (λ worker. worker.places.items) workers.new }
{
    for number in 0..requests.len() {
        let place = frame.next_place();
        hand_on(requests, number, place, workers);
    }
}

/// Hands a place to the client of its request.
fn hand_on<R: Returns + Drop, F: Fixed + Layout, G: Ledger, E: Ledger>(
    requests: &[Request],
    number: usize,
    place: Place<F>,
    workers: &mut [Worker<'_, R, F, G, E>],
)
    requires within { number < length requests.now }
    requires place { (place.number ≡ number) × (place.bytes ≡ []) }
    requires known { AreOf (length workers.old) requests.now }
    requires room { HaveRoom (λ worker. vec_capacity worker.places) requests.now workers.old }
    requires dealt { AreDealt (λ worker. worker.places.items) requests.now number workers.old }
    requires empty { AllEmpty (λ worker. worker.places.items) workers.old }
    ensures len { length workers.new ≡ length workers.old }
    ensures room { HaveRoom (λ worker. vec_capacity worker.places) requests.now workers.new }
    ensures dealt { AreDealt (λ worker. worker.places.items) requests.now (number + 1) workers.new }
    ensures empty { AllEmpty (λ worker. worker.places.items) workers.new }
{
    let at = worker_of(requests, number, workers.len());
    add_place(&mut workers[at], place);
}

/// Gives a worker one more place.
fn add_place<R: Returns + Drop, F: Fixed + Layout, G: Ledger, E: Ledger>(
    worker: &mut Worker<'_, R, F, G, E>,
    place: Place<F>,
)
    requires room { length worker.old.places.items < vec_capacity worker.old.places }
    ensures places { worker.new.places.items ≡ worker.old.places.items ++ place ∷ [] }
    ensures capacity { vec_capacity worker.new.places ≡ vec_capacity worker.old.places }
{
    worker.places.push_reserved(place);
}

/// Joins the places of all requests, the last first.
pub(crate) fn gather<R: Returns + Drop, F: Fixed + Layout, G: Ledger, E: Ledger>(
    requests: &[Request],
    mut frame: Frame<F>,
    workers: &mut [Worker<'_, R, F, G, E>],
) -> Joined
    requires count { F.count ≡ length requests.now }
    requires none { (frame.from ≡ F.count) × (frame.bytes ≡ []) }
    requires known { AreOf (length workers.old) requests.now }
    requires dealt { AreDealt (λ worker. worker.places.items)
        requests.now (length requests.now) workers.old }
    ensures ended { AllKeep (λ worker. worker.ended) (λ worker. worker.settled)
        workers.old workers.new }
    ensures replies { (tiling : TilingValue) → HoldReplies tiling F.size
        → AllAnswer (λ worker. worker.places.items) tiling requests.now workers.old
        → result ≡ replies_to tiling (tiles_of requests.now) }
{
    for done in 0..requests.len() {
        frame = put_last(requests, requests.len() - 1 - done, frame, workers);
    }
    frame.close()
}

/// Joins the place of a request to those of the later ones.
fn put_last<R: Returns + Drop, F: Fixed + Layout, G: Ledger, E: Ledger>(
    requests: &[Request],
    number: usize,
    frame: Frame<F>,
    workers: &mut [Worker<'_, R, F, G, E>],
) -> Frame<F>
    requires within { number < length requests.now }
    requires next { number + 1 ≡ frame.from }
    requires known { AreOf (length workers.old) requests.now }
    requires dealt { AreDealt (λ worker. worker.places.items)
        requests.now (number + 1) workers.old }
    ensures from { result.from ≡ number }
    ensures dealt { AreDealt (λ worker. worker.places.items) requests.now number workers.new }
    ensures ended { AllKeep (λ worker. worker.ended) (λ worker. worker.settled)
        workers.old workers.new }
    ensures reply { (tiling : TilingValue) → HoldReplies tiling F.size
        → AllAnswer (λ worker. worker.places.items) tiling requests.now workers.old
        → AllAnswer (λ worker. worker.places.items) tiling requests.now workers.new
        × (result.bytes ≡ reply_of tiling (tile_at requests.now number) ++ frame.bytes) }
{
    let at = worker_of(requests, number, workers.len());
    let place = take_last(&mut workers[at]);
    frame.put_back(place)
}

/// Takes the last place of a worker.
fn take_last<R: Returns + Drop, F: Fixed + Layout, G: Ledger, E: Ledger>(
    worker: &mut Worker<'_, R, F, G, E>,
) -> Place<F>
    requires some { 0 < length worker.old.places.items }
    ensures places { worker.old.places.items ≡ worker.new.places.items ++ result ∷ [] }
    ensures ended { worker.new.ended ≡ worker.old.ended }
    ensures settled { worker.new.settled ≡ worker.old.settled }
{
    worker.places.take_last()
}
