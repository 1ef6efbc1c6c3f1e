ghost use Rattle.std.specs.Prelude.{◌≡◌, ◌≢◌, ℕ, ◌+◌, ◌<◌, ◌≤◌, ◌==◌, ◌^◌, false, ◌&&◌};
ghost use Rattle.std.specs.Prelude.{if◌then◌else◌, [], ◌∷◌, length, take, drop, None, Some};
ghost use Rattle.std.specs.Prelude.{is_some, IfOk, OnOk, IfSome};
ghost use Rattle.units.specs.Moment.{IsMoment};
ghost use Rattle.machine.specs.declared.event.Event.TheVariants as event;
ghost use Rattle.machine.specs.declared.event.Answer.TheVariants as answer;
ghost use Rattle.machine.specs.History.{History, left_of};
ghost use Rattle.machine.specs.Answers.{answer_of, is_live, bytes_held};
ghost use Rattle.segment.specs.Owned.{new_owner, IsGranted};
ghost use Rattle.replay_real.specs.Owners.{given_at, ShowsAt, ShowsEach, GaveUp, KeepsClients};

use crate::owner::Owner;
use block_pool::Block;
use machine::Answer;
use segment::OwnerSide;
use std::alloc::Global;
use std::marker::Model;
use units::NoMemory;

/// What became of a number: the client that it was granted to, and its owner while it is plain.
#[derive(Drop)]
pub(crate) struct Given {
    client: u32,
    owner: Option<Owner>,
}

impl Given {
    /// Locks a range of pages; misuse where the segment is not plain.
    fn lock(&mut self, first: u32, count: u32) -> Answer
        ensures answer { (h : History) (id : ℕ) → ShowsAt h id self.old.owner
            → result ≢ answer.Gone → result ≡ answer_of h (event.Lock id first count) }
        ensures after { (h : History) (id : ℕ) → ShowsAt h id self.old.owner
            → result ≢ answer.Gone
            → ShowsAt ((event.Lock id first count, result) ∷ h) id self.new.owner }
        ensures client { self.new.client ≡ self.old.client }
    {
        match &mut self.owner {
            Some(owner) => owner.lock(first, count),
            None => Answer::Misuse,
        }
    }

    /// Unlocks a range of pages at a moment; misuse where the segment is not plain.
    fn unlock(&mut self, first: u32, count: u32, now: u64) -> Answer
        requires { IsMoment now }
        ensures answer { (h : History) (id : ℕ) → ShowsAt h id self.old.owner
            → result ≡ answer_of h (event.Unlock id first count now) }
        ensures after { (h : History) (id : ℕ) → ShowsAt h id self.old.owner
            → ShowsAt ((event.Unlock id first count now, result) ∷ h) id self.new.owner }
        ensures client { self.new.client ≡ self.old.client }
    {
        match &mut self.owner {
            Some(owner) => owner.unlock(first, count, now),
            None => Answer::Misuse,
        }
    }

    /// Writes bytes at a place; misuse where the segment is not plain.
    fn write(&mut self, place: u64, bytes: &[u8]) -> Answer
        requires some { 0 < length bytes.now }
        requires near { place + length bytes.now ≤ 2 ^ 32 }
        ensures answer { (h : History) (id : ℕ) → ShowsAt h id self.old.owner
            → result ≡ answer_of h (event.Write id place bytes.now) }
        ensures after { (h : History) (id : ℕ) → ShowsAt h id self.old.owner
            → ShowsAt ((event.Write id place bytes.now, result) ∷ h) id self.new.owner }
        ensures client { self.new.client ≡ self.old.client }
    {
        match &mut self.owner {
            Some(owner) => owner.write(place, bytes),
            None => Answer::Misuse,
        }
    }

    /// The bytes of a range where each lies in a locked page of a plain segment.
    fn read(&self, place: u64, count: u64) -> Option<&[u8]>
        requires some { 0 < count }
        requires near { place + count ≤ 2 ^ 32 }
        ensures told { (h : History) (id : ℕ) → ShowsAt h id self.now.owner
            → is_some result ≡ (is_live h id && bytes_held h id place count) }
        ensures bytes { IfSome result (λ bytes. (h : History) (id : ℕ)
            → ShowsAt h id self.now.owner
            → bytes.now ≡ take count (drop place (left_of h id))) }
        ensures few { IfSome result (λ bytes. length bytes.now ≤ count) }
    {
        match &self.owner {
            Some(owner) => owner.read(place, count),
            None => None,
        }
    }

    /// Gives the segment up: its block where there is one. It is not plain afterwards.
    fn give_up(&mut self) -> Option<Block>
        ensures gave { GaveUp self.old.owner result }
        ensures owner { self.new.owner ≡ None }
        ensures client { self.new.client ≡ self.old.client }
    {
        match self.owner.take() {
            Some(owner) => owner.give_up(),
            None => None,
        }
    }
}

/// What became of each number, from 1 on.
#[derive(Drop)]
pub(crate) struct Owners {
    /// At the place of each number what became of it; the first place is nobody's.
    given: Vec<Given>,
}

impl Model for Owners {
    ghost use Rattle.std.specs.Prelude.{List};
    ghost use Rattle.replay_real.specs.declared.owners.Given.{Given};

    ghost Value = { List Given };

    ghost view = { λ o. o.given.items };
}

impl Owners {
    /// No number was granted.
    pub(crate) fn new(alloc: Global) -> Result<Owners, NoMemory>
        ensures shows { IfOk result (λ owners. ShowsEach [] owners) }
        ensures clients { IfOk result (λ owners. (n : ℕ) → (given_at owners n).client ≡ 0) }
        ensures places { IfOk result (λ owners. length owners ≡ 1) }
    {
        let mut given = Vec::new(alloc);
        given.push(Given {
            client: 0,
            owner: None,
        })?;
        Ok(Owners { given })
    }

    /// Adds a segment that was just granted to a client, under the next number.
    pub(crate) fn add(
        &mut self,
        alloc: Global,
        client: u32,
        side: OwnerSide,
    ) -> Result<(), NoMemory>
        requires some { 1 ≤ side.pages }
        requires granted { IsGranted side.pages side }
        requires fresh { side ≡ new_owner side.table side.id side.bytes }
        ensures shows { OnOk result ((h : History) (id to : ℕ) → ShowsEach h self.old
            → id ≡ length self.old
            → ShowsEach ((event.Grant id to side.pages, answer.Granted id) ∷ h) self.new) }
        ensures clients { OnOk result ((n : ℕ) → (given_at self.new n).client
            ≡ (if length self.old == n then client else (given_at self.old n).client)) }
        ensures places { OnOk result (length self.new ≡ length self.old + 1) }
    {
        let owner = Owner::new(alloc, side)?;
        self.given.push(Given {
            client,
            owner: Some(owner),
        })?;
        Ok(())
    }

    /// Adds the next number as one that no command by number reaches: it was granted to a client's heap.
    pub(crate) fn add_nobody(&mut self) -> Result<(), NoMemory> {
        self.given.push(Given {
            client: 0,
            owner: None,
        })?;
        Ok(())
    }

    /// The client that a number was granted to, or 0.
    pub(crate) fn client(&self, id: u64) -> u32
        ensures { result ≡ (given_at self.now id).client }
    {
        if id < self.given.len() as u64 {
            self.given[id as usize].client
        } else {
            0
        }
    }

    /// Locks a range of pages of the segment of a number; misuse where it is not plain.
    pub(crate) fn lock(&mut self, id: u64, first: u32, count: u32) -> Answer
        ensures answer { (h : History) → ShowsEach h self.old → result ≢ answer.Gone
            → result ≡ answer_of h (event.Lock id first count) }
        ensures after { (h : History) → ShowsEach h self.old → result ≢ answer.Gone
            → ShowsEach ((event.Lock id first count, result) ∷ h) self.new }
        ensures clients { KeepsClients self.old self.new }
        ensures places { length self.new ≡ length self.old }
    {
        if id >= self.given.len() as u64 {
            return Answer::Misuse;
        }
        let given = &mut self.given[id as usize];
        given.lock(first, count)
    }

    /// Unlocks a range of pages of the segment of a number at a moment; misuse where it is not
    /// plain.
    pub(crate) fn unlock(&mut self, id: u64, first: u32, count: u32, now: u64) -> Answer
        requires { IsMoment now }
        ensures answer { (h : History) → ShowsEach h self.old
            → result ≡ answer_of h (event.Unlock id first count now) }
        ensures after { (h : History) → ShowsEach h self.old
            → ShowsEach ((event.Unlock id first count now, result) ∷ h) self.new }
        ensures clients { KeepsClients self.old self.new }
        ensures places { length self.new ≡ length self.old }
    {
        if id >= self.given.len() as u64 {
            return Answer::Misuse;
        }
        let given = &mut self.given[id as usize];
        given.unlock(first, count, now)
    }

    /// Writes bytes at a place of the segment of a number; misuse where it is not plain.
    pub(crate) fn write(&mut self, id: u64, place: u64, bytes: &[u8]) -> Answer
        requires some { 0 < length bytes.now }
        requires near { place + length bytes.now ≤ 2 ^ 32 }
        ensures answer { (h : History) → ShowsEach h self.old
            → result ≡ answer_of h (event.Write id place bytes.now) }
        ensures after { (h : History) → ShowsEach h self.old
            → ShowsEach ((event.Write id place bytes.now, result) ∷ h) self.new }
        ensures clients { KeepsClients self.old self.new }
        ensures places { length self.new ≡ length self.old }
    {
        if id >= self.given.len() as u64 {
            return Answer::Misuse;
        }
        let given = &mut self.given[id as usize];
        given.write(place, bytes)
    }

    /// The bytes of a range of the segment of a number where each lies in a locked page of a plain
    /// segment.
    pub(crate) fn read(&self, id: u64, place: u64, count: u64) -> Option<&[u8]>
        requires some { 0 < count }
        requires near { place + count ≤ 2 ^ 32 }
        ensures told { (h : History) → ShowsEach h self.now
            → is_some result ≡ (is_live h id && bytes_held h id place count) }
        ensures bytes { IfSome result (λ bytes. (h : History) → ShowsEach h self.now
            → bytes.now ≡ take count (drop place (left_of h id))) }
        ensures few { IfSome result (λ bytes. length bytes.now ≤ count) }
    {
        if id >= self.given.len() as u64 {
            return None;
        }
        self.given[id as usize].read(place, count)
    }

    /// Gives the segment of a number up, where it is plain: its block where there is one.
    pub(crate) fn give_up(&mut self, id: u64) -> Option<Block>
        ensures gave { GaveUp (given_at self.old id).owner result }
        ensures given { (given_at self.new id).owner ≡ None }
        ensures others { (n : ℕ) → n ≢ id → given_at self.new n ≡ given_at self.old n }
        ensures client { (given_at self.new id).client ≡ (given_at self.old id).client }
        ensures places { length self.new ≡ length self.old }
    {
        if id >= self.given.len() as u64 {
            return None;
        }
        let given = &mut self.given[id as usize];
        given.give_up()
    }

    /// Whether the segment of a number is plain, and was granted to this client.
    pub(crate) fn is_plain_of(&self, client: u32, id: u64) -> bool
        ensures { result ≡ ((given_at self.now id).client == client
            && is_some (given_at self.now id).owner) }
    {
        if id >= self.given.len() as u64 {
            return false;
        }
        let given = &self.given[id as usize];
        given.client == client && given.owner.is_some()
    }

    /// How many places there are: one more than numbers.
    pub(crate) fn places(&self) -> u64
        ensures { result ≡ length self.now }
    {
        self.given.len() as u64
    }
}
