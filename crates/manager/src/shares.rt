ghost use Rattle.std.specs.Prelude.{◌≡◌, ℕ, ◌+◌, ◌^◌, ◌<◌, ◌≤◌, IfSome, is_some, option_map};
ghost use Rattle.manager.specs.Tokens.{with_grant, with_round};
ghost use Rattle.manager.specs.declared.shares.TheConstants.{PARTS};

use std::marker::Model;
use std::sync::ledger::{Blank, Book, Ledger, Share};

/// How many parts all shares of a manager have together.
pub const PARTS: u32 = 128;

/// Shares of a manager's two ledgers, that of its grants and that of its enforcements, cut in the
/// same parts, at least one. Contracts see the parts and what the shares count.
///
/// A handle counts in its own shares, and under the manager's lock in the totals. Whoever has all
/// parts knows the totals.
#[derive(Drop)]
pub struct Shares<G: Ledger, E: Ledger> {
    parts: u32,
    grants: u64,
    rounds: u64,
    of_grants: Share<G>,
    of_rounds: Share<E>,
}

impl<G: Ledger, E: Ledger> Model for Shares<G, E> {
    ghost use Rattle.std.specs.Prelude.{◌≡◌, ◌<◌};
    ghost use Rattle.manager.specs.Tokens.{Tokens};

    ghost Value = { Tokens };

    ghost view = { λ s. record { parts = s.parts; grants = s.grants; rounds = s.rounds } };

    ghost invariant = { λ s. (0 < s.parts)
        × (s.of_grants.parts ≡ s.parts) × (s.of_rounds.parts ≡ s.parts)
        × (s.of_grants.amount ≡ s.grants) × (s.of_rounds.amount ≡ s.rounds) };
}

/// The totals of the two ledgers, which stand behind the lock.
#[derive(Drop)]
pub(crate) struct Totals<G: Ledger, E: Ledger> {
    of_grants: Book<G>,
    of_rounds: Book<E>,
}

impl<G: Ledger, E: Ledger> Model for Totals<G, E> {
    ghost use Rattle.std.specs.Prelude.{◌≡◌};
    ghost use Rattle.manager.specs.Tokens.{Tokens};
    ghost use Rattle.manager.specs.declared.shares.TheConstants.{PARTS};

    ghost Value = { Tokens };

    ghost view = { λ t. record {
      parts = PARTS;
      grants = t.of_grants.total;
      rounds = t.of_rounds.total;
    } };

    ghost invariant = { λ t. (G.parts ≡ PARTS) × (E.parts ≡ PARTS) };
}

impl<G: Ledger, E: Ledger> Shares<G, E> {
    /// Shares of these tokens.
    fn of(parts: u32, of_grants: Share<G>, of_rounds: Share<E>) -> Shares<G, E>
        requires some { 0 < parts }
        requires parts { (of_grants.parts ≡ parts) × (of_rounds.parts ≡ parts) }
        requires amounts { (of_grants.amount ≡ 0) × (of_rounds.amount ≡ 0) }
        ensures { result ≡ record { parts = parts; grants = 0; rounds = 0 } }
    {
        Shares {
            parts,
            grants: 0,
            rounds: 0,
            of_grants,
            of_rounds,
        }
    }

    /// How many parts of the whole these are, at least one.
    pub fn parts(&self) -> u32
        ensures parts { result ≡ self.now.parts }
        ensures some { 0 < self.now.parts }
    {
        self.parts
    }

    /// How many grants they count.
    pub fn grants(&self) -> u64
        ensures { result ≡ self.now.grants }
    {
        self.grants
    }

    /// How many enforcements they count.
    pub fn rounds(&self) -> u64
        ensures { result ≡ self.now.rounds }
    {
        self.rounds
    }

    /// Cuts one part off, which counts nothing yet.
    pub fn split(&mut self) -> Shares<G, E>
        requires { 1 < self.old.parts }
        ensures second { result ≡ record { parts = 1; grants = 0; rounds = 0 } }
        ensures parts { self.new.parts + 1 ≡ self.old.parts }
        ensures grants { self.new.grants ≡ self.old.grants }
        ensures rounds { self.new.rounds ≡ self.old.rounds }
    {
        let of_grants = self.of_grants.split_off(1, 0);
        let of_rounds = self.of_rounds.split_off(1, 0);
        self.parts -= 1;
        Shares::of(1, of_grants, of_rounds)
    }

    /// Takes other shares in: parts and counts are added.
    pub fn merge(&mut self, other: Shares<G, E>)
        requires parts { self.old.parts + other.parts < 2 ^ 32 }
        requires grants { self.old.grants + other.grants < 2 ^ 64 }
        requires rounds { self.old.rounds + other.rounds < 2 ^ 64 }
        ensures parts { self.new.parts ≡ self.old.parts + other.parts }
        ensures grants { self.new.grants ≡ self.old.grants + other.grants }
        ensures rounds { self.new.rounds ≡ self.old.rounds + other.rounds }
    {
        let Shares {
            parts,
            grants,
            rounds,
            of_grants,
            of_rounds,
        } = other;
        self.of_grants.merge(of_grants);
        self.of_rounds.merge(of_rounds);
        self.parts += parts;
        self.grants += grants;
        self.rounds += rounds;
    }
}

impl<G: Ledger, E: Ledger> Totals<G, E> {
    /// Two new ledgers: their totals, and the shares with all parts.
    pub(crate) fn open(grants: Blank, rounds: Blank) -> (Totals<G, E>, Shares<G, E>)
        requires names { (grants.name ≡ G.name) × (rounds.name ≡ E.name) }
        requires parts { (grants.parts ≡ G.parts) × (rounds.parts ≡ E.parts) }
        requires all { (G.parts ≡ PARTS) × (E.parts ≡ PARTS) }
        ensures totals { result.0 ≡ record { parts = PARTS; grants = 0; rounds = 0 } }
        ensures shares { result.1 ≡ record { parts = PARTS; grants = 0; rounds = 0 } }
    {
        let (grants, of_grants) = grants.open::<G>();
        let (rounds, of_rounds) = rounds.open::<E>();
        let totals = Totals {
            of_grants: grants,
            of_rounds: rounds,
        };
        (totals, Shares::of(PARTS, of_grants, of_rounds))
    }

    /// Counts a grant, here and in shares.
    fn count_grant(&mut self, shares: &mut Shares<G, E>)
        requires few { self.old.grants + 1 < 2 ^ 64 }
        ensures totals { self.new ≡ with_grant self.old }
        ensures shares { shares.new ≡ with_grant shares.old }
    {
        self.of_grants.audit(&mut shares.of_grants);
        self.of_grants.add(&mut shares.of_grants, 1);
        shares.grants += 1;
    }

    /// Counts an enforcement, here and in shares.
    fn count_round(&mut self, shares: &mut Shares<G, E>)
        requires few { self.old.rounds + 1 < 2 ^ 64 }
        ensures totals { self.new ≡ with_round self.old }
        ensures shares { shares.new ≡ with_round shares.old }
    {
        self.of_rounds.audit(&mut shares.of_rounds);
        self.of_rounds.add(&mut shares.of_rounds, 1);
        shares.rounds += 1;
    }

    /// Shares with all parts count what the totals are.
    pub(crate) fn audit(&mut self, whole: &mut Shares<G, E>)
        requires { whole.old.parts ≡ PARTS }
        ensures { self.old ≡ whole.old }
    {
        self.of_grants.audit(&mut whole.of_grants);
        self.of_rounds.audit(&mut whole.of_rounds);
    }
}

/// Counts a grant in the totals and in shares, where there are any.
pub(crate) fn count_grant<G: Ledger, E: Ledger>(
    totals: &mut Option<Totals<G, E>>,
    shares: &mut Option<Shares<G, E>>,
)
    requires both { is_some totals.old ≡ is_some shares.old }
    requires few { IfSome totals.old (λ t. t.grants + 1 < 2 ^ 64) }
    ensures totals { totals.new ≡ option_map with_grant totals.old }
    ensures shares { shares.new ≡ option_map with_grant shares.old }
{
    if let Some(totals) = totals {
        if let Some(shares) = shares {
            totals.count_grant(shares);
        }
    }
}

/// Counts an enforcement in the totals and in shares, where there are any.
pub(crate) fn count_round<G: Ledger, E: Ledger>(
    totals: &mut Option<Totals<G, E>>,
    shares: &mut Option<Shares<G, E>>,
)
    requires both { is_some totals.old ≡ is_some shares.old }
    requires few { IfSome totals.old (λ t. t.rounds + 1 < 2 ^ 64) }
    ensures totals { totals.new ≡ option_map with_round totals.old }
    ensures shares { shares.new ≡ option_map with_round shares.old }
{
    if let Some(totals) = totals {
        if let Some(shares) = shares {
            totals.count_round(shares);
        }
    }
}
