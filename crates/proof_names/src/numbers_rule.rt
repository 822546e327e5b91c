//! Tokens of numbers, which exist in proofs only.
//!
//! Each token has the numbers that it was given. One token leads: it knows the number from which on none was given.
ghost use Rattle.std.specs.Prelude.{◌≡◌, ◌≤◌, ◌+◌, [], ◌∷◌, IfOk, true};
ghost use Rattle.proof_names.specs.Numbers.{AreApart, after_giving, holding, taken_in, only};

use atomic_table::{Join, Play, Seat, Shared, Split, Table, TableRule};
use std::alloc::{AllocError, Global};
use std::collections::LinkedList;
use std::marker::{Brand, PhantomData};

// What a token knows: whether it leads, the number from which on none was given, and its numbers. No value of it is
// made.
pub(crate) struct HolderState {
    pub leads: bool,
    pub next: u64,
    pub numbers: LinkedList<u64>,
}

pub(crate) struct NumbersRule;

impl TableRule<u64, HolderState, ()> for NumbersRule {
    ghost use Rattle.std.specs.Prelude.{[], true};
    ghost use Rattle.proof_names.specs.Numbers.{IsNumberTable, holding};

    ghost holds = { λ _. IsNumberTable };

    ghost first = { λ _. holding true 0 [] };
}

pub(crate) type HolderTable = Table<u64, HolderState, (), NumbersRule, Global>;

pub(crate) type SharedHolders = Shared<u64, HolderState, (), NumbersRule>;

pub(crate) type Holder = Seat<u64, HolderState>;

// A number that is given. It exists in proofs only, and a caller picks it.
pub(crate) trait Number {
    ghost use Rattle.std.specs.Prelude.{ℕ};

    ghost number: { ℕ };
}

impl Number for Brand {
    ghost number = { 0 };
}

struct Handing<G> {
    of: PhantomData<G>,
}

impl<G: Number> Split<HolderState> for Handing<G> {
    ghost use Rattle.std.specs.Prelude.{[], ◌∷◌};
    ghost use Rattle.proof_names.specs.Numbers.{after_giving, only};

    ghost left = { after_giving G.number };

    ghost right = { λ _. only (G.number ∷ []) };
}

struct Holding;

impl Join<HolderState> for Holding {
    ghost use Rattle.std.specs.Prelude.{[]};
    ghost use Rattle.proof_names.specs.Numbers.{taken_in, only};

    ghost both = { taken_in };

    ghost spent = { only [] };
}

impl Play<u64, HolderState> for Holding {
    ghost use Rattle.proof_names.specs.Numbers.{HasEachOnce};

    ghost then = { HasEachOnce };
}

struct Entering;

impl Play<u64, HolderState> for Entering {
    ghost use Rattle.proof_names.specs.Numbers.{IsBlank};

    ghost then = { IsBlank };
}

/// A new table of tokens, and the one that leads.
pub(crate) fn open(alloc: Global) -> Result<(HolderTable, Holder), AllocError>
    ensures table { IfOk result (λ r. (r.0.shared.table_id.words ≡ 1) × (r.1.table_id ≡ r.0.shared.table_id)) }
    ensures token { IfOk result (λ r. r.1.me ≡ (holding true 0 [], [])) }
{
    HolderTable::of_words(alloc, &[0], &())
}

/// A token without numbers.
pub(crate) fn enter(tokens: &SharedHolders) -> Holder
    requires { tokens.now.table_id.words ≡ 1 }
    ensures table { result.table_id ≡ tokens.now.table_id }
    ensures token { result.me ≡ (only [], []) }
{
    let (_, token) = tokens.load_new_seat::<Entering>(0);
    token
}

/// A token that has the number that `G` says. The caller picks `G` by the argument.
pub(crate) fn hand<G: Number>(tokens: &SharedHolders, leader: &mut Holder, _number: u32) -> Holder
    requires table { (tokens.now.table_id.words ≡ 1) × (leader.old.table_id ≡ tokens.now.table_id) }
    requires leads { leader.old.me.0.leads ≡ true }
    requires above { leader.old.me.0.next ≤ G.number }
    ensures table { (leader.new.table_id ≡ leader.old.table_id) × (result.table_id ≡ leader.old.table_id) }
    ensures leader { leader.new.me ≡ (after_giving G.number leader.old.me.0, leader.old.me.1) }
    ensures token { result.me ≡ (only (G.number ∷ []), []) }
{
    tokens.split_seat::<Handing<G>>(leader)
}

/// A token takes in another, which has none of its numbers.
pub(crate) fn join(tokens: &SharedHolders, token: &mut Holder, other: Holder)
    requires table { (tokens.now.table_id.words ≡ 1) × (token.old.table_id ≡ tokens.now.table_id)
        × (other.table_id ≡ tokens.now.table_id) }
    requires none_out { other.me.1 ≡ [] }
    ensures table { token.new.table_id ≡ token.old.table_id }
    ensures token { token.new.me ≡ (taken_in token.old.me.0 other.me.0, token.old.me.1) }
    ensures apart { AreApart token.new.me.0.numbers }
{
    tokens.join_seat::<Holding>(token, other);
    tokens.load::<Holding>(token, 0);
}
