//! Tokens of a log, which exist in proofs only.
//!
//! One token leads: it knows the whole log. Each other token knows a beginning of it.
ghost use Rattle.std.specs.Prelude.{◌≡◌, [], IfOk, List, false, true};
ghost use mathlib.Core.List.{IsPrefix};
ghost use Rattle.proof_names.specs.Growing.{state};

use crate::log::Growth;
use atomic_table::{Join, Play, Seat, Shared, Split, Table, TableRule};
use std::alloc::{AllocError, Global};
use std::collections::LinkedList;
use std::marker::PhantomData;

// What a token knows: whether it leads, a beginning of the log, and another that it was shown. No value of it is made.
pub(crate) struct TokenState<E> {
    pub leads: bool,
    pub log: LinkedList<E>,
    pub shown: LinkedList<E>,
}

pub(crate) struct GrowthRule;

impl<E> TableRule<u64, TokenState<E>, ()> for GrowthRule {
    ghost use Rattle.std.specs.Prelude.{[], true};
    ghost use Rattle.proof_names.specs.Growing.{IsGrowingTable, state};

    ghost holds = { λ _. IsGrowingTable };

    ghost first = { λ _. state true [] [] };
}

pub(crate) type TokenTable<E> = Table<u64, TokenState<E>, (), GrowthRule, Global>;

pub(crate) type SharedTable<E> = Shared<u64, TokenState<E>, (), GrowthRule>;

pub(crate) type Token<E> = Seat<u64, TokenState<E>>;

struct Shown;

impl<E> Split<TokenState<E>> for Shown {
    ghost use Rattle.proof_names.specs.Growing.{shown_of};

    ghost left = { λ v. v };

    ghost right = { shown_of };
}

impl<E> Join<TokenState<E>> for Shown {
    ghost use Rattle.std.specs.Prelude.{[], false};
    ghost use Rattle.proof_names.specs.Growing.{state, told};

    ghost both = { told };

    ghost spent = { state false [] [] };
}

impl<E> Play<u64, TokenState<E>> for Shown {
    ghost use Rattle.proof_names.specs.Growing.{Learns};

    ghost then = { Learns };
}

struct Grown<G> {
    of: PhantomData<G>,
}

impl<E, G: Growth<E>> Play<u64, TokenState<E>> for Grown<G> {
    ghost use Rattle.proof_names.specs.Growing.{Grows};

    ghost then = { Grows G.log };
}

/// A new table of tokens, and the one that leads.
pub(crate) fn open<E>(alloc: Global) -> Result<(TokenTable<E>, Token<E>), AllocError>
    ensures table { IfOk result (λ r. (r.0.shared.table_id.words ≡ 1) × (r.1.table_id ≡ r.0.shared.table_id)) }
    ensures token { IfOk result (λ r. r.1.me ≡ (state true [] [], [])) }
{
    TokenTable::<E>::of_words(alloc, &[0], &())
}

/// A token that knows what the leading one knows.
pub(crate) fn split<E>(tokens: &SharedTable<E>, leader: &mut Token<E>) -> Token<E>
    requires table { (tokens.now.table_id.words ≡ 1) × (leader.old.table_id ≡ tokens.now.table_id) }
    requires leads { leader.old.me.0.leads ≡ true }
    ensures table { (leader.new.table_id ≡ leader.old.table_id) × (result.table_id ≡ leader.old.table_id) }
    ensures leader { leader.new.me ≡ leader.old.me }
    ensures token { result.me ≡ (state false leader.old.me.0.log [], []) }
{
    tokens.split_seat::<Shown>(leader)
}

/// The leading token takes in another, of which the log is a beginning of its own.
pub(crate) fn join<E>(tokens: &SharedTable<E>, leader: &mut Token<E>, other: Token<E>)
    requires table { (tokens.now.table_id.words ≡ 1) × (leader.old.table_id ≡ tokens.now.table_id)
        × (other.table_id ≡ tokens.now.table_id) }
    requires leads { leader.old.me.0.leads ≡ true }
    requires none_out { other.me.1 ≡ [] }
    ensures table { leader.new.table_id ≡ leader.old.table_id }
    ensures leader { leader.new.me ≡ (state true leader.old.me.0.log other.me.0.log, leader.old.me.1) }
    ensures before { IsPrefix other.me.0.log leader.old.me.0.log }
{
    tokens.join_seat::<Shown>(leader, other);
    tokens.load::<Shown>(leader, 0);
}

/// The log goes on to what `G` says.
pub(crate) fn grow<E, G: Growth<E>>(tokens: &SharedTable<E>, leader: &mut Token<E>)
    requires table { (tokens.now.table_id.words ≡ 1) × (leader.old.table_id ≡ tokens.now.table_id) }
    requires leads { leader.old.me.0.leads ≡ true }
    requires more { IsPrefix leader.old.me.0.log G.log }
    ensures table { leader.new.table_id ≡ leader.old.table_id }
    ensures leader { leader.new.me ≡ (state true G.log leader.old.me.0.shown, leader.old.me.1) }
{
    tokens.load::<Grown<G>>(leader, 0);
}
