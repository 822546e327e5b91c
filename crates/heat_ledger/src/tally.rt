//! Lists of totals that are split among holders, which exist only in proofs.
//!
//! Each holder has a token. What a token knows is a `TokenState`: how many of 65 parts it has,
//! and an amount for each entry. One token is the authority: it knows the total of each entry, which is the sum
//! of all amounts. A token takes no bytes, and a move costs one load of the table's one word.
ghost use Rattle.std.specs.Prelude.{◌≡◌, ℕ, ◌+◌, ◌-◌, ◌*◌, ◌≤◌, List, [], ◌∷◌, true, false, IfOk};
ghost use Rattle.heat_ledger.specs.Rows.{at};
ghost use Rattle.heat_ledger.specs.Tally.{most, both_of, after_issue, share_state};
ghost use Rattle.heat_ledger.specs.Tally.{authority_state, all_parts, CanIssue, IsLearned, IsTokenOf};

use atomic_table::{Join, Play, Seat, Shared, Split, Table, TableRule};
use std::alloc::{AllocError, Global};
use std::collections::LinkedList;
use std::marker::{Brand, PhantomData};
use std::mem;

// What a token knows. No value of it is made.
pub(crate) struct TokenState {
    pub has_totals: bool,
    pub parts: u64,
    pub amounts: LinkedList<u64>,
    pub totals: LinkedList<u64>,
}

pub(crate) struct BalanceRule;

impl TableRule<u64, TokenState, ()> for BalanceRule {
    ghost use Rattle.std.specs.Prelude.{[]};
    ghost use Rattle.heat_ledger.specs.Tally.{IsBalancedTable, authority_state, all_parts};

    ghost holds = { λ _. IsBalancedTable };

    ghost first = { λ _. authority_state all_parts [] };
}

pub(crate) type TokenTable = Table<u64, TokenState, (), BalanceRule, Global>;

pub(crate) type SharedTable = Shared<u64, TokenState, (), BalanceRule>;

pub(crate) type Token = Seat<u64, TokenState>;

/// What a token is given: its parts and amounts, what the authority keeps, and by how much the totals rise.
pub(crate) trait Amount {
    ghost parts: { ℕ };

    ghost amounts: { List ℕ };

    ghost rest: { List ℕ };

    ghost extra: { List ℕ };
}

impl Amount for Brand {
    ghost use Rattle.std.specs.Prelude.{[]};

    ghost parts = { 0 };

    ghost amounts = { [] };

    ghost rest = { [] };

    ghost extra = { [] };
}

struct Issued<K> {
    of: PhantomData<K>,
}

impl<K: Amount> Split<TokenState> for Issued<K> {
    ghost use Rattle.heat_ledger.specs.Tally.{after_issue, share_state};

    ghost left = { after_issue K.parts K.rest K.extra };

    ghost right = { λ _. share_state K.parts K.amounts };
}

struct Merged;

impl Join<TokenState> for Merged {
    ghost use Rattle.std.specs.Prelude.{[]};
    ghost use Rattle.heat_ledger.specs.Tally.{both_of, share_state};

    ghost both = { both_of };

    ghost spent = { share_state 0 [] };
}

struct Learned;

impl Play<u64, TokenState> for Learned {
    ghost use Rattle.heat_ledger.specs.Tally.{Learns};

    ghost then = { Learns };
}

/// A new table of tokens, and its authority.
pub(crate) fn open(alloc: Global) -> Result<(TokenTable, Token), AllocError>
    ensures of_table { IfOk result (λ r. IsTokenOf r.0.shared.table_id r.1) }
    ensures token { IfOk result (λ r. r.1.me.0 ≡ authority_state all_parts []) }
{
    TokenTable::of_words(alloc, &[0], &())
}

/// Gives a new token what `K` says.
pub(crate) fn issue<K: Amount>(tokens: &SharedTable, authority: &mut Token) -> Token
    requires of_table { IsTokenOf tokens.now.table_id authority.old }
    requires issues { CanIssue K.parts K.amounts K.rest K.extra authority.old.me.0 }
    ensures of_table { IsTokenOf tokens.now.table_id authority.new × IsTokenOf tokens.now.table_id result }
    ensures authority { authority.new.me.0 ≡ after_issue K.parts K.rest K.extra authority.old.me.0 }
    ensures token { result.me.0 ≡ share_state K.parts K.amounts }
{
    tokens.split_seat::<Issued<K>>(authority)
}

/// Gives a token what `K` says. The caller picks `K` by the last argument.
pub(crate) fn grant<K: Amount, T>(tokens: &SharedTable, authority: &mut Token, _told: &T) -> Token
    requires of_table { IsTokenOf tokens.now.table_id authority.old }
    requires issues { CanIssue K.parts K.amounts K.rest K.extra authority.old.me.0 }
    ensures of_table { IsTokenOf tokens.now.table_id authority.new × IsTokenOf tokens.now.table_id result }
    ensures authority { authority.new.me.0 ≡ after_issue K.parts K.rest K.extra authority.old.me.0 }
    ensures token { result.me.0 ≡ share_state K.parts K.amounts }
{
    issue::<K>(tokens, authority)
}

/// A token takes in a holder's token.
pub(crate) fn merge(tokens: &SharedTable, token: &mut Token, other: Token)
    requires of_table { IsTokenOf tokens.now.table_id token.old × IsTokenOf tokens.now.table_id other }
    requires other { other.me.0.has_totals ≡ false }
    ensures of_table { IsTokenOf tokens.now.table_id token.new }
    ensures token { token.new.me.0 ≡ both_of token.old.me.0 other.me.0 }
{
    tokens.join_seat::<Merged>(token, other);
}

/// What the rule says of a token.
pub(crate) fn learn(tokens: &SharedTable, token: &mut Token)
    requires { IsTokenOf tokens.now.table_id token.old }
    ensures of_table { IsTokenOf tokens.now.table_id token.new }
    ensures same { token.new.me.0 ≡ token.old.me.0 }
    ensures learned { IsLearned token.old.me.0 }
{
    tokens.load::<Learned>(token, 0);
}

/// Takes a holder's token back and gives it anew, with what `K` says. The caller picks `K` by the last argument.
pub(crate) fn reissue<K: Amount, T>(
    tokens: &SharedTable,
    authority: &mut Token,
    token: &mut Token,
    _told: &T,
)
    requires of_table { IsTokenOf tokens.now.table_id authority.old × IsTokenOf tokens.now.table_id token.old }
    requires authority { (authority.old.me.0.has_totals ≡ true) × (authority.old.me.0.amounts ≡ []) }
    requires token { token.old.me.0.has_totals ≡ false }
    requires parts { K.parts ≡ token.old.me.0.parts }
    requires amounts { (k : ℕ) → at K.amounts k ≡ at token.old.me.0.amounts k + at K.extra k }
    requires backed { (k : ℕ) → at token.old.me.0.amounts k ≤ at authority.old.me.0.totals k
        → at token.old.me.0.amounts k ≤ token.old.me.0.parts * most → at K.amounts k ≤ K.parts * most }
    requires rest { K.rest ≡ [] }
    ensures of_table { IsTokenOf tokens.now.table_id authority.new × IsTokenOf tokens.now.table_id token.new }
    ensures authority { (authority.new.me.0.has_totals ≡ true) × (authority.new.me.0.amounts ≡ [])
        × (authority.new.me.0.parts ≡ authority.old.me.0.parts) }
    ensures totals { (k : ℕ) → at authority.new.me.0.totals k ≡ at authority.old.me.0.totals k + at K.extra k }
    ensures fits { (k : ℕ) → at authority.new.me.0.totals k ≤ all_parts * most }
    ensures token { token.new.me.0 ≡ share_state K.parts K.amounts }
    ensures backed { (k : ℕ) → at K.amounts k ≤ K.parts * most }
{
    learn(tokens, token);
    let none = issue::<Brand>(tokens, authority);
    let old = mem::replace(token, none);
    merge(tokens, authority, old);
    learn(tokens, authority);
    *token = issue::<K>(tokens, authority);
    learn(tokens, authority);
}

/// The authority takes in a holder's token, and learns of it.
pub(crate) fn take_back(tokens: &SharedTable, authority: &mut Token, mut token: Token)
    requires of_table { IsTokenOf tokens.now.table_id authority.old × IsTokenOf tokens.now.table_id token }
    requires token { token.me.0.has_totals ≡ false }
    ensures of_table { IsTokenOf tokens.now.table_id authority.new }
    ensures authority { authority.new.me.0 ≡ both_of authority.old.me.0 token.me.0 }
    ensures backed { (k : ℕ) → at token.me.0.amounts k ≤ token.me.0.parts * most }
{
    learn(tokens, &mut token);
    merge(tokens, authority, token);
}
