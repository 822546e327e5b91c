//! What the book learns when shares come back to it.
ghost use Rattle.std.specs.Prelude.{◌≡◌, [], ◌+◌, ◌-◌, true, false, All};
ghost use Rattle.heat_ledger.specs.Tally.{all_parts, IsTokenOf};
ghost use Rattle.heat_ledger.specs.Ledger.{IsClean, weight_of};
ghost use Rattle.heat_ledger.specs.Gathering.{IsGathered};

use crate::share::Share;
use crate::tally::{SharedTable, Token, issue, learn, merge, take_back};
use proof_names::Naming;
use std::marker::Brand;
use std::mem;

/// How much of the weight of `shares` shares these lack.
pub(crate) fn missing<J: Naming>(shares: u8, back: &[Share<J>]) -> u8
    ensures { result ≡ shares - weight_of back.now }
{
    let mut left = shares;
    for share in back {
        left = left.saturating_sub(share.weight);
    }
    left
}

/// Takes back all that these shares have.
pub(crate) fn gather<J: Naming>(tokens: &SharedTable, authority: &mut Token, shares: Vec<Share<J>>)
    requires name { tokens.now.table_id ≡ J.ledger }
    requires of_table { IsTokenOf J.ledger authority.old }
    requires authority { (authority.old.me.0.has_totals ≡ true) × (authority.old.me.0.amounts ≡ []) }
    requires clean { All IsClean shares.items }
    ensures of_table { IsTokenOf J.ledger authority.new }
    ensures authority { (authority.new.me.0.has_totals ≡ true)
        × (authority.new.me.0.totals ≡ authority.old.me.0.totals) }
    ensures gathered { IsGathered authority.old.me.0.parts authority.new.me.0 shares.items [] }
{
    let mut shares = shares;
    while let Some(share) = shares.pop() {
        take_back(tokens, authority, share.into_token());
    }
}

/// Where the authority and the closed part have all parts, there are no shares.
pub(crate) fn none_left<J: Naming>(
    tokens: &SharedTable,
    authority: &mut Token,
    closed: &mut Token,
    shares: Vec<Share<J>>,
) -> Vec<Share<J>>
    requires name { tokens.now.table_id ≡ J.ledger }
    requires of_table { IsTokenOf J.ledger authority.old × IsTokenOf J.ledger closed.old }
    requires authority { (authority.old.me.0.has_totals ≡ true) × (authority.old.me.0.amounts ≡ []) }
    requires closed { closed.old.me.0.has_totals ≡ false }
    requires all { authority.old.me.0.parts + closed.old.me.0.parts ≡ all_parts }
    ensures of_table { IsTokenOf J.ledger authority.new × IsTokenOf J.ledger closed.new }
    ensures same { (authority.new.me.0 ≡ authority.old.me.0) × (closed.new.me.0 ≡ closed.old.me.0) }
    ensures none { shares.items ≡ [] }
    ensures handed_back { result.items ≡ shares.items }
{
    let mut shares = shares;
    match shares.pop() {
        None => shares,
        Some(share) => {
            absorb(tokens, authority, closed);
            take_back(tokens, authority, share.into_token());
            learn(tokens, authority);
            unreachable!()
        }
    }
}

// The authority takes in the closed part.
fn absorb(tokens: &SharedTable, authority: &mut Token, closed: &mut Token)
    requires of_table { IsTokenOf tokens.now.table_id authority.old × IsTokenOf tokens.now.table_id closed.old }
    requires authority { (authority.old.me.0.has_totals ≡ true) × (authority.old.me.0.amounts ≡ []) }
    requires closed { closed.old.me.0.has_totals ≡ false }
    ensures of_table { IsTokenOf tokens.now.table_id authority.new }
    ensures parts { authority.new.me.0.parts ≡ authority.old.me.0.parts + closed.old.me.0.parts }
{
    let none = issue::<Brand>(tokens, authority);
    let old = mem::replace(closed, none);
    merge(tokens, authority, old);
}
