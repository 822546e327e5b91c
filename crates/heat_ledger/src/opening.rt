//! Memory for a book and its shares, and their first tokens.
ghost use Rattle.std.specs.Arc.{arc_value};
ghost use Rattle.std.specs.Prelude.{◌≡◌, [], ℕ, ◌+◌, ◌-◌, ◌≤◌, All, IfOk, vec_len, vec_capacity, replicate};
ghost use Rattle.heat_ledger.specs.Tally.{all_parts, authority_state, IsTokenOf};
ghost use Rattle.heat_ledger.specs.Opening.{IsUnopened, fresh_share};

use crate::counts::Counts;
use crate::share::Share;
use crate::tally::{Token, TokenTable, grant};
use proof_names::Naming;
use std::alloc::{AllocError, Global};
use std::marker::{Brand, PhantomData};
use std::sync::Arc;

/// A share without a token.
#[derive(Drop)]
pub(crate) struct UnopenedShare {
    tokens: Arc<TokenTable, Global>,
    counts: Counts,
}

/// All memory that a book and its shares will need.
#[derive(Drop)]
pub(crate) struct Room<J: Naming> {
    pub(crate) unopened_shares: Vec<UnopenedShare>,
    pub(crate) shares: Vec<Share<J>>,
    pub(crate) counted: Vec<u64>,
    pub(crate) begun: Vec<u64>,
}

fn new_unopened(
    alloc: Global,
    tokens: &Arc<TokenTable, Global>,
    entries: u32,
) -> Result<UnopenedShare, AllocError>
    ensures { IfOk result (IsUnopened (arc_value tokens.now).shared.table_id entries) }
{
    let counts = Counts::new(alloc, entries)?;
    let tokens = Arc::try_clone(tokens)?;
    Ok(UnopenedShare { tokens, counts })
}

fn new_unopened_shares(
    alloc: Global,
    tokens: &Arc<TokenTable, Global>,
    entries: u32,
    count: u8,
) -> Result<Vec<UnopenedShare>, AllocError>
    ensures count { IfOk result (λ v. vec_len v ≡ count) }
    ensures unopened { IfOk result (λ v. All (IsUnopened (arc_value tokens.now).shared.table_id entries) v.items) }
{
    let mut unopened_shares = Vec::with_capacity(alloc, count as usize)?;
    for made in 0..count {
        unopened_shares.push(new_unopened(alloc, tokens, entries)?)?;
    }
    Ok(unopened_shares)
}

/// Room for a book of this many shares, with counts of this many entries.
pub(crate) fn lay_out<J: Naming>(
    alloc: Global,
    tokens: &Arc<TokenTable, Global>,
    entries: u32,
    count: u8,
) -> Result<Room<J>, AllocError>
    ensures count { IfOk result (λ room. vec_len room.unopened_shares ≡ count) }
    ensures unopened { IfOk result (λ room. All (IsUnopened (arc_value tokens.now).shared.table_id entries)
        room.unopened_shares.items) }
    ensures shares { IfOk result (λ room. (room.shares.items ≡ []) × (count ≤ vec_capacity room.shares)) }
    ensures rows { IfOk result (λ room. (room.counted.items ≡ replicate entries 0)
        × (room.begun.items ≡ replicate entries 0)) }
{
    let unopened_shares = new_unopened_shares(alloc, tokens, entries, count)?;
    let shares = Vec::with_capacity(alloc, count as usize)?;
    let counted = vec![in alloc; 0u64; entries as usize]?;
    let begun = vec![in alloc; 0u64; entries as usize]?;
    Ok(Room {
        unopened_shares,
        shares,
        counted,
        begun,
    })
}

// A share with no counts, from the authority's parts.
fn open_share<J: Naming>(authority: &mut Token, unopened: UnopenedShare) -> Share<J>
    requires name { IsTokenOf J.ledger authority.old }
    requires authority { (authority.old.me.0 ≡ authority_state authority.old.me.0.parts [])
        × (1 ≤ authority.old.me.0.parts) }
    requires unopened { IsUnopened J.ledger (J.limit + J.limit) unopened }
    ensures name { IsTokenOf J.ledger authority.new }
    ensures authority { authority.new.me.0 ≡ authority_state (authority.old.me.0.parts - 1) [] }
    ensures share { result ≡ fresh_share J.limit }
{
    let UnopenedShare { tokens, counts } = unopened;
    let token = grant::<Brand, Counts>(&tokens.shared, authority, &counts);
    Share {
        tokens,
        token,
        weight: 1,
        counts,
        of: PhantomData,
    }
}

/// Opens each of these shares.
pub(crate) fn open_shares<J: Naming>(
    authority: &mut Token,
    unopened_shares: Vec<UnopenedShare>,
    shares: Vec<Share<J>>,
) -> Vec<Share<J>>
    requires name { IsTokenOf J.ledger authority.old }
    requires authority { authority.old.me.0 ≡ authority_state all_parts [] }
    requires unopened_shares { All (IsUnopened J.ledger (J.limit + J.limit)) unopened_shares.items }
    requires few { vec_len unopened_shares ≤ 64 }
    requires room { (shares.items ≡ []) × (vec_len unopened_shares ≤ vec_capacity shares) }
    ensures name { IsTokenOf J.ledger authority.new }
    ensures authority { authority.new.me.0 ≡ authority_state (all_parts - vec_len unopened_shares) [] }
    ensures shares { result.items ≡ replicate (vec_len unopened_shares) (fresh_share J.limit) }
{
    let mut unopened_shares = unopened_shares;
    let mut shares = shares;
    while let Some(unopened) = unopened_shares.pop() {
        shares.push_reserved(open_share::<J>(authority, unopened));
    }
    shares
}
