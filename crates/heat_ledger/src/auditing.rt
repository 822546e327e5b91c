//! What the book knows of all its shares while they go on.
ghost use Rattle.std.specs.Prelude.{◌≡◌, [], ℕ, ◌*◌, ◌≤◌, true, vec_capacity};
ghost use Rattle.heat_ledger.specs.Rows.{at, differences};
ghost use Rattle.heat_ledger.specs.Tally.{most, share_state, after_issue, CanIssue, IsTokenOf};
ghost use Rattle.heat_ledger.specs.Ledger.{laid_out};
ghost use Rattle.heat_ledger.specs.Gathering.{IsAudited};

use crate::counts::Counts;
use crate::share::Share;
use crate::tally::{SharedTable, Token, grant, learn, take_back};
use proof_names::Naming;
use std::marker::Brand;

// Gives a share of these counts its token again.
fn give_back(tokens: &SharedTable, authority: &mut Token, weight: u8, counts: &Counts) -> Token
    requires of_table { IsTokenOf tokens.now.table_id authority.old }
    requires issues { CanIssue weight (laid_out counts.now)
        (differences authority.old.me.0.amounts (laid_out counts.now)) [] authority.old.me.0 }
    ensures of_table { IsTokenOf tokens.now.table_id authority.new × IsTokenOf tokens.now.table_id result }
    ensures authority { authority.new.me.0 ≡ after_issue weight
        (differences authority.old.me.0.amounts (laid_out counts.now)) [] authority.old.me.0 }
    ensures token { result.me.0 ≡ share_state weight (laid_out counts.now) }
{
    grant::<Brand, (u8, &Counts)>(tokens, authority, &(weight, counts))
}

/// Takes the shares' tokens to the authority's, learns what they have together, and gives each back.
pub(crate) fn audit_all<J: Naming>(
    tokens: &SharedTable,
    authority: &mut Token,
    shares: &mut Vec<Share<J>>,
)
    requires name { tokens.now.table_id ≡ J.ledger }
    requires of_table { IsTokenOf J.ledger authority.old }
    requires authority { authority.old.me.0.has_totals ≡ true }
    requires backed { (k : ℕ) → at authority.old.me.0.amounts k ≤ authority.old.me.0.parts * most }
    ensures of_table { IsTokenOf J.ledger authority.new }
    ensures audited { IsAudited authority.old.me.0 authority.new.me.0 shares.old.items }
    ensures shares { (shares.new.items ≡ shares.old.items) × (vec_capacity shares.new ≡ vec_capacity shares.old) }
{
    let Some(share) = shares.pop() else {
        learn(tokens, authority);
        return;
    };
    let Share {
        tokens: own,
        token,
        weight,
        counts,
        of,
    } = share;
    take_back(tokens, authority, token);
    audit_all::<J>(tokens, authority, shares);
    let token = give_back(tokens, authority, weight, &counts);
    shares.push_reserved(Share {
        tokens: own,
        token,
        weight,
        counts,
        of,
    });
}
