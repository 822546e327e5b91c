//! The book, in which the deposits of all shares add up.

use crate::auditing::audit_all;
use crate::closing::{gather, missing, none_left};
use crate::counts::Counts;
use crate::dir_hits::entry_of;
use crate::missing::Missing;
use crate::new_book::NewBook;
use crate::opening::{Room, lay_out, open_shares};
use crate::share::Share;
use crate::tally::{Token, TokenTable, grant, issue, learn, reissue};
use mds_types::limits::DIR_LIMIT;
use mds_types::{Dir, Kind};
use proof_names::Naming;
use std::alloc::{AllocFailed, Global};
use std::marker::{Brand, Model, PhantomData};
use std::sync::Arc;

/// What the shares of one board have counted together: deposited hits by directory and kind, and
/// begun requests by directory.
///
/// For a caller that has the book and all its shares, the counted and the pending hits of the shares
/// are the hits of the shares, and the begun requests are those of the shares: `audit` says so
/// while the book is open, and `close` when it ends. All memory is taken by `open`.
#[derive(Drop)]
pub struct Book<J: Naming> {
    tokens: Arc<TokenTable, Global>,
    token: Token,
    closed: Token,
    is_open: bool,
    shares: u8,
    counted: Vec<u64>,
    begun: Vec<u64>,
    of: PhantomData<J>,
}

impl<J: Naming> Model for Book<J> {
    ghost use Rattle.std.specs.Prelude.{◌≡◌, ◌+◌};
    ghost use Rattle.std.specs.Arc.{arc_value};
    ghost use Rattle.heat_ledger.specs.Rows.{evens};
    ghost use Rattle.heat_ledger.specs.Ledger.{BookData, IsBook, IsClosedPart};
    ghost use Rattle.heat_ledger.specs.Tally.{IsTokenOf};

    ghost Value = { BookData };

    ghost view = { λ book. record {
      is_open = book.is_open;
      shares = book.shares;
      counted = book.counted.items;
      begun = evens book.begun.items;
    } };

    ghost invariant = { λ book. IsTokenOf (arc_value book.tokens).shared.table_id book.token
        × ((arc_value book.tokens).shared.table_id ≡ J.ledger)
        × IsBook (J.limit + J.limit) book.token.me.0 book.shares book.counted.items book.begun.items
        × IsTokenOf (arc_value book.tokens).shared.table_id book.closed
        × IsClosedPart book.closed.me.0 book.is_open book.shares };
}

impl<J: Naming> Book<J> {
    ghost use Rattle.std.specs.Prelude.{◌≡◌, ℕ, ◌+◌, ◌^◌, ◌<◌, ◌≤◌, true, false, All, IsErr};
    ghost use Rattle.std.specs.Prelude.{IfOk, IfErr, OnOk, OnErr, length, replicate};
    ghost use Rattle.heat_ledger.specs.Rows.{at, entry, sums, raised};
    ghost use Rattle.heat_ledger.specs.Ledger.{IsClean, weight_of, hits_of, pending_of, begun_of};

    /// A book for the directories below the limit, with this many shares. Where memory is refused,
    /// it returns what was opened.
    pub fn open(
        alloc: Global,
        opened: NewBook,
        limit: u32,
        shares: u8,
    ) -> Result<(Book<J>, Vec<Share<J>>), AllocFailed<NewBook>>
        requires name { opened ≡ J.ledger }
        requires limit { (limit ≡ J.limit) × (1 ≤ limit) × (limit ≤ DIR_LIMIT) }
        requires shares { (1 ≤ shares) × (shares ≤ 64) }
        ensures book { IfOk result (λ r. r.0 ≡ record {
          is_open = true;
          shares = shares;
          counted = replicate (limit + limit) 0;
          begun = replicate limit 0;
        }) }
        ensures shares { IfOk result (λ r. r.1.items
            ≡ replicate shares (record {
              weight = 1;
              hits = replicate (limit + limit) 0;
              pending = replicate (limit + limit) 0;
              begun = replicate limit 0;
            })) }
        ensures err { IfErr result (λ e. e.value ≡ opened) }
    {
        let Ok(room) = lay_out::<J>(alloc, &opened.tokens, 2 * limit, shares) else {
            return Err(AllocFailed { value: opened });
        };
        let Room {
            unopened_shares,
            shares: none,
            counted,
            begun,
        } = room;
        let NewBook { tokens, mut token } = opened;
        let all = open_shares::<J>(&mut token, unopened_shares, none);
        let closed = issue::<Brand>(&tokens.shared, &mut token);
        let book = Book {
            tokens,
            token,
            closed,
            is_open: true,
            shares,
            counted,
            begun,
            of: PhantomData,
        };
        Ok((book, all))
    }

    /// The hits of a kind on a directory that were deposited.
    pub fn counted(&self, dir: Dir, kind: Kind) -> u64
        ensures { result ≡ at self.now.counted (entry dir kind) }
    {
        let entry = entry_of(dir, kind);
        self.counted.get(entry).copied().unwrap_or(0)
    }

    /// The requests on a directory that were begun.
    pub fn begun(&self, dir: Dir) -> u64
        ensures { result ≡ at self.now.begun dir }
    {
        let entry = entry_of(dir, Kind::Read);
        self.begun.get(entry).copied().unwrap_or(0)
    }

    /// The number that directories are below.
    pub fn limit(&self) -> usize
        ensures limit { result ≡ J.limit }
        ensures rows { (length self.now.counted ≡ J.limit + J.limit) × (length self.now.begun ≡ J.limit) }
    {
        self.counted.len() / 2
    }

    /// Counts what the share has pending. It takes time for the directories that the share has
    /// counted since its last deposit.
    pub fn deposit(&mut self, share: &mut Share<J>)
        ensures book { self.new ≡ record self.old { counted = sums self.old.counted share.old.pending } }
        ensures share { share.new ≡ record share.old { pending = replicate (J.limit + J.limit) 0 } }
    {
        reissue::<Brand, Counts>(
            &self.tokens.shared,
            &mut self.token,
            &mut share.token,
            &share.counts,
        );
        share.counts.settle(&mut self.counted);
    }

    /// Counts a request that begins.
    pub fn begin(&mut self, share: &mut Share<J>, dir: Dir)
        requires inside { dir < J.limit }
        requires room { at self.old.begun dir < 2 ^ 56 }
        ensures book { self.new ≡ record self.old { begun = raised self.old.begun dir } }
        ensures share { share.new ≡ record share.old { begun = raised share.old.begun dir } }
    {
        reissue::<Brand, Dir>(&self.tokens.shared, &mut self.token, &mut share.token, &dir);
        let entry = entry_of(dir, Kind::Read);
        self.begun[entry] += 1;
        share.counts.add_begun(entry);
    }

    /// The totals of a book and all its shares, at any time until the book is closed. Nothing
    /// changes.
    pub fn audit(&mut self, shares: &mut Vec<Share<J>>)
        requires { weight_of shares.old.items ≡ self.old.shares }
        ensures hits { (e : ℕ) → at self.new.counted e + pending_of shares.new.items e ≡ hits_of shares.new.items e }
        ensures begun { (dir : ℕ) → at self.new.begun dir ≡ begun_of shares.new.items dir }
        ensures same { (self.new ≡ self.old) × (shares.new.items ≡ shares.old.items) }
    {
        audit_all::<J>(&self.tokens.shared, &mut self.token, shares);
        let _none = issue::<Brand>(&self.tokens.shared, &mut self.token);
    }

    /// Closes the book over all its shares, which are used up. Where some are missing, it says how
    /// much weight they have, and returns the shares.
    pub fn close(&mut self, shares: Vec<Share<J>>) -> Result<(), (Missing, Vec<Share<J>>)>
        requires { All IsClean shares.items }
        ensures ok { OnOk result ((self.old.is_open ≡ true) × (self.new ≡ record self.old { is_open = false })) }
        ensures all { OnOk result (weight_of shares.items ≡ self.old.shares) }
        ensures hits { OnOk result ((e : ℕ) → at self.new.counted e ≡ hits_of shares.items e) }
        ensures begun { OnOk result ((dir : ℕ) → at self.new.begun dir ≡ begun_of shares.items dir) }
        ensures missing { IfErr result (λ e. (1 ≤ e.0.0) × (e.0.0 + weight_of shares.items ≡ self.old.shares)) }
        ensures handed_back { IfErr result (λ e. e.1.items ≡ shares.items) }
        ensures closed { self.old.is_open ≡ false → IsErr result }
        ensures err { OnErr result (self.new ≡ self.old) }
    {
        if !self.is_open {
            let back = none_left::<J>(
                &self.tokens.shared,
                &mut self.token,
                &mut self.closed,
                shares,
            );
            return Err((Missing(self.shares), back));
        }
        let left = missing::<J>(self.shares, shares.as_slice());
        if left > 0 {
            return Err((Missing(left), shares));
        }
        gather::<J>(&self.tokens.shared, &mut self.token, shares);
        learn(&self.tokens.shared, &mut self.token);
        self.closed = grant::<Brand, u8>(&self.tokens.shared, &mut self.token, &self.shares);
        self.is_open = false;
        Ok(())
    }
}
