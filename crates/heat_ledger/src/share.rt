//! A share of the counting, which one thread has at a time.

use crate::counts::Counts;
use crate::dir_hits::{DirHits, entry_of};
use crate::hit_error::HitError;
use crate::tally::{Token, TokenTable, learn, merge};
use mds_types::{Dir, Kind};
use proof_names::Naming;
use std::alloc::{AllocError, Global};
use std::marker::{Model, PhantomData};
use std::sync::Arc;

/// How many hits of one kind on one directory a share counts.
pub const HIT_LIMIT: u64 = 1 << 56;

/// Counts of one thread: hits by directory and kind, those of them that the book doesn't know yet,
/// and begun requests by directory. A share that was opened has the weight 1, and shares that were joined have the
/// sum of their weights.
///
/// `J` names the board whose book it is. All memory was asked for when the book was opened: 72 bytes
/// a directory. Of them a share writes 8 for each directory up to the last one that it counted, and
/// at most 32 for each kind of hits on each, so one that counts nothing takes up only address space.
#[derive(Drop)]
pub struct Share<J: Naming> {
    pub(crate) tokens: Arc<TokenTable, Global>,
    pub(crate) token: Token,
    pub(crate) weight: u8,
    pub(crate) counts: Counts,
    pub(crate) of: PhantomData<J>,
}

impl<J: Naming> Model for Share<J> {
    ghost use Rattle.std.specs.Prelude.{◌≡◌, ◌+◌};
    ghost use Rattle.std.specs.Arc.{arc_value};
    ghost use Rattle.heat_ledger.specs.Rows.{evens};
    ghost use Rattle.heat_ledger.specs.Ledger.{ShareData, IsShare};
    ghost use Rattle.heat_ledger.specs.Tally.{IsTokenOf};

    ghost Value = { ShareData };

    ghost view = { λ share. record {
      weight = share.weight;
      hits = share.counts.hits;
      pending = share.counts.pending;
      begun = evens share.counts.begun;
    } };

    ghost invariant = { λ share. IsTokenOf (arc_value share.tokens).shared.table_id share.token
        × ((arc_value share.tokens).shared.table_id ≡ J.ledger)
        × IsShare (J.limit + J.limit) share.token.me.0 share.weight share.counts };
}

impl<J: Naming> Share<J> {
    ghost use Rattle.std.specs.Prelude.{◌≡◌, ℕ, List, ◌+◌, ◌-◌, ◌^◌, ◌<◌, ◌≤◌, ◌↔◌, IsTrue};
    ghost use Rattle.std.specs.Prelude.{IsErrOf, IfOk, OnOk, OnErr, length, min, fold};
    ghost use Rattle.heat_ledger.specs.Rows.{at, entry, sums, raised, raised_by, counted_rows, with_row};
    ghost use Rattle.heat_ledger.specs.Ledger.{IsClean, IsShareToken};
    ghost use Rattle.heat_ledger.specs.Tally.{IsTokenOf};

    /// The hits of a kind on a directory that this share has counted, deposited or not.
    pub fn hits(&self, dir: Dir, kind: Kind) -> u64
        ensures { result ≡ at self.now.hits (entry dir kind) }
    {
        self.counts.of(entry_of(dir, kind)).hits
    }

    /// The hits of a kind on a directory that aren't deposited.
    pub fn pending(&self, dir: Dir, kind: Kind) -> u64
        ensures { result ≡ at self.now.pending (entry dir kind) }
    {
        self.counts.of(entry_of(dir, kind)).pending
    }

    /// The directories with hits that aren't deposited, rising, each with their reads and writes. To
    /// add the rows to counts one by one gives what a deposit makes of the counts. It takes time for
    /// only these directories, and asks for memory first.
    pub fn pending_rows(&self, alloc: Global) -> Result<Vec<DirHits>, AllocError>
        ensures rows { IfOk result (λ rows. rows.items ≡ counted_rows self.now.pending) }
        ensures sums { (counted : List ℕ) → length counted ≡ J.limit + J.limit
            → fold with_row counted (counted_rows self.now.pending) ≡ sums counted self.now.pending }
    {
        self.counts.pending_rows(alloc)
    }

    /// The requests on a directory that were begun with this share.
    pub fn begun(&self, dir: Dir) -> u64
        ensures { result ≡ at self.now.begun dir }
    {
        self.counts.of(entry_of(dir, Kind::Read)).begun
    }

    /// How many opened shares this one represents.
    pub fn weight(&self) -> u8
        ensures weight { result ≡ self.now.weight }
        ensures some { 1 ≤ result }
    {
        self.weight
    }

    /// The number that directories are below.
    pub fn limit(&self) -> usize
        ensures limit { result ≡ J.limit }
        ensures rows { (length self.now.hits ≡ J.limit + J.limit) × (length self.now.pending ≡ J.limit + J.limit)
            × (length self.now.begun ≡ J.limit) }
    {
        self.counts.len() / 2
    }

    /// Whether all hits are deposited.
    pub fn is_clean(&self) -> bool
        ensures { IsTrue result ↔ IsClean self.now }
    {
        self.counts.is_settled()
    }

    /// Counts a hit.
    pub fn hit(&mut self, dir: Dir, kind: Kind) -> Result<(), HitError>
        ensures ok { OnOk result (self.new ≡ record self.old {
          hits = raised self.old.hits (entry dir kind);
          pending = raised self.old.pending (entry dir kind);
        }) }
        ensures no_dir { IsErrOf result HitError.NoDir ↔ (J.limit ≤ dir) }
        ensures full { IsErrOf result HitError.ShareFull
            ↔ ((dir < J.limit) × (2 ^ 56 ≤ at self.old.hits (entry dir kind))) }
        ensures err { OnErr result (self.new ≡ self.old) }
    {
        let entry = entry_of(dir, kind);
        if entry >= self.counts.len() {
            return Err(HitError::NoDir);
        }
        if self.counts.of(entry).hits >= HIT_LIMIT {
            return Err(HitError::ShareFull);
        }
        self.counts.add_hits(entry, 1);
        Ok(())
    }

    /// Counts `hits` hits of a directory as `hit` would, which refuses those that find no room
    /// below 2^56, and says how many were counted. However many they are, it is one addition.
    pub fn count(&mut self, dir: Dir, kind: Kind, hits: u32) -> u32
        requires inside { dir < J.limit }
        ensures counted { result ≡ min hits (2 ^ 56 - at self.old.hits (entry dir kind)) }
        ensures share { self.new ≡ record self.old {
          hits = raised_by self.old.hits (entry dir kind) result;
          pending = raised_by self.old.pending (entry dir kind) result;
        } }
    {
        let entry = entry_of(dir, kind);
        let room = HIT_LIMIT.saturating_sub(self.counts.of(entry).hits);
        let counted = u64::from(hits).min(room);
        self.counts.add_hits(entry, counted);
        counted as u32
    }

    /// Takes in another share of the same book.
    pub fn join(&mut self, other: Share<J>)
        ensures { self.new ≡ record {
          weight = self.old.weight + other.weight;
          hits = sums self.old.hits other.hits;
          pending = sums self.old.pending other.pending;
          begun = sums self.old.begun other.begun;
        } }
    {
        let Share {
            tokens: _tokens,
            token,
            weight,
            counts,
            of: _of,
        } = other;
        merge(&self.tokens.shared, &mut self.token, token);
        learn(&self.tokens.shared, &mut self.token);
        self.weight += weight;
        self.counts.join(counts);
    }

    /// The share's token, with all that is known of it.
    pub(crate) fn into_token(self) -> Token
        ensures of_table { IsTokenOf J.ledger result }
        ensures share { IsShareToken result.me.0 self }
    {
        let Share {
            tokens: _tokens,
            token,
            weight: _weight,
            counts: _counts,
            of: _of,
        } = self;
        token
    }
}
