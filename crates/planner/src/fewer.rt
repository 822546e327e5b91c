//! A division that moves fewer inodes, found by changing one cut at a time.
//!
//! Nobody trusts it: what it finds is judged before it is taken. It begins with the cuts of the division that the
//! search found, or with the borders where more inodes stay so. A change adds a cut, drops one, or puts one in
//! another's place; the first that lets more inodes stay is made. Borders and cuts are tried first, then the edges next
//! to them. A change makes at most three parts anew, so what it lets stay is worked out of the rows of these alone.
//!
//! In a first plan all rows are at one rank now, so there is no border, and one part stays. What is found is then taken
//! only if it moves clearly fewer inodes: it fills the part that stays up to the bound, and later plans move more.
ghost use Rattle.std.specs.Prelude.{◌≡◌, length};
ghost use Rattle.mds_types.specs.Problem.{IsForest};

use crate::parts::{Claim, Divided, RankInodes, is_top, set_top};
use crate::pieces::{Piece, Pieces, pieces_of};
use mds_types::{ProblemRow, RankSet};
use std::alloc::{AllocError, Global};

/// The most work that is done: a change that is looked at is 1, and one that is tried as much as it reads.
const WORK_LIMIT: u64 = 1 << 22;

/// The most times that all changes are looked at.
const PASS_LIMIT: u32 = 256;

/// A division of rows.
#[derive(Drop)]
pub struct Division {
    /// `part[i]` is the part of row i.
    pub part: Vec<u32>,
    /// How many parts there are.
    pub count: u32,
}

/// What a division may be.
#[derive(Clone, Copy)]
pub struct Limits {
    /// No part may be hotter, in accesses.
    pub bound: u64,
    /// The ranks that may have a part.
    pub ranks: RankSet,
}

/// A search over pieces.
#[derive(Drop)]
struct Search<'a> {
    pieces: &'a [Piece],
    /// Whether they are at different ranks now.
    has_border: bool,
    limits: Limits,
    /// `tops[i]` says whether a part begins with piece i. Whatever it says of the first piece, one begins there.
    tops: Vec<bool>,
    /// The division with these tops.
    parts: Divided,
    /// How many inodes stay so.
    kept: u64,
    /// How much work was done.
    work: u64,
    /// Room for what ranks have of the part that a change cuts off, and of another.
    rows: (RankInodes, RankInodes),
}

/// A top that is dropped and one that is added. The first piece means none.
#[derive(Clone, Copy)]
struct Change {
    dropped: usize,
    added: usize,
    /// The part above the dropped top. Where none is dropped, that of the added one.
    up: usize,
    /// The part of the added top. Where none is added, that above the dropped one.
    from: usize,
    /// Whether the dropped top lies below the added one in the part of both.
    is_below: bool,
}

impl Change {
    /// Whether the top is added within the parts that are joined.
    fn is_within(self) -> bool {
        self.dropped > 0 && (self.from == self.dropped || self.from == self.up)
    }

    /// The parts that are no more, some of them more than once.
    fn gone(self) -> [usize; 3] {
        if self.dropped > 0 {
            [self.dropped, self.up, self.from]
        } else {
            [self.from; 3]
        }
    }
}

impl<'a> Search<'a> {
    /// The piece above a piece.
    fn above(&self, piece: usize) -> usize {
        self.pieces
            .get(piece)
            .map_or(0, |piece| usize::from(piece.parent))
    }

    /// Whether a piece lies above another one whose parent is in the part `up`, within that part.
    fn is_above(&self, piece: usize, other: usize, up: usize) -> bool {
        let mut at = other;
        for _ in 0..self.pieces.len() {
            at = self.above(at);
            if at == piece {
                return true;
            }
            if at == up {
                return false;
            }
        }
        false
    }

    /// The change that drops one top and adds another.
    fn change(&self, dropped: usize, added: usize) -> Change {
        let up = if dropped > 0 {
            self.parts.part(self.above(dropped))
        } else {
            self.parts.part(added)
        };
        let from = if added > 0 {
            self.parts.part(added)
        } else {
            up
        };
        Change {
            dropped,
            added,
            up,
            from,
            is_below: dropped > 0 && added > 0 && from == up && self.is_above(added, dropped, up),
        }
    }

    /// The heat of the part that a change cuts off.
    fn cut_heat(&self, change: Change) -> u64 {
        match (change.added, change.is_below) {
            (0, _) => 0,
            (added, true) => self.parts.joined_heat(added, change.dropped),
            (added, false) => self.parts.heat(added),
        }
    }

    /// Whether a change leaves as many parts as there may be, and none too hot.
    fn fits(&self, change: Change) -> bool {
        let cut = self.cut_heat(change);
        if change.dropped == 0 {
            return self.parts.count() < usize::from(self.limits.ranks.len());
        }
        let joined = self.parts.joined_heat(change.dropped, change.up);
        let left = if change.is_within() {
            joined.saturating_sub(cut)
        } else {
            joined
        };
        cut <= self.limits.bound && left <= self.limits.bound
    }

    /// The claim to the part that a change cuts off, which is left in the first row.
    fn cut_claim(&mut self, change: Change) -> Claim {
        self.rows.0.clear();
        if change.added > 0 {
            self.rows.0.add(&self.parts, change.added);
        }
        if change.is_below {
            self.rows.0.add(&self.parts, change.dropped);
        }
        self.rows.0.claim()
    }

    /// The claim to the part that a change joins.
    fn joined_claim(&mut self, change: Change) -> Claim {
        self.rows.1.clear();
        if change.dropped > 0 {
            self.rows.1.add(&self.parts, change.dropped);
            self.rows.1.add(&self.parts, change.up);
        }
        if change.is_within() {
            self.rows.1.take(&self.rows.0);
        }
        self.rows.1.claim()
    }

    /// The claim to what is left of the part that a change cuts, where it isn't one of those that it joins.
    fn left_claim(&mut self, change: Change) -> Claim {
        self.rows.1.clear();
        if change.added > 0 && !change.is_within() {
            self.rows.1.add(&self.parts, change.from);
            self.rows.1.take(&self.rows.0);
        }
        self.rows.1.claim()
    }

    /// How many inodes stay after a change.
    fn kept_after(&mut self, change: Change) -> u64 {
        let ranks = self.parts.width() as u64;
        self.work = self.work.saturating_add(ranks.saturating_mul(6));
        let claims = [
            self.cut_claim(change),
            self.joined_claim(change),
            self.left_claim(change),
        ];
        self.parts.kept(&change.gone(), &claims)
    }

    /// Whether more inodes stay after a change, which is then made.
    fn try_change(&mut self, alloc: Global, change: Change) -> Result<bool, AllocError> {
        self.work = self.work.saturating_add(1);
        if !self.fits(change) || self.kept_after(change) <= self.kept {
            return Ok(false);
        }
        set_top(&mut self.tops, change.dropped, false);
        set_top(&mut self.tops, change.added, true);
        self.settle(alloc)
    }

    /// Divides by the tops, and says whether that can be.
    fn settle(&mut self, alloc: Global) -> Result<bool, AllocError> {
        let Some(parts) = Divided::new(alloc, self.pieces, self.limits, &self.tops)? else {
            return Ok(false);
        };
        self.work = self.work.saturating_add(
            (self.pieces.len() as u64).saturating_mul(parts.width() as u64),
        );
        self.kept = parts.kept(&[], &[]);
        self.parts = parts;
        Ok(true)
    }

    /// Whether a top may be added. `near` opens the edges next to borders and cuts.
    fn is_open(&self, added: usize, near: bool) -> bool {
        let is_open = near || self.pieces.get(added).is_some_and(|piece| piece.is_edge);
        added == 0 || (is_open && !is_top(&self.tops, added))
    }

    /// Adds tops in place of one, or of none, so that more inodes stay, and says whether any does.
    fn replace(&mut self, alloc: Global, dropped: usize, near: bool) -> Result<bool, AllocError> {
        let mut found = false;
        for added in 0..self.pieces.len() {
            let is_some = added > 0 || dropped > 0;
            if is_some && self.work < WORK_LIMIT && self.is_open(added, near) {
                let change = self.change(dropped, added);
                found |= self.try_change(alloc, change)?;
            }
            if found && dropped > 0 {
                return Ok(true);
            }
        }
        Ok(found)
    }

    /// Whether changes that drop this top may let more inodes stay. Without borders one part stays, and adding a top
    /// makes none larger.
    fn is_promising(&mut self, dropped: usize) -> bool {
        let change = self.change(dropped, 0);
        self.has_border || self.kept_after(change) > self.kept
    }

    /// Makes changes, so that more inodes stay, and says whether any does.
    fn improve(&mut self, alloc: Global, near: bool) -> Result<bool, AllocError> {
        let mut found = false;
        for dropped in 0..self.pieces.len() {
            if is_top(&self.tops, dropped) && self.is_promising(dropped) {
                found |= self.replace(alloc, dropped, near)?;
            }
        }
        Ok(found)
    }

    /// Makes changes until none lets more inodes stay.
    fn run(&mut self, alloc: Global, near: bool) -> Result<(), AllocError> {
        for _ in 0..PASS_LIMIT {
            if !self.improve(alloc, near)? {
                return Ok(());
            }
        }
        Ok(())
    }
}

/// The tops of the cuts, or of the borders.
fn tops_of(alloc: Global, pieces: &[Piece], borders: bool) -> Result<Vec<bool>, AllocError> {
    let mut tops = Vec::with_capacity(alloc, pieces.len())?;
    for piece in pieces {
        tops.push(if borders {
            piece.is_border
        } else {
            piece.is_cut
        })?;
    }
    Ok(tops)
}

/// How many inodes stay with a division, or none where it can't be.
fn kept(parts: &Option<Divided>) -> u64 {
    match parts {
        Some(parts) => parts.kept(&[], &[]),
        None => 0,
    }
}

/// Room for what ranks have of two parts of a division.
fn rows_of(alloc: Global, parts: &Divided) -> Result<(RankInodes, RankInodes), AllocError> {
    let width = parts.width();
    Ok((
        RankInodes::new(alloc, width)?,
        RankInodes::new(alloc, width)?,
    ))
}

/// The parts with which enough more inodes stay than with the cuts, if any are found.
fn better_parts(alloc: Global, of: &Pieces, limits: Limits) -> Result<Option<Divided>, AllocError> {
    let pieces = of.list.as_slice();
    let cuts = tops_of(alloc, pieces, false)?;
    let borders = tops_of(alloc, pieces, true)?;
    let by_cuts = Divided::new(alloc, pieces, limits, &cuts)?;
    let by_borders = Divided::new(alloc, pieces, limits, &borders)?;
    let least = kept(&by_cuts);
    let (tops, first) = if kept(&by_borders) > least {
        (borders, by_borders)
    } else {
        (cuts, by_cuts)
    };
    let Some(parts) = first else {
        return Ok(None);
    };
    let mut search = Search {
        pieces,
        has_border: of.has_border,
        limits,
        tops,
        kept: parts.kept(&[], &[]),
        rows: rows_of(alloc, &parts)?,
        parts,
        work: 0,
    };
    search.run(alloc, false)?;
    search.run(alloc, true)?;
    if search.kept >= of.enough(least) {
        Ok(Some(search.parts))
    } else {
        Ok(None)
    }
}

/// A division within the limits that seems to move fewer inodes than the given one, if one is found. `part[i]` is the
/// part of row i in the given one.
pub fn fewer(
    alloc: Global,
    rows: &[ProblemRow],
    part: &[u32],
    limits: Limits,
) -> Result<Option<Division>, AllocError>
    requires forest { IsForest rows.now }
    requires size { length part.now ≡ length rows.now }
{
    let Some(pieces) = pieces_of(alloc, rows, part)? else {
        return Ok(None);
    };
    let Some(parts) = better_parts(alloc, &pieces, limits)? else {
        return Ok(None);
    };
    let numbers = parts.numbers(alloc)?;
    let mut part = Vec::with_capacity(alloc, rows.len())?;
    for piece in &pieces.of {
        part.push(
            numbers
                .get(usize::from(*piece))
                .copied()
                .unwrap_or(0)
                .min(64),
        )?;
    }
    Ok(Some(Division {
        part,
        count: parts.count().min(64) as u32,
    }))
}
