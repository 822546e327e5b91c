//! Divisions of pieces, and how many inodes they let stay.

use crate::fewer::Limits;
use crate::pieces::Piece;
use mds_types::Rank;
use std::alloc::{AllocError, Global};

/// The rank that has the most inodes of a part. A claim to nothing is rank 0's.
#[derive(Clone, Copy, Default)]
pub struct Claim {
    rank: Rank,
    inodes: u64,
}

/// A division of pieces. A part is named by its top, the piece that it begins with.
#[derive(Drop)]
pub struct Divided {
    /// `top[i]` is the part of piece i.
    top: Vec<usize>,
    /// `heat[i]` is what piece i and those below it have within its part, in accesses.
    heat: Vec<u64>,
    /// `inodes[i * width + r]` is what of these rank r has, if it is one that may have a part.
    inodes: Vec<u64>,
    /// How many ranks have a place in a row of `inodes`.
    width: usize,
    /// The parts, and the claim to each.
    claims: Vec<(usize, Claim)>,
}

/// Whether a part begins with the piece.
pub fn is_top(tops: &[bool], piece: usize) -> bool {
    piece == 0 || tops.get(piece).copied().unwrap_or(false)
}

/// Says whether a part begins with the piece, if it isn't the first one.
pub fn set_top(tops: &mut [bool], piece: usize, is: bool) {
    if piece == 0 {
        return;
    }
    if let Some(top) = tops.get_mut(piece) {
        *top = is;
    }
}

/// The value at a place, or 0.
fn at(values: &[u64], place: usize) -> u64 {
    values.get(place).copied().unwrap_or(0)
}

/// Adds to the value at a place.
fn raise(values: &mut [u64], place: usize, by: u64) {
    if let Some(value) = values.get_mut(place) {
        *value = value.saturating_add(by);
    }
}

/// How many ranks up to the highest that has a piece.
fn width_of(pieces: &[Piece]) -> usize {
    let mut width = 1;
    for piece in pieces {
        width = usize::from(piece.now.number()).saturating_add(1).max(width);
    }
    width
}

impl Divided {
    /// The division that begins a part with the first piece and with each top. There is none where there are too many
    /// parts or one is too hot.
    pub fn new(
        alloc: Global,
        pieces: &[Piece],
        limits: Limits,
        tops: &[bool],
    ) -> Result<Option<Divided>, AllocError> {
        let width = width_of(pieces);
        let mut parts = Divided {
            top: Vec::with_capacity(alloc, pieces.len())?,
            heat: Vec::with_capacity(alloc, pieces.len())?,
            inodes: vec![in alloc; 0u64; pieces.len().saturating_mul(width)]?,
            width,
            claims: Vec::with_capacity(alloc, usize::from(limits.ranks.len()))?,
        };
        for (i, piece) in pieces.iter().enumerate() {
            parts.add(i, *piece, limits, is_top(tops, i))?;
        }
        parts.sum_up(pieces);
        if !parts.is_within(limits) {
            return Ok(None);
        }
        parts.list_all(alloc)?;
        Ok(Some(parts))
    }

    /// Puts the next piece into a part.
    fn add(
        &mut self,
        i: usize,
        piece: Piece,
        limits: Limits,
        is_top: bool,
    ) -> Result<(), AllocError> {
        let top = if is_top {
            i
        } else {
            self.part(usize::from(piece.parent))
        };
        self.top.push(top)?;
        self.heat.push(piece.heat)?;
        if limits.ranks.has(piece.now) {
            let place = self.row(i).saturating_add(usize::from(piece.now.number()));
            raise(&mut self.inodes, place, piece.inodes);
        }
        Ok(())
    }

    /// Adds what is below each piece within its part.
    fn sum_up(&mut self, pieces: &[Piece]) {
        for i in (1..pieces.len()).rev() {
            if self.part(i) != i {
                let above = pieces.get(i).map_or(0, |piece| usize::from(piece.parent));
                let heat = self.heat(i);
                raise(&mut self.heat, above, heat);
                self.raise_row(above, i);
            }
        }
    }

    /// Adds the row of one piece to that of another.
    fn raise_row(&mut self, above: usize, i: usize) {
        let (to, from) = (self.row(above), self.row(i));
        for rank in 0..self.width {
            let inodes = at(&self.inodes, from.saturating_add(rank));
            raise(&mut self.inodes, to.saturating_add(rank), inodes);
        }
    }

    /// Whether no part is too hot, and they are not too many.
    fn is_within(&self, limits: Limits) -> bool {
        let mut count = 0usize;
        let mut hottest = 0;
        for (i, top) in self.top.iter().enumerate() {
            count = count.saturating_add(usize::from(*top == i));
            hottest = self.heat(i).max(hottest);
        }
        count <= usize::from(limits.ranks.len()) && hottest <= limits.bound
    }

    /// Lists the part that begins with a piece, if one does, with the claim to it.
    fn list(&mut self, i: usize, row: &mut RankInodes) -> Result<(), AllocError> {
        if self.part(i) == i {
            row.clear();
            row.add(self, i);
            self.claims.push((i, row.claim()))?;
        }
        Ok(())
    }

    /// Lists the parts with their claims.
    fn list_all(&mut self, alloc: Global) -> Result<(), AllocError> {
        let mut row = RankInodes::new(alloc, self.width)?;
        for i in 0..self.top.len() {
            self.list(i, &mut row)?;
        }
        Ok(())
    }

    /// Where the row of a piece begins.
    fn row(&self, piece: usize) -> usize {
        piece.saturating_mul(self.width)
    }

    /// How many parts there are.
    pub fn count(&self) -> usize {
        self.claims.len()
    }

    /// How many ranks have a place in a row.
    pub fn width(&self) -> usize {
        self.width
    }

    /// The part of a piece.
    pub fn part(&self, piece: usize) -> usize {
        self.top.get(piece).copied().unwrap_or(0)
    }

    /// The heat of a piece and of those below it within its part.
    pub fn heat(&self, piece: usize) -> u64 {
        at(&self.heat, piece)
    }

    /// The heat of two pieces, each with those below it, together.
    pub fn joined_heat(&self, one: usize, other: usize) -> u64 {
        self.heat(one).saturating_add(self.heat(other))
    }

    /// How many inodes stay: the rank with most of a part claims it, and each rank keeps its largest claim. The parts
    /// `gone` are left out, and `more` claims are made.
    pub fn kept(&self, gone: &[usize], more: &[Claim]) -> u64 {
        let mut most = [0u64; 64];
        for (part, claim) in &self.claims {
            if !gone.contains(part) {
                keep_larger(&mut most, *claim);
            }
        }
        for claim in more {
            keep_larger(&mut most, *claim);
        }
        let mut sum: u64 = 0;
        for inodes in most {
            sum = sum.saturating_add(inodes);
        }
        sum
    }

    /// The number of each piece's part, in the order of the parts.
    pub fn numbers(&self, alloc: Global) -> Result<Vec<u32>, AllocError> {
        let mut numbers = Vec::with_capacity(alloc, self.top.len())?;
        let mut next = 0u32;
        for i in 0..self.top.len() {
            if self.part(i) == i {
                numbers.push(next)?;
                next = next.saturating_add(1);
            } else {
                numbers.push(numbers.get(self.part(i)).copied().unwrap_or(0))?;
            }
        }
        Ok(numbers)
    }
}

/// Keeps a claim, if it is its rank's largest.
fn keep_larger(most: &mut [u64; 64], claim: Claim) {
    if let Some(inodes) = most.get_mut(usize::from(claim.rank.number())) {
        *inodes = claim.inodes.max(*inodes);
    }
}

/// What each rank has of some pieces.
#[derive(Drop)]
pub struct RankInodes {
    inodes: Vec<u64>,
}

impl RankInodes {
    /// Nothing, with room for what each rank has of pieces of a division.
    pub fn new(alloc: Global, width: usize) -> Result<RankInodes, AllocError> {
        Ok(RankInodes {
            inodes: vec![in alloc; 0u64; width]?,
        })
    }

    /// Makes it nothing.
    pub fn clear(&mut self) {
        self.inodes.as_mut_slice().fill(0);
    }

    /// Adds a piece and those below it within its part.
    pub fn add(&mut self, parts: &Divided, piece: usize) {
        let from = parts.row(piece);
        for (rank, sum) in self.inodes.iter_mut().enumerate() {
            *sum = sum.saturating_add(at(&parts.inodes, from.saturating_add(rank)));
        }
    }

    /// Takes away what another row has.
    pub fn take(&mut self, other: &RankInodes) {
        for (rank, sum) in self.inodes.iter_mut().enumerate() {
            *sum = sum.saturating_sub(at(&other.inodes, rank));
        }
    }

    /// The claim of the rank that has most.
    pub fn claim(&self) -> Claim {
        let mut claim = Claim::default();
        for (rank, inodes) in self.inodes.iter().enumerate() {
            if *inodes > claim.inodes {
                claim = Claim {
                    rank: Rank::new(rank.min(63) as u8).unwrap_or_default(),
                    inodes: *inodes,
                };
            }
        }
        claim
    }
}
