//! Rows that the search for fewer moves keeps together.
//!
//! Edges are between a row and its parent. Only few are worth a try: the *borders*, where parent and child are at
//! different ranks now, the cuts of a division, and the edges next to these. The other rows are joined to pieces.
ghost use Rattle.std.specs.Prelude.{◌≡◌, ◌<◌, length};
ghost use Rattle.mds_types.specs.Problem.{IsForest};

use mds_types::{ProblemRow, Rank};
use std::alloc::{AllocError, Global};

/// The most pieces that are made.
const PIECE_LIMIT: usize = 1024;

/// The most pieces that are made without borders, where the cuts need no more.
const FIRST_PIECE_LIMIT: usize = 256;

/// Without borders, one in so many of the inodes that the cuts move has to stay for another division to be taken.
const FIRST_SHARE: u64 = 32;

/// Connected rows, all at one rank now.
#[derive(Clone, Copy)]
pub struct Piece {
    /// The piece of the parent of its top. The first piece names itself.
    pub parent: u16,
    /// The heat of its rows, in accesses.
    pub heat: u64,
    /// Their inodes.
    pub inodes: u64,
    /// The rank that has them now.
    pub now: Rank,
    /// Whether a part of the division begins with its top.
    pub is_cut: bool,
    /// Whether the parent of its top is at another rank now.
    pub is_border: bool,
    /// Whether one of both holds.
    pub is_edge: bool,
}

/// The pieces of a division's rows.
#[derive(Drop)]
pub struct Pieces {
    /// The pieces, parents before children.
    pub list: Vec<Piece>,
    /// `of[i]` is the piece of row i.
    pub of: Vec<u16>,
    /// Whether the rows are at different ranks now.
    pub has_border: bool,
}

/// The rows of a division. `part[i]` is the part of row i.
#[derive(Clone, Copy)]
struct Labelled<'a> {
    rows: &'a [ProblemRow],
    part: &'a [u32],
}

/// Whether row i is in another part than its parent.
fn is_cut(of: Labelled<'_>, i: usize) -> bool
    requires forest { IsForest of.rows.now }
    requires size { length of.part.now ≡ length of.rows.now }
    requires inside { i < length of.rows.now }
{
    i > 0 && of.part[i] != of.part[of.rows[i].parent as usize]
}

/// Whether row i is at another rank than its parent.
fn is_border(of: Labelled<'_>, i: usize) -> bool
    requires forest { IsForest of.rows.now }
    requires inside { i < length of.rows.now }
{
    i > 0 && of.rows[i].now != of.rows[of.rows[i].parent as usize].now
}

/// The borders and the cuts.
#[derive(Drop)]
struct Edges {
    /// `marks[i]` says whether an edge above or below row i is one.
    marks: Vec<bool>,
    /// How many there are.
    count: usize,
    /// Whether there is a border.
    has_border: bool,
}

/// The borders and the cuts.
fn edges_of(alloc: Global, of: Labelled<'_>) -> Result<Edges, AllocError>
    requires forest { IsForest of.rows.now }
    requires size { length of.part.now ≡ length of.rows.now }
{
    let mut edges = Edges {
        marks: vec![in alloc; false; of.rows.len()]?,
        count: 0,
        has_border: false,
    };
    for (i, row) in of.rows.iter().enumerate() {
        let border = is_border(of, i);
        if border || is_cut(of, i) {
            edges.count = edges.count.saturating_add(1);
            edges.has_border |= border;
            edges.mark(i);
            edges.mark(row.parent as usize);
        }
    }
    Ok(edges)
}

impl Edges {
    fn mark(&mut self, i: usize) {
        if let Some(mark) = self.marks.get_mut(i) {
            *mark = true;
        }
    }

    fn has(&self, i: usize) -> bool {
        self.marks.get(i).copied().unwrap_or(false)
    }

    /// How many pieces may be made beside those of the borders and the cuts.
    fn room(&self) -> usize {
        let limit = if self.has_border {
            PIECE_LIMIT
        } else {
            FIRST_PIECE_LIMIT
        };
        limit.saturating_sub(self.count)
    }
}

impl Pieces {
    /// How many inodes have to stay with a division that is taken in place of the cuts, with which `least` stay.
    pub fn enough(&self, least: u64) -> u64 {
        if self.has_border {
            return least.saturating_add(1);
        }
        let mut inodes: u64 = 0;
        for piece in &self.list {
            inodes = inodes.saturating_add(piece.inodes);
        }
        let gain = inodes.saturating_sub(least) / FIRST_SHARE;
        least.saturating_add(gain).saturating_add(1)
    }

    /// Puts a row into its parent's piece.
    fn join(&mut self, row: ProblemRow) -> Result<(), AllocError> {
        let at = self.of.get(row.parent as usize).copied().unwrap_or(0);
        self.of.push(at)?;
        if let Some(piece) = self.list.get_mut(usize::from(at)) {
            piece.heat = piece.heat.saturating_add(row.heat);
            piece.inodes = piece.inodes.saturating_add(u64::from(row.inodes));
        }
        Ok(())
    }

    /// Begins a piece with a row.
    fn begin(&mut self, row: ProblemRow, is_cut: bool, is_border: bool) -> Result<(), AllocError> {
        let parent = self.of.get(row.parent as usize).copied().unwrap_or(0);
        self.of.push(self.list.len().min(PIECE_LIMIT) as u16)?;
        self.list.push(Piece {
            parent,
            heat: row.heat,
            inodes: u64::from(row.inodes),
            now: row.now,
            is_cut,
            is_border,
            is_edge: is_cut || is_border,
        })?;
        Ok(())
    }
}

/// The pieces of a division's rows. There are none where there is no border and no cut, or where these make too many.
pub fn pieces_of(
    alloc: Global,
    rows: &[ProblemRow],
    part: &[u32],
) -> Result<Option<Pieces>, AllocError>
    requires forest { IsForest rows.now }
    requires size { length part.now ≡ length rows.now }
{
    let of = Labelled { rows, part };
    let edges = edges_of(alloc, of)?;
    if edges.count == 0 || edges.count >= PIECE_LIMIT {
        return Ok(None);
    }
    let mut room = edges.room();
    let mut pieces = Pieces {
        list: Vec::with_capacity(alloc, PIECE_LIMIT)?,
        of: Vec::with_capacity(alloc, rows.len())?,
        has_border: edges.has_border,
    };
    for (i, row) in rows.iter().enumerate() {
        let is_marked = edges.has(i);
        let cut = is_marked && is_cut(of, i);
        let border = is_marked && is_border(of, i);
        let is_near = is_marked || edges.has(row.parent as usize);
        if cut || border {
            pieces.begin(*row, cut, border)?;
        } else if i == 0 || (is_near && room > 1) {
            room = room.saturating_sub(1);
            pieces.begin(*row, false, false)?;
        } else {
            pieces.join(*row)?;
        }
    }
    Ok(Some(pieces))
}
