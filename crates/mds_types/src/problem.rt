//! The directories that are to be divided among the ranks.
//!
//! A problem is a rooted tree within the limits, given as rows with parents before children. That
//! is the invariant of its type, and what every theorem on divisions and placings rests on.
ghost use Rattle.std.specs.Prelude.{length, IfNone, IfSome};
ghost use Rattle.mds_types.specs.Problem.{IsFirstFault, IsSoundBefore};

use crate::limits::{DIR_LIMIT, HEAT_LIMIT};
use crate::rank::Rank;
use crate::rank_set::RankSet;
use crate::refusal::Refusal;
use std::alloc::{AllocError, Global};
use std::error::Error;
use std::fmt;
use std::marker::Model;

/// A directory that is to be placed.
#[derive(Clone, Copy, Debug, PartialEq, Eq)]
pub struct ProblemRow {
    /// The row of its parent, which is a smaller one; row 0 names itself.
    pub parent: u32,
    /// Its heat, in accesses.
    pub heat: u64,
    /// Its inodes.
    pub inodes: u32,
    /// The rank that has it now.
    pub now: Rank,
}

/// The directories that are to be divided, parents before children, and the ranks that may have them.
/// To a contract it is these rows and the bit map of the ranks.
#[derive(Debug, Drop)]
pub struct Problem {
    rows: Vec<ProblemRow>,
    ranks: RankSet,
}

impl Model for Problem {
    ghost use Rattle.mds_types.specs.Problem.{IsProblem, ProblemData};

    ghost Value = { ProblemData };

    ghost view = { λ problem. record { rows = problem.rows.items; ranks = problem.ranks } };

    ghost invariant = { λ problem. IsProblem (record { rows = problem.rows.items; ranks = problem.ranks }) };
}

/// What is wrong with the rows or the ranks of a problem.
#[derive(Clone, Copy, Debug, PartialEq, Eq)]
pub enum ProblemError {
    /// This row doesn't name a smaller row, or row 0 doesn't name itself.
    BadParent(u32),
    /// This row is hotter than `HEAT_LIMIT`.
    TooHot(u32),
    /// There are more rows than `DIR_LIMIT`.
    TooMany,
    /// The set of ranks is empty.
    NoRanks,
}

impl From<ProblemError> for Refusal {
    ghost use Rattle.std.specs.Prelude.{◌≡◌};
    ghost use Rattle.mds_types.specs.Problem.{refusal_of};

    ghost from_gives = { λ error refusal. refusal ≡ refusal_of error };

    fn from(error: ProblemError) -> Refusal {
        match error {
            ProblemError::BadParent(row) => Refusal::BadParent(row),
            ProblemError::TooHot(row) => Refusal::TooHot(row),
            ProblemError::TooMany => Refusal::TooMany,
            ProblemError::NoRanks => Refusal::NoRanks,
        }
    }
}

impl fmt::Display for ProblemError {
    ghost use Rattle.std.specs.Prelude.{Some};
    ghost use Rattle.mds_types.specs.Problem.{refusal_of};
    ghost use Rattle.mds_types.specs.Refusal.{words};

    ghost output = { λ error. Some (words (refusal_of error)) };

    fn fmt<W: fmt::Write>(&self, f: &mut fmt::Formatter<W>) -> fmt::Result {
        fmt::Display::fmt(&Refusal::from(*self), f)
    }
}

impl Error for ProblemError {}

/// The first thing that is wrong, if anything is.
fn first_fault(rows: &[ProblemRow], ranks: RankSet) -> Option<ProblemError>
    ensures fault { IfSome result (IsFirstFault rows.now ranks) }
    ensures sound { IfNone result (IsSoundBefore rows.now ranks (length rows.now)) }
{
    if rows.len() > DIR_LIMIT as usize {
        return Some(ProblemError::TooMany);
    }
    if ranks.is_empty() {
        return Some(ProblemError::NoRanks);
    }
    for (i, row) in rows.iter().enumerate() {
        let i = i as u32;
        if row.parent >= i.max(1) {
            return Some(ProblemError::BadParent(i));
        }
        if row.heat > HEAT_LIMIT {
            return Some(ProblemError::TooHot(i));
        }
    }
    None
}

impl Problem {
    ghost use Rattle.std.specs.Prelude.{◌≡◌, ◌<◌, IfErr, IfOk};
    ghost use Rattle.mds_types.specs.Problem.{IsFirstFault, IsForest};
    ghost use Rattle.mds_types.specs.RankSet.{rank_count};

    /// The problem with these rows and ranks. Where something is wrong, it returns the rows.
    /// It takes no memory.
    pub fn new(
        rows: Vec<ProblemRow>,
        ranks: RankSet,
    ) -> Result<Self, (ProblemError, Vec<ProblemRow>)>
        ensures ok { IfOk result (λ problem. problem ≡ record { rows = rows.items; ranks = ranks }) }
        ensures err { IfErr result (λ e. IsFirstFault rows.items ranks e.0) }
        ensures handed_back { IfErr result (λ e. e.1.items ≡ rows.items) }
    {
        match first_fault(&rows, ranks) {
            Some(fault) => Err((fault, rows)),
            None => Ok(Problem { rows, ranks }),
        }
    }

    /// The rows, parents before children.
    pub fn rows(&self) -> &[ProblemRow]
        ensures value { result.now ≡ self.now.rows }
        ensures forest { IsForest result.now }
    {
        self.rows.as_slice()
    }

    /// The ranks that may have a part.
    pub fn ranks(&self) -> RankSet
        ensures value { result ≡ self.now.ranks }
        ensures ranked { 0 < rank_count result }
    {
        self.ranks
    }

    /// An equal problem.
    pub fn copied(&self, alloc: Global) -> Result<Self, AllocError>
        ensures { IfOk result (λ copy. copy ≡ self.now) }
    {
        Ok(Problem {
            rows: self.rows.as_slice().to_vec(alloc)?,
            ranks: self.ranks,
        })
    }
}
