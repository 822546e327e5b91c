//! The present placement as parts: the rows that a rank has now are one part.
ghost use Rattle.std.specs.Prelude.{◌≡◌, ◌<◌, ◌≤◌, ◌+◌, ◌++◌, ◌∷◌, [], ℕ, length, slice_index};
ghost use Rattle.std.specs.Prelude.{◌↔◌, All, IfOk, IsTrue, OnOk, true};
ghost use Rattle.mds_types.specs.RankSet.{has_rank};
ghost use Rattle.planner.specs.Present.{AreRanksNow, IsNumber, IsPartOf};

use mds_types::{ProblemRow, Rank, RankSet};
use std::alloc::{AllocError, Global};

/// In place of a part's number, for a rank that has no row.
const NONE: u32 = u32::MAX;

/// A part for each rank that has rows.
#[derive(Drop)]
pub struct Present {
    /// `part[i]` is the part of row i. Parts are numbered by their first rows.
    pub part: Vec<u32>,
    /// `rank[p]` is the rank that has the rows of part p.
    pub rank: Vec<Rank>,
}

/// The part of a rank, which is a new one where the rank had no row. `numbers[r]` is the part of rank r.
fn part_of(numbers: &mut Vec<u32>, rank: &mut Vec<Rank>, now: Rank) -> Result<u32, AllocError>
    requires size { length numbers.old.items ≡ 64 }
    requires few { length rank.old.items < 65536 }
    requires numbered { (r : ℕ) → r < 64 → IsNumber rank.old.items r (slice_index numbers.old.items r) }
    ensures size { length numbers.new.items ≡ 64 }
    ensures numbered { OnOk result ((r : ℕ) → r < 64 → IsNumber rank.new.items r (slice_index numbers.new.items r)) }
    ensures part { IfOk result (λ part. IsPartOf rank.old.items rank.new.items now part) }
{
    let number = numbers[usize::from(now.number())];
    if number != NONE {
        return Ok(number);
    }
    let new = rank.len() as u32;
    rank.push(now)?;
    numbers[usize::from(now.number())] = new;
    Ok(new)
}

/// The parts of the ranks that have the rows now.
pub fn ranks_now(alloc: Global, rows: &[ProblemRow]) -> Result<Present, AllocError>
    requires few { length rows.now ≤ 65536 }
    ensures now { IfOk result (λ found. AreRanksNow rows.now (length rows.now) found.part.items found.rank.items) }
    ensures few { IfOk result (λ found. length found.rank.items ≤ length rows.now) }
{
    let mut numbers = vec![in alloc; NONE; 64]?;
    let mut found = Present {
        part: Vec::with_capacity(alloc, rows.len())?,
        rank: Vec::new(alloc),
    };
    for row in rows {
        let part = part_of(&mut numbers, &mut found.rank, row.now)?;
        found.part.push(part)?;
    }
    Ok(found)
}

/// Whether all ranks are in the set.
pub fn are_usable(ranks: RankSet, rank: &[Rank]) -> bool
    ensures { IsTrue result ↔ All (λ r. has_rank ranks r ≡ true) rank.now }
{
    rank.iter().all(|r| ranks.has(*r))
}
