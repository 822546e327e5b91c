//! Trial of every placing: each part goes to each rank.
ghost use Rattle.std.specs.Prelude.{◌≡◌, ◌≤◌, ◌<◌, length};

use mds_types::{ProblemRow, Rank, RankSet};

/// The rank that a digit in base 64 means.
fn rank_at(code: u64, part: u32) -> Option<Rank> {
    let mut rest = code;
    for _ in 0..part {
        rest /= 64;
    }
    Rank::new((rest % 64) as u8)
}

/// Whether each of the parts below `parts` goes to a rank of the set, and no two go to one.
fn is_placing(code: u64, parts: u32, ranks: RankSet) -> bool {
    for part in 0..parts {
        let rank = rank_at(code, part);
        if !rank.is_some_and(|rank| ranks.has(rank)) {
            return false;
        }
        for other in 0..part {
            if rank_at(code, other) == rank {
                return false;
            }
        }
    }
    true
}

/// The inodes of the rows that move.
fn moved(rows: &[ProblemRow], part: &[u32], code: u64) -> u64
    requires { length part.now ≡ length rows.now }
{
    let mut inodes: u64 = 0;
    for i in 0..rows.len() {
        if rank_at(code, part[i]) != Some(rows[i].now) {
            inodes = inodes.saturating_add(u64::from(rows[i].inodes));
        }
    }
    inodes
}

/// The fewest inodes that a placing of at most four parts moves, or none where there is no placing.
/// `part[i]` is the part of row i.
pub fn fewest_moved(rows: &[ProblemRow], part: &[u32], parts: u32, ranks: RankSet) -> Option<u64>
    requires size { length part.now ≡ length rows.now }
    requires small { parts ≤ 4 }
{
    let mut fewest = None;
    for code in 0..1 << (6 * parts) {
        if is_placing(code, parts, ranks) {
            let inodes = moved(rows, part, code);
            if inodes < fewest.unwrap_or(u64::MAX) {
                fewest = Some(inodes);
            }
        }
    }
    fewest
}
