//! What is done in a phase: orders, and requests with hits.

use mds_types::{Dir, Dirs, Kind, Order, Rank};
use rank_threads::Work as Request;
use std::alloc::{AllocError, Global};

/// Requests of all ranks together.
const REQUESTS: u32 = 10_000;

/// What is timed.
#[derive(Clone, Copy)]
pub enum Work {
    /// Requests, each of this many hits.
    Serve(u32),
    /// Exports.
    Export,
    /// Requests, each of this many hits, and exports of other directories.
    Both(u32),
}

/// A rank of this number.
pub fn rank(number: u8) -> Rank {
    Rank::new(number).unwrap_or_default()
}

// The rank that is to have a directory other than the root: neighbours have the
// same, and each rank as many, but the last.
fn rank_of(ranks: u8, dirs: u32, dir: u32) -> u32 {
    let each = dirs.saturating_sub(1) / u32::from(ranks).max(1);
    let number = dir.saturating_sub(1) / each.max(1);
    number.min(u32::from(ranks).saturating_sub(1))
}

/// The parent of a directory: the first directory of a rank is below the root, and its others below that.
pub fn parent_of(ranks: u8, dirs: u32, dir: u32) -> Dir {
    let each = dirs.saturating_sub(1) / u32::from(ranks).max(1);
    let first = rank_of(ranks, dirs, dir)
        .saturating_mul(each)
        .saturating_add(1);
    if dir <= first {
        Dir::ROOT
    } else {
        Dir::new(first)
    }
}

// The directories of a rank, by rising numbers.
fn dirs_of(alloc: Global, ranks: u8, number: u8, dirs: u32) -> Result<Dirs, AllocError> {
    let mut list = Vec::new(alloc);
    for dir in 1..dirs {
        if rank_of(ranks, dirs, dir) == u32::from(number) {
            list.push(Dir::new(dir))?;
        }
    }
    Ok(Dirs::new(list))
}

/// An order from rank 0 to each other for its directories.
pub fn deal(alloc: Global, ranks: u8, dirs: u32) -> Result<Vec<Order>, AllocError> {
    let mut orders = Vec::new(alloc);
    for number in 1..ranks {
        orders.push(Order {
            from: rank(0),
            to: rank(number),
            dirs: dirs_of(alloc, ranks, number, dirs)?,
        })?;
    }
    Ok(orders)
}

/// An order from each rank to the next for its directories.
pub fn pass_on(alloc: Global, ranks: u8, dirs: u32) -> Result<Vec<Order>, AllocError> {
    let mut orders = Vec::new(alloc);
    for number in 0..ranks {
        orders.push(Order {
            from: rank(number),
            to: rank(number.wrapping_add(1) % ranks.max(1)),
            dirs: dirs_of(alloc, ranks, number, dirs)?,
        })?;
    }
    Ok(orders)
}

/// The first directory of a rank, where each rank has so many.
pub fn first_of(rank: u8, each: u32) -> Dir {
    Dir::new(u32::from(rank).saturating_mul(each).saturating_add(1))
}

/// An order from each rank to the next for the second of its two directories.
pub fn pass_second(alloc: Global, ranks: u8) -> Result<Vec<Order>, AllocError> {
    let mut orders = Vec::new(alloc);
    for number in 0..ranks {
        let second = first_of(number, 2).number().saturating_add(1);
        orders.push(Order {
            from: rank(number),
            to: rank(number.wrapping_add(1) % ranks.max(1)),
            dirs: Dirs::new(vec![in alloc; Dir::new(second)]?),
        })?;
    }
    Ok(orders)
}

// How many requests each rank has.
fn requests_of(ranks: u8, hits: u32) -> u32 {
    if hits == 0 {
        return 0;
    }
    REQUESTS / u32::from(ranks).max(1)
}

/// How many hits all requests have.
pub fn asked(ranks: u8, hits: u32) -> u64 {
    let each = u64::from(requests_of(ranks, hits)).saturating_mul(u64::from(hits));
    each.saturating_mul(u64::from(ranks))
}

// The requests of a rank.
fn script(alloc: Global, count: u32, request: Request) -> Result<Vec<Request>, AllocError> {
    let mut script = Vec::new(alloc);
    for _ in 0..count {
        script.push(Request {
            dir: request.dir,
            hits: request.hits,
            kind: request.kind,
        })?;
    }
    Ok(script)
}

/// The requests of each rank on the first of its directories, of which it has so many.
pub fn scripts(
    alloc: Global,
    ranks: u8,
    hits: u32,
    each: u32,
) -> Result<Vec<Vec<Request>>, AllocError> {
    let count = requests_of(ranks, hits);
    let mut scripts = Vec::new(alloc);
    for number in 0..ranks {
        let request = Request {
            dir: first_of(number, each),
            hits,
            kind: Kind::Read,
        };
        scripts.push(script(alloc, count, request)?)?;
    }
    Ok(scripts)
}
