//! The inodes of each part by present rank, from chunks of rows that threads share.
ghost use Rattle.std.specs.Prelude.{◌≡◌, ◌<◌, ◌≤◌, ◌+◌, ℕ, length, slice_index_or, IfOk, OnOk};
ghost use Rattle.rank_assign.specs.Chunks.{edge, AreLabelled, AreSummed};

use mds_types::ProblemRow;
use plan_checker::{add_sums, sums};
use rayon::prelude::*;
use std::alloc::{AllocError, Global};
use std::thread::Threads;

/// How many chunks' sums are kept at a time.
const CHUNKS: usize = 16;

/// Rows, and of each the part that it belongs to.
#[derive(Clone, Copy)]
pub struct Labelled<'a> {
    pub rows: &'a [ProblemRow],
    pub part: &'a [u32],
    pub count: u32,
    pub ghost labelled: { AreLabelled rows.now part.now count },
}

/// Chunks that are added up together: `chunks` of `chunk` rows each, from row `first` on. The last one may be
/// shorter.
#[derive(Clone, Copy)]
struct Batch {
    first: usize,
    chunk: usize,
    chunks: usize,
}

/// The sums of a batch's chunk `k`.
fn chunk_sums(
    alloc: Global,
    of: Labelled<'_>,
    batch: Batch,
    k: usize,
) -> Result<Vec<u64>, AllocError>
    ensures { IfOk result (λ sums. AreSummed of.entry.rows.now of.entry.part.now of.entry.count
        (edge (length of.entry.rows.now) batch.first batch.chunk k)
        (edge (length of.entry.rows.now) batch.first batch.chunk (k + 1)) sums.items) }
{
    let rows = of.rows.len();
    let from = k
        .saturating_mul(batch.chunk)
        .saturating_add(batch.first)
        .min(rows);
    let to = from.saturating_add(batch.chunk).min(rows);
    sums(alloc, of.rows, of.part, of.count, from, to)
}

/// The sums of a batch's chunks, which threads share.
fn side_by_side<R: Threads + Sync>(
    rt: &R,
    alloc: Global,
    of: Labelled<'_>,
    batch: Batch,
) -> Result<Vec<Result<Vec<u64>, AllocError>>, AllocError>
    ensures size { IfOk result (λ tables. length tables.items ≡ batch.chunks) }
    ensures sums { IfOk result (λ tables. (k : ℕ) (d : _) → k < batch.chunks
        → IfOk (slice_index_or tables.items k d) (λ sums. AreSummed of.entry.rows.now of.entry.part.now of.entry.count
        (edge (length of.entry.rows.now) batch.first batch.chunk k)
        (edge (length of.entry.rows.now) batch.first batch.chunk (k + 1)) sums.items)) }
{
    (0..batch.chunks)
        .into_par_iter()
        .with_min_len(1)
        .map(
            |k: usize| -> Result<Vec<u64>, AllocError>
                ensures { IfOk result (λ sums. AreSummed of.entry.rows.now of.entry.part.now of.entry.count
                    (edge (length of.entry.rows.now) batch.first batch.chunk k)
                    (edge (length of.entry.rows.now) batch.first batch.chunk (k + 1)) sums.items) }
            { chunk_sums(alloc, of, batch, k) },
        )
        .collect(rt, alloc)
}

/// Adds the sums of a batch's chunks to those of the rows before them.
fn add_chunks<R: Threads + Sync>(
    rt: &R,
    alloc: Global,
    total: &mut [u64],
    of: Labelled<'_>,
    batch: Batch,
) -> Result<(), AllocError>
    requires inside { batch.first ≤ length of.rows.now }
    requires before { AreSummed of.rows.now of.part.now of.count 0 batch.first total.old }
    ensures size { length total.new ≡ length total.old }
    ensures sums { OnOk result (AreSummed of.entry.rows.now of.entry.part.now of.entry.count 0
        (edge (length of.entry.rows.now) batch.first batch.chunk batch.chunks) total.new) }
{
    let tables = side_by_side(rt, alloc, of, batch)?;
    for k in 0..batch.chunks {
        match &tables[k] {
            Ok(sums) => add_sums(total, sums),
            Err(error) => return Err(*error),
        }
    }
    Ok(())
}

/// Adds the sums of all rows, in chunks, to zeros.
fn add_rows<R: Threads + Sync>(
    rt: &R,
    alloc: Global,
    total: &mut [u64],
    of: Labelled<'_>,
    chunk: usize,
) -> Result<(), AllocError>
    requires chunk { 0 < chunk }
    requires none { AreSummed of.rows.now of.part.now of.count 0 0 total.old }
    ensures { OnOk result (AreSummed of.entry.rows.now of.entry.part.now of.entry.count 0 (length of.entry.rows.now)
        total.new) }
{
    let rows = of.rows.len();
    let mut first = 0;
    while first < rows {
        let chunks = (rows - first).div_ceil(chunk).min(CHUNKS);
        let batch = Batch {
            first,
            chunk,
            chunks,
        };
        add_chunks(rt, alloc, total, of, batch)?;
        first = chunks.saturating_mul(chunk).saturating_add(first).min(rows);
    }
    Ok(())
}

/// The sums of all rows, added up from those of chunks of `chunk` rows.
pub fn sums_by<R: Threads + Sync>(
    rt: &R,
    alloc: Global,
    of: Labelled<'_>,
    chunk: usize,
) -> Result<Vec<u64>, AllocError>
    requires { 0 < chunk }
    ensures { IfOk result (λ sums. AreSummed of.entry.rows.now of.entry.part.now of.entry.count 0
        (length of.entry.rows.now) sums.items) }
{
    let mut total = vec![in alloc; 0; of.count as usize * 64]?;
    add_rows(rt, alloc, &mut total, of, chunk)?;
    Ok(total)
}
