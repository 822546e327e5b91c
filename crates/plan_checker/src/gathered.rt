//! What the rows of a table get from their children.
ghost use Rattle.std.specs.Prelude.{◌≡◌, ◌≢◌, ◌<◌, ◌+◌, ℕ, length, slice_index_or};
ghost use Rattle.plan_checker.specs.Table.{all_cuts, capped, kept_rest, nothing};

use mds_types::Row;

/// What a row has got from its children: sums that end at the greatest number.
#[derive(Clone, Copy)]
pub struct Gathered {
    /// The rests of those that aren't cut.
    pub rests: u64,
    /// Their cuts, and one more for each that is cut.
    pub cuts: u64,
}

/// What a row adds to its parent's rest.
fn kept_rest(row: &Row) -> u64
    ensures { result ≡ kept_rest row.now }
{
    if row.cut { 0 } else { row.rest }
}

/// What a row adds to its parent's cuts.
fn all_cuts(row: &Row) -> u64
    ensures { result ≡ all_cuts row.now }
{
    u64::from(row.cuts) + if row.cut { 1 } else { 0 }
}

/// Adds to the parent's sums what a row gives.
pub fn give(sums: &mut [Gathered], parent: usize, row: &Row)
    requires { parent < length sums.old }
    ensures rests { (slice_index_or sums.new parent nothing).rests
        ≡ capped ((slice_index_or sums.old parent nothing).rests + kept_rest row.now) }
    ensures cuts { (slice_index_or sums.new parent nothing).cuts
        ≡ capped ((slice_index_or sums.old parent nothing).cuts + all_cuts row.now) }
    ensures other { (v : ℕ) → v ≢ parent → slice_index_or sums.new v nothing ≡ slice_index_or sums.old v nothing }
{
    let sum = &mut sums[parent];
    sum.rests = sum.rests.saturating_add(kept_rest(row));
    sum.cuts = sum.cuts.saturating_add(all_cuts(row));
}
