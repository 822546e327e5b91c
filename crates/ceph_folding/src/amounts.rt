//! Heat and inodes of directories as plain numbers, and what is added up of them.
ghost use Rattle.std.specs.Prelude.{◌≡◌, ◌<◌, ℕ, length, slice_index, IfErr, IfOk};
ghost use Rattle.ceph_folding.specs.Amounts.{amount_at, amount_of};
ghost use Rattle.ceph_folding.specs.Folding.{brought};
ghost use Rattle.ceph_folding.specs.TooMany.{IsPastCount};
ghost use Rattle.ceph_snapshot.specs.Growth.{IsGrowthError};

use ceph_snapshot::{Directory, SnapshotError};
use std::alloc::{AllocError, Global};

/// What is added up of directories.
#[derive(Clone, Copy)]
pub enum Amount {
    /// Their heat.
    Heat,
    /// What of it comes from writes.
    Writes,
    /// Their inodes.
    Inodes,
}

impl Amount {
    /// How much of it a directory has.
    fn of(self, directory: &Directory) -> u64
        ensures { result ≡ amount_of self directory.entry.now }
    {
        match self {
            Amount::Heat => directory.heat,
            Amount::Writes => directory.writes,
            Amount::Inodes => directory.inodes,
        }
    }
}

/// How much of it each directory has.
fn amounts_of(
    alloc: Global,
    directories: &[Directory],
    amount: Amount,
) -> Result<Vec<u64>, AllocError>
    ensures size { IfOk result (λ amounts. length amounts.items ≡ length directories.now) }
    ensures amounts { IfOk result (λ amounts. (i : ℕ) → i < length directories.now
        → slice_index amounts.items i ≡ amount_at amount directories.now i) }
{
    let mut amounts = Vec::with_capacity(alloc, directories.len())?;
    for directory in directories {
        amounts.push(amount.of(directory))?;
    }
    Ok(amounts)
}

/// How much each place has once what each place has has come to its home.
pub fn at_homes(alloc: Global, amounts: &[u64], homes: &[usize]) -> Result<Vec<u64>, SnapshotError>
    requires size { length homes.now ≡ length amounts.now }
    requires inside { (i : ℕ) → i < length amounts.now → slice_index homes.now i < length amounts.now }
    ensures size { IfOk result (λ sums. length sums.items ≡ length amounts.now) }
    ensures sums { IfOk result (λ sums. (there : ℕ) → there < length amounts.now → slice_index sums.items there
        ≡ brought (slice_index amounts.now) (slice_index homes.now) (length amounts.now) there) }
    ensures many { IfErr result (IsGrowthError
        (IsPastCount (slice_index amounts.now) (slice_index homes.now) (length amounts.now))) }
{
    let mut sums = vec![in alloc; 0u64; amounts.len()]?;
    for at in 0..amounts.len() {
        let home = homes[at];
        let Some(sum) = sums[home].checked_add(amounts[at]) else {
            return Err(SnapshotError::TooMany);
        };
        sums[home] = sum;
    }
    Ok(sums)
}

/// How much each place has once what each directory has has come to its home.
pub fn brought_home(
    alloc: Global,
    directories: &[Directory],
    homes: &[usize],
    amount: Amount,
) -> Result<Vec<u64>, SnapshotError>
    requires size { length homes.now ≡ length directories.now }
    requires inside { (i : ℕ) → i < length directories.now → slice_index homes.now i < length directories.now }
    ensures size { IfOk result (λ sums. length sums.items ≡ length directories.now) }
    ensures sums { IfOk result (λ sums. (there : ℕ) → there < length directories.now → slice_index sums.items there
        ≡ brought (amount_at amount directories.now) (slice_index homes.now) (length directories.now) there) }
    ensures many { IfErr result (IsGrowthError
        (IsPastCount (amount_at amount directories.now) (slice_index homes.now) (length directories.now))) }
{
    let amounts = amounts_of(alloc, directories, amount)?;
    let sums = at_homes(alloc, &amounts, homes)?;
    Ok(sums)
}
