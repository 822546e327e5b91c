//! The hottest children of a row, as many as can be cut at most, without putting the others in
//! order.

ghost use Rattle.std.specs.Prelude.{◌≡◌, ◌<◌, ◌≤◌, ℕ, true, false, All, IsPermutation};
ghost use Rattle.std.specs.Prelude.{length, take, drop, slice_index, IfOk, OnOk};
ghost use Rattle.residual_cut.specs.Hottest.{AreHottest, CanMeet, IsMet};

use crate::child::Child;
use crate::subtrees::Weighed;
use std::alloc::{AllocError, Global};
use std::cmp::Reverse;

/// The hottest of the children that were met.
#[derive(Drop)]
pub struct Hottest {
    /// These children, in no order.
    pub children: Vec<Child>,
    /// None of these children has less rest, and no other that was met has more.
    pub floor: u64,
}

/// Puts the `most` hottest children first, and returns the least rest among them. There are at most twice `most`: few
/// enough to sort them.
fn put_hottest_first(children: &mut [Child], most: usize) -> u64
    requires some { 0 < most }
    requires enough { most ≤ length children.old }
    ensures permutation { IsPermutation children.old children.new }
    ensures size { length children.new ≡ length children.old }
    ensures hottest { All (λ child. result ≤ child.rest) (take most children.new) }
    ensures others { All (λ child. child.rest ≤ result) (drop most children.new) }
    ensures among { (rest : ℕ) → All (λ child. rest ≤ child.rest) children.old → rest ≤ result }
{
    children.sort_unstable();
    let first = children.len() - most;
    let floor = children[first].rest;
    children.rotate_left(first);
    floor
}

/// Whether there are enough children, and this one is no hotter than any of them.
fn is_cool(hottest: &Hottest, child: Child, most: usize) -> bool
    ensures cool { result ≡ true → (most ≤ length hottest.now.children.items) × (child.rest ≤ hottest.now.floor) }
    ensures wanted { result ≡ false → most ≤ length hottest.now.children.items → hottest.now.floor < child.rest }
{
    hottest.children.len() >= most && child.rest <= hottest.floor
}

/// Meets one more child. The coolest are forgotten once there are twice as many as can be cut.
pub fn meet(hottest: &mut Hottest, child: Child, most: u32) -> Result<(), AllocError>
    requires { CanMeet hottest.old most }
    ensures { OnOk result (IsMet hottest.old hottest.new child most) }
{
    let most = most as usize;
    if is_cool(hottest, child, most) {
        return Ok(());
    }
    hottest.children.push(child)?;
    if hottest.children.len() >= 2 * most {
        hottest.floor = put_hottest_first(&mut hottest.children, most);
        hottest.children.truncate(most);
    }
    Ok(())
}

/// The hottest children of row `i`: at least `most`, or all.
pub fn hottest_children(
    alloc: Global,
    of: Weighed<'_>,
    rest: &[u64],
    i: usize,
    most: u32,
) -> Result<Hottest, AllocError>
    requires inside { i < length of.rows.now }
    requires size { length rest.now ≡ length of.rows.now }
    requires some { 0 < most }
    ensures { IfOk result (λ hottest.
        AreHottest of.entry.rows.now (slice_index rest.now) (λ _. true) i most hottest.floor hottest.children.items) }
{
    let mut hottest = Hottest {
        children: Vec::new(alloc),
        floor: 0,
    };
    let links = &of.trees.links;
    let mut row = links.first[i];
    while row != 0 {
        let child = Child {
            rest: rest[row as usize],
            row: Reverse(row),
        };
        meet(&mut hottest, child, most)?;
        row = links.next[row as usize];
    }
    Ok(hottest)
}
