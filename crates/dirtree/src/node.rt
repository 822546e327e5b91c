//! The places of a tree's directories.
//!
//! A directory is in the chain of its parent and name, by falling numbers: a head names the directory with which its
//! chain begins, and each directory names the next one. The root is in no chain, so 0 ends one.
//!
//! A look-up, a new directory and a removal each go through one chain at most. It mostly has one directory or none,
//! unless names were picked that share a hash: in a tree with a secret key (`NameKey`) nobody can pick such names.
ghost use Rattle.std.specs.Prelude.{◌≡◌, ℕ, ◌+◌, ◌<◌, ◌==◌, ◌^◌, length, OnOk, Some, true, if◌then◌else◌};
ghost use Rattle.std.specs.Prelude.{slice_set, slice_index_or, vec_capacity, IsTrue, ◌↔◌};
ghost use Rattle.dirtree.specs.Tree.{child_of, IsTree, is_there};
ghost use Rattle.dirtree.specs.Keeps.{chain_of, children_at, entries_of, head_at, IsChained, next_at, place_at};

use crate::name::Name;
use std::hash::{FoldHasher, Hasher};

/// A directory, with how many children it has, and the next directory in its chain.
#[derive(Drop)]
pub struct Node {
    pub name: Name,
    pub parent: u32,
    pub inodes: u32,
    pub children: u32,
    pub next: u16,
}

/// How many chains there are: twice as many as a tree has directories at most, so the heads never have to grow, and a
/// name that isn't there mostly leads to no directory.
pub const CHAINS: usize = 1 << 17;

/// The chain of a parent and a name.
pub fn chain(hasher: FoldHasher, parent: u32, name: &str) -> usize
    ensures value { result ≡ chain_of hasher parent name.now }
    ensures below { result < 2 ^ 17 }
{
    let mut fed = hasher;
    fed.write_u32(parent);
    fed.write(name.as_bytes());
    (fed.finish() >> 47) as usize
}

/// The directory of this number, which is there.
pub fn standing(nodes: &[Option<Node>], dir: u32) -> &Node
    requires { is_there (entries_of nodes.now) dir ≡ true }
    ensures { slice_index_or nodes.now dir None ≡ Some result.now }
{
    match nodes.get(dir as usize) {
        Some(Some(node)) => node,
        _ => unreachable!(),
    }
}

fn is_named(node: &Node, parent: u32, name: &str) -> bool
    ensures { IsTrue result ↔ ((node.now.parent ≡ parent) × (node.now.name ≡ name.now)) }
{
    node.parent == parent && node.name.is(name.as_bytes())
}

/// The child of this name: its chain is gone through, and each directory there tested.
pub fn child_in_chain(
    nodes: &[Option<Node>],
    heads: &[u16],
    hasher: FoldHasher,
    parent: u32,
    name: &str,
) -> Option<u32>
    requires wide { length heads.now ≡ 2 ^ 17 }
    requires tree { IsTree (entries_of nodes.now) }
    requires chained { IsChained (place_at hasher (entries_of nodes.now)) (next_at nodes.now) (head_at heads.now) }
    ensures { result ≡ child_of (entries_of nodes.now) parent name.now }
{
    let mut at = heads[chain(hasher, parent, name)] as u32;
    while at != 0 {
        let node = standing(nodes, at);
        if is_named(node, parent, name) {
            return Some(at);
        }
        at = node.next as u32;
    }
    None
}

/// The chain in which a directory is, and the directory before it there, or 0 if the chain begins with it.
pub fn place_in_chain(
    nodes: &[Option<Node>],
    heads: &[u16],
    hasher: FoldHasher,
    dir: u32,
) -> (usize, u32)
    requires wide { length heads.now ≡ 2 ^ 17 }
    requires some { 0 < dir }
    requires there { is_there (entries_of nodes.now) dir ≡ true }
    requires chained { IsChained (place_at hasher (entries_of nodes.now)) (next_at nodes.now) (head_at heads.now) }
    ensures below { result.0 < 2 ^ 17 }
    ensures chain { place_at hasher (entries_of nodes.now) dir ≡ Some result.0 }
    ensures head { result.1 ≡ 0 → head_at heads.now result.0 ≡ dir }
    ensures before { 0 < result.1 → (next_at nodes.now result.1 ≡ dir)
        × (place_at hasher (entries_of nodes.now) result.1 ≡ Some result.0) }
{
    let node = standing(nodes, dir);
    let chain = chain(hasher, node.parent, node.name.as_str());
    let mut before = 0;
    let mut at = heads[chain] as u32;
    while at != dir {
        before = at;
        at = standing(nodes, at).next as u32;
    }
    (chain, before)
}

/// Sets which directory follows this one in its chain.
pub fn set_next(nodes: &mut Vec<Option<Node>>, dir: u32, next: u16)
    requires there { is_there (entries_of nodes.old.items) dir ≡ true }
    ensures entries { entries_of nodes.new.items ≡ entries_of nodes.old.items }
    ensures children { (d : ℕ) → children_at nodes.new.items d ≡ children_at nodes.old.items d }
    ensures nexts { (d : ℕ) → next_at nodes.new.items d ≡ (if d == dir then next else next_at nodes.old.items d) }
{
    if let Some(node) = &mut nodes[dir as usize] {
        node.next = next;
    }
}

/// Counts one more child of a directory.
pub fn count_child(nodes: &mut Vec<Option<Node>>, dir: u32)
    requires there { is_there (entries_of nodes.old.items) dir ≡ true }
    requires few { children_at nodes.old.items dir < 2 ^ 16 }
    ensures entries { entries_of nodes.new.items ≡ entries_of nodes.old.items }
    ensures capacity { vec_capacity nodes.new ≡ vec_capacity nodes.old }
    ensures children { (d : ℕ) → children_at nodes.new.items d
        ≡ (if d == dir then children_at nodes.old.items d + 1 else children_at nodes.old.items d) }
    ensures nexts { (d : ℕ) → next_at nodes.new.items d ≡ next_at nodes.old.items d }
{
    if let Some(node) = &mut nodes[dir as usize] {
        node.children += 1;
    }
}

/// Counts one child of a directory less.
pub fn discount_child(nodes: &mut Vec<Option<Node>>, dir: u32)
    requires there { is_there (entries_of nodes.old.items) dir ≡ true }
    requires some { 0 < children_at nodes.old.items dir }
    ensures entries { entries_of nodes.new.items ≡ entries_of nodes.old.items }
    ensures children { (d : ℕ) → children_at nodes.old.items d
        ≡ (if d == dir then children_at nodes.new.items d + 1 else children_at nodes.new.items d) }
    ensures nexts { (d : ℕ) → next_at nodes.new.items d ≡ next_at nodes.old.items d }
{
    if let Some(node) = &mut nodes[dir as usize] {
        node.children -= 1;
    }
}
