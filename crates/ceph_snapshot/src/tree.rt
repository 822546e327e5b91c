//! The directories that dumps name, and the heat that ranks have seen at them.
ghost use Rattle.std.specs.Prelude.{◌≡◌, ◌++◌, ◌∷◌, [], ℕ, Some, None, is_some, IfErr, IfOk, IfSome, IsErrOf, OnOk};
ghost use Rattle.std.specs.Prelude.{◌<◌, All, List, length, map, slice_index_or, take, if◌then◌else◌};
ghost use Rattle.ceph_snapshot.specs.Authority.{PathText, is_user_path};
ghost use Rattle.ceph_snapshot.specs.Growth.{IsGrowthError};
ghost use Rattle.ceph_snapshot.specs.Named.{ArePathsNamed, AreOldOr, AreTooManyPaths, IsOldOr, IsUpFrom};
ghost use Rattle.ceph_snapshot.specs.Names.{IsAtOrAbove};
ghost use Rattle.ceph_snapshot.specs.Facts.{AreAsTold, Fact, IsAsTold, IsWith, KeepNumbers, Root, StillTold, Value};
ghost use Rattle.ceph_snapshot.specs.Sightings.{AreBelowParents, AreCold, HaveOwnPaths, IsNumberOf, IsParentOf};
ghost use Rattle.ceph_snapshot.specs.Sightings.{of_fragment, account_of, with_path};

use crate::directory::Directory;
use crate::names::Names;
use crate::snapshot_error::SnapshotError;
use ceph_dumps::{FragmentHeat, ListedDir, ListedValue, SubtreeRoot};
use mds_types::Rank;
use std::alloc::{AllocError, Global};
use std::marker::Model;

/// Heat that a rank has seen at a directory, and the inode number that it names.
#[derive(Clone, Copy)]
pub(crate) struct Sighting {
    pub directory: u32,
    pub rank: Rank,
    pub heat: u64,
    pub writes: u64,
    pub inode: Option<u64>,
}

/// What is known of a directory while dumps are read.
#[derive(Drop)]
pub(crate) struct Node {
    pub directory: Directory,
    /// The rank that has the subtree whose root it is.
    pub root: Option<Rank>,
    /// Its pin, whoever set it.
    pub pinned: Option<u64>,
    /// The inode number that was listed of it.
    pub listed: Option<u64>,
    /// The greatest heat that a rank has seen at it, where it is spread.
    pub most: u64,
}

/// The directories by number, and what ranks have seen. To a contract, that is by path.
#[derive(Drop)]
pub(crate) struct Tree {
    names: Names,
    nodes: Vec<Node>,
    sightings: Vec<Sighting>,
}

impl Model for Tree {
    ghost use Rattle.std.specs.Prelude.{map};
    ghost use Rattle.ceph_snapshot.specs.Sightings.{IsNumbered, TreeData, with_path};

    ghost Value = { TreeData };

    ghost view = { λ t. record {
      nodes = t.nodes.items;
      seen = map (with_path t.nodes.items) t.sightings.items;
    } };

    ghost invariant = { λ t. IsNumbered t.names t.nodes.items t.sightings.items };
}

impl Tree {
    /// Only the root, at rank 0.
    pub(crate) fn new(alloc: Global) -> Result<Tree, AllocError>
        ensures seen { IfOk result (λ tree. tree.seen ≡ []) }
        ensures told { IfOk result (λ tree. AreAsTold tree.nodes []) }
        ensures only { IfOk result (λ tree. ArePathsNamed [] [] tree.nodes) }
    {
        Ok(Tree {
            names: Names::new(alloc)?,
            nodes: vec![in alloc; unknown(Vec::new(alloc), 0)]?,
            sightings: Vec::new(alloc),
        })
    }

    /// The number of a path. One that has none gets one of its own, below the directory that it lies in.
    fn number_below(
        &mut self,
        alloc: Global,
        path: &[u8],
        parent: u32,
    ) -> Result<u32, SnapshotError>
        requires { IsParentOf self.old.nodes path.now parent }
        ensures seen { self.new.seen ≡ self.old.seen }
        ensures path { IfOk result (IsNumberOf self.new.nodes path.now) }
        ensures kept { OnOk result (StillTold self.old.nodes self.new.nodes) }
        ensures only { OnOk result (AreOldOr self.old.nodes (λ other. IsAtOrAbove other path.now) self.new.nodes) }
        ensures many { IfErr result (IsGrowthError
            (AreTooManyPaths (IsOldOr self.old.nodes (λ other. IsAtOrAbove other path.now)))) }
        ensures twice { (path : PathText) (one two : ℕ) → IsErrOf result (SnapshotError.TwoClaims path one two) → ⊥ }
    {
        if let Some(number) = self.names.number(path) {
            return Ok(number);
        }
        let Ok(number) = u32::try_from(self.nodes.len()) else {
            return Err(SnapshotError::TooMany);
        };
        self.nodes.reserve(1)?;
        let node = unknown(Vec::from_slice(alloc, path)?, parent);
        self.names.insert(Vec::from_slice(alloc, path)?, number)?;
        self.nodes.push_reserved(node);
        Ok(number)
    }

    /// The nearest directory above a path that has a number: how many bytes its path and a slash have, and the number.
    fn nearest(&self, path: &[u8]) -> (usize, u32)
        requires { slice_index_or path.now 0 0 ≡ 47 }
        ensures { IsParentOf self.now.nodes (take result.0 path.now) result.1 }
    {
        for end in (1..path.len()).rev() {
            if path[end] == b'/' {
                if let Some(number) = self.names.number(&path[..end]) {
                    return (end + 1, number);
                }
            }
        }
        (1, 0)
    }

    /// The number of a path, and none for one that is in no tree of users, as a rank's own directory.
    pub(crate) fn number(
        &mut self,
        alloc: Global,
        path: &[u8],
    ) -> Result<Option<u32>, SnapshotError>
        ensures seen { self.new.seen ≡ self.old.seen }
        ensures some { IfOk result (λ number. is_some number ≡ is_user_path path.now) }
        ensures path { IfOk result (λ number. IfSome number (IsNumberOf self.new.nodes path.now)) }
        ensures kept { OnOk result (StillTold self.old.nodes self.new.nodes) }
        ensures only { OnOk result (AreOldOr self.old.nodes (IsUpFrom path.now) self.new.nodes) }
        ensures many { IfErr result (IsGrowthError (AreTooManyPaths (IsOldOr self.old.nodes (IsUpFrom path.now)))) }
        ensures twice { (path : PathText) (one two : ℕ) → IsErrOf result (SnapshotError.TwoClaims path one two) → ⊥ }
    {
        if !is_user_path(path) {
            return Ok(None);
        }
        if let Some(number) = self.names.number(path) {
            return Ok(Some(number));
        }
        let (from, mut number) = self.nearest(path);
        for end in from..path.len() {
            if path[end] == b'/' {
                number = self.number_below(alloc, &path[..end], number)?;
            }
        }
        Ok(Some(self.number_below(alloc, path, number)?))
    }

    /// Adds the heat that a rank has seen in a fragment, and the inode number of its directory.
    pub(crate) fn see(
        &mut self,
        alloc: Global,
        rank: Rank,
        fragment: &FragmentHeat,
    ) -> Result<(), SnapshotError>
        ensures seen { OnOk result (self.new.seen ≡ self.old.seen
            ++ (if is_user_path fragment.now.path.items then of_fragment rank fragment.now ∷ [] else [])) }
        ensures kept { OnOk result (StillTold self.old.nodes self.new.nodes) }
        ensures only { OnOk result (AreOldOr self.old.nodes (IsUpFrom fragment.now.path.items) self.new.nodes) }
        ensures many { IfErr result (IsGrowthError
            (AreTooManyPaths (IsOldOr self.old.nodes (IsUpFrom fragment.now.path.items)))) }
    {
        if let Some(directory) = self.number(alloc, fragment.path.as_slice())? {
            self.sightings.push(Sighting {
                directory,
                rank,
                heat: fragment.heat,
                writes: fragment.writes,
                inode: fragment.inode,
            })?;
        }
        Ok(())
    }

    /// Adds what a rank says of the root of a subtree, which is this directory.
    pub(crate) fn add_root(&mut self, directory: u32, rank: Rank, root: &SubtreeRoot)
        requires { IsNumberOf self.old.nodes root.now.path.items directory }
        ensures seen { self.new.seen ≡ self.old.seen }
        ensures told { (facts : List Fact) → AreAsTold self.old.nodes facts
            → AreAsTold self.new.nodes (facts ++ Root rank root.now ∷ []) }
        ensures numbers { KeepNumbers self.old.nodes self.new.nodes }
        ensures only { KeepNumbers self.new.nodes self.old.nodes }
    {
        add_root(&mut self.nodes[directory as usize], rank, root);
    }

    /// Adds a value that was listed of this directory.
    pub(crate) fn add_value(&mut self, directory: u32, listed: &ListedDir)
        requires { IsNumberOf self.old.nodes listed.now.path.items directory }
        ensures seen { self.new.seen ≡ self.old.seen }
        ensures told { (facts : List Fact) → AreAsTold self.old.nodes facts
            → AreAsTold self.new.nodes (facts ++ Value listed.now ∷ []) }
        ensures numbers { KeepNumbers self.old.nodes self.new.nodes }
        ensures only { KeepNumbers self.new.nodes self.old.nodes }
    {
        add_value(&mut self.nodes[directory as usize], listed);
    }

    /// The directories and what was seen at them.
    pub(crate) fn into_parts(self) -> (Vec<Node>, Vec<Sighting>)
        ensures nodes { result.0.items ≡ self.nodes }
        ensures seen { map (with_path self.nodes) result.1.items ≡ self.seen }
        ensures inside { All (λ s. s.directory < length self.nodes) result.1.items }
        ensures below { AreBelowParents self.nodes }
        ensures cold { AreCold self.nodes }
        ensures apart { HaveOwnPaths self.nodes }
    {
        (self.nodes, self.sightings)
    }
}

/// Whether a path is in the tree of users: the root's, or one that begins with a slash, with no NUL.
fn is_user_path(path: &[u8]) -> bool
    ensures { result ≡ is_user_path path.now }
{
    path.is_empty() || (path.starts_with(b"/") && !path.contains(&0))
}

/// A directory of which nothing is known but its path and its parent.
fn unknown(path: Vec<u8>, parent: u32) -> Node
    ensures account { account_of result.directory ≡ (path.items, (0, (0, None))) }
    ensures parent { result.directory.parent ≡ parent }
    ensures told { IsAsTold [] result }
{
    Node {
        directory: Directory {
            path,
            inode: None,
            parent,
            heat: 0,
            writes: 0,
            inodes: 1,
            now: Rank::default(),
            pin: None,
            idle: None,
            earlier: None,
            policy: None,
            is_doubtful: false,
            is_kept: false,
            is_spread: false,
        },
        root: None,
        pinned: None,
        listed: None,
        most: 0,
    }
}

/// Adds what a rank says of a root of a subtree.
fn add_root(node: &mut Node, rank: Rank, root: &SubtreeRoot)
    ensures account { account_of node.new.directory ≡ account_of node.old.directory }
    ensures parent { node.new.directory.parent ≡ node.old.directory.parent }
    ensures told { IsWith (Root rank root.now) node.old node.new }
{
    if root.is_here {
        let is_elsewhere = node.root.is_some_and(|other| other != rank);
        node.directory.is_spread |= is_elsewhere || root.is_spread;
        node.root = Some(rank);
    }
    if let Some(pin) = root.pin {
        node.pinned = u64::try_from(pin).ok();
    }
}

/// Adds a value that was listed of a directory.
fn add_value(node: &mut Node, listed: &ListedDir)
    ensures account { account_of node.new.directory ≡ account_of node.old.directory }
    ensures parent { node.new.directory.parent ≡ node.old.directory.parent }
    ensures told { IsWith (Value listed.now) node.old node.new }
{
    match listed.value {
        ListedValue::Entries(count) => node.directory.inodes = count.max(1),
        ListedValue::Pin(pin) => node.pinned = pin.or(node.pinned),
        ListedValue::Policy(policy) => node.directory.policy = policy.or(node.directory.policy),
        ListedValue::Inode(number) => node.listed = Some(number),
    }
}
