//! Gathers what the dumps of all ranks say. A directory has its heat from the rank that has authority: the nearest
//! subtree root at or above it decides. Where that root is in fragments at several ranks, there is no such rank: the
//! directory, and what is below it with no root of its own, is spread.
ghost use Rattle.std.specs.Prelude.{◌≡◌, ◌⊎◌, ◌++◌, ◌∷◌, [], ℕ, List, Some, false, true, IfErr, IfOk, IsErrOf, OnOk};
ghost use Rattle.std.specs.List.{IsAmong};
ghost use Rattle.ceph_snapshot.specs.Authority.{AreClaimed, IsClaim, IsClaimedTwice, StillClaimed};
ghost use Rattle.ceph_snapshot.specs.Authority.{PathText, fragment_of, is_user_path};
ghost use Rattle.ceph_snapshot.specs.Facts.{Fact, Root, StillTold, roots_in, values_in};
ghost use Rattle.ceph_snapshot.specs.Growth.{IsClaimOrGrowth, IsGrowthError};
ghost use Rattle.ceph_snapshot.specs.Heard.{AreHeardAt, AreNumbersOf, ClaimsByFact, HasTold, HeardRank, IsToldTwice};
ghost use Rattle.ceph_snapshot.specs.Heard.{StillHasTold};
ghost use Rattle.ceph_snapshot.specs.Heard.{LiesInTop, heard_in_root, top_of_path, tops_in_root};
ghost use Rattle.ceph_snapshot.specs.Named.{AreOldOr, AreTooManyNamed, AreTooManyPaths, IsOldOr, IsUpFrom};
ghost use Rattle.ceph_snapshot.specs.Names.{path_number};
ghost use Rattle.ceph_snapshot.specs.Sightings.{IsNumberOf, seen_in};

use crate::names::Names;
use crate::snapshot_error::{SnapshotError, told_path};
use crate::tree::Tree;
use ceph_dumps::{FragmentHeat, ListedDir, SubtreeRoot};
use mds_types::Rank;
use std::alloc::Global;

/// What a rank says of another one: that it has authority over a directory.
#[derive(Clone, Copy)]
pub(crate) struct Hearsay {
    pub directory: u32,
    pub by: Rank,
    pub authority: u64,
}

/// What the dumps say that were added so far.
#[derive(Drop)]
pub struct Gathering {
    pub(crate) alloc: Global,
    pub(crate) tree: Tree,
    pub(crate) hearsay: Vec<Hearsay>,
    /// The rank that has each fragment of a directory that is a root.
    pub(crate) fragments: Names,
    /// The directories just below the root that have a root of Ceph's own pins at or below them.
    pub(crate) tops: Vec<u32>,
    /// Whether a walk listed the directories.
    pub(crate) is_listed: bool,
    /// Whether inode numbers were listed.
    pub(crate) is_numbered: bool,
}

impl Gathering {
    /// Only the root, at rank 0.
    pub fn new(alloc: Global) -> Result<Gathering, SnapshotError>
        ensures seen { IfOk result (λ gathering. gathering.tree.seen ≡ []) }
        ensures told { IfOk result (λ gathering. HasTold gathering []) }
        ensures listed { IfOk result (λ gathering. gathering.is_listed ≡ false) }
        ensures numbered { IfOk result (λ gathering. gathering.is_numbered ≡ false) }
        ensures failed { IfErr result (λ error. error ≡ SnapshotError.Memory) }
    {
        Ok(Gathering {
            alloc,
            tree: Tree::new(alloc)?,
            hearsay: Vec::new(alloc),
            fragments: Names::none(alloc),
            tops: Vec::new(alloc),
            is_listed: false,
            is_numbered: false,
        })
    }

    /// Adds a sample of the heat that a rank has seen, and the inode numbers of the directories.
    pub fn add_loads(&mut self, rank: Rank, loads: &[FragmentHeat]) -> Result<(), SnapshotError>
        ensures seen { OnOk result (self.new.tree.seen ≡ self.old.tree.seen ++ seen_in rank loads.now) }
        ensures told { OnOk result (StillHasTold self.old self.new) }
        ensures many { (facts : List Fact) → HasTold self.old facts → IfErr result (IsGrowthError
            (AreTooManyNamed (self.old.tree.seen ++ seen_in rank loads.now) facts)) }
        ensures listed { self.new.is_listed ≡ self.old.is_listed }
        ensures numbered { self.new.is_numbered ≡ self.old.is_numbered }
    {
        for fragment in loads {
            self.tree.see(self.alloc, rank, fragment)?;
        }
        Ok(())
    }

    /// Notes that a rank has a fragment of a directory, which no other rank has, if its root says so.
    fn claim(&mut self, rank: Rank, root: &SubtreeRoot) -> Result<(), SnapshotError>
        ensures tree { self.new.tree ≡ self.old.tree }
        ensures hearsay { self.new.hearsay ≡ self.old.hearsay }
        ensures tops { self.new.tops ≡ self.old.tops }
        ensures listed { self.new.is_listed ≡ self.old.is_listed }
        ensures numbered { self.new.is_numbered ≡ self.old.is_numbered }
        ensures twice { (path : PathText) (one two : ℕ) → IsErrOf result (SnapshotError.TwoClaims path one two)
            → IsClaimedTwice self.old.fragments root.now rank path one two }
        ensures failed { IfErr result (IsClaimOrGrowth ⊥) }
        ensures claimed { OnOk result ((fragment : List ℕ) → root.now.is_here ≡ true
            → fragment_of root.now ≡ Some fragment → path_number self.new.fragments fragment ≡ Some rank) }
        ensures kept { OnOk result (StillClaimed self.old.fragments self.new.fragments) }
        ensures only { OnOk result ((other : ℕ) (fragment : List ℕ)
            → path_number self.new.fragments fragment ≡ Some other
            → (path_number self.old.fragments fragment ≡ Some other)
            ⊎ ClaimsByFact other fragment (Root rank root.now)) }
    {
        if !root.is_here {
            return Ok(());
        }
        let Some(fragment) = root.fragment.as_deref() else {
            return Ok(());
        };
        let key = fragment.as_bytes();
        match self.fragments.number(key) {
            Some(other) if other != u32::from(rank.number()) => Err(SnapshotError::TwoClaims {
                path: told_path(self.alloc, root.path.as_slice())?,
                first: other,
                second: rank.number(),
            }),
            _ => {
                let key = Vec::from_slice(self.alloc, key)?;
                self.fragments.insert(key, u32::from(rank.number()))?;
                Ok(())
            }
        }
    }

    /// Notes whom a rank takes for the authority of a directory whose root it doesn't have.
    fn hear(&mut self, directory: u32, rank: Rank, root: &SubtreeRoot) -> Result<(), SnapshotError>
        requires { IsNumberOf self.old.tree.nodes root.now.path.items directory }
        ensures tree { self.new.tree ≡ self.old.tree }
        ensures claims { self.new.fragments ≡ self.old.fragments }
        ensures heard { (heard : List HeardRank) → AreHeardAt self.old.tree.nodes self.old.hearsay.items heard
            → OnOk result (AreHeardAt self.new.tree.nodes self.new.hearsay.items
            (heard ++ heard_in_root rank root.now)) }
        ensures tops { self.new.tops ≡ self.old.tops }
        ensures listed { self.new.is_listed ≡ self.old.is_listed }
        ensures numbered { self.new.is_numbered ≡ self.old.is_numbered }
        ensures failed { IfErr result (λ error. error ≡ SnapshotError.Memory) }
        ensures twice { (path : PathText) (one two : ℕ) → IsErrOf result (SnapshotError.TwoClaims path one two) → ⊥ }
    {
        if root.is_here {
            return Ok(());
        }
        let Ok(authority) = u64::try_from(root.authority) else {
            return Ok(());
        };
        self.hearsay.push(Hearsay {
            directory,
            by: rank,
            authority,
        })?;
        Ok(())
    }

    /// Notes which directory just below the root Ceph's own pins are at or below, if they are there.
    fn hold_top(&mut self, root: &SubtreeRoot) -> Result<(), SnapshotError>
        requires { is_user_path root.now.path.items ≡ true }
        ensures claims { self.new.fragments ≡ self.old.fragments }
        ensures hearsay { self.new.hearsay ≡ self.old.hearsay }
        ensures seen { self.new.tree.seen ≡ self.old.tree.seen }
        ensures told { OnOk result (StillTold self.old.tree.nodes self.new.tree.nodes) }
        ensures only { OnOk result (AreOldOr self.old.tree.nodes (IsUpFrom root.now.path.items) self.new.tree.nodes) }
        ensures many { IfErr result (IsGrowthError
            (AreTooManyPaths (IsOldOr self.old.tree.nodes (IsUpFrom root.now.path.items)))) }
        ensures tops { (tops : List (List ℕ)) → AreNumbersOf self.old.tree.nodes self.old.tops.items tops
            → OnOk result (AreNumbersOf self.new.tree.nodes self.new.tops.items (tops ++ tops_in_root root.now)) }
        ensures listed { self.new.is_listed ≡ self.old.is_listed }
        ensures numbered { self.new.is_numbered ≡ self.old.is_numbered }
        ensures twice { (path : PathText) (one two : ℕ) → IsErrOf result (SnapshotError.TwoClaims path one two) → ⊥ }
    {
        if !root.is_spread {
            return Ok(());
        }
        let top = top_of(root.path.as_slice());
        let Some(number) = self.tree.number(self.alloc, top)? else {
            return Ok(());
        };
        self.tops.push(number)?;
        Ok(())
    }

    /// Adds a root that a rank knows.
    fn add_subtree(&mut self, rank: Rank, root: &SubtreeRoot) -> Result<(), SnapshotError>
        ensures twice { (facts : List Fact) → HasTold self.old facts → (path : PathText) (one two : ℕ)
            → IsErrOf result (SnapshotError.TwoClaims path one two) → IsToldTwice facts root.now rank path one two }
        ensures many { (facts : List Fact) → HasTold self.old facts → IfErr result (IsClaimOrGrowth
            (AreTooManyNamed self.old.tree.seen (facts ++ roots_in rank (root.now ∷ [])))) }
        ensures claimed { OnOk result ((fragment : List ℕ) → IsClaim root.now fragment
            → path_number self.new.fragments fragment ≡ Some rank) }
        ensures kept { OnOk result (StillClaimed self.old.fragments self.new.fragments) }
        ensures seen { self.new.tree.seen ≡ self.old.tree.seen }
        ensures told { (facts : List Fact) → HasTold self.old facts
            → OnOk result (HasTold self.new (facts ++ roots_in rank (root.now ∷ []))) }
        ensures listed { self.new.is_listed ≡ self.old.is_listed }
        ensures numbered { self.new.is_numbered ≡ self.old.is_numbered }
    {
        let Some(directory) = self.tree.number(self.alloc, root.path.as_slice())? else {
            return Ok(());
        };
        self.claim(rank, root)?;
        self.hear(directory, rank, root)?;
        self.hold_top(root)?;
        self.tree.add_root(directory, rank, root);
        Ok(())
    }

    /// Adds the subtrees that a rank knows, and the pins of their roots. A fragment that two ranks claim is refused.
    pub fn add_subtrees(&mut self, rank: Rank, roots: &[SubtreeRoot]) -> Result<(), SnapshotError>
        ensures twice { (facts : List Fact) → HasTold self.old facts → (path : PathText) (one two : ℕ)
            → IsErrOf result (SnapshotError.TwoClaims path one two)
            → (root : SubtreeRoot) × IsAmong roots.now root × IsToldTwice facts root rank path one two }
        ensures many { (facts : List Fact) → HasTold self.old facts → IfErr result (IsClaimOrGrowth
            (AreTooManyNamed self.old.tree.seen (facts ++ roots_in rank roots.now))) }
        ensures claimed { OnOk result (AreClaimed self.new.fragments roots.now rank) }
        ensures kept { OnOk result (StillClaimed self.old.fragments self.new.fragments) }
        ensures seen { self.new.tree.seen ≡ self.old.tree.seen }
        ensures told { (facts : List Fact) → HasTold self.old facts
            → OnOk result (HasTold self.new (facts ++ roots_in rank roots.now)) }
        ensures listed { self.new.is_listed ≡ self.old.is_listed }
        ensures numbered { self.new.is_numbered ≡ self.old.is_numbered }
    {
        for root in roots {
            self.add_subtree(rank, root)?;
        }
        Ok(())
    }

    /// Adds a value that was listed of a directory of users.
    fn add_value(&mut self, listed: &ListedDir) -> Result<(), SnapshotError>
        ensures claims { self.new.fragments ≡ self.old.fragments }
        ensures seen { self.new.tree.seen ≡ self.old.tree.seen }
        ensures told { (facts : List Fact) → HasTold self.old facts
            → OnOk result (HasTold self.new (facts ++ values_in (listed.now ∷ []))) }
        ensures many { (facts : List Fact) → HasTold self.old facts → IfErr result (IsGrowthError
            (AreTooManyNamed self.old.tree.seen (facts ++ values_in (listed.now ∷ [])))) }
        ensures listed { self.new.is_listed ≡ self.old.is_listed }
        ensures numbered { self.new.is_numbered ≡ self.old.is_numbered }
    {
        let Some(number) = self.tree.number(self.alloc, listed.path.as_slice())? else {
            return Ok(());
        };
        self.tree.add_value(number, listed);
        Ok(())
    }

    /// Adds what a listing says, value by value.
    fn add_values(&mut self, listing: &[ListedDir]) -> Result<(), SnapshotError>
        ensures claims { self.new.fragments ≡ self.old.fragments }
        ensures seen { self.new.tree.seen ≡ self.old.tree.seen }
        ensures told { (facts : List Fact) → HasTold self.old facts
            → OnOk result (HasTold self.new (facts ++ values_in listing.now)) }
        ensures many { (facts : List Fact) → HasTold self.old facts → IfErr result (IsGrowthError
            (AreTooManyNamed self.old.tree.seen (facts ++ values_in listing.now))) }
        ensures listed { self.new.is_listed ≡ self.old.is_listed }
        ensures numbered { self.new.is_numbered ≡ self.old.is_numbered }
    {
        for listed in listing {
            self.add_value(listed)?;
        }
        Ok(())
    }

    /// Adds entries, pins and policies that were listed over a mount.
    pub fn add_listing(&mut self, listing: &[ListedDir]) -> Result<(), SnapshotError>
        ensures claims { self.new.fragments ≡ self.old.fragments }
        ensures seen { self.new.tree.seen ≡ self.old.tree.seen }
        ensures told { (facts : List Fact) → HasTold self.old facts
            → OnOk result (HasTold self.new (facts ++ values_in listing.now)) }
        ensures many { (facts : List Fact) → HasTold self.old facts → IfErr result (IsGrowthError
            (AreTooManyNamed self.old.tree.seen (facts ++ values_in listing.now))) }
        ensures listed { OnOk result (self.new.is_listed ≡ true) }
        ensures numbered { self.new.is_numbered ≡ self.old.is_numbered }
    {
        self.is_listed = true;
        self.add_values(listing)
    }

    /// Adds the inode numbers that were listed over a mount. Directories without one are doubtful from then on.
    pub fn add_numbers(&mut self, listing: &[ListedDir]) -> Result<(), SnapshotError>
        ensures claims { self.new.fragments ≡ self.old.fragments }
        ensures seen { self.new.tree.seen ≡ self.old.tree.seen }
        ensures told { (facts : List Fact) → HasTold self.old facts
            → OnOk result (HasTold self.new (facts ++ values_in listing.now)) }
        ensures many { (facts : List Fact) → HasTold self.old facts → IfErr result (IsGrowthError
            (AreTooManyNamed self.old.tree.seen (facts ++ values_in listing.now))) }
        ensures listed { self.new.is_listed ≡ self.old.is_listed }
        ensures numbered { OnOk result (self.new.is_numbered ≡ true) }
    {
        self.is_numbered = true;
        self.add_values(listing)
    }
}

/// The directory just below the root that a path is or lies in; of the root's path, the root.
fn top_of(path: &[u8]) -> &[u8]
    ensures top { result.now ≡ top_of_path path.now }
    ensures user { is_user_path path.now ≡ true → is_user_path result.now ≡ true }
    ensures lies { is_user_path path.now ≡ true → (path.now ≡ []) ⊎ LiesInTop path.now result.now }
{
    for end in 1..path.len() {
        if path[end] == b'/' {
            return &path[..end];
        }
    }
    path
}
