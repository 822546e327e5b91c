//! The names of a mount in place of those of the dumps.
//!
//! A dump names a directory by the names that a rank keeps. They are not those of the mount where a directory is
//! case-insensitive (Ceph folds its names), where names are encrypted, and where it was renamed meanwhile. Its inode
//! number is the same.
ghost use Rattle.std.specs.Prelude.{◌≡◌, ◌<◌, ◌^◌, ℕ, IfErr, IfOk, OnOk, None, Some, is_some, length, nat_eq};
ghost use Rattle.std.specs.Prelude.{slice_get, if◌then◌else◌};
ghost use Rattle.std.specs.HashMap.{get};
ghost use Rattle.std.specs.Option.{option_map};
ghost use Rattle.ceph_snapshot.specs.Growth.{IsGrowthError};
ghost use Rattle.ceph_snapshot.specs.Mounts.{is_number, mounted_heat, mounted_path, mounted_root};
ghost use Rattle.ceph_dumps.specs.Subtrees.{root_data};
ghost use Rattle.ceph_snapshot.specs.Mounts.{only_path, paths_of};
ghost use Rattle.ceph_snapshot.specs.Sightings.{of_fragment};

use crate::snapshot_error::SnapshotError;
use ceph_dumps::{FragmentHeat, ListedDir, ListedValue, SubtreeRoot, inode_of};
use std::alloc::{AllocError, Global};
use std::collections::HashMap;
use std::marker::Model;

/// The inode numbers of directories that were listed over a mount. To a contract, it is the listing.
#[derive(Drop)]
pub struct Mounted {
    listing: Vec<ListedDir>,
    /// The place of each number in the listing; none where it is there more than once.
    places: HashMap<u64, Option<u32>>,
}

impl Model for Mounted {
    ghost use Rattle.std.specs.Prelude.{List};
    ghost use Rattle.ceph_dumps.specs.declared.listing.ListedDir.{ListedDir};
    ghost use Rattle.ceph_snapshot.specs.Places.{ArePlaces};

    ghost Value = { List ListedDir };

    ghost view = { λ m. m.listing.items };

    ghost invariant = { λ m. ArePlaces m.listing.items m.places };
}

/// Notes the place of what was listed, if that is a number.
fn note(
    places: &mut HashMap<u64, Option<u32>>,
    listed: &ListedDir,
    place: u32,
) -> Result<(), AllocError>
    ensures { OnOk result ((number : ℕ) → get nat_eq places.new number
        ≡ (if is_number number listed.now.value
        then Some (if is_some (get nat_eq places.old number) then None else Some place)
        else get nat_eq places.old number)) }
{
    let ListedValue::Inode(number) = listed.value else {
        return Ok(());
    };
    let is_again = places.contains_key(&number);
    places.insert(number, if is_again { None } else { Some(place) })?;
    Ok(())
}

impl Mounted {
    /// The numbers of a listing.
    pub fn new(alloc: Global, listing: Vec<ListedDir>) -> Result<Mounted, SnapshotError>
        ensures numbers { IfOk result (λ mounted. mounted ≡ listing.items) }
        ensures many { IfErr result (IsGrowthError (2 ^ 32 < length listing.items)) }
    {
        let mut places = HashMap::new(alloc);
        for at in 0..listing.len() {
            let Ok(place) = u32::try_from(at) else {
                return Err(SnapshotError::TooMany);
            };
            note(&mut places, &listing[at], place)?;
        }
        Ok(Mounted { listing, places })
    }

    /// The listing.
    pub fn listing(&self) -> &[ListedDir]
        ensures { result.now ≡ self.now }
    {
        self.listing.as_slice()
    }

    /// The path that is listed with a number, if there is exactly one.
    fn path_of(&self, number: u64) -> Option<&[u8]>
        ensures { option_map (λ path. path.now) result ≡ only_path (paths_of self.now number) }
    {
        match self.places.get(&number) {
            Some(Some(at)) => Some(self.listing[*at as usize].path.as_slice()),
            _ => None,
        }
    }

    /// Puts the path that is listed with a number in place of this one, if there is exactly one.
    fn rename(
        &self,
        alloc: Global,
        path: &mut Vec<u8>,
        inode: Option<u64>,
    ) -> Result<(), AllocError>
        ensures { OnOk result (path.new.items ≡ mounted_path self.now inode path.old.items) }
    {
        let Some(number) = inode else {
            return Ok(());
        };
        if let Some(here) = self.path_of(number) {
            if here != path.as_slice() {
                *path = Vec::from_slice(alloc, here)?;
            }
        }
        Ok(())
    }

    /// Names the directory of a fragment as the mount does.
    fn name_fragment(&self, alloc: Global, fragment: &mut FragmentHeat) -> Result<(), AllocError>
        ensures { (rank : ℕ) → OnOk result (of_fragment rank fragment.new
            ≡ mounted_heat self.now (of_fragment rank fragment.old)) }
    {
        let inode = fragment.inode;
        self.rename(alloc, &mut fragment.path, inode)
    }

    /// Names the directories of fragments as the mount does: each by its inode number, if exactly one path is listed
    /// with that.
    pub fn name_fragments(
        &self,
        alloc: Global,
        fragments: &mut [FragmentHeat],
    ) -> Result<(), AllocError>
        ensures { (rank i : ℕ) → OnOk result (option_map (of_fragment rank) (slice_get fragments.new i)
            ≡ option_map (λ f. mounted_heat self.now (of_fragment rank f)) (slice_get fragments.old i)) }
    {
        for at in 0..fragments.len() {
            self.name_fragment(alloc, &mut fragments[at])?;
        }
        Ok(())
    }

    /// Names the directory of a root as the mount does.
    fn name_root(&self, alloc: Global, root: &mut SubtreeRoot) -> Result<(), AllocError>
        ensures { OnOk result (root_data root.new ≡ mounted_root self.now (root_data root.old)) }
    {
        let inode = root.fragment.as_deref().and_then(inode_of);
        self.rename(alloc, &mut root.path, inode)
    }

    /// Names the directories of roots as the mount does: each by the inode number in the name of its fragment, if
    /// exactly one path is listed with that.
    pub fn name_roots(&self, alloc: Global, roots: &mut [SubtreeRoot]) -> Result<(), AllocError>
        ensures { (i : ℕ) → OnOk result (option_map root_data (slice_get roots.new i)
            ≡ option_map (λ root. mounted_root self.now (root_data root)) (slice_get roots.old i)) }
    {
        for at in 0..roots.len() {
            self.name_root(alloc, &mut roots[at])?;
        }
        Ok(())
    }
}
