//! The files of a folder that `ceph/collect` wrote, each read as what it is.
ghost use Rattle.std.specs.Prelude.{◌≡◌, ◌<◌, ◌≤◌, IfErr, IfOk, codes, false, option_map, string_bytes};
ghost use Rattle.ceph_dumps.specs.Listing.{AreValuesListed};
ghost use Rattle.ceph_dumps.specs.OwnList.{ArePinsOfList, IsPinListError};
ghost use Rattle.ceph_dumps.specs.PathList.{ArePathsOfList, IsPathListError};
ghost use Rattle.mdbal_ceph.specs.Causes.{IsFolderFault, IsListFault, IsNamedBy, IsNoBytes, IsRankIn, IsSampleIn};
ghost use Rattle.mdbal_ceph.specs.Causes.{IsUnread};
ghost use Rattle.mdbal_ceph.specs.Dumps.{AreInodes, IsLoadsFile, IsRootsFile, IsSampleCount, Ranks};
ghost use Rattle.mdbal_ceph.specs.Dumps.{file_in, loads_file, subtrees_file};
ghost use Rattle.mdbal_ceph.specs.Folder.{Bytes, IsInFile, IsInFileIfAny, Missing, content_of};
ghost use Rattle.mdbal_ceph.specs.Collections.{IsBalancerOf, IsFileSystemOf};

use crate::dump_reader::DumpReader;
use crate::folder::Folder;
use crate::inputs::Inputs;
use crate::no_result::{FileFault, NoResult, named, refused, unread};
use ceph_dumps::{
    FileSystem, FileSystemRanks, FragmentHeat, ListedDir, OwnPin, SubtreeRoot, read_balancer,
    read_complete, read_inodes, read_listing, read_own_list, read_path_list,
};
use ceph_snapshot::Mounted;
use mds_types::Rank;
use std::alloc::{AllocError, Global};

/// The most samples that are read.
const SAMPLE_LIMIT: u64 = 1000;

/// Where dumps are read, and how they are named over a mount, where inode numbers were listed.
#[derive(Drop)]
pub(crate) struct Source<'a, F, D, P> {
    pub files: &'a F,
    pub reader: D,
    pub progress: &'a P,
    pub alloc: Global,
    pub folder: &'a str,
    pub mounted: Option<Mounted>,
    /// How many samples of heat each rank gave.
    pub samples: u64,
}

/// The bytes of a file, if it is there.
pub(crate) fn bytes_if_there<F: Folder>(
    files: &F,
    alloc: Global,
    path: &str,
) -> Result<Option<Vec<u8>>, NoResult>
    ensures found { IfOk result (λ found. F.reads files.now path.now (content_of found)) }
    ensures failed { IfErr result (IsNamedBy path.now (IsUnread (F.reads files.now) path.now)) }
{
    match files.read(path) {
        Ok(found) => Ok(found),
        Err(error) => Err(unread(alloc, path, error)),
    }
}

/// The bytes of a file that has to be there.
fn bytes_of<F: Folder>(files: &F, alloc: Global, path: &str) -> Result<Vec<u8>, NoResult>
    ensures found { IfOk result (λ bytes. F.reads files.now path.now (Bytes bytes.items)) }
    ensures failed { IfErr result (IsNamedBy path.now (IsNoBytes (F.reads files.now) path.now)) }
{
    match bytes_if_there(files, alloc, path)? {
        Some(bytes) => Ok(bytes),
        None => Err(named(alloc, path, FileFault::Missing)),
    }
}

/// The name of a file of a folder.
fn file_in(alloc: Global, folder: &str, name: &str) -> Result<String, AllocError>
    ensures { IfOk result (λ path. string_bytes path ≡ file_in folder.now name.now) }
{
    format!(in alloc; "{folder}/{name}")
}

/// The name of the file of a rank's roots.
pub(crate) fn subtrees_file(alloc: Global, folder: &str, rank: u8) -> Result<String, AllocError>
    ensures { IfOk result (λ path. string_bytes path ≡ subtrees_file folder.now rank) }
{
    format!(in alloc; "{folder}/subtrees.{rank}.json")
}

/// The name of the file of a sample of a rank's heat.
pub(crate) fn loads_file(
    alloc: Global,
    folder: &str,
    rank: u8,
    sample: u64,
) -> Result<String, AllocError>
    ensures { IfOk result (λ path. string_bytes path ≡ loads_file folder.now rank sample) }
{
    format!(in alloc; "{folder}/loads.{rank}.{sample}.json")
}

/// The inode numbers that were listed over a mount, where there is such a file.
pub(crate) fn mounted_of<F: Folder, D: DumpReader, P>(
    inputs: &Inputs<'_, F, D, P>,
    folder: &str,
) -> Result<Option<Mounted>, NoResult>
    ensures numbers { IfOk result (IsInFileIfAny (F.reads inputs.now.files.now) AreInodes
        (file_in folder.now (codes "inodes"))) }
    ensures failed { IfErr result (IsFolderFault (F.reads inputs.now.files.now) D.says D.refuses folder.now) }
{
    let path = file_in(inputs.alloc, folder, "inodes")?;
    let path = path.as_str();
    let Some(bytes) = bytes_if_there(inputs.files, inputs.alloc, path)? else {
        return Ok(None);
    };
    match read_inodes(inputs.alloc, &bytes) {
        Ok(listing) => Ok(Some(Mounted::new(inputs.alloc, listing)?)),
        Err(error) => Err(refused(inputs.alloc, path, error)),
    }
}

/// Whether rank 0 gave a sample of this number.
fn has_sample<F: Folder, D: DumpReader, P>(
    inputs: &Inputs<'_, F, D, P>,
    folder: &str,
    sample: u64,
) -> Result<bool, NoResult>
    requires { (1 < sample) × (sample ≤ SAMPLE_LIMIT) }
    ensures there { IfOk result (λ there. there ≡ false
        → F.reads inputs.now.files.now (loads_file folder.now 0 sample) Missing) }
    ensures failed { IfErr result (IsFolderFault (F.reads inputs.now.files.now) D.says D.refuses folder.now) }
{
    let path = loads_file(inputs.alloc, folder, 0, sample)?;
    let path = path.as_str();
    match inputs.files.has(path) {
        Ok(there) => Ok(there),
        Err(error) => Err(unread(inputs.alloc, path, error)),
    }
}

/// How many samples rank 0 gave: one at least, as a first one that isn't there is refused when it is read.
pub(crate) fn sample_count<F: Folder, D: DumpReader, P>(
    inputs: &Inputs<'_, F, D, P>,
    folder: &str,
) -> Result<u64, NoResult>
    ensures count { IfOk result (IsSampleCount (F.reads inputs.now.files.now) folder.now) }
    ensures failed { IfErr result (IsFolderFault (F.reads inputs.now.files.now) D.says D.refuses folder.now) }
{
    for sample in 1..SAMPLE_LIMIT {
        if !has_sample(inputs, folder, sample + 1)? {
            return Ok(sample);
        }
    }
    Ok(SAMPLE_LIMIT)
}

/// The roots of a rank, named as over the mount.
pub(crate) fn roots_of<F: Folder, D: DumpReader, P>(
    source: &Source<'_, F, D, P>,
    rank: Rank,
) -> Result<Vec<SubtreeRoot>, NoResult>
    ensures roots { IfOk result (λ roots. IsRootsFile (F.reads source.now.files.now) D.says source.now.mounted
        (subtrees_file source.now.folder.now rank) roots.items) }
    ensures failed { IsRankIn (F.reads source.now.files.now) D.says D.refuses source.now.folder.now rank
        → IfErr result (IsFolderFault (F.reads source.now.files.now) D.says D.refuses source.now.folder.now) }
{
    let path = subtrees_file(source.alloc, source.folder, rank.number())?;
    let path = path.as_str();
    let bytes = bytes_of(source.files, source.alloc, path)?;
    let mut roots = match source.reader.roots(source.alloc, &bytes) {
        Ok(roots) => roots,
        Err(error) => return Err(refused(source.alloc, path, error)),
    };
    if let Some(mounted) = &source.mounted {
        mounted.name_roots(source.alloc, roots.as_mut_slice())?;
    }
    Ok(roots)
}

/// A sample of a rank's heat, named as over the mount.
pub(crate) fn loads_of<F: Folder, D: DumpReader, P>(
    source: &Source<'_, F, D, P>,
    rank: Rank,
    sample: u64,
) -> Result<Vec<FragmentHeat>, NoResult>
    ensures loads { IfOk result (λ loads. IsLoadsFile (F.reads source.now.files.now) D.says source.now.mounted
        (loads_file source.now.folder.now rank sample) loads.items) }
    ensures failed { IsRankIn (F.reads source.now.files.now) D.says D.refuses source.now.folder.now rank
        → IsSampleIn (F.reads source.now.files.now) D.says D.refuses source.now.folder.now sample
        → IfErr result (IsFolderFault (F.reads source.now.files.now) D.says D.refuses source.now.folder.now) }
{
    let path = loads_file(source.alloc, source.folder, rank.number(), sample)?;
    let path = path.as_str();
    let bytes = bytes_of(source.files, source.alloc, path)?;
    let mut loads = match source.reader.loads(source.alloc, &bytes) {
        Ok(loads) => loads,
        Err(error) => return Err(refused(source.alloc, path, error)),
    };
    if let Some(mounted) = &source.mounted {
        mounted.name_fragments(source.alloc, loads.as_mut_slice())?;
    }
    Ok(loads)
}

/// What was listed of directories over a mount, where there is such a file.
pub(crate) fn listing_of<F: Folder, D: DumpReader, P>(
    source: &Source<'_, F, D, P>,
) -> Result<Option<Vec<ListedDir>>, NoResult>
    ensures listing { IfOk result (λ listing. IsInFileIfAny (F.reads source.now.files.now) AreValuesListed
        (file_in source.now.folder.now (codes "dirs")) (option_map (λ found. found.items) listing)) }
    ensures failed { IfErr result (IsFolderFault (F.reads source.now.files.now) D.says D.refuses
        source.now.folder.now) }
{
    let path = file_in(source.alloc, source.folder, "dirs")?;
    let path = path.as_str();
    let Some(bytes) = bytes_if_there(source.files, source.alloc, path)? else {
        return Ok(None);
    };
    match read_listing(source.alloc, &bytes) {
        Ok(listing) => Ok(Some(listing)),
        Err(error) => Err(refused(source.alloc, path, error)),
    }
}

/// The ranks of the file system.
pub(crate) fn cluster_of<F: Folder, D: DumpReader, P>(
    inputs: &Inputs<'_, F, D, P>,
    folder: &str,
) -> Result<FileSystemRanks, NoResult>
    ensures cluster { IfOk result (λ cluster. IsInFile (F.reads inputs.now.files.now) D.says
        (file_in folder.now (codes "fs.json")) (Ranks cluster)) }
    ensures failed { IfErr result (IsFolderFault (F.reads inputs.now.files.now) D.says D.refuses folder.now) }
{
    let path = file_in(inputs.alloc, folder, "fs.json")?;
    let path = path.as_str();
    let bytes = bytes_of(inputs.files, inputs.alloc, path)?;
    match inputs.reader.cluster(inputs.alloc, &bytes) {
        Ok(cluster) => Ok(cluster),
        Err(error) => Err(refused(inputs.alloc, path, error)),
    }
}

/// Whether Ceph's balancer is on, as it counts where the collector didn't ask.
pub(crate) fn balances<F: Folder, D: DumpReader, P>(
    inputs: &Inputs<'_, F, D, P>,
    folder: &str,
) -> Result<bool, NoResult>
    ensures balancer { IfOk result (IsBalancerOf (F.reads inputs.now.files.now) folder.now) }
    ensures failed { IfErr result (IsFolderFault (F.reads inputs.now.files.now) D.says D.refuses folder.now) }
{
    let path = file_in(inputs.alloc, folder, "balancer")?;
    let path = path.as_str();
    let Some(bytes) = bytes_if_there(inputs.files, inputs.alloc, path)? else {
        return Ok(true);
    };
    match read_balancer(&bytes) {
        Ok(is_on) => Ok(is_on),
        Err(error) => Err(refused(inputs.alloc, path, error)),
    }
}

/// Why a folder lacks its last file, whose name is `path`.
fn unfinished<F: Folder, D: DumpReader, P>(
    inputs: &Inputs<'_, F, D, P>,
    folder: &str,
    path: &str,
) -> NoResult
    requires path { path.now ≡ file_in folder.now (codes "complete") }
    requires missing { F.reads inputs.now.files.now path.now Missing }
    ensures { IsFolderFault (F.reads inputs.now.files.now) D.says D.refuses folder.now result }
{
    match inputs.files.has(folder) {
        Ok(false) => named(inputs.alloc, folder, FileFault::NoFolder),
        _ => named(inputs.alloc, path, FileFault::Unfinished),
    }
}

/// Which file system a folder is of. A folder that the collector didn't finish is refused.
pub(crate) fn file_system_of<F: Folder, D: DumpReader, P>(
    inputs: &Inputs<'_, F, D, P>,
    folder: &str,
) -> Result<FileSystem, NoResult>
    ensures of { IfOk result (IsFileSystemOf (F.reads inputs.now.files.now) folder.now) }
    ensures failed { IfErr result (IsFolderFault (F.reads inputs.now.files.now) D.says D.refuses folder.now) }
{
    let path = file_in(inputs.alloc, folder, "complete")?;
    let path = path.as_str();
    let Some(bytes) = bytes_if_there(inputs.files, inputs.alloc, path)? else {
        return Err(unfinished(inputs, folder, path));
    };
    match read_complete(inputs.alloc, &bytes) {
        Ok(found) => Ok(found),
        Err(error) => Err(refused(inputs.alloc, path, error)),
    }
}

/// The pins of the list of this name.
pub(crate) fn own_list_of<F: Folder>(
    files: &F,
    alloc: Global,
    path: &str,
) -> Result<Vec<OwnPin>, NoResult>
    ensures own { IfOk result (λ own. IsInFile (F.reads files.now) ArePinsOfList path.now own.items) }
    ensures failed { IfErr result (IsNamedBy path.now (IsListFault (F.reads files.now) IsPinListError path.now)) }
{
    let bytes = bytes_of(files, alloc, path)?;
    match read_own_list(alloc, &bytes) {
        Ok(own) => Ok(own),
        Err(error) => Err(refused(alloc, path, error)),
    }
}

/// The directories of the list of this name.
pub(crate) fn path_list_of<F: Folder>(
    files: &F,
    alloc: Global,
    path: &str,
) -> Result<Vec<Vec<u8>>, NoResult>
    ensures paths { IfOk result (λ paths. IsInFile (F.reads files.now) ArePathsOfList path.now paths.items) }
    ensures failed { IfErr result (IsNamedBy path.now (IsListFault (F.reads files.now) IsPathListError path.now)) }
{
    let bytes = bytes_of(files, alloc, path)?;
    match read_path_list(alloc, &bytes) {
        Ok(paths) => Ok(paths),
        Err(error) => Err(refused(alloc, path, error)),
    }
}
