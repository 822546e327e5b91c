//! Gathers what the files of a folder say that `ceph/collect` wrote.
ghost use Rattle.std.specs.Prelude.{◌≡◌, ◌<◌, ◌++◌, [], IfErr, IfOk, List, OnOk, Option, codes, false, is_some};
ghost use Rattle.std.specs.Option.{option_map, option_map_or};
ghost use Rattle.ceph_dumps.specs.Listing.{AreValuesListed};
ghost use Rattle.ceph_dumps.specs.OwnList.{IsPinListError};
ghost use Rattle.ceph_dumps.specs.PathList.{IsPathListError};
ghost use Rattle.ceph_dumps.specs.declared.listing.ListedDir.{ListedDir};
ghost use Rattle.ceph_dumps.specs.declared.loads.FragmentHeat.{FragmentHeat};
ghost use Rattle.ceph_dumps.specs.declared.subtrees.SubtreeRoot.{SubtreeRoot};
ghost use Rattle.ceph_snapshot.specs.Facts.{Fact, roots_in};
ghost use Rattle.ceph_snapshot.specs.Heard.{HasTold};
ghost use Rattle.ceph_snapshot.specs.Named.{AreTooManyNamed};
ghost use Rattle.ceph_snapshot.specs.Sightings.{PathHeat, seen_in};
ghost use Rattle.ceph_snapshot.specs.Snapshots.{IsSnapshot};
ghost use Rattle.mds_types.specs.declared.limits.TheConstants.{RANK_LIMIT};
ghost use Rattle.mdbal_ceph.specs.Causes.{AreRanksIn, IsCollectFault, IsFolderFault, IsGrowth, IsListedFault};
ghost use Rattle.mdbal_ceph.specs.Causes.{IsRankIn, IsReadInto, IsReadWith, IsSampleIn};
ghost use Rattle.mdbal_ceph.specs.Collections.{Adds, AreLeftOf, HasOurPins, IsCollected, HasGathered, IsOfRanks};
ghost use Rattle.mdbal_ceph.specs.Collections.{IsOwnOf, pins_listed};
ghost use Rattle.mdbal_ceph.specs.Dumps.{AreInodes, AreRankDumps, IsLoadsFile, IsRankDump, IsRootsFile, IsSampleCount};
ghost use Rattle.mdbal_ceph.specs.Dumps.{RankDump, all_seen, file_in, listed_facts, loads_file, rank_facts, rank_seen};
ghost use Rattle.mdbal_ceph.specs.Dumps.{ranks_below, ranks_if, root_facts, subtrees_file};
ghost use Rattle.mdbal_ceph.specs.Folder.{IsInFileIfAny};
ghost use Rattle.mdbal_ceph.specs.Options.{AreNamed};

use crate::dump_reader::DumpReader;
use crate::folder::Folder;
use crate::inputs::Inputs;
use crate::named::paths0;
use crate::no_result::{NoResult, claim_error, doubt_error};
use crate::progress::Progress;
use crate::source::{
    Source, balances, cluster_of, file_system_of, listing_of, loads_of, mounted_of, own_list_of,
    path_list_of, roots_of, sample_count,
};
use ceph_dumps::{FileSystem, FileSystemRanks, OwnPin};
use ceph_snapshot::{Gathering, Snapshot};
use mds_types::limits::RANK_LIMIT;
use mds_types::{Rank, RankSet};
use std::alloc::Global;

/// What was collected.
#[derive(Drop)]
pub struct Collected {
    /// Which file system it is of.
    pub file_system: FileSystem,
    /// The ranks of the file system.
    pub cluster: FileSystemRanks,
    /// Whether Ceph's balancer is on.
    pub balances: bool,
    /// How many samples of heat each rank gave.
    pub samples: u64,
    /// The pins of an earlier plan, where their list is asked for.
    pub own: Option<Vec<OwnPin>>,
    /// The directories.
    pub snapshot: Snapshot,
}

/// The source of this folder.
fn source_of<'a, F: Folder, D: DumpReader, P: Progress>(
    inputs: &Inputs<'a, F, D, P>,
    folder: &'a str,
) -> Result<Source<'a, F, D, P>, NoResult>
    ensures files { IfOk result (λ source. source.files.now ≡ inputs.now.files.now) }
    ensures folder { IfOk result (λ source. source.folder.now ≡ folder.entry.now) }
    ensures numbers { IfOk result (λ source. IsInFileIfAny (F.reads inputs.now.files.now) AreInodes
        (file_in folder.entry.now (codes "inodes")) source.mounted) }
    ensures count { IfOk result (λ source. IsSampleCount (F.reads inputs.now.files.now) folder.entry.now
        source.samples) }
    ensures failed { IfErr result (IsFolderFault (F.reads inputs.now.files.now) D.says D.refuses folder.entry.now) }
{
    let mounted = mounted_of(inputs, folder)?;
    let samples = sample_count(inputs, folder)?;
    Ok(Source {
        files: inputs.files,
        reader: inputs.reader,
        progress: inputs.progress,
        alloc: inputs.alloc,
        folder,
        mounted,
        samples,
    })
}

/// Adds the roots that a rank has.
fn add_subtrees<F: Folder, D: DumpReader, P: Progress>(
    gathering: &mut Gathering,
    source: &Source<'_, F, D, P>,
    rank: Rank,
) -> Result<(), NoResult>
    ensures added { OnOk result ((roots : List SubtreeRoot) × IsRootsFile (F.reads source.now.files.now) D.says
        source.now.mounted (subtrees_file source.now.folder.now rank) roots
        × Adds gathering.old gathering.new [] (roots_in rank roots)) }
    ensures failed { IsReadInto (F.reads source.now.files.now) D.says D.refuses source.now.folder.now
        source.now.mounted source.now.samples gathering.old
        → IsRankIn (F.reads source.now.files.now) D.says D.refuses source.now.folder.now rank
        → IfErr result (IsFolderFault (F.reads source.now.files.now) D.says D.refuses
        source.now.folder.now) }
{
    let roots = roots_of(source, rank)?;
    match gathering.add_subtrees(rank, roots.as_slice()) {
        Ok(()) => Ok(()),
        Err(error) => Err(claim_error(error)),
    }
}

/// Adds a sample of a rank's heat.
fn add_loads<F: Folder, D: DumpReader, P: Progress>(
    gathering: &mut Gathering,
    source: &Source<'_, F, D, P>,
    rank: Rank,
    sample: u64,
) -> Result<(), NoResult>
    ensures added { OnOk result ((loads : List FragmentHeat) × IsLoadsFile (F.reads source.now.files.now) D.says
        source.now.mounted (loads_file source.now.folder.now rank sample) loads
        × Adds gathering.old gathering.new (seen_in rank loads) []) }
    ensures failed { IsReadInto (F.reads source.now.files.now) D.says D.refuses source.now.folder.now
        source.now.mounted source.now.samples gathering.old
        → IsRankIn (F.reads source.now.files.now) D.says D.refuses source.now.folder.now rank
        → IsSampleIn (F.reads source.now.files.now) D.says D.refuses source.now.folder.now sample
        → IfErr result (IsFolderFault (F.reads source.now.files.now) D.says D.refuses
        source.now.folder.now) }
{
    source.progress.reading();
    let loads = loads_of(source, rank, sample)?;
    gathering.add_loads(rank, loads.as_slice())?;
    Ok(())
}

/// Adds the dumps of a rank.
fn add_rank<F: Folder, D: DumpReader, P: Progress>(
    gathering: &mut Gathering,
    source: &Source<'_, F, D, P>,
    rank: Rank,
) -> Result<(), NoResult>
    ensures added { OnOk result ((dump : RankDump) × (dump.rank ≡ rank)
        × IsRankDump (F.reads source.now.files.now) D.says
        source.now.mounted source.now.folder.now source.now.samples dump
        × Adds gathering.old gathering.new (rank_seen dump) (rank_facts dump)) }
    ensures failed { IsReadInto (F.reads source.now.files.now) D.says D.refuses source.now.folder.now
        source.now.mounted source.now.samples gathering.old
        → IsRankIn (F.reads source.now.files.now) D.says D.refuses source.now.folder.now rank
        → IfErr result (IsFolderFault (F.reads source.now.files.now) D.says D.refuses
        source.now.folder.now) }
{
    add_subtrees(gathering, source, rank)?;
    for sample in 0..source.samples {
        add_loads(gathering, source, rank, sample + 1)?;
    }
    Ok(())
}

/// Adds the dumps of the rank of this number, if the set has it.
fn add_rank_if_in<F: Folder, D: DumpReader, P: Progress>(
    gathering: &mut Gathering,
    source: &Source<'_, F, D, P>,
    ranks: RankSet,
    number: u8,
) -> Result<(), NoResult>
    requires { number < RANK_LIMIT }
    ensures added { OnOk result ((dumps : List RankDump) × AreRankDumps (F.reads source.now.files.now) D.says
        source.now.mounted source.now.folder.now source.now.samples (ranks_if ranks number) dumps
        × Adds gathering.old gathering.new (all_seen dumps) (root_facts dumps)) }
    ensures failed { IsReadInto (F.reads source.now.files.now) D.says D.refuses source.now.folder.now
        source.now.mounted source.now.samples gathering.old
        → AreRanksIn (F.reads source.now.files.now) D.says D.refuses source.now.folder.now ranks
        → IfErr result (IsFolderFault (F.reads source.now.files.now) D.says D.refuses
        source.now.folder.now) }
{
    let Some(rank) = Rank::new(number) else {
        unreachable!();
    };
    if !ranks.has(rank) {
        return Ok(());
    }
    add_rank(gathering, source, rank)?;
    Ok(())
}

/// Adds the dumps of all ranks.
fn add_ranks<F: Folder, D: DumpReader, P: Progress>(
    gathering: &mut Gathering,
    source: &Source<'_, F, D, P>,
    ranks: RankSet,
) -> Result<(), NoResult>
    ensures added { OnOk result ((dumps : List RankDump) × AreRankDumps (F.reads source.now.files.now) D.says
        source.now.mounted source.now.folder.now source.now.samples (ranks_below ranks RANK_LIMIT) dumps
        × Adds gathering.old gathering.new (all_seen dumps) (root_facts dumps)) }
    ensures failed { IsReadInto (F.reads source.now.files.now) D.says D.refuses source.now.folder.now
        source.now.mounted source.now.samples gathering.old
        → AreRanksIn (F.reads source.now.files.now) D.says D.refuses source.now.folder.now ranks
        → IfErr result (IsFolderFault (F.reads source.now.files.now) D.says D.refuses
        source.now.folder.now) }
{
    for number in 0..RANK_LIMIT {
        add_rank_if_in(gathering, source, ranks, number)?;
    }
    Ok(())
}

/// Reads the dumps of these ranks.
fn read_dumps<F: Folder, D: DumpReader, P: Progress>(
    source: &Source<'_, F, D, P>,
    ranks: RankSet,
) -> Result<Gathering, NoResult>
    ensures gathered { IfOk result (λ gathering. (dumps : List RankDump)
        × AreRankDumps (F.reads source.now.files.now) D.says
        source.now.mounted source.now.folder.now source.now.samples (ranks_below ranks RANK_LIMIT) dumps
        × HasGathered (all_seen dumps) (root_facts dumps) false false gathering) }
    ensures read { IsReadWith (F.reads source.now.files.now) D.says D.refuses source.now.folder.now
        source.now.mounted source.now.samples
        → AreRanksIn (F.reads source.now.files.now) D.says D.refuses source.now.folder.now ranks
        → IfOk result (IsReadInto (F.reads source.now.files.now) D.says D.refuses source.now.folder.now
        source.now.mounted source.now.samples) }
    ensures failed { IsReadWith (F.reads source.now.files.now) D.says D.refuses source.now.folder.now
        source.now.mounted source.now.samples
        → AreRanksIn (F.reads source.now.files.now) D.says D.refuses source.now.folder.now ranks
        → IfErr result (IsFolderFault (F.reads source.now.files.now) D.says D.refuses
        source.now.folder.now) }
{
    let mut gathering = Gathering::new(source.alloc)?;
    let dumps = u64::from(ranks.len()).saturating_mul(source.samples);
    source.progress.begin(dumps);
    add_ranks(&mut gathering, source, ranks)?;
    Ok(gathering)
}

/// Adds the inode numbers that were listed over a mount, where they were.
fn add_numbers<F, D, P>(
    gathering: &mut Gathering,
    source: &Source<'_, F, D, P>,
) -> Result<(), NoResult>
    ensures added { (seen : List PathHeat) (facts : List Fact) → HasGathered seen facts false false gathering.old
        → OnOk result (HasGathered seen (facts ++ listed_facts source.now.mounted) false
        (is_some source.now.mounted) gathering.new) }
    ensures seen { gathering.new.tree.seen ≡ gathering.old.tree.seen }
    ensures told { (facts : List Fact) → HasTold gathering.old facts
        → OnOk result (HasTold gathering.new (facts ++ listed_facts source.now.mounted)) }
    ensures failed { (facts : List Fact) → HasTold gathering.old facts → IfErr result (IsGrowth
        (AreTooManyNamed gathering.old.tree.seen (facts ++ listed_facts source.now.mounted))) }
{
    let Some(mounted) = &source.mounted else {
        return Ok(());
    };
    gathering.add_numbers(mounted.listing())?;
    Ok(())
}

/// Adds what was listed over a mount, where there are such files.
fn add_listing<F: Folder, D: DumpReader, P: Progress>(
    gathering: &mut Gathering,
    source: &Source<'_, F, D, P>,
) -> Result<(), NoResult>
    ensures added { (seen : List PathHeat) (facts : List Fact) → HasGathered seen facts false false gathering.old
        → OnOk result ((listing : Option (List ListedDir)) × IsInFileIfAny (F.reads source.now.files.now)
        AreValuesListed (file_in source.now.folder.now (codes "dirs")) listing
        × HasGathered seen (facts ++ listed_facts source.now.mounted ++ listed_facts listing) (is_some listing)
        (is_some source.now.mounted) gathering.new) }
    ensures failed { IsReadInto (F.reads source.now.files.now) D.says D.refuses source.now.folder.now
        source.now.mounted source.now.samples gathering.old
        → IfErr result (IsFolderFault (F.reads source.now.files.now) D.says D.refuses
        source.now.folder.now) }
{
    add_numbers(gathering, source)?;
    let Some(listing) = listing_of(source)? else {
        return Ok(());
    };
    gathering.add_listing(listing.as_slice())?;
    Ok(())
}

/// The pins of an earlier plan, where their list is asked for.
fn own_pins<F: Folder>(
    files: &F,
    alloc: Global,
    path: Option<&str>,
) -> Result<Option<Vec<OwnPin>>, NoResult>
    ensures own { IfOk result (IsOwnOf (F.reads files.now) (option_map (λ name. name.now) path.entry)) }
    ensures failed { IfErr result (IsListedFault (F.reads files.now) IsPinListError
        (option_map (λ name. name.now) path.entry)) }
{
    match path {
        Some(path) => Ok(Some(own_list_of(files, alloc, path)?)),
        None => Ok(None),
    }
}

/// The directories that are to be left where they are: those of a list, where there is one.
pub fn read_left<F: Folder>(
    files: &F,
    alloc: Global,
    path: Option<&str>,
) -> Result<Vec<Vec<u8>>, NoResult>
    ensures leave { IfOk result (λ leave. AreLeftOf (F.reads files.now) (option_map (λ name. name.now) path.entry)
        leave.items) }
    ensures failed { IfErr result (IsListedFault (F.reads files.now) IsPathListError
        (option_map (λ name. name.now) path.entry)) }
{
    match path {
        Some(path) => path_list_of(files, alloc, path),
        None => Ok(Vec::new(alloc)),
    }
}

/// The pins of a list, and none where there is no list.
pub fn listed(own: &Option<Vec<OwnPin>>) -> &[OwnPin]
    ensures { result.now ≡ pins_listed own.now }
{
    match own {
        Some(pins) => pins.as_slice(),
        None => &[],
    }
}

/// Reads the dumps of the ranks of a folder, without what was listed over a mount.
pub(crate) fn read_ranks<F: Folder, D: DumpReader, P: Progress>(
    inputs: &Inputs<'_, F, D, P>,
    folder: &str,
) -> Result<Snapshot, NoResult>
    ensures ranks { IfOk result (IsOfRanks (F.reads inputs.now.files.now) D.says folder.now) }
    ensures failed { IfErr result (IsFolderFault (F.reads inputs.now.files.now) D.says D.refuses folder.now) }
{
    let ranks = cluster_of(inputs, folder)?.ranks;
    let source = source_of(inputs, folder)?;
    let gathering = read_dumps(&source, ranks)?;
    match gathering.snapshot(&[], source.samples, ranks) {
        Ok(snapshot) => Ok(snapshot),
        Err(error) => Err(doubt_error(error)),
    }
}

/// The paths of the directories that the dumps of a folder name, and of a list of pins where it is asked for.
pub fn read_named<F: Folder, D: DumpReader, P: Progress>(
    inputs: &Inputs<'_, F, D, P>,
    folder: &str,
    own: Option<&str>,
) -> Result<Vec<u8>, NoResult>
    ensures named { IfOk result (λ text. AreNamed (F.reads inputs.now.files.now) D.says folder.now
        (option_map (λ name. name.now) own.entry) text.items) }
    ensures failed { IfErr result (IsCollectFault (F.reads inputs.now.files.now) D.says D.refuses folder.now
        (option_map (λ name. name.now) own.entry)) }
{
    let snapshot = read_ranks(inputs, folder)?;
    let own = own_pins(inputs.files, inputs.alloc, own)?;
    let text = paths0(inputs.alloc, &snapshot.directories, listed(&own))?;
    Ok(text)
}

/// Reads a folder, and the list of pins of an earlier plan if there is one.
pub fn read_collected<F: Folder, D: DumpReader, P: Progress>(
    inputs: &Inputs<'_, F, D, P>,
    folder: &str,
    own: Option<&str>,
) -> Result<Collected, NoResult>
    ensures collected { IfOk result (IsCollected (F.reads inputs.now.files.now) D.says folder.now
        (option_map (λ name. name.now) own.entry)) }
    ensures ours { IfOk result (λ collected. HasOurPins collected) }
    ensures failed { IfErr result (IsCollectFault (F.reads inputs.now.files.now) D.says D.refuses folder.now
        (option_map (λ name. name.now) own.entry)) }
{
    let file_system = file_system_of(inputs, folder)?;
    let cluster = cluster_of(inputs, folder)?;
    let balances = balances(inputs, folder)?;
    let source = source_of(inputs, folder)?;
    let ranks = cluster.ranks;
    let mut gathering = read_dumps(&source, ranks)?;
    add_listing(&mut gathering, &source)?;
    let own = own_pins(inputs.files, inputs.alloc, own)?;
    let snapshot = match gathering.snapshot(listed(&own), source.samples, ranks) {
        Ok(snapshot) => snapshot,
        Err(error) => return Err(doubt_error(error)),
    };
    Ok(Collected {
        file_system,
        cluster,
        balances,
        samples: source.samples,
        own,
        snapshot,
    })
}
