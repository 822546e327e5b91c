//! The ranks of a file system: what `ceph fs get NAME -f json` answers.
ghost use Rattle.std.specs.Prelude.{◌≡◌, ◌≢◌, ◌<◌, ◌≤◌, ◌↔◌, ℕ, None, Some, length, option_map, slice_index, true};
ghost use Rattle.std.specs.Prelude.{IfErr, IfOk, IsOk};
ghost use Rattle.json.specs.Value.{items_view, members_view, value_view};
ghost use Rattle.mds_types.specs.declared.limits.TheConstants.{RANK_LIMIT};
ghost use Rattle.mds_types.specs.RankSet.{has_rank};
ghost use Rattle.ceph_dumps.specs.Cluster.{AreBadRanks, IsBadMap, IsClusterOf, IsListed, MapData, active_in};
ghost use Rattle.ceph_dumps.specs.Cluster.{active_rank, active_ranks};
ghost use Rattle.ceph_dumps.specs.Cluster.{map_data, said_map, map_of, named_map, mask_said, rank_if_active, ranks_in};
ghost use Rattle.ceph_dumps.specs.Cluster.{size_in};
ghost use Rattle.ceph_dumps.specs.Members.{each};
ghost use Rattle.ceph_dumps.specs.Numbers.{unsigned_in};
ghost use Rattle.ceph_dumps.specs.declared.dump_error.DumpError.TheVariants.{Memory as NoMemory};
ghost use Rattle.ceph_dumps.specs.declared.unread.Unfit.TheVariants.{Memory};

use crate::dump::{Dump, read_dump};
use crate::dump_error::DumpError;
use crate::items::read_value;
use crate::member::{
    copied, items_of, members_of, optional, required, text_in, unsigned_of, whole_of,
};
use crate::rank_sets::{common_ranks, set_of};
use crate::unread::{Unfit, Unread};
use json::{MAX_DEPTH, Reader, Value};
use mds_types::limits::RANK_LIMIT;
use mds_types::{Rank, RankSet};
use std::alloc::Global;

/// What is expected of a file system.
const MAP: &str = "expected an object with one `mdsmap`";

/// What is expected of the number of ranks.
const SIZE: &str = "expected 0 to 4294967295 in the one `max_mds` of `mdsmap`";

/// What is expected of the ranks.
const RANKS: &str = "expected a list of ranks in the one `in` of `mdsmap`";

/// What is expected of the daemons.
const DAEMONS: &str =
    "expected daemons in the one `info` of `mdsmap`, each with one `rank` and one `state`";

/// What is expected of the balancer's mask.
const MASK: &str = "expected a string in the one `bal_rank_mask` of `mdsmap` at most";

/// The ranks of a file system.
#[derive(Drop)]
pub struct FileSystemRanks {
    /// How many ranks it is to have, at most 64 (`max_mds`).
    pub size: u8,
    /// The ranks that it has (`in`). Rank 0 is one of them.
    pub ranks: RankSet,
    /// Those of them that have a daemon in the state `up:active`.
    pub active: RankSet,
    /// The mask of its balancer, where its release has one.
    pub mask: Option<String>,
}

/// The map of a file system's ranks.
#[derive(Drop)]
struct MdsMap {
    size: u32,
    ranks: Vec<u32>,
    active: Vec<u32>,
    mask: Option<String>,
}

/// The number of ranks that there are to be.
fn size_in(map: &Value<'_>) -> Option<u32>
    ensures { result ≡ size_in (value_view map.now) }
{
    unsigned_of(required(map, "max_mds")?)
}

/// Each number of a list.
fn numbers_of(alloc: Global, items: &[Value<'_>]) -> Result<Vec<u32>, Unfit>
    ensures is { IfOk result (λ found. each unsigned_in (items_view items.now) ≡ Some found.items) }
    ensures none { IfErr result (λ error. error ≢ Memory → each unsigned_in (items_view items.now) ≡ None) }
{
    let mut numbers = Vec::with_capacity(alloc, items.len())?;
    for item in items {
        match unsigned_of(item) {
            Some(number) => numbers.push(number)?,
            None => return Err(Unfit::Misfit(RANKS)),
        }
    }
    Ok(numbers)
}

/// The ranks that there are.
fn ranks_in(alloc: Global, map: &Value<'_>) -> Result<Vec<u32>, Unfit>
    ensures is { IfOk result (λ found. ranks_in (value_view map.now) ≡ Some found.items) }
    ensures none { IfErr result (λ error. error ≢ Memory → ranks_in (value_view map.now) ≡ None) }
{
    let Some(list) = required(map, "in") else {
        return Err(Unfit::Misfit(RANKS));
    };
    match items_of(list) {
        Some(items) => numbers_of(alloc, items),
        None => Err(Unfit::Misfit(RANKS)),
    }
}

/// The rank of a daemon in the state `up:active`, where it is a rank. A daemon in another state has none.
fn active_rank(daemon: &Value<'_>) -> Option<Option<u32>>
    ensures { result ≡ active_rank (value_view daemon.now) }
{
    let rank = whole_of(required(daemon, "rank")?)?;
    let state = text_in(daemon, "state")?;
    Some(rank_if_active(rank, state))
}

/// The rank of a daemon in this state, where it is a rank.
fn rank_if_active(rank: i64, state: &str) -> Option<u32>
    ensures { result ≡ rank_if_active rank state.now }
{
    if state == "up:active" {
        u32::try_from(rank).ok()
    } else {
        None
    }
}

/// The ranks of the active daemons. The daemons are the values of an object.
fn active_of(alloc: Global, daemons: &[(&str, Value<'_>)]) -> Result<Vec<u32>, Unfit>
    ensures is { IfOk result (λ found. active_ranks (members_view daemons.now) ≡ Some found.items) }
    ensures none { IfErr result (λ error. error ≢ Memory → active_ranks (members_view daemons.now) ≡ None) }
{
    let mut found = Vec::new(alloc);
    for daemon in daemons {
        match active_rank(&daemon.1) {
            Some(rank) => found.extend_from_slice(rank.as_slice())?,
            None => return Err(Unfit::Misfit(DAEMONS)),
        }
    }
    Ok(found)
}

/// The ranks of the active daemons of a map.
fn active_in(alloc: Global, map: &Value<'_>) -> Result<Vec<u32>, Unfit>
    ensures is { IfOk result (λ found. active_in (value_view map.now) ≡ Some found.items) }
    ensures none { IfErr result (λ error. error ≢ Memory → active_in (value_view map.now) ≡ None) }
{
    let Some(info) = required(map, "info") else {
        return Err(Unfit::Misfit(DAEMONS));
    };
    match members_of(info) {
        Some(daemons) => active_of(alloc, daemons),
        None => Err(Unfit::Misfit(DAEMONS)),
    }
}

/// The mask of the balancer, where there is one.
fn mask_said<'a>(map: &Value<'a>) -> Option<Option<&'a str>>
    ensures { option_map (option_map (λ mask. mask.now)) result ≡ mask_said (value_view map.now) }
{
    match optional(map, "bal_rank_mask")? {
        Some(found) if !found.is_null() => Some(Some(found.as_str()?)),
        _ => Some(None),
    }
}

/// The map of a file system's ranks.
fn map_of(alloc: Global, map: &Value<'_>) -> Result<MdsMap, Unfit>
    ensures is { IfOk result (λ found. map_of (value_view map.now) ≡ Some (map_data found)) }
    ensures none { IfErr result (λ error. error ≢ Memory → map_of (value_view map.now) ≡ None) }
{
    let Some(size) = size_in(map) else {
        return Err(Unfit::Misfit(SIZE));
    };
    let ranks = ranks_in(alloc, map)?;
    let active = active_in(alloc, map)?;
    let Some(mask) = mask_said(map) else {
        return Err(Unfit::Misfit(MASK));
    };
    Ok(MdsMap {
        size,
        ranks,
        active,
        mask: copied(alloc, mask)?,
    })
}

/// The map that a file system has.
fn named_map(alloc: Global, value: &Value<'_>) -> Result<MdsMap, Unfit>
    ensures is { IfOk result (λ found. named_map (value_view value.now) ≡ Some (map_data found)) }
    ensures none { IfErr result (λ error. error ≢ Memory → named_map (value_view value.now) ≡ None) }
{
    match required(value, "mdsmap") {
        Some(map) => map_of(alloc, map),
        None => Err(Unfit::Misfit(MAP)),
    }
}

impl Dump for MdsMap {
    ghost use Rattle.ceph_dumps.specs.Cluster.{MapData, map_data, named_map};

    ghost Said = { MapData };

    ghost shown = { map_data };

    ghost said = { named_map };

    fn read(alloc: Global, reader: &mut Reader<'_>) -> Result<MdsMap, Unread> {
        let at = reader.offset();
        let value = read_value(alloc, reader, MAX_DEPTH)?;
        match named_map(alloc, &value) {
            Ok(map) => Ok(map),
            Err(unfit) => Err(unfit.at(at)),
        }
    }
}

/// How many ranks there are to be, if that is at most 64.
fn size_of(count: u32) -> Result<u8, DumpError>
    ensures same { IfOk result (λ size. size ≡ count) }
    ensures few { IfOk result (λ size. size ≤ RANK_LIMIT) }
    ensures many { IfErr result (λ error. (error ≡ DumpError.TooManyRanks) × (RANK_LIMIT < count)) }
{
    match u8::try_from(count) {
        Ok(size) if size <= RANK_LIMIT => Ok(size),
        _ => Err(DumpError::TooManyRanks),
    }
}

/// The ranks of these numbers, or the first number that is none.
fn ranks_of(numbers: &[u32]) -> Result<RankSet, u32>
    ensures same { IfOk result (λ ranks. (rank : ℕ) → (has_rank ranks rank ≡ true) ↔ IsListed numbers.now rank) }
    ensures bad { IfErr result (λ number. IsListed numbers.now number × (RANK_LIMIT ≤ number)) }
    ensures taken { ((i : ℕ) → i < length numbers.now → slice_index numbers.now i < RANK_LIMIT) → IsOk result }
{
    for number in numbers {
        if *number >= u32::from(RANK_LIMIT) {
            return Err(*number);
        }
    }
    Ok(set_of(numbers))
}

/// The ranks that a file system has. Rank 0, which has the root, is one of them.
fn all_ranks(numbers: &[u32]) -> Result<RankSet, DumpError>
    ensures same { IfOk result (λ ranks. (rank : ℕ) → (has_rank ranks rank ≡ true) ↔ IsListed numbers.now rank) }
    ensures zero { IfOk result (λ ranks. has_rank ranks 0 ≡ true) }
    ensures bad { IfErr result (AreBadRanks numbers.now) }
{
    if numbers.is_empty() {
        return Err(DumpError::NoRank);
    }
    match ranks_of(numbers) {
        Ok(ranks) if ranks.has(Rank::default()) => Ok(ranks),
        Ok(_) => Err(DumpError::NoRankZero),
        Err(number) => Err(DumpError::BadRank(number)),
    }
}

/// The ranks of the file system of a map.
fn cluster_of(map: MdsMap) -> Result<FileSystemRanks, DumpError>
    ensures is { IfOk result (IsClusterOf (map_data map)) }
    ensures bad { IfErr result (IsBadMap (map_data map)) }
{
    let size = size_of(map.size)?;
    let ranks = all_ranks(map.ranks.as_slice())?;
    Ok(FileSystemRanks {
        size,
        ranks,
        active: common_ranks(ranks, set_of(map.active.as_slice())),
        mask: map.mask,
    })
}

/// The ranks of a file system.
pub fn read_cluster(alloc: Global, bytes: &[u8]) -> Result<FileSystemRanks, DumpError>
    ensures is { IfOk result (λ cluster. (map : MapData) × (said_map bytes.now ≡ Some map) × IsClusterOf map cluster) }
    ensures none { IfErr result (λ error. error ≢ NoMemory
        → (map : MapData) → said_map bytes.now ≡ Some map → IsBadMap map error) }
    ensures size { IfOk result (λ cluster. cluster.size ≤ RANK_LIMIT) }
    ensures zero { IfOk result (λ cluster. has_rank cluster.ranks 0 ≡ true) }
    ensures active { IfOk result (λ cluster. (rank : ℕ) → has_rank cluster.active rank ≡ true
        → has_rank cluster.ranks rank ≡ true) }
{
    let map: MdsMap = read_dump(alloc, bytes)?;
    cluster_of(map)
}
