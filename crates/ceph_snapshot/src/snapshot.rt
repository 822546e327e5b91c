//! The directories, from what was gathered of them.

ghost use Rattle.std.specs.Prelude.{◌≡◌, ◌==◌, ◌&&◌, ◌*◌, ◌<◌, ℕ, All, List, true, false};
ghost use Rattle.std.specs.Prelude.{IfOk, IsErrOf, IsOk, OnOk, count_by, length, map, nat_lt, slice_get, string_bytes};
ghost use Rattle.std.specs.Prelude.{if◌then◌else◌, min, slice_index, sum_by};
ghost use Rattle.std.specs.HashMap.{get_by};
ghost use Rattle.std.specs.Option.{option_map};
ghost use Rattle.std.specs.Str.{bytes_eq};
ghost use Rattle.mds_types.specs.RankSet.{has_rank};
ghost use Rattle.ceph_snapshot.specs.declared.tree.Node.{Node};
ghost use Rattle.ceph_snapshot.specs.Authority.{IsUnclaimed, LieAsClaimed, PathText, is_torn_at, is_true_of};
ghost use Rattle.ceph_snapshot.specs.Authority.{node_path_at, placed_node, lies_at};
ghost use Rattle.ceph_snapshot.specs.Doubts.{have_left, is_named, is_named_doubtful, with_listed};
ghost use Rattle.ceph_snapshot.specs.Doubts.{is_doubt, numbers_with, with_numbers};
ghost use Rattle.ceph_snapshot.specs.Facts.{Fact};
ghost use Rattle.ceph_snapshot.specs.Gathered.{foreign_pin, idle_pin, listed_rank, numbers_at, our_pin, path_pin};
ghost use Rattle.ceph_snapshot.specs.Gathered.{numbers_of, path_pin_at, whose_pin, whose_pin_at, with_owner};
ghost use Rattle.ceph_snapshot.specs.Gathered.{is_unknown_at, listed_at, listed_of, with_unknown};
ghost use Rattle.ceph_snapshot.specs.Heard.{BearsOut, HasDirectory, HasSpreadHeat, HasTold};
ghost use Rattle.ceph_snapshot.specs.Holding.{most_heat};
ghost use Rattle.ceph_snapshot.specs.Named.{IsPathNamed};
ghost use Rattle.ceph_snapshot.specs.Shown.{shown_path};
ghost use Rattle.ceph_snapshot.specs.Snapshots.{IsSnapshot};
ghost use Rattle.ceph_snapshot.specs.Sightings.{AreBelowParents, AreCold, HasSeen, LieAt, account_at, account_by};
ghost use Rattle.ceph_snapshot.specs.Sightings.{account_of, account_with, mean_account, position_at, position_of};
ghost use Rattle.ceph_snapshot.specs.Sightings.{torn_heat};

use crate::directory::Directory;
use crate::gathering::{Gathering, Hearsay};
use crate::policies::keep;
use crate::snapshot_error::{SnapshotError, told_path};
use crate::tree::{Node, Sighting};
use ceph_dumps::{EphemeralPin, OwnPin};
use mds_types::limits::{HEAT_LIMIT, RANK_LIMIT};
use mds_types::{Rank, RankSet};
use std::alloc::{AllocError, Global};
use std::collections::HashMap;

/// The directories of a file system, parents before children.
#[derive(Drop)]
pub struct Snapshot {
    /// The directories.
    pub directories: Vec<Directory>,
    /// `spread[r]` is the heat at rank r of the directories that are spread, in thousandths.
    pub spread: Vec<u64>,
}

/// Where a directory is: at its own rank if it is the root of a subtree, otherwise where its parent is.
fn place(node: &mut Node, now: Rank, is_spread: bool)
    ensures { node.new ≡ placed_node now is_spread node.old }
{
    match node.root {
        Some(rank) => node.directory.now = rank,
        None => {
            node.directory.now = now;
            node.directory.is_spread |= is_spread;
        }
    }
}

/// Where the parent of a directory lies, and whether it is spread. Above the root of the tree is none.
fn above(nodes: &[Node], at: usize, parent: usize) -> (Rank, bool)
    requires { 0 < at → parent < length nodes.now }
    ensures rank { result.0 ≡ (if at == 0 then 0 else lies_at nodes.now parent) }
    ensures torn { result.1 ≡ (if at == 0 then false else is_torn_at nodes.now parent) }
{
    if at == 0 {
        return (Rank::default(), false);
    }
    let directory = &nodes[parent].directory;
    (directory.now, directory.is_spread)
}

/// Where each directory is: at the rank of the nearest root of a subtree.
fn place_all(nodes: &mut Vec<Node>)
    requires { AreBelowParents nodes.old.items }
    ensures { LieAsClaimed nodes.old.items nodes.new.items }
{
    for at in 0..nodes.len() {
        let parent = nodes[at].directory.parent as usize;
        let (now, is_spread) = above(nodes, at, parent);
        place(&mut nodes[at], now, is_spread);
    }
}

/// Adds what a rank has seen at a directory, if it has authority or that is spread.
fn sight(node: &mut Node, seen: Sighting)
    ensures account { account_of node.new.directory ≡ account_with true seen node.old.directory }
    ensures place { position_of node.new.directory ≡ position_of node.old.directory }
    ensures pinned { path_pin node.new ≡ path_pin node.old }
    ensures listed { listed_of node.new.directory ≡ listed_of node.old.directory }
{
    let directory = &mut node.directory;
    directory.inode = seen.inode.or(directory.inode);
    if directory.is_spread {
        directory.heat = directory.heat.saturating_add(seen.heat);
        directory.writes = directory.writes.saturating_add(seen.writes);
        if seen.heat > node.most {
            node.most = seen.heat;
            directory.now = seen.rank;
        }
        return;
    }
    if directory.now == seen.rank {
        directory.heat = directory.heat.saturating_add(seen.heat);
        directory.writes = directory.writes.saturating_add(seen.writes);
    }
}

/// The pin of a directory of its own, whose it is and whether it holds.
#[derive(Clone, Copy)]
struct Pins {
    /// Somebody else's, to a rank that is there.
    pin: Option<Rank>,
    /// Somebody else's, to a rank that isn't there.
    idle: Option<u64>,
    /// This program's.
    earlier: Option<Rank>,
}

/// The rank of a number, if it is below 64.
fn rank_of(number: u64) -> Option<Rank>
    ensures { result ≡ (if nat_lt number 64 then Some number else None) }
{
    Rank::new(u8::try_from(number).ok()?)
}

/// The rank of a number, if the set has it.
fn rank_in(ranks: RankSet, number: u64) -> Option<Rank>
    ensures { result ≡ (if has_rank ranks number then Some number else None) }
{
    let rank = rank_of(number)?;
    if ranks.has(rank) { Some(rank) } else { None }
}

/// Whose pin it is. It is this program's if the program set it to this rank before.
fn pins_of(pinned: Option<u64>, own: Option<u64>, ranks: RankSet) -> Pins
    ensures pin { result.pin ≡ foreign_pin pinned own ranks }
    ensures idle { result.idle ≡ idle_pin pinned own ranks }
    ensures earlier { result.earlier ≡ our_pin pinned own }
{
    let (mut pin, mut idle, mut earlier) = (None, None, None);
    if let Some(number) = pinned {
        if own == pinned {
            earlier = rank_of(number);
        } else {
            pin = rank_in(ranks, number);
            if pin.is_none() {
                idle = pinned;
            }
        }
    }
    Pins { pin, idle, earlier }
}

/// Whether the number that dumps name for a path isn't the one that is listed of it, or none is.
fn is_doubt(seen: Option<u64>, listed: Option<u64>) -> bool
    ensures { result ≡ is_doubt seen listed }
{
    match (seen, listed) {
        (_, None) => true,
        (None, Some(_)) => false,
        (Some(seen), Some(listed)) => seen != listed,
    }
}

/// The directory of a node, with the mean heat and writes of `samples` samples and its pins, where these ranks are
/// there. This program pinned it to the rank `own` before. `is_numbered` says whether inode numbers were listed.
fn finished(
    node: Node,
    own: Option<u64>,
    samples: u64,
    ranks: RankSet,
    is_numbered: bool,
) -> Directory
    requires { 0 < samples }
    ensures account { account_of result ≡ with_listed node.listed (mean_account samples (account_of node.directory)) }
    ensures doubtful { result.is_doubtful ≡ (is_numbered && is_doubt node.directory.inode node.listed) }
    ensures now { result.now ≡ node.directory.now }
    ensures spread { result.is_spread ≡ node.directory.is_spread }
    ensures path { result.path ≡ node.directory.path }
    ensures parent { result.parent ≡ node.directory.parent }
    ensures pin { result.pin ≡ foreign_pin node.pinned own ranks }
    ensures idle { result.idle ≡ idle_pin node.pinned own ranks }
    ensures earlier { result.earlier ≡ our_pin node.pinned own }
    ensures listed { listed_of result ≡ listed_of node.directory }
{
    let Pins { pin, idle, earlier } = pins_of(node.pinned, own, ranks);
    let mut directory = node.directory;
    directory.is_doubtful = is_numbered && is_doubt(directory.inode, node.listed);
    directory.inode = directory.inode.or(node.listed);
    directory.heat = (directory.heat / samples).min(HEAT_LIMIT);
    directory.writes = (directory.writes / samples).min(HEAT_LIMIT);
    directory.pin = pin;
    directory.idle = idle;
    directory.earlier = earlier;
    directory
}

/// Whether what a rank says of a directory's authority is where the directory is.
fn is_confirmed(nodes: &[Node], said: Hearsay) -> bool
    ensures { result ≡ is_true_of nodes.now said }
{
    match nodes.get(said.directory as usize) {
        Some(node) => {
            let directory = &node.directory;
            directory.is_spread || u64::from(directory.now.number()) == said.authority
        }
        None => true,
    }
}

/// The path of a directory as a text.
fn path_of(alloc: Global, nodes: &[Node], at: usize) -> Result<String, AllocError>
    ensures { IfOk result (λ path. string_bytes path ≡ shown_path (node_path_at nodes.now at)) }
{
    match nodes.get(at) {
        Some(node) => told_path(alloc, node.directory.path.as_slice()),
        None => told_path(alloc, b""),
    }
}

/// Refuses what ranks say of the authority of others, where no rank claims it so.
fn confirm(alloc: Global, nodes: &[Node], hearsay: &[Hearsay]) -> Result<(), SnapshotError>
    ensures all { OnOk result (All (λ said. is_true_of nodes.now said ≡ true) hearsay.now) }
    ensures unclaimed { (path : PathText) (by said : ℕ) → IsErrOf result (SnapshotError.Unclaimed path by said)
        → IsUnclaimed nodes.now hearsay.now path by said }
    ensures here { IsErrOf result SnapshotError.Elsewhere → ⊥ }
    ensures many { IsErrOf result SnapshotError.TooMany → ⊥ }
    ensures twice { (path : PathText) (one two : ℕ) → IsErrOf result (SnapshotError.TwoClaims path one two) → ⊥ }
{
    for said in hearsay {
        if !is_confirmed(nodes, *said) {
            return Err(SnapshotError::Unclaimed {
                path: path_of(alloc, nodes, said.directory as usize)?,
                by: said.by.number(),
                authority: said.authority,
            });
        }
    }
    Ok(())
}

/// Gives a directory a policy that isn't known, if none is known of it.
fn set_unknown(nodes: &mut Vec<Node>, top: u32)
    ensures pinned { (i : ℕ) → path_pin_at nodes.new.items i ≡ path_pin_at nodes.old.items i }
    ensures account { (i : ℕ) → account_at nodes.new.items i ≡ account_at nodes.old.items i }
    ensures place { (i : ℕ) → position_at nodes.new.items i ≡ position_at nodes.old.items i }
    ensures listed { (i : ℕ) → listed_at nodes.new.items i
        ≡ option_map (with_unknown (top == i)) (listed_at nodes.old.items i) }
{
    if let Some(node) = nodes.get_mut(top as usize) {
        node.directory.policy = node.directory.policy.or(Some(EphemeralPin::Unknown));
    }
}

/// Gives each of these directories a policy that isn't known, if none is known of it, unless all were listed.
fn hold_tops(nodes: &mut Vec<Node>, tops: &[u32], is_listed: bool)
    ensures pinned { (i : ℕ) → path_pin_at nodes.new.items i ≡ path_pin_at nodes.old.items i }
    ensures account { (i : ℕ) → account_at nodes.new.items i ≡ account_at nodes.old.items i }
    ensures place { (i : ℕ) → position_at nodes.new.items i ≡ position_at nodes.old.items i }
    ensures listed { (i : ℕ) → listed_at nodes.new.items i
        ≡ option_map (with_unknown (is_unknown_at is_listed tops.now i)) (listed_at nodes.old.items i) }
{
    if is_listed {
        return;
    }
    for top in tops {
        set_unknown(nodes, *top);
    }
}

/// The rank that a list of pins names for each of its paths: that of the last line with it.
fn listed_ranks(alloc: Global, own: &[OwnPin]) -> Result<HashMap<Vec<u8>, u64>, AllocError>
    ensures { IfOk result (λ ranks. (path : List ℕ) → get_by (λ key. bytes_eq path key.items) ranks
        ≡ listed_rank own.now path) }
{
    let mut ranks = HashMap::new(alloc);
    for pin in own {
        ranks.insert(Vec::from_slice(alloc, &pin.path)?, pin.rank)?;
    }
    Ok(ranks)
}

/// How many directories dumps of heat name a number for.
fn named_count(nodes: &[Node]) -> usize
    ensures { result ≡ count_by is_named nodes.now }
{
    nodes
        .iter()
        .filter(|node| node.directory.inode.is_some())
        .count()
}

/// How many of them are doubtful.
fn doubtful_count(nodes: &[Node]) -> usize
    ensures { result ≡ count_by is_named_doubtful nodes.now }
{
    let doubtful = nodes.iter().filter(|node| {
        let inode = node.directory.inode;
        inode.is_some() && is_doubt(inode, node.listed)
    });
    doubtful.count()
}

/// Whether numbers were listed, and more than half of the directories for which dumps of heat name one are doubtful.
fn have_left(nodes: &[Node], is_numbered: bool) -> bool
    ensures { result ≡ (is_numbered && nat_lt (count_by is_named nodes.now)
        (2 * count_by is_named_doubtful nodes.now)) }
{
    is_numbered && named_count(nodes) / 2 < doubtful_count(nodes)
}

/// The directories of nodes. Whose their pins are, the list of this program's pins says.
fn all_finished(
    alloc: Global,
    nodes: Vec<Node>,
    own: &[OwnPin],
    samples: u64,
    ranks: RankSet,
    is_numbered: bool,
) -> Result<Vec<Directory>, AllocError>
    requires { 0 < samples }
    ensures owner { IfOk result (λ directories. map whose_pin directories.items
        ≡ map (λ n. with_owner own.now ranks (path_pin n)) nodes.items) }
    ensures account { IfOk result (λ directories. map account_of directories.items
        ≡ map (λ n. with_listed n.listed (mean_account samples (account_of n.directory))) nodes.items) }
    ensures numbers { IfOk result (λ directories. map numbers_of directories.items
        ≡ map (numbers_with is_numbered) nodes.items) }
    ensures place { IfOk result (λ directories. map position_of directories.items
        ≡ map (λ n. position_of n.directory) nodes.items) }
    ensures listed { IfOk result (λ directories. map listed_of directories.items
        ≡ map (λ n. listed_of n.directory) nodes.items) }
{
    let listed = listed_ranks(alloc, own)?;
    let mut directories = Vec::with_capacity(alloc, nodes.len())?;
    for node in nodes {
        let rank = listed.get(node.directory.path.as_slice()).copied();
        directories.push(finished(node, rank, samples, ranks, is_numbered))?;
    }
    Ok(directories)
}

impl Gathering {
    /// The snapshot of what was gathered, where each rank gave `samples` samples and `ranks` are in the file system. A
    /// pin is this program's where the last line of its list with the directory's path has its rank.
    /// Where numbers were listed, a directory is doubtful that has none there, or another one than the dumps name; if
    /// most of those that the dumps name are, the listing is of something else, and there is no snapshot.
    /// Without a listing no policy is known. Then a directory just below the root is held as a whole where Ceph's own
    /// pins are at or below it.
    pub fn snapshot(
        self,
        own: &[OwnPin],
        samples: u64,
        ranks: RankSet,
    ) -> Result<Snapshot, SnapshotError>
        requires { 0 < samples }
        ensures authority { IfOk result (λ snapshot. (placed : List Node) × LieAsClaimed self.tree.nodes placed
            × All (λ said. is_true_of placed said ≡ true) self.hearsay.items
            × LieAt placed snapshot.directories.items) }
        ensures snapshot { IfOk result IsSnapshot }
        ensures seen { IfOk result (λ snapshot. All (HasSeen self.tree.seen samples) snapshot.directories.items) }
        ensures numbers { IfOk result (λ snapshot. (i : ℕ) → numbers_at snapshot.directories.items i
            ≡ option_map (with_numbers self.is_numbered self.tree.seen) (path_pin_at self.tree.nodes i)) }
        ensures here { IsOk result → have_left self.is_numbered self.tree.seen self.tree.nodes ≡ false }
        ensures elsewhere { IsErrOf result SnapshotError.Elsewhere
            → have_left self.is_numbered self.tree.seen self.tree.nodes ≡ true }
        ensures unclaimed { (path : PathText) (by said : ℕ) → IsErrOf result (SnapshotError.Unclaimed path by said)
            → (placed : List Node) × LieAsClaimed self.tree.nodes placed
            × IsUnclaimed placed self.hearsay.items path by said }
        ensures owner { IfOk result (λ snapshot. (i : ℕ) → whose_pin_at snapshot.directories.items i
            ≡ option_map (with_owner own.now ranks) (path_pin_at self.tree.nodes i)) }
        ensures listed { IfOk result (λ snapshot. (i : ℕ)
            → option_map listed_of (slice_get snapshot.directories.items i)
            ≡ option_map (with_unknown (is_unknown_at self.is_listed self.tops.items i))
            (listed_at self.tree.nodes i)) }
        ensures there { IfOk result (λ snapshot. All (λ s. HasDirectory snapshot.directories.items s.path)
            self.tree.seen) }
        ensures spread { IfOk result (HasSpreadHeat self.tree.seen samples) }
        ensures told { (facts : List Fact) → HasTold self facts
            → IfOk result (BearsOut facts self.is_listed self.tree.nodes) }
        ensures named { (facts : List Fact) → HasTold self facts → IfOk result (λ snapshot.
            All (λ d. IsPathNamed self.tree.seen facts d.path.items) snapshot.directories.items) }
        ensures many { IsErrOf result SnapshotError.TooMany → ⊥ }
        ensures twice { (path : PathText) (one two : ℕ) → IsErrOf result (SnapshotError.TwoClaims path one two) → ⊥ }
    {
        let Gathering {
            alloc,
            tree,
            hearsay,
            fragments: _,
            tops,
            is_listed,
            is_numbered,
        } = self;
        let (mut nodes, sightings) = tree.into_parts();
        place_all(&mut nodes);
        confirm(alloc, nodes.as_slice(), hearsay.as_slice())?;
        hold_tops(&mut nodes, tops.as_slice(), is_listed);
        see_all(&mut nodes, sightings.as_slice());
        let spread = spread_heats(alloc, nodes.as_slice(), sightings.as_slice(), samples)?;
        if have_left(&nodes, is_numbered) {
            return Err(SnapshotError::Elsewhere);
        }
        let mut directories = all_finished(alloc, nodes, own, samples, ranks, is_numbered)?;
        keep(alloc, &mut directories)?;
        Ok(Snapshot {
            directories,
            spread,
        })
    }
}

/// Adds the heat of a sighting.
fn see(nodes: &mut Vec<Node>, seen: Sighting)
    ensures pinned { (i : ℕ) → path_pin_at nodes.new.items i ≡ path_pin_at nodes.old.items i }
    ensures account { (i : ℕ) → account_at nodes.new.items i
        ≡ option_map (λ n. account_with (seen.directory == i) seen n.directory) (slice_get nodes.old.items i) }
    ensures place { (i : ℕ) → position_at nodes.new.items i ≡ position_at nodes.old.items i }
    ensures listed { (i : ℕ) → listed_at nodes.new.items i ≡ listed_at nodes.old.items i }
{
    match nodes.get_mut(seen.directory as usize) {
        Some(node) => sight(node, seen),
        None => (),
    }
}

/// Adds the heat of all sightings.
fn see_all(nodes: &mut Vec<Node>, sightings: &[Sighting])
    requires { AreCold nodes.old.items }
    ensures pinned { (i : ℕ) → path_pin_at nodes.new.items i ≡ path_pin_at nodes.old.items i }
    ensures account { (i : ℕ) → account_at nodes.new.items i
        ≡ option_map (λ n. account_by i sightings.now n.directory) (slice_get nodes.old.items i) }
    ensures place { (i : ℕ) → position_at nodes.new.items i ≡ position_at nodes.old.items i }
    ensures listed { (i : ℕ) → listed_at nodes.new.items i ≡ listed_at nodes.old.items i }
{
    for seen in sightings {
        see(nodes, *seen);
    }
}

/// The heat of a sighting, if its directory is spread.
fn heat_if_torn(nodes: &[Node], seen: Sighting) -> u64
    ensures { result ≡ (if is_torn_at nodes.now seen.directory then seen.heat else 0) }
{
    match nodes.get(seen.directory as usize) {
        Some(node) if node.directory.is_spread => seen.heat,
        _ => 0,
    }
}

/// By rank the heat of what is spread, a mean of `samples` samples.
fn spread_heats(
    alloc: Global,
    nodes: &[Node],
    sightings: &[Sighting],
    samples: u64,
) -> Result<Vec<u64>, AllocError>
    requires { 0 < samples }
    ensures size { IfOk result (λ spread. length spread.items ≡ 64) }
    ensures heats { IfOk result (λ spread. (rank : ℕ) → rank < 64 → slice_index spread.items rank
        ≡ min most_heat (sum_by (torn_heat nodes.now samples rank) sightings.now)) }
{
    let mut spread = vec![in alloc; 0u64; usize::from(RANK_LIMIT)]?;
    for seen in sightings {
        let heat = heat_if_torn(nodes, *seen) / samples;
        let at = usize::from(seen.rank.number());
        spread[at] = spread[at].saturating_add(heat);
    }
    Ok(spread)
}
