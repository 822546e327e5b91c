//! Heat of directory fragments: what a rank answers to `dump loads`.
ghost use Rattle.std.specs.Prelude.{◌≡◌, ◌≢◌, ◌*◌, ◌≤◌, All, None, Some, codes, map, option_map, true};
ghost use Rattle.std.specs.Prelude.{IfErr, IfOk, IsSome};
ghost use Rattle.std.specs.Float.{float_zero};
ghost use Rattle.json.specs.Value.{items_view, value_view};
ghost use Rattle.ceph_dumps.specs.Loads.{counter_in, counter_list, counters_in, fragment_data, heat_of, if_clean};
ghost use Rattle.ceph_dumps.specs.Loads.{limited, said_loads, named_inode, weighed_sum};
ghost use Rattle.ceph_dumps.specs.Members.{each, optional};
ghost use Rattle.ceph_dumps.specs.Paths.{is_clean_path};
ghost use Rattle.ceph_dumps.specs.declared.dump_error.DumpError.TheVariants.{Memory as NoMemory};
ghost use Rattle.ceph_dumps.specs.declared.unread.Unfit.TheVariants.{Memory};
ghost use Rattle.mds_types.specs.declared.limits.TheConstants.{HEAT_LIMIT};

use crate::dump::{Dump, read_dump};
use crate::dump_error::DumpError;
use crate::inode::inode_of;
use crate::items::{Item, read_list_in};
use crate::member::{items_of, optional, required, text_in};
use crate::narrowed;
use crate::paths::is_clean_path;
use crate::unread::{Unfit, Unread};
use json::{MAX_DEPTH, Reader, Value};
use mds_types::limits::HEAT_LIMIT;
use std::alloc::Global;
use std::num::saturating_f64_to_u64;

/// What Ceph's balancer makes of reads, writes, readdirs, fetches and stores.
pub const WEIGHTS: &[u8] = &[1, 2, 1, 2, 4];

/// How many writes, of a weight of 2 each, are in each of them.
pub const WRITES: &[u8] = &[0, 1, 0, 0, 2];

/// A fragment of a directory, and its own heat at the rank that was asked.
#[derive(Drop)]
pub struct FragmentHeat {
    /// The directory's path: empty for the root, else it begins with a slash.
    pub path: Vec<u8>,
    /// The directory's inode number, where the dump names it.
    pub inode: Option<u64>,
    /// Its own heat, without what is below, in thousandths.
    pub heat: u64,
    /// What of it comes from writes, before weighing, in thousandths. In the heat it counts twice.
    pub writes: u64,
}

/// The sum of counters times their weights.
fn weighed_sum(counters: &[f64], weights: &[u8]) -> f64
    ensures { result ≡ weighed_sum float_zero counters.now weights.now }
{
    let mut sum = 0.0;
    for at in 0..counters.len().min(weights.len()) {
        sum += counters[at] * f64::from(weights[at]);
    }
    sum
}

/// The heat of counters by these weights, to the nearest thousandth.
fn heat_of(counters: &[f64], weights: &[u8]) -> u64
    ensures { result ≡ heat_of counters.now weights.now }
{
    saturating_f64_to_u64(weighed_sum(counters, weights) * 1000.0 + 0.5)
}

/// What is expected of the path of a fragment.
const PATH: &str = "expected an object with a string in its one `path`";

/// What is expected of the counters of a fragment.
const COUNTERS: &str =
    "expected a list of `Decay Counters` in the one `pop_me`, with a number in each `value`";

/// What is expected of the name of a fragment.
const NAME: &str = "expected one `dirfrag` at most";

/// The items of the list of counters.
fn counter_items<'v, 'a>(value: &'v Value<'a>) -> Option<&'v [Value<'a>]>
    ensures { option_map (λ items. items_view items.now) result ≡ counter_list (value_view value.now) }
{
    items_of(required(required(value, "pop_me")?, "Decay Counters")?)
}

/// The value of a counter.
fn counter_of(value: &Value<'_>) -> Option<f64>
    ensures { result ≡ counter_in (value_view value.now) }
{
    required(value, "value")?.as_f64()
}

/// The counters of a fragment: reads, writes, readdirs, fetches and stores.
fn counters_of(alloc: Global, value: &Value<'_>) -> Result<Vec<f64>, Unfit>
    ensures is { IfOk result (λ found. counters_in (value_view value.now) ≡ Some found.items) }
    ensures none { IfErr result (λ error. error ≢ Memory → counters_in (value_view value.now) ≡ None) }
{
    match counter_items(value) {
        Some(items) => doubles_of(alloc, items),
        None => Err(Unfit::Misfit(COUNTERS)),
    }
}

/// The value of each counter of a list.
fn doubles_of(alloc: Global, items: &[Value<'_>]) -> Result<Vec<f64>, Unfit>
    ensures is { IfOk result (λ found. each counter_in (items_view items.now) ≡ Some found.items) }
    ensures none { IfErr result (λ error. error ≢ Memory → each counter_in (items_view items.now) ≡ None) }
{
    let mut counters = Vec::with_capacity(alloc, items.len())?;
    for item in items {
        match counter_of(item) {
            Some(counter) => counters.push(counter)?,
            None => return Err(Unfit::Misfit(COUNTERS)),
        }
    }
    Ok(counters)
}

/// The inode number in a name, where it is a string.
fn text_inode(name: &Value<'_>) -> Option<u64>
    ensures { result ≡ named_inode (Some (value_view name.now)) }
{
    inode_of(name.as_str()?)
}

/// The inode number of the directory of a fragment, where its name says it.
fn inode_in(value: &Value<'_>) -> Option<Option<u64>>
    ensures { result ≡ option_map named_inode (optional (codes "dirfrag") (value_view value.now)) }
{
    match optional(value, "dirfrag")? {
        Some(name) => Some(text_inode(name)),
        None => Some(None),
    }
}

impl Item for FragmentHeat {
    ghost use Rattle.ceph_dumps.specs.Loads.{FragmentData, fragment_data, fragment_in, is_read};
    ghost use Rattle.ceph_dumps.specs.KeptLaws.{fragment_law};

    ghost Said = { FragmentData };

    ghost shown = { fragment_data };

    ghost said = { fragment_in };

    ghost kept = { is_read };

    ghost law = { fragment_law };

    fn keeps(name: &str) -> bool {
        name == "path" || name == "dirfrag" || name == "pop_me"
    }

    fn of(alloc: Global, value: &Value<'_>) -> Result<FragmentHeat, Unfit> {
        let Some(path) = text_in(value, "path") else {
            return Err(Unfit::Misfit(PATH));
        };
        let Some(inode) = inode_in(value) else {
            return Err(Unfit::Misfit(NAME));
        };
        let counters = counters_of(alloc, value)?;
        Ok(FragmentHeat {
            path: narrowed(alloc, path.as_bytes())?,
            inode,
            heat: heat_of(&counters, WEIGHTS),
            writes: heat_of(&counters, WRITES),
        })
    }
}

/// The fragments of a dump.
#[derive(Drop)]
struct Fragments(Vec<FragmentHeat>);

impl Dump for Fragments {
    ghost use Rattle.std.specs.Prelude.{List, codes, map};
    ghost use Rattle.ceph_dumps.specs.Loads.{FragmentData, fragment_data, fragment_in};
    ghost use Rattle.ceph_dumps.specs.Members.{list_in};

    ghost Said = { List FragmentData };

    ghost shown = { λ fragments. map fragment_data fragments.0.items };

    ghost said = { list_in fragment_in (codes "dirfrags") };

    fn read(alloc: Global, reader: &mut Reader<'_>) -> Result<Fragments, Unread> {
        Ok(Fragments(read_list_in(alloc, reader, "dirfrags", MAX_DEPTH)?))
    }
}

/// Puts heat that is past the limit at the limit, and lets no more of it come from writes than there is.
fn limit_one(fragment: &mut FragmentHeat)
    ensures { fragment_data fragment.new ≡ limited (fragment_data fragment.old) }
{
    fragment.heat = fragment.heat.min(HEAT_LIMIT);
    fragment.writes = fragment.writes.min(fragment.heat / 2);
}

/// Puts each heat that is past the limit at the limit, and lets no more of it come from writes than there is.
fn limit(fragments: &mut [FragmentHeat])
    ensures heat { All (λ fragment. fragment.heat ≤ HEAT_LIMIT) fragments.new }
    ensures writes { All (λ fragment. 2 * fragment.writes ≤ fragment.heat) fragments.new }
    ensures is { map fragment_data fragments.new ≡ map limited (map fragment_data fragments.old) }
{
    for fragment in fragments {
        limit_one(fragment);
    }
}

/// The number, from 1 on, of the first fragment whose path has an empty, `.` or `..` component.
fn odd_entry(fragments: &[FragmentHeat]) -> Option<usize>
    ensures clean { result ≡ None → All (λ fragment. is_clean_path fragment.path.items ≡ true) fragments.now }
    ensures odd { IsSome result → if_clean (map fragment_data fragments.now) ≡ None }
{
    for (at, fragment) in fragments.iter().enumerate() {
        if !is_clean_path(fragment.path.as_slice()) {
            return Some(at + 1);
        }
    }
    None
}

/// The heat of each directory fragment that a rank names.
pub fn read_loads(alloc: Global, bytes: &[u8]) -> Result<Vec<FragmentHeat>, DumpError>
    ensures is { IfOk result (λ found. said_loads bytes.now ≡ Some (map fragment_data found.items)) }
    ensures none { IfErr result (λ error. error ≢ NoMemory → said_loads bytes.now ≡ None) }
    ensures clean { IfOk result (λ found. All (λ fragment. is_clean_path fragment.path.items ≡ true) found.items) }
    ensures heat { IfOk result (λ found. All (λ fragment. fragment.heat ≤ HEAT_LIMIT) found.items) }
    ensures writes { IfOk result (λ found. All (λ fragment. 2 * fragment.writes ≤ fragment.heat) found.items) }
{
    let Fragments(mut found) = read_dump(alloc, bytes)?;
    limit(&mut found);
    match odd_entry(&found) {
        Some(number) => Err(DumpError::Entry(number)),
        None => Ok(found),
    }
}
