//! Dumps as Ceph prints them, whole, cut and broken.

use crate::same::{Row, Sure, holds_in, same, same_in, same_rows};
use ceph_dumps::{
    DumpError, EphemeralPin, FileSystemRanks, FragmentHeat, ListedDir, ListedValue, OwnPin,
    SubtreeRoot, read_cluster, read_complete, read_listing, read_loads, read_own_list,
    read_subtrees,
};
use mds_types::RankSet;
use std::alloc::Global;
use std::mem;
use std::process::Abort;

/// A dump of loads with a name that isn't UTF-8, an escape, five different counters and a bare `-inf`.
const LOADS: &[u8] = b"\n{\"dirfrags\":[{\"path\":\"\",\"dirfrag\":\"0x1\",\
\"pop_me\":{\"Decay Counters\":[{\"value\":1.5,\"halflife\":5},{\"value\":2}]}},\
{\"path\":\"/h/bad-\xff\xc3\",\
\"pop_me\":{\"Decay Counters\":[{\"value\":0},{\"value\":0},{\"value\":0},{\"value\":0},{\"value\":0.25}]}},\
{\"path\":\"/h/all\",\
\"pop_me\":{\"Decay Counters\":[{\"value\":1},{\"value\":2},{\"value\":4},{\"value\":8},{\"value\":16}]}},\
{\"path\":\"/h/new\\nline \\\"-inf\\\"\",\"pop_me\":{\"Decay Counters\":[]}}],\
\"mds_load\":{\"mds.0\":{\"halflife\":-inf}}}";

/// A path with its heat, and what of it comes from writes.
pub(crate) type Written<'a> = (&'a [u8], (u64, u64));

/// What it says: with weights of 1, 2, 1, 2 and 4, where a store is two writes.
const HEATS: &[Written<'static>] = &[
    (b"", (5500, 2000)),
    (b"/h/bad-\xff\xc3", (1000, 500)),
    (b"/h/all", (89_000, 34_000)),
    (b"/h/new\nline \"-inf\"", (0, 0)),
];

impl<'a> Row<Written<'a>> for FragmentHeat {
    fn is_as(&self, row: &Written<'a>) -> bool {
        self.path.as_slice() == row.0 && (self.heat, self.writes) == row.1
    }
}

/// The subtrees of a rank, as Ceph prints them.
const SUBTREES: &[u8] = b"[{\"is_auth\":true,\"auth_first\":1,\"auth_second\":-2,\"export_pin\":2,\
\"distributed_ephemeral_pin\":true,\"dir\":{\"path\":\"/u\xfe\"}}]";

/// The ranks of a file system.
const CLUSTER: &[u8] =
    b"{\"mdsmap\":{\"max_mds\":3,\"in\":[0,2],\"info\":{},\"bal_rank_mask\":\"0x5\"},\"id\":1}";

/// A text without its end: its first `end` bytes, and never all.
fn cut(text: &[u8], end: usize) -> &[u8] {
    let most = text.len().saturating_sub(1);
    text.get(..end.min(most)).unwrap_or(text)
}

/// Whether a call was refused.
fn is_refused<T: Drop>(answer: Result<T, DumpError>) -> bool {
    answer.is_err()
}

/// Whether each of the three dumps is refused where it is cut after `end` bytes.
fn are_refused(alloc: Global, end: usize) -> bool {
    let loads = is_refused(read_loads(alloc, cut(LOADS, end)));
    let subtrees = is_refused(read_subtrees(alloc, cut(SUBTREES, end)));
    is_refused(read_cluster(alloc, cut(CLUSTER, end))) && loads && subtrees
}

#[test]
fn refuses_dumps_that_are_cut(rt: HostRuntime) {
    for end in 0..LOADS.len() {
        holds_in(&rt, are_refused(rt.alloc(), end), &end);
    }
}

/// How many paths are read; 0 where the dump is refused.
fn told(alloc: Global, text: &[u8]) -> usize {
    match read_loads(alloc, text) {
        Ok(found) => found.len(),
        Err(_) => 0,
    }
}

/// Sets a byte, and gives the one before.
fn set(text: &mut [u8], at: usize, byte: u8) -> u8 {
    match text.get_mut(at) {
        Some(place) => mem::replace(place, byte),
        None => byte,
    }
}

/// Where a byte is broken the dump is refused, or at most as many paths are read as the whole dump has.
fn break_byte(rt: &impl Abort, alloc: Global, text: &mut [u8], at: usize) {
    for byte in [b'\0', b'"', b'\\', b'{', b']', b',', b'-', 0xff] {
        let before = set(text, at, byte);
        holds_in(rt, told(alloc, text) <= 4, &(byte, at));
        set(text, at, before);
    }
}

#[test]
fn names_no_other_path_where_a_byte_is_broken(rt: HostRuntime) {
    let mut text = Vec::from_slice(rt.alloc(), LOADS).sure(&rt);
    for at in 0..LOADS.len() {
        break_byte(&rt, rt.alloc(), &mut text, at);
    }
}

/// A path longer than the pieces that are widened at once, with a byte from 0x80 at a place of its name.
fn long_path(rt: &impl Abort, alloc: Global, at: usize) -> Vec<u8> {
    let mut path = vec![in alloc; b'n'; 601].sure(rt);
    set(&mut path, 0, b'/');
    set(&mut path, at.saturating_add(1), 0xfe);
    path
}

/// A dump of loads of one path.
fn loads_of(rt: &impl Abort, alloc: Global, path: &[u8]) -> Vec<u8> {
    let mut text = Vec::from_slice(alloc, b"{\"dirfrags\":[{\"path\":\"").sure(rt);
    text.extend_from_slice(path).sure(rt);
    let tail = b"\",\"pop_me\":{\"Decay Counters\":[{\"value\":3}]}}]}";
    text.extend_from_slice(tail).sure(rt);
    text
}

/// A dump of loads of this path is read.
fn reads_path(rt: &impl Abort, alloc: Global, path: &[u8]) {
    let text = loads_of(rt, alloc, path);
    let found = read_loads(alloc, &text).sure(rt);
    same_rows(rt, &found, &[(path, (3000, 0))], "long names");
}

#[test]
fn reads_long_names_of_any_bytes(rt: HostRuntime) {
    for at in 0..600usize {
        reads_path(&rt, rt.alloc(), &long_path(&rt, rt.alloc(), at));
    }
}

/// A number where an object should be, after a byte that isn't ASCII.
const WRONG_COUNTERS: &[u8] = b"{\"dirfrags\":[\n{\"path\":\"\xff\",\"pop_me\":1}]}";

/// Why a dump is refused, as it is printed; nothing where it is read.
fn refusal_of<T: Drop>(rt: &impl Abort, alloc: Global, answer: Result<T, DumpError>) -> String {
    match answer {
        Ok(_) => String::new(alloc),
        Err(refused) => refused.to_string(alloc).sure(rt),
    }
}

#[test]
fn tells_where_a_dump_is_broken(rt: HostRuntime) {
    let told = refusal_of(&rt, rt.alloc(), read_loads(rt.alloc(), WRONG_COUNTERS));
    let wanted =
        "line 2, column 1, at .dirfrags[0]: expected a list of `Decay Counters` in the one `pop_me`, \
with a number in each `value`";
    same(&rt, &told.as_str(), &wanted);
}

/// Roots: two that are here, one in a fragment and distributed, one random; a rank's own directory; one without a flag.
const ROOTS: &[u8] = b"[{\"is_auth\":true,\"auth_first\":1,\"auth_second\":-2,\"export_pin\":2,\
\"distributed_ephemeral_pin\":true,\"dir\":{\"path\":\"/u\",\"dirfrag\":\"0x10000000000.0*\"}},\
{\"is_auth\":true,\"auth_first\":1,\"auth_second\":-2,\"export_pin\":0,\
\"random_ephemeral_pin\":true,\"dir\":{\"path\":\"/r\"}},\
{\"is_auth\":false,\"auth_first\":0,\"auth_second\":-2,\"export_pin\":-1,\"dir\":{\"path\":\"~mds0\"}},\
{\"is_auth\":false,\"auth_first\":2,\"auth_second\":-2,\"dir\":{\"path\":\"/bad-\xff\"}}]";

/// The path of a root, whether it is here and spread, and the pin; which rank has it, and the fragment.
type Root<'a> = (&'a [u8], (bool, bool, Option<i64>), (i64, Option<&'a str>));

/// What they say.
const TOLD_ROOTS: &[Root<'static>] = &[
    (b"/u", (true, true, Some(2)), (1, Some("0x10000000000.0*"))),
    (b"/r", (true, true, Some(0)), (1, None)),
    (b"~mds0", (false, false, None), (0, None)),
    (b"/bad-\xff", (false, false, None), (2, None)),
];

impl<'a> Row<Root<'a>> for SubtreeRoot {
    fn is_as(&self, row: &Root<'a>) -> bool {
        let is_same_place = self.path.as_slice() == row.0;
        let pins = (self.is_here, self.is_spread, self.pin);
        is_same_place && pins == row.1 && (self.authority, self.fragment.as_deref()) == row.2
    }
}

/// The ranks of a file system, after an empty line. Rank 3 is active and above `max_mds`, rank 2 is replaying.
const RANKS: &[u8] =
    b"\n{\"mdsmap\":{\"max_mds\":3,\"in\":[0,2,3],\"info\":{\"gid_1\":{\"rank\":0,\"state\":\"up:active\"},\
\"gid_2\":{\"rank\":2,\"state\":\"up:replay\"},\"gid_3\":{\"rank\":3,\"state\":\"up:active\"},\
\"gid_4\":{\"rank\":5,\"state\":\"up:active\"}},\"bal_rank_mask\":\"0x5\"},\"id\":1}";

fn same_ranks(rt: &impl Abort, found: &FileSystemRanks) {
    same(rt, &found.size, &3);
    same(rt, &found.ranks, &RankSet::from_bits(0b1101));
    same(rt, &found.active, &RankSet::from_bits(0b1001));
    same(rt, &found.mask.as_deref(), &Some("0x5"));
}

#[test]
fn reads_ranks(rt: HostRuntime) {
    same_ranks(&rt, &read_cluster(rt.alloc(), RANKS).sure(&rt));
}

/// Maps of file systems, and why there is no plan for them.
const REFUSED_RANKS: &[(&[u8], &str)] = &[
    (
        b"{\"mdsmap\":{\"max_mds\":1,\"in\":[],\"info\":{}}}",
        "the file system has no rank",
    ),
    (
        b"{\"mdsmap\":{\"max_mds\":65,\"in\":[0],\"info\":{}}}",
        "more than 64 ranks",
    ),
    (
        b"{\"mdsmap\":{\"max_mds\":64,\"in\":[0,64],\"info\":{}}}",
        "rank 64 is none of 0 to 63",
    ),
    (
        b"{\"mdsmap\":{\"max_mds\":2,\"in\":[1,2],\"info\":{}}}",
        "rank 0 is not in the file system: wait until it is back",
    ),
    (
        b"{\"mdsmap\":{\"max_mds\":1,\"in\":[0],\"in\":[1]}}",
        "line 1, column 1, at .: expected a list of ranks in the one `in` of `mdsmap`",
    ),
    (
        b"{\"mdsmap\":{\"max_mds\":1,\"in\":[0,true],\"info\":{}}}",
        "line 1, column 1, at .: expected a list of ranks in the one `in` of `mdsmap`",
    ),
    (
        b"{\"mdsmap\":[3,[0],{}]}",
        "line 1, column 1, at .: expected 0 to 4294967295 in the one `max_mds` of `mdsmap`",
    ),
    (
        b"{\"id\":[{},{\"a\":1}],\"mdsmap\":{\"max_mds\":1,\"info\":{}}}",
        "line 1, column 1, at .: expected a list of ranks in the one `in` of `mdsmap`",
    ),
];

#[test]
fn refuses_ranks_it_cant_plan_for(rt: HostRuntime) {
    for (text, why) in REFUSED_RANKS {
        let told = refusal_of(&rt, rt.alloc(), read_cluster(rt.alloc(), text));
        same(&rt, &told.as_str(), why);
    }
}

/// A listing of directories, each with one value.
const LISTING: &[u8] =
    b"# file: .\nceph.dir.entries=\"7\"\n\n# file: h/cr\\015ret \\134\nceph.dir.entries=\"4\"\n\n\
# file: h\nceph.dir.pin=\"12\"\n\n# file: w\nceph.dir.pin=\"-1\"\n\n\
# file: d\nceph.dir.pin.distributed=\"1\"\n\n# file: e\nceph.dir.pin.distributed=\"0\"\n\n\
# file: r\nceph.dir.pin.random=\"1.0\"\n\n# file: s\nceph.dir.pin.random=\"0.000000\"\n";

/// A path, entries, a pin and a policy.
type Listed<'a> = (&'a [u8], Option<u64>, Option<u64>, Option<EphemeralPin>);

/// What it says.
const LISTED: &[Listed<'static>] = &[
    (b"", Some(7), None, None),
    (b"/h/cr\rret \\", Some(4), None, None),
    (b"/h", None, Some(12), None),
    (b"/w", None, None, None),
    (b"/d", None, None, Some(EphemeralPin::Distributed)),
    (b"/e", None, None, None),
    (b"/r", None, None, Some(EphemeralPin::Random)),
    (b"/s", None, None, None),
];

impl<'a> Row<Listed<'a>> for ListedDir {
    fn is_as(&self, row: &Listed<'a>) -> bool {
        let (entries, pin, policy) = match self.value {
            ListedValue::Entries(count) => (Some(count), None, None),
            ListedValue::Pin(pin) => (None, pin, None),
            ListedValue::Policy(policy) => (None, None, policy),
            ListedValue::Inode(number) => (Some(number), Some(number), None),
        };
        self.path.as_slice() == row.0 && (entries, pin, policy) == (row.1, row.2, row.3)
    }
}

/// A listing without a name, one with a value that is no number, and an own pin without a path.
const BROKEN: &[&[u8]] = &[
    b"ceph.dir.pin=\"2\"\n",
    b"# file: h\nceph.dir.pin=\"x\"\n",
    b"1\n",
    b"zzz /c\n",
];

/// Whether a text is refused as a listing and as a list of own pins.
fn is_no_list(alloc: Global, text: &[u8]) -> bool {
    let listing = is_refused(read_listing(alloc, text));
    is_refused(read_own_list(alloc, text)) && listing
}

#[test]
fn refuses_broken_lists(rt: HostRuntime) {
    for text in BROKEN {
        holds_in(&rt, is_no_list(rt.alloc(), text), text);
    }
}

/// The ranks and paths of a list of own pins.
const OWN: &[(u64, &[u8])] = &[(1, b"/a b"), (0, b"/x\ny")];

impl<'a> Row<(u64, &'a [u8])> for OwnPin {
    fn is_as(&self, row: &(u64, &'a [u8])) -> bool {
        (self.rank, self.path.as_slice()) == *row
    }
}

/// What the file `complete` may have, and the name that it says; nothing where it is refused.
const COMPLETE: &[(&[u8], Option<&str>)] = &[
    (b"lab 0d2c6f0e-1a53\n", Some("lab")),
    (b"a_b.c-2 x\n", Some("a_b.c-2")),
    (b"lab 0d2c", None),
    (b"lab\n", None),
    (b" 0d2c\n", None),
    (b"lab \n", None),
    (b"lab 0d2c\nmore\n", None),
    (b"l'b 0d2c\n", None),
];

#[test]
fn reads_which_file_system_it_is(rt: HostRuntime) {
    for (text, name) in COMPLETE {
        let read = read_complete(rt.alloc(), text).ok();
        let found = read.as_ref().map(|found| found.name.as_str());
        same(&rt, &found, name);
    }
}

#[test]
fn reads_loads(rt: HostRuntime) {
    let found = read_loads(rt.alloc(), LOADS).sure(&rt);
    same_rows(&rt, &found, HEATS, "loads");
}

/// Counters of a fragment, as JSON, with the heat that they come to and what of it comes from writes.
const COUNTED: &[(&[u8], (u64, u64))] = &[
    (b"[1,10,100,1000,10000]", (42_121_000, 20_010_000)),
    (b"[1,0,0,0,0]", (1000, 0)),
    (b"[0,1,0,0,0]", (2000, 1000)),
    (b"[0,0,1,0,0]", (1000, 0)),
    (b"[0,0,0,1,0]", (2000, 0)),
    (b"[0,0,0,0,1]", (4000, 2000)),
    (b"[0.0014,0.0001]", (2, 0)),
    (b"[0.0015]", (2, 0)),
    (b"[0.0014]", (1, 0)),
    (b"[0.0003,0,0,0]", (0, 0)),
];

/// A dump of loads of `/a` with these counters.
fn counters_of(rt: &impl Abort, alloc: Global, counters: &[u8]) -> Vec<u8> {
    let mut text = Vec::from_slice(alloc, b"{\"dirfrags\":[{\"path\":\"/a\",").sure(rt);
    text.extend_from_slice(b"\"pop_me\":{\"Decay Counters\":[")
        .sure(rt);
    let numbers = counters.split(|byte| matches!(*byte, b'[' | b',' | b']'));
    for number in numbers.filter(|number| !number.is_empty()) {
        let comma: &[u8] = if text.ends_with(b"[") { b"" } else { b"," };
        text.extend_from_slice(comma).sure(rt);
        text.extend_from_slice(b"{\"value\":").sure(rt);
        text.extend_from_slice(number).sure(rt);
        text.extend_from_slice(b"}").sure(rt);
    }
    text.extend_from_slice(b"]}}]}").sure(rt);
    text
}

#[test]
fn weighs_each_counter(rt: HostRuntime) {
    for (counters, heat) in COUNTED {
        let text = counters_of(&rt, rt.alloc(), counters);
        let found = read_loads(rt.alloc(), &text).sure(&rt);
        same_rows(&rt, &found, &[(b"/a".as_slice(), *heat)], "counters");
    }
}

/// Names of fragments, as JSON, and their inode numbers.
const INODES: &[(&[u8], Option<u64>)] = &[
    (b"\"0x1\"", Some(1)),
    (b"\"0x10000000001\"", Some(1_099_511_627_777)),
    (b"\"0x10000000000.011*\"", Some(1_099_511_627_776)),
    (b"\"0xfFfffffffffffffe\"", Some(u64::MAX - 1)),
    (b"\"0x1ffffffffffffffff\"", None),
    (b"\"0x1g\"", None),
    (b"\"0x.0*\"", None),
    (b"\"0x+1\"", None),
    (b"\"10000000001\"", None),
    (b"1", None),
    (b"null", None),
];

/// The inode number in a dump with this name of a fragment.
fn inode_named(rt: &impl Abort, alloc: Global, name: &[u8]) -> Option<u64> {
    let mut text = Vec::from_slice(alloc, b"{\"dirfrags\":[{\"path\":\"/a\",\"dirfrag\":").sure(rt);
    text.extend_from_slice(name).sure(rt);
    let tail = b",\"pop_me\":{\"Decay Counters\":[]}}]}";
    text.extend_from_slice(tail).sure(rt);
    let found = read_loads(alloc, &text).sure(rt);
    found.first()?.inode
}

#[test]
fn reads_inode_numbers(rt: HostRuntime) {
    for (name, inode) in INODES {
        same_in(&rt, &inode_named(&rt, rt.alloc(), name), inode, name);
    }
}

#[test]
fn reads_subtrees(rt: HostRuntime) {
    let found = read_subtrees(rt.alloc(), ROOTS).sure(&rt);
    same_rows(&rt, &found, TOLD_ROOTS, "subtrees");
}

#[test]
fn reads_listings(rt: HostRuntime) {
    let found = read_listing(rt.alloc(), LISTING).sure(&rt);
    same_rows(&rt, &found, LISTED, "listing");
}

#[test]
fn reads_lists_of_own_pins(rt: HostRuntime) {
    let found = read_own_list(rt.alloc(), b"1 /a b\n0 /x\\012y\n").sure(&rt);
    same_rows(&rt, &found, OWN, "own pins");
}
