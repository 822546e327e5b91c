//! Authority: what a rank answers to `get subtrees`.

ghost use Rattle.std.specs.Prelude.{◌≡◌, ◌≢◌, All, None, Some, codes, map, option_map, true, IfErr, IfOk, IsSome};
ghost use Rattle.json.specs.Value.{value_view};
ghost use Rattle.ceph_dumps.specs.Paths.{is_clean_path};
ghost use Rattle.ceph_dumps.specs.Subtrees.{authority_in, dir_in, if_clean, is_spread_in, optional_text};
ghost use Rattle.ceph_dumps.specs.Subtrees.{optional_truth, pin_from, pin_in, root_data, said_roots};
ghost use Rattle.ceph_dumps.specs.declared.dump_error.DumpError.TheVariants.{Memory as NoMemory};

use crate::dump::{Dump, read_dump};
use crate::dump_error::DumpError;
use crate::items::{Item, read_list};
use crate::member::{copied, optional, required, text_in, truth_in, whole_of};
use crate::narrowed;
use crate::paths::is_clean_path;
use crate::unread::{Unfit, Unread};
use json::{MAX_DEPTH, Reader, Value};
use std::alloc::Global;

/// The root of a subtree, as one rank knows it.
#[derive(Drop)]
pub struct SubtreeRoot {
    /// The path: empty for the root, else it begins with a slash (or with `~`, in a rank's own directory).
    pub path: Vec<u8>,
    /// Whether the rank that was asked has authority.
    pub is_here: bool,
    /// The rank that has authority, as the rank that was asked knows it; -1 or less where that isn't known.
    pub authority: i64,
    /// Which fragment of the directory it is, if the dump says so.
    pub fragment: Option<String>,
    /// Its own export pin, where it has one.
    pub pin: Option<i64>,
    /// Whether Ceph itself spreads what is below over the ranks.
    pub is_spread: bool,
}

/// What is expected of a root.
const ROOT: &str = "expected an object with one `is_auth`, `auth_first` and `dir`";

/// What is expected of the directory of a root.
const DIR: &str = "expected a string in the one `path` of `dir`, and in its one `dirfrag` at most";

/// What is expected of what pins a root.
const PINS: &str =
    "expected a whole number as `export_pin`, true or false as each ephemeral pin, and each once at most";

/// The string in the member of this name, where there is one.
fn optional_text<'a>(value: &Value<'a>, name: &str) -> Option<Option<&'a str>>
    ensures { option_map (option_map (λ text. text.now)) result ≡ optional_text name.now (value_view value.now) }
{
    match optional(value, name)? {
        Some(found) => Some(Some(found.as_str()?)),
        None => Some(None),
    }
}

/// Whether the member of this name is true; it is not where there is none.
fn optional_truth(value: &Value<'_>, name: &str) -> Option<bool>
    ensures { result ≡ optional_truth name.now (value_view value.now) }
{
    match optional(value, name)? {
        Some(found) => found.as_bool(),
        None => Some(false),
    }
}

/// The export pin, where there is one: a number below 0 is none.
fn pin_in(value: &Value<'_>) -> Option<Option<i64>>
    ensures { result ≡ pin_in (value_view value.now) }
{
    match optional(value, "export_pin")? {
        Some(found) if !found.is_null() => Some(pin_of(whole_of(found)?)),
        _ => Some(None),
    }
}

/// A pin: a number below 0 is none.
fn pin_of(rank: i64) -> Option<i64>
    ensures { result ≡ pin_from rank }
{
    if rank < 0 { None } else { Some(rank) }
}

/// Whether Ceph itself spreads what is below over the ranks.
fn is_spread(value: &Value<'_>) -> Option<bool>
    ensures { result ≡ is_spread_in (value_view value.now) }
{
    let is_distributed = optional_truth(value, "distributed_ephemeral_pin")?;
    let is_random = optional_truth(value, "random_ephemeral_pin")?;
    Some(is_distributed || is_random)
}

/// Path and fragment of the directory of a root.
fn dir_of<'a>(value: &Value<'a>) -> Option<(&'a str, Option<&'a str>)>
    ensures { option_map (λ dir. (dir.0.now, option_map (λ text. text.now) dir.1)) result
        ≡ dir_in (value_view value.now) }
{
    let dir = required(value, "dir")?;
    Some((text_in(dir, "path")?, optional_text(dir, "dirfrag")?))
}

/// The rank that has authority.
fn authority_in(value: &Value<'_>) -> Option<i64>
    ensures { result ≡ authority_in (value_view value.now) }
{
    whole_of(required(value, "auth_first")?)
}

impl Item for SubtreeRoot {
    ghost use Rattle.std.specs.Prelude.{true};
    ghost use Rattle.ceph_dumps.specs.Subtrees.{RootData, root_data, root_in};
    ghost use Rattle.ceph_dumps.specs.KeptLaws.{root_law};

    ghost Said = { RootData };

    ghost shown = { root_data };

    ghost said = { root_in };

    ghost kept = { λ _. true };

    ghost law = { root_law };

    fn keeps(_: &str) -> bool {
        true
    }

    fn of(alloc: Global, value: &Value<'_>) -> Result<SubtreeRoot, Unfit> {
        let Some(is_here) = truth_in(value, "is_auth") else {
            return Err(Unfit::Misfit(ROOT));
        };
        let Some(authority) = authority_in(value) else {
            return Err(Unfit::Misfit(ROOT));
        };
        let Some((path, fragment)) = dir_of(value) else {
            return Err(Unfit::Misfit(DIR));
        };
        let Some(pin) = pin_in(value) else {
            return Err(Unfit::Misfit(PINS));
        };
        let Some(is_spread) = is_spread(value) else {
            return Err(Unfit::Misfit(PINS));
        };
        Ok(SubtreeRoot {
            path: narrowed(alloc, path.as_bytes())?,
            is_here,
            authority,
            fragment: copied(alloc, fragment)?,
            pin,
            is_spread,
        })
    }
}

/// The roots of a dump.
#[derive(Drop)]
struct Roots(Vec<SubtreeRoot>);

impl Dump for Roots {
    ghost use Rattle.std.specs.Prelude.{List, map};
    ghost use Rattle.ceph_dumps.specs.Members.{list_of};
    ghost use Rattle.ceph_dumps.specs.Subtrees.{RootData, root_data, root_in};

    ghost Said = { List RootData };

    ghost shown = { λ roots. map root_data roots.0.items };

    ghost said = { list_of root_in };

    fn read(alloc: Global, reader: &mut Reader<'_>) -> Result<Roots, Unread> {
        Ok(Roots(read_list(alloc, reader, MAX_DEPTH)?))
    }
}

/// The number, from 1 on, of the first root whose path has an empty, `.` or `..` component.
fn odd_entry(roots: &[SubtreeRoot]) -> Option<usize>
    ensures clean { result ≡ None → All (λ root. is_clean_path root.path.items ≡ true) roots.now }
    ensures odd { IsSome result → if_clean (map root_data roots.now) ≡ None }
{
    for (at, root) in roots.iter().enumerate() {
        if !is_clean_path(root.path.as_slice()) {
            return Some(at + 1);
        }
    }
    None
}

/// The roots of the subtrees that a rank knows.
pub fn read_subtrees(alloc: Global, bytes: &[u8]) -> Result<Vec<SubtreeRoot>, DumpError>
    ensures is { IfOk result (λ roots. said_roots bytes.now ≡ Some (map root_data roots.items)) }
    ensures none { IfErr result (λ error. error ≢ NoMemory → said_roots bytes.now ≡ None) }
    ensures clean { IfOk result (λ roots. All (λ root. is_clean_path root.path.items ≡ true) roots.items) }
{
    let Roots(roots) = read_dump(alloc, bytes)?;
    match odd_entry(&roots) {
        Some(number) => Err(DumpError::Entry(number)),
        None => Ok(roots),
    }
}
