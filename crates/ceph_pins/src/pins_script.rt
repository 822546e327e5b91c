//! The shell script that makes changes of pins, a line each: one `setfattr`, or Ceph's own command for a subvolume.
//!
//! Each path is quoted for `sh` whatever its bytes.
ghost use Rattle.std.specs.Prelude.{◌≡◌, ◌<◌, ◌++◌, [], All, IfErr, IfOk, OnOk, is_ok, is_some};
ghost use Rattle.std.specs.Prelude.{length, true, if◌then◌else◌};
ghost use Rattle.std.specs.List.{flat_map};
ghost use Rattle.ceph_plan.specs.Words.{quoted_word};
ghost use Rattle.ceph_pins.specs.PinsScript.{AreWritable, HasNoNul, IsChangeWritable, change_command, change_line};
ghost use Rattle.ceph_pins.specs.PinsScript.{call_text, inode_of_row, needs_ceph, needs_mount, number_text};
ghost use Rattle.ceph_pins.specs.PinsScript.{path_at, pin_line, pins_script, variable_lines};
ghost use Rattle.ceph_pins.specs.Volumes.{pin_text};
ghost use Rattle.ceph_pins.specs.declared.script_error.ScriptError.TheVariants as cause;

use crate::script_error::ScriptError;
use crate::volumes::{ceph_line, push_pin};
use ceph_plan::{PinChange, quoted};
use ceph_snapshot::Directory;
use mds_types::Rank;
use std::alloc::{AllocError, Global};

/// A file system, and where it is mounted.
#[derive(Clone, Copy)]
pub struct MountedFileSystem<'a> {
    /// Where it is mounted on the machine that sets the pins.
    pub mount: &'a [u8],
    /// Its name.
    pub name: &'a [u8],
    /// The identifier of its cluster; empty where it is unknown.
    pub fsid: &'a [u8],
    /// Whether subvolumes and their groups get their pins by Ceph's own commands, and not over the mount.
    pub by_ceph: bool,
}

/// Lines that make changes, and what they need.
#[derive(Drop)]
struct ChangeLines {
    text: Vec<u8>,
    /// Some of them need the mount.
    need_mount: bool,
    /// Some of them are commands of `ceph`.
    need_ceph: bool,
}

/// The begin of the script: its words, and its functions.
const HEAD: &str = "#!/bin/sh
# Sets CephFS export pins: new pins first, the deepest before those above it. Then it removes the pins of an earlier
# plan that are no longer wanted, from the top down.
# usage: sh FILE [-n]    With -n the script only prints what it would do.
# A directory is passed over if its inode number is not the one that was collected (- where none is known). Each call
# that touches the mount may take PINS_LIMIT seconds, 60 where that is not set.
# Status 0: done. 1: another file system, a mount that does not answer, a pin failed, another directory has the path,
# or more directories are gone than were changed. 2: the command line is refused.
LC_ALL=C; export LC_ALL
limit=${PINS_LIMIT:-60} only_print= changed=0 gone=0 failed=0
case $#:${1-} in
  0:) ;;
  1:-n) only_print=1 ;;
  *) echo 'usage: sh FILE [-n]' >&2; exit 2 ;;
esac
# Prints a text. A backslash and each byte that is not printable ASCII appear as a backslash and three octal digits.
show() {
  case $1 in
    *[!\\ -~]*|*\\\\*)
      printf '%s' \"$1\" | od -An -v -tu1 | awk '{
        for (i = 1; i <= NF; i++)
          if ($i > 31 && $i < 127 && $i != 92) printf \"%c\", $i + 0; else printf \"\\\\%03o\", $i
      } END { print \"\" }' ;;
    *) printf '%s\\n' \"$1\" ;;
  esac
}
# Runs a command that touches the mount. One that hangs keeps only the inner shell's pipe open.
within() {
  timeout -k 5 \"$limit\" sh -c 'said=$(\"$@\" 2>&1); status=$?; printf %s \"$said\"; exit \"$status\"' sh \"$@\"
}
count() { printf '%s pins changed, %s directories gone, %s failed\\n' \"$changed\" \"$gone\" \"$failed\"; }
no_answer() {
  show \"no answer in $limit seconds: $1 (is this client evicted? then mount again)\" >&2
  count
  exit 1
}
fail() { show \"failed: $1\" >&2; failed=$((failed + 1)); }
# run NUMBER COMMAND.. DIRECTORY
run() {
  number=$1
  shift
  for directory; do :; done
  if [ -n \"$only_print\" ]; then show \"$*\"; return; fi
  found=$(within stat -c '%F %i' -- \"$directory\")
  case $?:$found in
    124:*|137:*) no_answer \"$directory\" ;;
    \"0:directory $number\") ;;
    '0:directory '*) [ \"$number\" = - ] || { fail \"another directory: $directory\"; return; } ;;
    '0:symbolic link '*) fail \"a symbolic link: $directory\"; return ;;
    *) show \"gone: $directory\" >&2; gone=$((gone + 1)); return ;;
  esac
  reason=$(within \"$@\")
  case $? in
    0) changed=$((changed + 1)) ;;
    124|137) no_answer \"$*\" ;;
    *) fail \"$reason\" ;;
  esac
}
";

/// What the script asks the mount before it changes anything.
const CHECKS: &str = "if [ -z \"$only_print\" ]; then
  within getfattr --absolute-names --only-values -n ceph.dir.rentries -- \"$mount\" >/dev/null
  case $? in
    0) ;;
    124|137) no_answer \"$mount\" ;;
    *) show \"getfattr does not read ceph.dir.rentries of $mount: no CephFS is mounted there\" >&2; exit 1 ;;
  esac
  found=$(within getfattr --absolute-names --only-values -n ceph.cluster_fsid -- \"$mount\") || found=$fsid
  [ -z \"$fsid\" ] || [ \"$found\" = \"$fsid\" ] ||
    { show \"$mount is in cluster $found, and the plan is for $name in cluster $fsid\" >&2; exit 1; }
fi
";

/// How the script runs a command of `ceph`, and what it asks the cluster before it changes anything.
const CEPH: &str =
    "# Runs a command of ceph, which ends with status 2 where a subvolume or group is gone.
run_ceph() {
  if [ -n \"$only_print\" ]; then show \"ceph $*\"; return; fi
  reason=$(timeout 60 ceph \"$@\" 2>&1)
  case $? in
    0) changed=$((changed + 1)) ;;
    2) show \"gone: ceph $*\" >&2; gone=$((gone + 1)) ;;
    *) fail \"ceph $*: $reason\" ;;
  esac
}
if [ -z \"$only_print\" ]; then
  found=$(timeout 60 ceph fsid 2>/dev/null) || { show 'ceph fsid: the cluster does not answer' >&2; exit 1; }
  [ -z \"$fsid\" ] || [ \"$found\" = \"$fsid\" ] ||
    { show \"ceph asks cluster $found, and the plan is for $name in cluster $fsid\" >&2; exit 1; }
fi
";

/// The end of the script.
const FOOT: &str = "[ -n \"$only_print\" ] || count
[ \"$failed\" = 0 ] && [ \"$gone\" -le \"$changed\" ]
";

/// The script of no change.
const NO_CHANGE: &str = "#!/bin/sh
# No change of pins is proposed: this script does nothing.
echo 'no change of pins is proposed'
";

/// Adds a word that `sh` reads as these bytes.
fn push_word(alloc: Global, script: &mut Vec<u8>, bytes: &[u8]) -> Result<(), ScriptError>
    ensures word { OnOk result (script.new.items ≡ script.old.items ++ quoted_word bytes.now) }
    ensures refused { HasNoNul bytes.now → IfErr result (λ error. error ≡ cause.Memory) }
{
    if bytes.contains(&0) {
        return Err(ScriptError::Nul);
    }
    let word = quoted(alloc, bytes)?;
    script.extend_from_slice(&word)?;
    Ok(())
}

/// Adds the inode number that the script compares; a hyphen where none is known.
fn push_number(alloc: Global, script: &mut Vec<u8>, inode: Option<u64>) -> Result<(), AllocError>
    ensures { OnOk result (script.new.items ≡ script.old.items ++ number_text inode) }
{
    match inode {
        Some(inode) => {
            let number = format!(in alloc; "{inode}")?;
            script.extend_from_slice(number.as_bytes())
        }
        None => script.extend_from_slice(b"-"),
    }
}

/// Adds the begin of a line: the number that is compared, and the call of `setfattr`.
#[tactic(auto, unfolding(crate::specs::PinsScript::call_text))]
fn push_call(alloc: Global, script: &mut Vec<u8>, inode: Option<u64>) -> Result<(), AllocError>
    ensures { OnOk result (script.new.items ≡ script.old.items ++ call_text inode) }
{
    script.extend_from_slice(b"run ")?;
    push_number(alloc, script, inode)?;
    script.extend_from_slice(b" setfattr -h -n ceph.dir.pin -v ")
}

/// Adds the line that gives the directory at this place a pin, if it has this inode number.
fn push_line(
    alloc: Global,
    script: &mut Vec<u8>,
    inode: Option<u64>,
    pin: Option<Rank>,
    place: &[u8],
) -> Result<(), ScriptError>
    ensures line { OnOk result (script.new.items ≡ script.old.items ++ pin_line inode pin place.now) }
    ensures refused { HasNoNul place.now → IfErr result (λ error. error ≡ cause.Memory) }
{
    push_call(alloc, script, inode)?;
    push_pin(alloc, script, pin)?;
    script.extend_from_slice(b" -- ")?;
    push_word(alloc, script, place)?;
    script.push(b'\n')?;
    Ok(())
}

/// The directory of a row.
fn directory_of(directories: &[Directory], row: u32) -> Result<&Directory, ScriptError>
    ensures path { IfOk result (λ directory. directory.now.path.items ≡ path_at directories.now row) }
    ensures inode { IfOk result (λ directory. directory.now.inode ≡ inode_of_row directories.now row) }
    ensures there { row < length directories.now → is_ok result ≡ true }
{
    match directories.get(row as usize) {
        Some(directory) => Ok(directory),
        None => Err(ScriptError::NoDirectory(row)),
    }
}

/// Adds the line that gives a directory a pin over the mount.
fn push_mounted(
    alloc: Global,
    script: &mut Vec<u8>,
    pin: Option<Rank>,
    mount: &[u8],
    directory: &Directory,
) -> Result<(), ScriptError>
    ensures line { OnOk result (script.new.items ≡ script.old.items
        ++ pin_line directory.entry.now.inode pin (mount.now ++ directory.entry.now.path.items)) }
    ensures refused { HasNoNul mount.now → HasNoNul directory.entry.now.path.items
        → IfErr result (λ error. error ≡ cause.Memory) }
{
    let mut place = Vec::from_slice(alloc, mount)?;
    place.extend_from_slice(&directory.path)?;
    push_line(alloc, script, directory.inode, pin, &place)
}

/// Adds the line of a change. Returns whether Ceph's own command makes it.
fn push_change(
    alloc: Global,
    script: &mut Vec<u8>,
    mounted: MountedFileSystem,
    directories: &[Directory],
    change: PinChange,
) -> Result<bool, ScriptError>
    ensures line { OnOk result (script.new.items ≡ script.old.items
        ++ change_line mounted.entry.mount.now mounted.entry.by_ceph directories.now change) }
    ensures way { IfOk result (λ by_ceph. by_ceph
        ≡ is_some (change_command mounted.entry.by_ceph directories.now change)) }
    ensures refused { HasNoNul mounted.entry.mount.now → IsChangeWritable directories.now change
        → IfErr result (λ error. error ≡ cause.Memory) }
{
    let directory = directory_of(directories, change.row)?;
    match ceph_line(alloc, mounted.by_ceph, change.pin, &directory.path)? {
        Some(line) => {
            script.extend_from_slice(&line)?;
            Ok(true)
        }
        None => {
            push_mounted(alloc, script, change.pin, mounted.mount, directory)?;
            Ok(false)
        }
    }
}

/// The lines of these changes, in their order.
fn change_lines(
    alloc: Global,
    mounted: MountedFileSystem,
    directories: &[Directory],
    changes: &[PinChange],
) -> Result<ChangeLines, ScriptError>
    ensures text { IfOk result (λ lines. lines.text.items
        ≡ flat_map (change_line mounted.entry.mount.now mounted.entry.by_ceph directories.now) changes.now) }
    ensures mount { IfOk result (λ lines. lines.need_mount
        ≡ needs_mount mounted.entry.by_ceph directories.now changes.now) }
    ensures ceph { IfOk result (λ lines. lines.need_ceph
        ≡ needs_ceph mounted.entry.by_ceph directories.now changes.now) }
    ensures refused { HasNoNul mounted.entry.mount.now → All (IsChangeWritable directories.now) changes.now
        → IfErr result (λ error. error ≡ cause.Memory) }
{
    let mut text = Vec::new(alloc);
    let mut need_mount = false;
    let mut need_ceph = false;
    for change in changes {
        let by_ceph = push_change(alloc, &mut text, mounted, directories, *change)?;
        need_mount |= !by_ceph;
        need_ceph |= by_ceph;
    }
    Ok(ChangeLines {
        text,
        need_mount,
        need_ceph,
    })
}

/// Adds the lines that say which file system is meant.
fn push_variables(
    alloc: Global,
    script: &mut Vec<u8>,
    mounted: MountedFileSystem,
) -> Result<(), ScriptError>
    ensures lines { OnOk result (script.new.items ≡ script.old.items
        ++ variable_lines mounted.entry.mount.now mounted.entry.name.now mounted.entry.fsid.now) }
    ensures refused { HasNoNul mounted.entry.mount.now → HasNoNul mounted.entry.name.now
        → HasNoNul mounted.entry.fsid.now → IfErr result (λ error. error ≡ cause.Memory) }
{
    script.extend_from_slice(b"mount=")?;
    push_word(alloc, script, mounted.mount)?;
    script.extend_from_slice(b"\nname=")?;
    push_word(alloc, script, mounted.name)?;
    script.extend_from_slice(b"\nfsid=")?;
    push_word(alloc, script, mounted.fsid)?;
    script.push(b'\n')?;
    Ok(())
}

/// Adds a piece of the script where it is needed.
fn push_if(script: &mut Vec<u8>, is_needed: bool, piece: &str) -> Result<(), AllocError>
    ensures { OnOk result (script.new.items ≡ script.old.items ++ (if is_needed then piece.now else [])) }
{
    if is_needed {
        script.extend_from_slice(piece.as_bytes())?;
    }
    Ok(())
}

/// The script that makes these changes, in their order.
pub fn make_pins_script(
    alloc: Global,
    mounted: MountedFileSystem,
    directories: &[Directory],
    changes: &[PinChange],
) -> Result<Vec<u8>, ScriptError>
    ensures script { IfOk result (λ script. script.items ≡ pins_script mounted.entry.mount.now mounted.entry.name.now
        mounted.entry.fsid.now mounted.entry.by_ceph directories.now changes.now) }
    // where everything can be written, only memory is refused
    ensures refused { AreWritable mounted.entry.mount.now mounted.entry.name.now mounted.entry.fsid.now directories.now
        changes.now → IfErr result (λ error. error ≡ cause.Memory) }
{
    if changes.is_empty() {
        return Ok(Vec::from_slice(alloc, NO_CHANGE.as_bytes())?);
    }
    let lines = change_lines(alloc, mounted, directories, changes)?;
    let mut script = Vec::from_slice(alloc, HEAD.as_bytes())?;
    push_variables(alloc, &mut script, mounted)?;
    push_if(&mut script, lines.need_mount, CHECKS)?;
    push_if(&mut script, lines.need_ceph, CEPH)?;
    script.extend_from_slice(&lines.text)?;
    script.extend_from_slice(FOOT.as_bytes())?;
    Ok(script)
}
