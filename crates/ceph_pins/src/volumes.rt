//! Lines that pin subvolumes and their groups by Ceph's own commands, for which no mount is needed.
ghost use Rattle.std.specs.Prelude.{◌≡◌, ◌==◌, ◌<◌, ◌++◌, ◌∷◌, [], ℕ, IfOk, OnOk, codes, length, map};
ghost use Rattle.std.specs.List.{list_all, slice_split};
ghost use Rattle.std.specs.Option.{option_map};
ghost use Rattle.ceph_dumps.specs.Complete.{is_word_byte};
ghost use Rattle.ceph_snapshot.specs.Holding.{is_marked};
ghost use Rattle.ceph_snapshot.specs.Policies.{dir_path_at};
ghost use Rattle.ceph_pins.specs.Volumes.{below_volumes, ceph_line, group_line, group_option, is_group, is_unit};
ghost use Rattle.ceph_pins.specs.Volumes.{is_volume_name, named_line, pin_text, subvolume_command};
ghost use Rattle.ceph_pins.specs.Volumes.{subvolume_line, volume_names};

use ceph_dumps::is_word_byte;
use ceph_snapshot::Directory;
use mds_types::Rank;
use std::alloc::{AllocError, Global};

/// Adds the value of a pin; -1 removes it.
pub(crate) fn push_pin(
    alloc: Global,
    script: &mut Vec<u8>,
    pin: Option<Rank>,
) -> Result<(), AllocError>
    ensures { OnOk result (script.new.items ≡ script.old.items ++ pin_text pin) }
{
    match pin {
        Some(rank) => {
            let number = format!(in alloc; "{}", rank.number())?;
            script.extend_from_slice(number.as_bytes())
        }
        None => script.extend_from_slice(b"-1"),
    }
}

/// Whether each byte may be in such a name.
fn has_word_bytes(name: &[u8]) -> bool
    ensures { result ≡ list_all is_word_byte name.now }
{
    name.iter().all(|byte| is_word_byte(*byte))
}

/// Whether Ceph's commands take this name, and `sh` takes it as a word.
fn is_volume_name(name: &[u8]) -> bool
    ensures { result ≡ is_volume_name name.now }
{
    !name.is_empty() && !name.starts_with(b"-") && has_word_bytes(name)
}

/// Whether this is the name of a group, and of none of Ceph's own.
fn is_group(group: &[u8]) -> bool
    ensures { result ≡ is_group group.now }
{
    is_volume_name(group) && !group.starts_with(b"_")
}

/// The line that pins a group.
fn group_line(alloc: Global, pin: Option<Rank>, group: &[u8]) -> Result<Vec<u8>, AllocError>
    ensures { IfOk result (λ line. line.items ≡ group_line pin group.now) }
{
    let mut line = Vec::from_slice(alloc, b"run_ceph fs subvolumegroup pin \"$name\" ")?;
    line.extend_from_slice(group)?;
    line.extend_from_slice(b" export ")?;
    push_pin(alloc, &mut line, pin)?;
    line.push(b'\n')?;
    Ok(line)
}

/// Adds the option that names a group.
fn push_option(line: &mut Vec<u8>, group: &[u8]) -> Result<(), AllocError>
    ensures { OnOk result (line.new.items ≡ line.old.items ++ codes " --group_name " ++ group.now) }
{
    line.extend_from_slice(b" --group_name ")?;
    line.extend_from_slice(group)
}

/// Adds the option that names the group of a subvolume, unless it is in none.
fn push_group(line: &mut Vec<u8>, group: &[u8]) -> Result<(), AllocError>
    ensures { OnOk result (line.new.items ≡ line.old.items ++ group_option group.now) }
{
    if group.is_empty() {
        Ok(())
    } else {
        push_option(line, group)
    }
}

/// The line that pins a subvolume of a group, or of none where that is empty.
fn subvolume_line(
    alloc: Global,
    pin: Option<Rank>,
    group: &[u8],
    name: &[u8],
) -> Result<Vec<u8>, AllocError>
    ensures { IfOk result (λ line. line.items ≡ subvolume_line pin group.now name.now) }
{
    let mut line = Vec::from_slice(alloc, b"run_ceph fs subvolume pin \"$name\" ")?;
    line.extend_from_slice(name)?;
    line.extend_from_slice(b" export ")?;
    push_pin(alloc, &mut line, pin)?;
    push_group(&mut line, group)?;
    line.push(b'\n')?;
    Ok(line)
}

/// What comes after `/volumes/` in a path.
fn below_volumes(path: &[u8]) -> Option<&[u8]>
    ensures { option_map (λ names. names.now) result ≡ below_volumes path.now }
{
    path.strip_prefix(b"/volumes/")
}

/// The parts between slashes.
fn slash_parts(alloc: Global, names: &[u8]) -> Result<Vec<&[u8]>, AllocError>
    ensures { IfOk result (λ parts. map (λ part. part.now) parts.items ≡ slice_split (λ byte. byte == 47) names.now) }
{
    names.split(|byte| *byte == b'/').collect(alloc)
}

/// The names on the way from `/volumes`, if a path leads there.
fn volume_names(alloc: Global, path: &[u8]) -> Result<Vec<&[u8]>, AllocError>
    ensures { IfOk result (λ names. map (λ name. name.now) names.items ≡ volume_names path.now) }
{
    match below_volumes(path) {
        Some(names) => slash_parts(alloc, names),
        None => Ok(Vec::new(alloc)),
    }
}

/// The line that pins a group, if it is none of Ceph's own.
fn group_command(
    alloc: Global,
    pin: Option<Rank>,
    group: &[u8],
) -> Result<Option<Vec<u8>>, AllocError>
    ensures { IfOk result (λ line. option_map (λ bytes. bytes.items) line ≡ named_line pin (group.now ∷ [])) }
{
    if is_group(group) {
        Ok(Some(group_line(alloc, pin, group)?))
    } else {
        Ok(None)
    }
}

/// The line that pins a subvolume, if Ceph's commands name it. Ceph keeps those without a group in `_nogroup`.
fn subvolume_command(
    alloc: Global,
    pin: Option<Rank>,
    group: &[u8],
    name: &[u8],
) -> Result<Option<Vec<u8>>, AllocError>
    ensures { IfOk result (λ line. option_map (λ bytes. bytes.items) line ≡ subvolume_command pin group.now name.now) }
{
    if !is_volume_name(name) {
        return Ok(None);
    }
    if is_group(group) {
        return Ok(Some(subvolume_line(alloc, pin, group, name)?));
    }
    if group != b"_nogroup".as_slice() {
        return Ok(None);
    }
    Ok(Some(subvolume_line(alloc, pin, b"", name)?))
}

/// The line that pins what these names lead to from `/volumes`, if Ceph's commands name it.
fn named_line(
    alloc: Global,
    pin: Option<Rank>,
    names: &[&[u8]],
) -> Result<Option<Vec<u8>>, AllocError>
    ensures { IfOk result (λ line. option_map (λ bytes. bytes.items) line
        ≡ named_line pin (map (λ name. name.now) names.now)) }
{
    match names {
        [group] => group_command(alloc, pin, group),
        [group, name] => subvolume_command(alloc, pin, group, name),
        _ => Ok(None),
    }
}

/// The line that pins the directory of a path by Ceph's own command, if that is wanted and the command names it.
pub(crate) fn ceph_line(
    alloc: Global,
    by_ceph: bool,
    pin: Option<Rank>,
    path: &[u8],
) -> Result<Option<Vec<u8>>, AllocError>
    ensures { IfOk result (λ line. option_map (λ bytes. bytes.items) line ≡ ceph_line by_ceph pin path.now) }
{
    if !by_ceph {
        return Ok(None);
    }
    let names = volume_names(alloc, path)?;
    named_line(alloc, pin, &names)
}

/// Whether Ceph's own commands pin the directory of a path: a subvolume, or a group of them.
fn is_unit(alloc: Global, path: &[u8]) -> Result<bool, AllocError>
    ensures { IfOk result (λ is. is ≡ is_unit path.now) }
{
    let line = ceph_line(alloc, true, None, path)?;
    Ok(line.is_some())
}

/// Of each directory whether Ceph's own commands pin it: whether it is a subvolume, or a group of them.
pub fn unit_marks(alloc: Global, directories: &[Directory]) -> Result<Vec<bool>, AllocError>
    ensures size { IfOk result (λ units. length units.items ≡ length directories.now) }
    ensures units { IfOk result (λ units. (i : ℕ) → i < length directories.now
        → is_marked units.items i ≡ is_unit (dir_path_at directories.now i)) }
{
    let mut units = Vec::with_capacity(alloc, directories.len())?;
    for directory in directories {
        units.push(is_unit(alloc, &directory.path)?)?;
    }
    Ok(units)
}
