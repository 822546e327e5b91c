//! Whether the pins of this program are set in a live cluster, and hold.
ghost use Rattle.std.specs.Prelude.{◌≡◌, ◌++◌, IfOk, OnOk};
ghost use Rattle.std.specs.List.{flat_map};
ghost use Rattle.ceph_report.specs.Check as check;
ghost use Rattle.ceph_report.specs.Check.{all_hold, astray_line, astray_text, at_rank_text, check_text, hold_line};
ghost use Rattle.ceph_report.specs.Check.{check_status, unset_line};

use crate::text::{push_number, push_path, push_text};
use ceph_snapshot::Directory;
use mds_types::Rank;
use std::alloc::{AllocError, Global};

/// The pins of this program, as a cluster has them.
#[derive(Drop)]
pub struct PinCheck {
    /// A line for each directory that its pin does not hold, and how many pins hold.
    pub text: Vec<u8>,
    /// Whether each pin of the list is set, and holds.
    pub all_hold: bool,
}

impl PinCheck {
    /// The status of the program: 0 if all pins are set and hold, otherwise 4.
    pub fn status(&self) -> u8
        ensures { result ≡ check_status self.now.all_hold }
    {
        if self.all_hold { 0 } else { 4 }
    }
}

/// The rank of a pin, if the directory lies at another one or at several.
fn astray_from(directory: &Directory, pin: Option<Rank>) -> Option<Rank>
    ensures { result ≡ check.astray_of pin directory.entry.now }
{
    let rank = pin?;
    if directory.is_spread || directory.now != rank {
        Some(rank)
    } else {
        None
    }
}

/// The same of the pin that this program set.
fn astray(directory: &Directory) -> Option<Rank>
    ensures { result ≡ check.astray directory.entry.now }
{
    astray_from(directory, directory.earlier)
}

/// Adds the rank that a directory is at.
fn push_place(text: &mut Vec<u8>, directory: &Directory) -> Result<(), AllocError>
    ensures { OnOk result (text.new.items
        ≡ text.old.items ++ at_rank_text directory.entry.now.is_spread directory.entry.now.now) }
{
    if directory.is_spread {
        return push_text(text, "is at several ranks\n");
    }
    push_number(text, "is at rank ", u64::from(directory.now.number()))?;
    push_text(text, "\n")
}

/// Adds the line of a directory that its pin to this rank does not hold.
#[tactic(auto, unfolding(crate::specs::Check::astray_text))]
fn push_astray(text: &mut Vec<u8>, directory: &Directory, rank: Rank) -> Result<(), AllocError>
    ensures { OnOk result (text.new.items ≡ text.old.items ++ astray_text directory.entry.now rank) }
{
    push_path(text, &directory.path)?;
    push_number(text, ": pinned to rank ", u64::from(rank.number()))?;
    push_text(text, ", ")?;
    push_place(text, directory)
}

/// Adds the line of a directory, if this pin does not hold it.
pub(crate) fn push_astray_from(
    text: &mut Vec<u8>,
    directory: &Directory,
    pin: Option<Rank>,
) -> Result<(), AllocError>
    ensures { OnOk result (text.new.items
        ≡ text.old.items ++ check.astray_line_of directory.entry.now (check.astray_of pin directory.entry.now)) }
{
    match astray_from(directory, pin) {
        Some(rank) => push_astray(text, directory, rank),
        None => Ok(()),
    }
}

/// Adds the line of a directory, if its pin does not hold it.
fn push_directory(text: &mut Vec<u8>, directory: &Directory) -> Result<(), AllocError>
    ensures { OnOk result (text.new.items ≡ text.old.items ++ astray_line directory.entry.now) }
{
    push_astray_from(text, directory, directory.earlier)
}

/// Adds the lines of all directories that their pins do not hold.
fn push_directories(text: &mut Vec<u8>, directories: &[Directory]) -> Result<(), AllocError>
    ensures { OnOk result (text.new.items ≡ text.old.items ++ flat_map astray_line directories.now) }
{
    for directory in directories {
        push_directory(text, directory)?;
    }
    Ok(())
}

/// How many directories have a pin that this program set.
#[tactic(auto, unfolding(crate::specs::Check::set_count))]
fn set_count(directories: &[Directory]) -> usize
    ensures { result ≡ check.set_count directories.now }
{
    let mut count = 0usize;
    for directory in directories {
        if directory.earlier.is_some() {
            count += 1;
        }
    }
    count
}

/// How many of them it does not hold.
#[tactic(auto, unfolding(crate::specs::Check::astray_count))]
fn astray_count(directories: &[Directory]) -> usize
    ensures { result ≡ check.astray_count directories.now }
{
    let mut count = 0usize;
    for directory in directories {
        if astray(directory).is_some() {
            count += 1;
        }
    }
    count
}

/// Adds how many pins of the list are not set, if any.
#[tactic(auto, unfolding(crate::specs::Check::unset_line))]
fn push_unset(text: &mut Vec<u8>, unset: usize) -> Result<(), AllocError>
    ensures { OnOk result (text.new.items ≡ text.old.items ++ unset_line unset) }
{
    if unset == 0 {
        return Ok(());
    }
    push_number(text, "", unset as u64)?;
    push_text(text, " pins of the list are not set\n")
}

/// Adds how many pins hold.
#[tactic(auto, unfolding(crate::specs::Check::hold_line))]
fn push_holding(text: &mut Vec<u8>, holding: usize, listed: usize) -> Result<(), AllocError>
    ensures { OnOk result (text.new.items ≡ text.old.items ++ hold_line holding listed) }
{
    push_number(text, "", holding as u64)?;
    push_number(text, " of ", listed as u64)?;
    push_text(text, " pins hold\n")
}

/// Compares the pins of this program with a list of `listed` pins: those that directories have are in `directories`.
#[tactic(auto, unfolding(crate::specs::Check::check_text))]
pub fn check_pins(
    alloc: Global,
    directories: &[Directory],
    listed: usize,
) -> Result<PinCheck, AllocError>
    ensures text { IfOk result (λ found. found.text.items ≡ check_text directories.now listed) }
    ensures holds { IfOk result (λ found. found.all_hold ≡ all_hold directories.now listed) }
{
    let (set, astray) = (set_count(directories), astray_count(directories));
    let mut text = Vec::new(alloc);
    push_directories(&mut text, directories)?;
    push_unset(&mut text, listed.saturating_sub(set))?;
    push_holding(&mut text, set.saturating_sub(astray), listed)?;
    Ok(PinCheck {
        text,
        all_hold: set >= listed && astray == 0,
    })
}
