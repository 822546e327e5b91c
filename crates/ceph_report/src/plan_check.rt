//! Whether the pins of a plan are set in a live cluster, and hold.
ghost use Rattle.std.specs.Prelude.{◌≡◌, ◌++◌, IfOk, OnOk, Some, option_map};
ghost use Rattle.std.specs.List.{flat_map};
ghost use Rattle.ceph_report.specs.PlanCheck.{are_two, change_difference, difference, difference_of, does_plan_hold};
ghost use Rattle.ceph_report.specs.PlanCheck.{earlier_difference, goal_of, is_changed_path, is_other_pin, named};
ghost use Rattle.ceph_report.specs.PlanCheck.{other_directory_text, other_pin_text, pin_words, pin_there};
ghost use Rattle.ceph_report.specs.PlanCheck.{plan_check_text, plan_differences, two_pins_text};

use crate::check::{PinCheck, push_astray_from};
use crate::text::{push_number, push_path, push_text};
use ceph_snapshot::Directory;
use mds_types::{Rank, RankSet};
use pin_driver::{EarlierPin, PinPlan, PlannedChange};
use std::alloc::{AllocError, Global};

/// The number of a rank, where there is one.
fn number_of(rank: &Option<Rank>) -> Option<u64>
    ensures { result ≡ rank.now }
{
    match rank {
        Some(rank) => Some(u64::from(rank.number())),
        None => None,
    }
}

/// The pin that a directory has, whoever set it.
fn pin_there(directory: &Directory) -> Option<u64>
    ensures { result ≡ pin_there directory.entry.now }
{
    number_of(&directory.pin).or(directory.idle.or(number_of(&directory.earlier)))
}

/// The directory of a path, if it is there.
fn named<'a>(directories: &'a [Directory], path: &[u8]) -> Option<&'a Directory>
    ensures { option_map (λ one. one.now) result ≡ named path.now directories.entry.now }
{
    directories
        .iter()
        .find(|directory| directory.path.as_slice() == path)
}

fn are_two(a: Option<u64>, b: Option<u64>) -> bool
    ensures { result ≡ are_two a b }
{
    match (a, b) {
        (Some(a), Some(b)) => a != b,
        _ => false,
    }
}

fn is_other_pin(a: Option<u64>, b: Option<u64>) -> bool
    ensures { result ≡ is_other_pin a b }
{
    match (a, b) {
        (None, None) => false,
        (Some(a), Some(b)) => a != b,
        _ => true,
    }
}

/// The rank that a pin brings a directory to.
fn goal_of(ranks: RankSet, pin: &Option<Rank>) -> Option<Rank>
    ensures { result ≡ goal_of ranks pin.now }
{
    match pin {
        Some(rank) if ranks.has(*rank) => Some(*rank),
        _ => None,
    }
}

/// Adds a pin.
fn push_pin(text: &mut Vec<u8>, pin: Option<u64>) -> Result<(), AllocError>
    ensures { OnOk result (text.new.items ≡ text.old.items ++ pin_words pin) }
{
    match pin {
        None => push_text(text, "no pin"),
        Some(rank) => push_number(text, "a pin to rank ", rank),
    }
}

/// Adds the end of the line of a directory that has another pin.
#[tactic(auto, unfolding(crate::specs::PlanCheck::two_pins_text))]
fn push_two_pins(text: &mut Vec<u8>, there: Option<u64>, pin: Option<u64>) -> Result<(), AllocError>
    ensures { OnOk result (text.new.items ≡ text.old.items ++ two_pins_text there pin) }
{
    push_text(text, ": has ")?;
    push_pin(text, there)?;
    push_text(text, ", planned is ")?;
    push_pin(text, pin)?;
    push_text(text, "\n")
}

/// Adds the line of a directory that has another pin.
#[tactic(auto, unfolding(crate::specs::PlanCheck::other_pin_text))]
fn push_other_pin(
    text: &mut Vec<u8>,
    directory: &Directory,
    pin: Option<u64>,
) -> Result<(), AllocError>
    ensures { OnOk result (text.new.items ≡ text.old.items ++ other_pin_text directory.entry.now pin) }
{
    push_path(text, &directory.path)?;
    push_two_pins(text, pin_there(directory), pin)
}

/// Adds the line of a directory that is another one.
#[tactic(auto, unfolding(crate::specs::PlanCheck::other_directory_text))]
fn push_other_directory(text: &mut Vec<u8>, directory: &Directory) -> Result<(), AllocError>
    ensures { OnOk result (text.new.items ≡ text.old.items ++ other_directory_text directory.entry.now) }
{
    push_path(text, &directory.path)?;
    push_text(text, ": is another directory than in the plan\n")
}

/// Adds the line of a directory, where it differs from what it is to be.
fn push_difference(
    text: &mut Vec<u8>,
    ranks: RankSet,
    inode: Option<u64>,
    pin: &Option<Rank>,
    directory: &Directory,
) -> Result<(), AllocError>
    ensures { OnOk result (text.new.items ≡ text.old.items ++ difference ranks inode pin.now directory.entry.now) }
{
    let planned = number_of(pin);
    if are_two(inode, directory.inode) {
        push_other_directory(text, directory)
    } else if is_other_pin(pin_there(directory), planned) {
        push_other_pin(text, directory, planned)
    } else {
        push_astray_from(text, directory, goal_of(ranks, pin))
    }
}

/// Adds the line of the directory of a path.
fn push_difference_of(
    text: &mut Vec<u8>,
    directories: &[Directory],
    ranks: RankSet,
    path: &[u8],
    inode: Option<u64>,
    pin: &Option<Rank>,
) -> Result<(), AllocError>
    ensures { OnOk result (text.new.items ≡ text.old.items
        ++ difference_of ranks inode pin.now (named path.now directories.now)) }
{
    match named(directories, path) {
        Some(directory) => push_difference(text, ranks, inode, pin, directory),
        None => Ok(()),
    }
}

/// Adds the lines of the directories of the changes.
fn push_changes(
    text: &mut Vec<u8>,
    directories: &[Directory],
    ranks: RankSet,
    changes: &[PlannedChange],
) -> Result<(), AllocError>
    ensures { OnOk result (text.new.items ≡ text.old.items
        ++ flat_map (change_difference directories.now ranks) changes.now) }
{
    for change in changes {
        push_difference_of(
            text,
            directories,
            ranks,
            change.path.as_slice(),
            change.inode,
            &change.after,
        )?;
    }
    Ok(())
}

fn is_changed(plan: &PinPlan, path: &[u8]) -> bool
    ensures { result ≡ is_changed_path plan.now path.now }
{
    plan.changes()
        .iter()
        .any(|change| change.path.as_slice() == path)
}

/// Adds the line of the directory of an earlier pin, unless it is changed.
fn push_earlier(
    text: &mut Vec<u8>,
    directories: &[Directory],
    ranks: RankSet,
    plan: &PinPlan,
    pin: &EarlierPin,
) -> Result<(), AllocError>
    ensures { OnOk result (text.new.items ≡ text.old.items
        ++ earlier_difference directories.now ranks plan.now pin.now) }
{
    let path = pin.path.as_slice();
    if is_changed(plan, path) {
        return Ok(());
    }
    let planned = Some(pin.rank);
    push_difference_of(text, directories, ranks, path, pin.inode, &planned)
}

/// Adds the lines of the directories of the earlier pins.
fn push_earlier_pins(
    text: &mut Vec<u8>,
    directories: &[Directory],
    ranks: RankSet,
    plan: &PinPlan,
) -> Result<(), AllocError>
    ensures { OnOk result (text.new.items ≡ text.old.items
        ++ flat_map (earlier_difference directories.now ranks plan.now) plan.now.earlier) }
{
    for pin in plan.earlier() {
        push_earlier(text, directories, ranks, plan, pin)?;
    }
    Ok(())
}

/// The lines of all directories that differ from a plan.
#[tactic(auto, unfolding(crate::specs::PlanCheck::plan_differences))]
fn differences(
    alloc: Global,
    directories: &[Directory],
    ranks: RankSet,
    plan: &PinPlan,
) -> Result<Vec<u8>, AllocError>
    ensures { IfOk result (λ text. text.items ≡ plan_differences directories.now ranks plan.now) }
{
    let mut text = Vec::new(alloc);
    push_changes(&mut text, directories, ranks, plan.changes())?;
    push_earlier_pins(&mut text, directories, ranks, plan)?;
    Ok(text)
}

/// Compares a live cluster, which has these ranks, with a plan that is carried out. The directories were read without
/// a list of pins, or with any.
pub fn check_plan(
    alloc: Global,
    directories: &[Directory],
    ranks: RankSet,
    plan: &PinPlan,
) -> Result<PinCheck, AllocError>
    ensures text { IfOk result (λ found. found.text.items ≡ plan_check_text directories.now ranks plan.now) }
    ensures holds { IfOk result (λ found. found.all_hold ≡ does_plan_hold directories.now ranks plan.now) }
{
    let mut text = differences(alloc, directories, ranks, plan)?;
    let all_hold = text.is_empty();
    if all_hold {
        push_text(&mut text, "the plan holds\n")?;
    }
    Ok(PinCheck { text, all_hold })
}
