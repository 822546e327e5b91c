//! Which answers are troubles.
ghost use Rattle.std.specs.Prelude.{◌≡◌, None, Some, Option};
ghost use Rattle.std.specs.List.{list_any};
ghost use Rattle.std.specs.Str.{bytes_eq};
ghost use Rattle.pin_driver.specs.Troubles.{are_warnings_of, cluster_trouble, is_expected, is_inode, is_same_pin};
ghost use Rattle.pin_driver.specs.Troubles.{get_trouble, misfit, roots_trouble, set_trouble, state_trouble};
ghost use Rattle.pin_driver.specs.Troubles.{store_trouble, unlike_plan, wait_trouble};

use crate::answer::{ClusterState, FoundPin, HostAnswer};
use crate::bytes::Bytes;
use crate::plan::PlannedChange;
use crate::question::Trouble;
use crate::task::Task;
use mds_types::Rank;

/// What an answer that does not fit its question is.
pub(crate) fn misfit(answer: &HostAnswer) -> Trouble
    ensures { result ≡ misfit answer.now }
{
    match answer {
        HostAnswer::NoAnswer => Trouble::NoAnswer,
        HostAnswer::Refused => Trouble::Refused,
        HostAnswer::Waited
        | HostAnswer::Cluster(_)
        | HostAnswer::Stored
        | HostAnswer::Found(_)
        | HostAnswer::Done
        | HostAnswer::InPlace(_)
        | HostAnswer::Gone
        | HostAnswer::Nonsense => Trouble::Nonsense,
    }
}

fn has_warning(warnings: &[Bytes], warning: &Bytes) -> bool
    ensures { result ≡ list_any (bytes_eq warning.now) warnings.now }
{
    warnings.iter().any(|known| warning.is_same(known))
}

/// Whether each of the new warnings is an old one.
fn are_warnings_of(old: &[Bytes], new: &[Bytes]) -> bool
    ensures { result ≡ are_warnings_of old.now new.now }
{
    new.iter().all(|warning| has_warning(old, warning))
}

fn cluster_trouble(first: &Option<ClusterState>, now: &ClusterState) -> Option<Trouble>
    ensures { result ≡ cluster_trouble first.now now.now }
{
    match first {
        None => None,
        Some(first) => {
            if !first.ranks.is_same(&now.ranks) {
                Some(Trouble::RanksChanged)
            } else if !are_warnings_of(&first.warnings, &now.warnings) {
                Some(Trouble::NewWarning)
            } else {
                None
            }
        }
    }
}

pub(crate) fn is_same_pin(a: &Option<Rank>, b: &Option<Rank>) -> bool
    ensures { result ≡ is_same_pin a.now b.now }
{
    match (a, b) {
        (None, None) => true,
        (Some(a), Some(b)) => a.number() == b.number(),
        (None, Some(_)) => false,
        (Some(_), None) => false,
    }
}

pub(crate) fn is_inode(inode: Option<u64>, found: u64) -> bool
    ensures { result ≡ is_inode inode found }
{
    match inode {
        None => true,
        Some(inode) => inode == found,
    }
}

fn is_expected(may_be_made: bool, change: &PlannedChange, pin: &Option<Rank>) -> bool
    ensures { result ≡ is_expected may_be_made change.now pin.now }
{
    is_same_pin(pin, &change.before) || (may_be_made && is_same_pin(pin, &change.after))
}

/// What is wrong with the directory of a change that is to be made.
pub(crate) fn unlike_plan(task: &Task, at: usize, found: FoundPin) -> Option<Trouble>
    ensures { result ≡ unlike_plan task.now at found }
{
    match task.plan.changes().get(at) {
        None => Some(Trouble::Nonsense),
        Some(change) => {
            if !is_inode(change.inode, found.inode) {
                Some(Trouble::OtherDirectory)
            } else if !is_expected(at < task.first.begun, change, &found.pin) {
                Some(Trouble::PinChanged)
            } else {
                None
            }
        }
    }
}

pub(crate) fn wait_trouble(answer: &HostAnswer) -> Option<Trouble>
    ensures { result ≡ wait_trouble answer.now }
{
    match answer {
        HostAnswer::Waited => None,
        other => Some(misfit(other)),
    }
}

pub(crate) fn state_trouble(first: &Option<ClusterState>, answer: &HostAnswer) -> Option<Trouble>
    ensures { result ≡ state_trouble first.now answer.now }
{
    match answer {
        HostAnswer::Cluster(now) => cluster_trouble(first, now),
        other => Some(misfit(other)),
    }
}

pub(crate) fn store_trouble(answer: &HostAnswer) -> Option<Trouble>
    ensures { result ≡ store_trouble answer.now }
{
    match answer {
        HostAnswer::Stored => None,
        other => Some(misfit(other)),
    }
}

pub(crate) fn get_trouble(task: &Task, at: usize, answer: &HostAnswer) -> Option<Trouble>
    ensures { result ≡ get_trouble (unlike_plan task.now at) answer.now }
{
    match answer {
        HostAnswer::Found(found) => unlike_plan(task, at, *found),
        HostAnswer::Gone => None,
        other => Some(misfit(other)),
    }
}

pub(crate) fn set_trouble(answer: &HostAnswer) -> Option<Trouble>
    ensures { result ≡ set_trouble answer.now }
{
    match answer {
        HostAnswer::Done | HostAnswer::Gone => None,
        other => Some(misfit(other)),
    }
}

/// `left` is how many seconds of the longest wait are left.
pub(crate) fn roots_trouble(left: u64, answer: &HostAnswer) -> Option<Trouble>
    ensures { result ≡ roots_trouble left answer.now }
{
    match answer {
        HostAnswer::InPlace(is) => {
            if !*is && left == 0 {
                Some(Trouble::TooSlow)
            } else {
                None
            }
        }
        other => Some(misfit(other)),
    }
}
