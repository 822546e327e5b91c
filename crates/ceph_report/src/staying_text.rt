//! The directories that are left where they are, in the report and as JSON.
ghost use Rattle.std.specs.Prelude.{◌≡◌, ◌<◌, ◌≤◌, ◌+◌, ◌++◌, OnOk, IfOk, None, length, slice_index_or};
ghost use Rattle.std.specs.Prelude.{if◌then◌else◌};
ghost use Rattle.mds_types.specs.Sums.{count_below};
ghost use Rattle.ceph_report.specs.Left.{left_at, left_entry, left_line, left_object, left_text, reason_name};
ghost use Rattle.ceph_report.specs.Report.{left_lines};
ghost use Rattle.ceph_report.specs.Staying.{below_text, is_left, reason_text, stay_text};
ghost use Rattle.ceph_report.specs.Text.{lines_below};

use crate::json;
use crate::report::{LINES_EACH, push_more, push_place};
use crate::staying::{Reason, Stay};
use crate::text::{comma, push_number, push_text};
use ceph_snapshot::{Directory, EphemeralPin};
use std::alloc::AllocError;

/// Why a directory is left where it is.
fn reason_text(why: Reason) -> &'static str
    ensures { result.now ≡ reason_text why }
{
    match why {
        Reason::Policy(EphemeralPin::Distributed) => {
            ", its children spread by its distributed policy"
        }
        Reason::Policy(EphemeralPin::Random) => ", held by its random policy",
        Reason::Policy(EphemeralPin::Unknown) => ", pinned by Ceph itself",
        Reason::Absent => ", pinned by others to a rank that is not there",
        Reason::Doubtful => ", another directory over the mount, or none, by its inode number",
        Reason::Spread => ", at several ranks or pinned by Ceph itself",
    }
}

/// Adds how many directories are left with one, if any.
#[tactic(auto, unfolding(crate::specs::Staying::below_text))]
fn push_below(text: &mut Vec<u8>, below: u64) -> Result<(), AllocError>
    ensures { OnOk result (text.new.items ≡ text.old.items ++ below_text below) }
{
    if below == 0 {
        return Ok(());
    }
    push_number(text, " with ", below)?;
    push_text(text, " directories below")
}

/// Adds that a directory is left where it is, and why.
#[tactic(auto, unfolding(crate::specs::Staying::stay_text))]
pub(crate) fn push_stay(text: &mut Vec<u8>, stay: Stay) -> Result<(), AllocError>
    ensures { OnOk result (text.new.items ≡ text.old.items ++ stay_text stay) }
{
    push_text(text, "left where it is")?;
    push_below(text, stay.below)?;
    push_text(text, reason_text(stay.why))
}

/// Adds the line of a directory that is left where it is.
#[tactic(auto, unfolding(crate::specs::Left::left_line))]
fn push_left_line(
    text: &mut Vec<u8>,
    directories: &[Directory],
    stay: Stay,
    at: usize,
) -> Result<(), AllocError>
    ensures { OnOk result (text.new.items ≡ text.old.items ++ left_line directories.now stay at) }
{
    push_stay(text, stay)?;
    push_text(text, ": ")?;
    push_place(text, directories, at)
}

/// What a reason is called.
fn reason_name(why: Reason) -> &'static str
    ensures { result.now ≡ reason_name why }
{
    match why {
        Reason::Policy(EphemeralPin::Distributed) => "distributed",
        Reason::Policy(EphemeralPin::Random) => "random",
        Reason::Policy(EphemeralPin::Unknown) => "ephemeral",
        Reason::Absent => "absent_rank",
        Reason::Doubtful => "inode_number",
        Reason::Spread => "several_ranks",
    }
}

/// Adds the member of a directory that is left where it is.
#[tactic(auto, unfolding(crate::specs::Left::left_object))]
fn push_left_object(
    text: &mut Vec<u8>,
    directories: &[Directory],
    stay: Stay,
    at: usize,
) -> Result<(), AllocError>
    ensures { OnOk result (text.new.items ≡ text.old.items ++ left_object directories.now stay at) }
{
    push_text(text, "\n  {\"path")?;
    json::push_place(text, directories, at)?;
    push_text(text, ",\"why\":\"")?;
    push_text(text, reason_name(stay.why))?;
    push_number(text, "\",\"below\":", stay.below)?;
    push_text(text, "}")
}

/// How the directories that are left where they are are written.
#[derive(Clone, Copy)]
pub(crate) enum LeftForm {
    /// A line each, but for those past the first 40.
    Line,
    /// A member each of a list of JSON.
    Member,
}

/// Adds a directory that is left where it is, after `before` others.
#[tactic(auto, unfolding(crate::specs::Left::left_text))]
fn push_one(
    text: &mut Vec<u8>,
    directories: &[Directory],
    stay: Stay,
    at: usize,
    before: usize,
    form: LeftForm,
) -> Result<(), AllocError>
    ensures { OnOk result (text.new.items ≡ text.old.items ++ left_text form directories.now stay at before) }
{
    match form {
        LeftForm::Line if before < LINES_EACH => push_left_line(text, directories, stay, at),
        LeftForm::Line => Ok(()),
        LeftForm::Member => {
            push_text(text, comma(before))?;
            push_left_object(text, directories, stay, at)
        }
    }
}

/// Whether the directory at a place is left where it is, and why.
pub(crate) fn stay_in(stays: &[Option<Stay>], at: usize) -> Option<Stay>
    ensures { result ≡ slice_index_or stays.now at None }
{
    match stays.get(at) {
        Some(stay) => *stay,
        None => None,
    }
}

/// Adds a directory if it is left where it is, after `before` others. Gives how many there are now.
fn push_if_left(
    text: &mut Vec<u8>,
    directories: &[Directory],
    stays: &[Option<Stay>],
    at: usize,
    before: usize,
    form: LeftForm,
) -> Result<usize, AllocError>
    requires inside { at < length stays.now }
    requires few { before ≤ at }
    ensures text { OnOk result (text.new.items
        ≡ text.old.items ++ left_entry form directories.now (slice_index_or stays.now at None) at before) }
    ensures count { IfOk result (λ count. count ≡ before + (if is_left stays.now at then 1 else 0)) }
{
    let Some(stay) = stay_in(stays, at) else {
        return Ok(before);
    };
    push_one(text, directories, stay, at, before, form)?;
    Ok(before + 1)
}

/// Adds the directories that are left where they are. Gives how many there are.
pub(crate) fn push_left(
    text: &mut Vec<u8>,
    directories: &[Directory],
    stays: &[Option<Stay>],
    form: LeftForm,
) -> Result<usize, AllocError>
    ensures text { OnOk result (text.new.items
        ≡ text.old.items ++ lines_below (left_at form directories.now stays.now) (length stays.now)) }
    ensures count { IfOk result (λ count. count ≡ count_below (length stays.now) (is_left stays.now)) }
{
    let mut count = 0usize;
    for at in 0..stays.len() {
        count = push_if_left(text, directories, stays, at, count, form)?;
    }
    Ok(count)
}

/// Adds the directories that are left where they are: the first ones, and how many more there are.
#[tactic(auto, unfolding(crate::specs::Report::left_lines))]
pub(crate) fn push_all_left(
    text: &mut Vec<u8>,
    directories: &[Directory],
    stays: &[Option<Stay>],
) -> Result<(), AllocError>
    ensures { OnOk result (text.new.items ≡ text.old.items ++ left_lines directories.now stays.now) }
{
    let count = push_left(text, directories, stays, LeftForm::Line)?;
    let more = count.saturating_sub(LINES_EACH);
    push_more(text, more, " more that are left where they are\n")
}
