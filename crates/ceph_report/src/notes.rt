//! What a report says beside its table: directories that are hotter than a fair share, ranks that get no part, and
//! directories whose heat is counted as less than it is.
ghost use Rattle.std.specs.Prelude.{◌≡◌, ◌++◌, OnOk, nat_lt};
ghost use Rattle.mds_types.specs.declared.limits.TheConstants.{HEAT_LIMIT};
ghost use Rattle.ceph_snapshot.specs.Holding.{heat_at};
ghost use Rattle.ceph_report.specs.Report.{absence, absent_line, absent_lines, capped_line, capped_lines, capped_text};
ghost use Rattle.ceph_report.specs.Report.{over_line, over_lines, over_text};

use crate::facts::{Facts, has_number};
use crate::report::push_place;
use crate::text::{push_heat, push_number, push_text};
use ceph_snapshot::Directory;
use mds_types::limits::HEAT_LIMIT;
use std::alloc::AllocError;

/// What comes before the heat of a directory that is hotter than a fair share.
const OVER: &str =
    "hotter than a fair share, and no pin divides it (ceph.dir.pin.distributed spreads its fragments):";

/// Adds the line of a directory that is hotter than a fair share, with what Ceph has for it.
#[tactic(auto, unfolding(crate::specs::Report::over_text))]
fn push_over_text(text: &mut Vec<u8>, facts: &Facts, at: usize) -> Result<(), AllocError>
    ensures { OnOk result (text.new.items ≡ text.old.items ++ over_text facts.now at) }
{
    push_heat(text, OVER, facts.free_heat(at))?;
    push_text(text, "  ")?;
    push_place(text, facts.directories, at)
}

/// Adds the line of a directory, if it is hotter than a fair share of all this heat.
#[tactic(auto, unfolding(crate::specs::Report::over_line))]
fn push_over(text: &mut Vec<u8>, facts: &Facts, all: u128, at: usize) -> Result<(), AllocError>
    ensures { OnOk result (text.new.items ≡ text.old.items ++ over_line facts.now all at) }
{
    if facts.is_over(all, at) {
        push_over_text(text, facts, at)
    } else {
        Ok(())
    }
}

/// Adds the directories that are hotter than a fair share: fewer than there are ranks.
#[tactic(auto, unfolding(crate::specs::Report::over_lines))]
pub(crate) fn push_all_over(text: &mut Vec<u8>, facts: &Facts) -> Result<(), AllocError>
    ensures { OnOk result (text.new.items ≡ text.old.items ++ over_lines facts.now) }
{
    let all = facts.heat_now();
    for at in 0..facts.directories.len() {
        push_over(text, facts, all, at)?;
    }
    Ok(())
}

/// Why a rank below `max_mds` can't have a part; empty where it can.
#[tactic(auto, unfolding(crate::specs::Report::absence))]
fn absence(facts: &Facts, number: u8) -> &'static str
    ensures { result.now ≡ absence facts.now number }
{
    if !has_number(facts.there, number) {
        " is below max_mds and not in the file system: it gets no part\n"
    } else if !has_number(facts.active, number) {
        " is not active: it gets no part\n"
    } else {
        ""
    }
}

/// Adds the line of a rank below `max_mds`, if it can't have a part.
#[tactic(auto, unfolding(crate::specs::Report::absent_line))]
fn push_absent(text: &mut Vec<u8>, facts: &Facts, number: u8) -> Result<(), AllocError>
    ensures { OnOk result (text.new.items ≡ text.old.items ++ absent_line facts.now number) }
{
    let why = absence(facts, number);
    if why.is_empty() {
        return Ok(());
    }
    push_number(text, "rank ", u64::from(number))?;
    push_text(text, why)
}

/// Adds the ranks that get no part.
#[tactic(auto, unfolding(crate::specs::Report::absent_lines))]
pub(crate) fn push_all_absent(text: &mut Vec<u8>, facts: &Facts) -> Result<(), AllocError>
    ensures { OnOk result (text.new.items ≡ text.old.items ++ absent_lines facts.now) }
{
    for number in 0..facts.size {
        push_absent(text, facts, number)?;
    }
    Ok(())
}

/// Whether a directory is hotter than a plan can count.
fn is_capped(directories: &[Directory], at: usize) -> bool
    ensures { result ≡ nat_lt HEAT_LIMIT (heat_at directories.now at) }
{
    match directories.get(at) {
        Some(directory) => directory.heat > HEAT_LIMIT,
        None => false,
    }
}

/// Adds the line of a directory whose heat is counted as less than it is.
#[tactic(auto, unfolding(crate::specs::Report::capped_text))]
fn push_capped_text(
    text: &mut Vec<u8>,
    directories: &[Directory],
    at: usize,
) -> Result<(), AllocError>
    ensures { OnOk result (text.new.items ≡ text.old.items ++ capped_text directories.now at) }
{
    let label = "hotter than a plan can count, and counted as ";
    push_heat(text, label, HEAT_LIMIT)?;
    push_text(text, ": ")?;
    push_place(text, directories, at)
}

/// Adds the line of a directory, if its heat is counted as less than it is.
#[tactic(auto, unfolding(crate::specs::Report::capped_line))]
fn push_capped(text: &mut Vec<u8>, directories: &[Directory], at: usize) -> Result<(), AllocError>
    ensures { OnOk result (text.new.items ≡ text.old.items ++ capped_line directories.now at) }
{
    if is_capped(directories, at) {
        push_capped_text(text, directories, at)
    } else {
        Ok(())
    }
}

/// Adds the directories whose heat is counted as less than it is.
#[tactic(auto, unfolding(crate::specs::Report::capped_lines))]
pub(crate) fn push_all_capped(
    text: &mut Vec<u8>,
    directories: &[Directory],
) -> Result<(), AllocError>
    ensures { OnOk result (text.new.items ≡ text.old.items ++ capped_lines directories.now) }
{
    for at in 0..directories.len() {
        push_capped(text, directories, at)?;
    }
    Ok(())
}
