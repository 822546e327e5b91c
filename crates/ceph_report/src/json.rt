//! The plan as JSON, for programs.
//!
//! A path that isn't UTF-8 is in a member whose name ends in `_bytes`, as hexadecimal digits. Heat is in thousandths.
ghost use Rattle.std.specs.Prelude.{◌≡◌, ◌<◌, ◌≤◌, ◌+◌, ◌++◌, None, OnOk, IfOk, length, slice_get, slice_index};
ghost use Rattle.std.specs.Prelude.{if◌then◌else◌};
ghost use Rattle.ceph_plan.specs.Changes.{before_pin};
ghost use Rattle.ceph_pins.specs.PinsScript.{inode_of_row, path_at};
ghost use Rattle.ceph_pins.specs.Volumes.{pin_text};
ghost use Rattle.ceph_snapshot.specs.Holding.{now_at};
ghost use Rattle.ceph_report.specs.Json.{back_object, bound_members, change_lists, change_members, change_object};
ghost use Rattle.ceph_report.specs.Json.{directory_members, inode_numbers, inode_text, json, mode_members};
ghost use Rattle.ceph_report.specs.Json.{move_members, one_member, one_object, part_list, part_member, pin_members};
ghost use Rattle.ceph_report.specs.Json.{plan_head, plan_numbers, plan_totals, rank_entry, rank_list, rank_members};
ghost use Rattle.ceph_report.specs.Json.{rank_numbers, rank_object, root_numbers, stay_list, term_name};
ghost use Rattle.ceph_report.specs.Text.{path_value};
ghost use Rattle.ceph_report.specs.Told.{is_told};

use crate::facts::{BoundTerm, Facts, number_at};
use crate::hours::push_hours_member;
use crate::spreading::push_member;
use crate::staying::Stay;
use crate::staying_text::{LeftForm, push_left};
use crate::text::{comma, push_number, push_path_value, push_text, truth};
use ceph_plan::{PinChange, PinRow};
use ceph_snapshot::Directory;
use mds_types::Rank;
use mds_types::limits::RANK_LIMIT;
use std::alloc::{AllocError, Global};

/// Adds whether Ceph's balancer is on, whether there is so little heat that nothing is proposed, and whether the plan
/// keeps within what is asked for.
#[tactic(auto, unfolding(crate::specs::Json::mode_members))]
fn push_modes(text: &mut Vec<u8>, facts: &Facts) -> Result<(), AllocError>
    ensures { OnOk result (text.new.items ≡ text.old.items ++ mode_members facts.now) }
{
    push_text(text, ",\"balancer\":")?;
    push_text(text, truth(facts.balances))?;
    push_text(text, ",\"idle\":")?;
    push_text(text, truth(facts.is_idle))?;
    push_text(text, ",\"within\":")?;
    push_text(text, truth(facts.is_within))
}

/// Adds whether the plan is proposed, and of how much it is.
#[tactic(auto, unfolding(crate::specs::Json::plan_head))]
fn push_head(text: &mut Vec<u8>, facts: &Facts, is_proposed: bool) -> Result<(), AllocError>
    ensures { OnOk result (text.new.items ≡ text.old.items ++ plan_head facts.now is_proposed) }
{
    push_text(text, "{\"format\":2,\"proposed\":")?;
    push_text(text, truth(is_proposed))?;
    push_number(text, ",\n\"directories\":", facts.directories.len() as u64)?;
    push_number(text, ",\"folded\":", facts.folded as u64)?;
    push_number(text, ",\"samples\":", facts.samples)?;
    push_modes(text, facts)
}

/// Adds what moves.
#[tactic(auto, unfolding(crate::specs::Json::move_members))]
fn push_moved(text: &mut Vec<u8>, facts: &Facts) -> Result<(), AllocError>
    ensures { OnOk result (text.new.items ≡ text.old.items ++ move_members facts.now) }
{
    push_number(text, ",\"inodes_moved\":", facts.plan.moved)?;
    push_number(text, ",\"inodes_without_heat\":", facts.sums.cold)?;
    push_number(text, ",\"heat_moved\":", facts.sums.heat)
}

/// Adds what the plan comes to.
#[tactic(auto, unfolding(crate::specs::Json::plan_totals))]
fn push_totals(text: &mut Vec<u8>, facts: &Facts) -> Result<(), AllocError>
    ensures { OnOk result (text.new.items ≡ text.old.items ++ plan_totals facts.now) }
{
    push_number(text, ",\n\"greatest\":", facts.hottest_planned())?;
    push_number(text, ",\"bound\":", facts.hottest_bound())?;
    push_moved(text, facts)?;
    push_number(text, ",\"pins_standing\":", facts.standing as u64)
}

/// What a term of the bound is called.
fn term_name(term: BoundTerm) -> &'static str
    ensures { result.now ≡ term_name term }
{
    match term {
        BoundTerm::Mean => "mean",
        BoundTerm::Hottest => "directory",
        BoundTerm::Pinned => "pinned",
    }
}

/// Adds which term makes the bound, and the hottest directory that was collected.
#[tactic(auto, unfolding(crate::specs::Json::bound_members))]
fn push_bound(text: &mut Vec<u8>, facts: &Facts) -> Result<(), AllocError>
    ensures { OnOk result (text.new.items ≡ text.old.items ++ bound_members facts.now) }
{
    push_text(text, ",\n\"bound_by\":\"")?;
    push_text(text, term_name(facts.bound_term()))?;
    push_text(text, "\",\"hottest_directory")?;
    push_path_value(text, &facts.hottest.path)
}

/// Adds what the plan comes to, what makes the bound, what Ceph's own policy would give, and the hours.
#[tactic(auto, unfolding(crate::specs::Json::plan_numbers))]
fn push_numbers(text: &mut Vec<u8>, facts: &Facts) -> Result<(), AllocError>
    ensures { OnOk result (text.new.items ≡ text.old.items ++ plan_numbers facts.now) }
{
    push_totals(text, facts)?;
    push_bound(text, facts)?;
    push_member(text, facts)?;
    push_hours_member(text, facts)
}

/// Adds a rank and its heat.
#[tactic(auto, unfolding(crate::specs::Json::rank_numbers))]
fn push_rank_heats(text: &mut Vec<u8>, facts: &Facts, number: u8) -> Result<(), AllocError>
    ensures { OnOk result (text.new.items ≡ text.old.items ++ rank_numbers facts.now number) }
{
    push_number(text, "\n  {\"rank\":", u64::from(number))?;
    push_number(text, ",\"now\":", number_at(&facts.sums.now, number))?;
    let planned = number_at(facts.planned, number);
    push_number(text, ",\"planned\":", planned)?;
    push_number(text, ",\"pinned\":", number_at(facts.pinned, number))
}

/// Adds the inodes that come to a rank, and those that go from it.
#[tactic(auto, unfolding(crate::specs::Json::inode_numbers))]
fn push_rank_inodes(text: &mut Vec<u8>, facts: &Facts, number: u8) -> Result<(), AllocError>
    ensures { OnOk result (text.new.items ≡ text.old.items ++ inode_numbers facts.now number) }
{
    push_number(text, ",\"inodes_in\":", number_at(&facts.sums.into, number))?;
    push_number(text, ",\"inodes_out\":", number_at(&facts.sums.out, number))
}

/// Adds how many roots of subtrees a rank has, now and as planned.
#[tactic(auto, unfolding(crate::specs::Json::root_numbers))]
fn push_rank_roots(text: &mut Vec<u8>, facts: &Facts, number: u8) -> Result<(), AllocError>
    ensures { OnOk result (text.new.items ≡ text.old.items ++ root_numbers facts.now number) }
{
    push_number(text, ",\"roots\":", number_at(&facts.roots.now, number))?;
    let planned = number_at(&facts.roots.planned, number);
    push_number(text, ",\"roots_planned\":", planned)?;
    push_text(text, "}")
}

/// Adds a rank.
#[tactic(auto, unfolding(crate::specs::Json::rank_object))]
fn push_rank(text: &mut Vec<u8>, facts: &Facts, number: u8) -> Result<(), AllocError>
    ensures { OnOk result (text.new.items ≡ text.old.items ++ rank_object facts.now number) }
{
    push_rank_heats(text, facts, number)?;
    push_rank_inodes(text, facts, number)?;
    push_rank_roots(text, facts, number)
}

/// Adds a rank if it is reported, after `before` others. Gives how many there are now.
#[tactic(auto, unfolding(crate::specs::Json::rank_entry))]
fn push_told(
    text: &mut Vec<u8>,
    facts: &Facts,
    number: u8,
    before: usize,
) -> Result<usize, AllocError>
    requires inside { number < 64 }
    requires few { before ≤ number }
    ensures member { OnOk result (text.new.items ≡ text.old.items ++ rank_entry facts.now number before) }
    ensures count { IfOk result (λ count. count ≡ before + (if is_told facts.now number then 1 else 0)) }
{
    if !facts.is_told(number) {
        return Ok(before);
    }
    push_text(text, comma(before))?;
    push_rank(text, facts, number)?;
    Ok(before + 1)
}

/// Adds the ranks: those that may have a part, and those where something is now.
#[tactic(auto, unfolding(crate::specs::Json::rank_list))]
fn push_ranks(text: &mut Vec<u8>, facts: &Facts) -> Result<(), AllocError>
    ensures { OnOk result (text.new.items ≡ text.old.items ++ rank_list facts.now) }
{
    push_text(text, ",\n\"ranks\":[")?;
    let mut count = 0usize;
    for number in 0..RANK_LIMIT {
        count = push_told(text, facts, number, count)?;
    }
    Ok(())
}

/// Adds the rank of a part.
#[tactic(auto, unfolding(crate::specs::Json::part_member))]
fn push_part(text: &mut Vec<u8>, ranks: &[Rank], at: usize) -> Result<(), AllocError>
    requires { at < length ranks.now }
    ensures { OnOk result (text.new.items ≡ text.old.items ++ part_member ranks.now at) }
{
    push_number(text, comma(at), u64::from(ranks[at].number()))
}

/// Adds the rank of each part.
#[tactic(auto, unfolding(crate::specs::Json::part_list))]
fn push_parts(text: &mut Vec<u8>, ranks: &[Rank]) -> Result<(), AllocError>
    ensures { OnOk result (text.new.items ≡ text.old.items ++ part_list ranks.now) }
{
    push_text(text, "],\n\"rank_of_part\":[")?;
    for at in 0..ranks.len() {
        push_part(text, ranks, at)?;
    }
    Ok(())
}

/// Adds the directories that are left where they are.
#[tactic(auto, unfolding(crate::specs::Json::stay_list))]
fn push_stays(
    text: &mut Vec<u8>,
    directories: &[Directory],
    stays: &[Option<Stay>],
) -> Result<(), AllocError>
    ensures { OnOk result (text.new.items ≡ text.old.items ++ stay_list directories.now stays.now) }
{
    push_text(text, "],\n\"left\":[")?;
    push_left(text, directories, stays, LeftForm::Member)?;
    Ok(())
}

/// Adds the rank of a pin, -1 where it is taken away.
#[tactic(auto, unfolding(crate::specs::Text::field))]
fn push_pin_rank(text: &mut Vec<u8>, pin: Option<Rank>) -> Result<(), AllocError>
    ensures { OnOk result (text.new.items ≡ text.old.items ++ pin_text pin) }
{
    match pin {
        Some(rank) => push_number(text, "", u64::from(rank.number())),
        None => push_text(text, "-1"),
    }
}

/// Adds the path of a directory after the begin of a member's name.
pub(crate) fn push_place(
    text: &mut Vec<u8>,
    directories: &[Directory],
    at: usize,
) -> Result<(), AllocError>
    ensures { OnOk result (text.new.items ≡ text.old.items ++ path_value (path_at directories.now at)) }
{
    match directories.get(at) {
        Some(directory) => push_path_value(text, &directory.path),
        None => push_path_value(text, b""),
    }
}

/// The inode number of the directory at a place, where it is known.
fn inode_of_row(directories: &[Directory], at: usize) -> Option<u64>
    ensures { result ≡ inode_of_row directories.now at }
{
    directories.get(at)?.inode
}

/// Adds the inode number of a directory, null where it is not known.
#[tactic(auto, unfolding(crate::specs::Json::inode_text))]
fn push_inode(text: &mut Vec<u8>, inode: Option<u64>) -> Result<(), AllocError>
    ensures { OnOk result (text.new.items ≡ text.old.items ++ inode_text inode) }
{
    match inode {
        Some(inode) => push_number(text, ",\"inode\":", inode),
        None => push_text(text, ",\"inode\":null"),
    }
}

/// Adds the path and the inode number of a directory.
#[tactic(auto, unfolding(crate::specs::Json::directory_members))]
fn push_directory(
    text: &mut Vec<u8>,
    directories: &[Directory],
    at: usize,
) -> Result<(), AllocError>
    ensures { OnOk result (text.new.items ≡ text.old.items ++ directory_members directories.now at) }
{
    push_text(text, "\n  {\"path")?;
    push_place(text, directories, at)?;
    push_inode(text, inode_of_row(directories, at))
}

/// The rank at which the directory at a place is now.
fn now_at(directories: &[Directory], at: usize) -> u64
    ensures { result ≡ now_at directories.now at }
{
    match directories.get(at) {
        Some(directory) => u64::from(directory.now.number()),
        None => 0,
    }
}

/// The rank at which the directory at a place is to be.
fn goal_at(goals: &[Rank], at: usize) -> u64
    ensures { result ≡ slice_index goals.now at }
{
    match goals.get(at) {
        Some(goal) => u64::from(goal.number()),
        None => 0,
    }
}

/// Adds the rank at which a directory is now, and the one at which it is to be.
#[tactic(auto, unfolding(crate::specs::Json::rank_members))]
fn push_ranks_of(text: &mut Vec<u8>, facts: &Facts, at: usize) -> Result<(), AllocError>
    ensures { OnOk result (text.new.items ≡ text.old.items ++ rank_members facts.now at) }
{
    push_number(text, ",\"rank_now\":", now_at(facts.directories, at))?;
    push_number(text, ",\"rank_planned\":", goal_at(facts.goals, at))
}

/// The pin of a row before the changes, whoever set it.
fn before_pin(rows: &[PinRow], at: usize) -> Option<Rank>
    ensures { result ≡ before_pin rows.now at }
{
    match rows.get(at) {
        Some(row) => row.foreign.or(row.earlier),
        None => None,
    }
}

/// Adds the pin of a directory before and after a change.
#[tactic(auto, unfolding(crate::specs::Json::pin_members))]
fn push_pins_of(text: &mut Vec<u8>, facts: &Facts, change: PinChange) -> Result<(), AllocError>
    ensures { OnOk result (text.new.items ≡ text.old.items ++ pin_members facts.now change) }
{
    push_text(text, ",\"pin_before\":")?;
    push_pin_rank(text, before_pin(facts.rows, change.row as usize))?;
    push_text(text, ",\"pin_after\":")?;
    push_pin_rank(text, change.pin)?;
    push_text(text, "}")
}

/// Adds a change of a pin.
#[tactic(auto, unfolding(crate::specs::Json::change_object))]
fn push_change(text: &mut Vec<u8>, facts: &Facts, change: PinChange) -> Result<(), AllocError>
    ensures { OnOk result (text.new.items ≡ text.old.items ++ change_object facts.now change) }
{
    push_directory(text, facts.directories, change.row as usize)?;
    push_ranks_of(text, facts, change.row as usize)?;
    push_pins_of(text, facts, change)
}

/// Adds a change that undoes one.
#[tactic(auto, unfolding(crate::specs::Json::back_object))]
fn push_back(text: &mut Vec<u8>, facts: &Facts, change: PinChange) -> Result<(), AllocError>
    ensures { OnOk result (text.new.items ≡ text.old.items ++ back_object facts.now change) }
{
    push_directory(text, facts.directories, change.row as usize)?;
    push_text(text, ",\"pin\":")?;
    push_pin_rank(text, change.pin)?;
    push_text(text, "}")
}

/// Which way changes lead.
#[derive(Clone, Copy)]
pub(crate) enum ChangeForm {
    /// To the plan.
    There,
    /// Back to the pins of before.
    Back,
}

/// Adds a change of one of the lists.
fn push_either(
    text: &mut Vec<u8>,
    form: ChangeForm,
    facts: &Facts,
    change: PinChange,
) -> Result<(), AllocError>
    ensures { OnOk result (text.new.items ≡ text.old.items ++ one_object form facts.now change) }
{
    match form {
        ChangeForm::There => push_change(text, facts, change),
        ChangeForm::Back => push_back(text, facts, change),
    }
}

/// Adds the change at a place of one of the lists.
#[tactic(auto, unfolding(crate::specs::Json::one_member))]
fn push_one(
    text: &mut Vec<u8>,
    form: ChangeForm,
    facts: &Facts,
    changes: &[PinChange],
    at: usize,
) -> Result<(), AllocError>
    ensures { OnOk result (text.new.items ≡ text.old.items
        ++ one_member form facts.now at (slice_get changes.now at)) }
{
    match changes.get(at).copied() {
        Some(change) => {
            push_text(text, comma(at))?;
            push_either(text, form, facts, change)
        }
        None => Ok(()),
    }
}

/// Adds changes in their order.
#[tactic(auto, unfolding(crate::specs::Json::change_members))]
fn push_changes(
    text: &mut Vec<u8>,
    form: ChangeForm,
    facts: &Facts,
    changes: &[PinChange],
) -> Result<(), AllocError>
    ensures { OnOk result (text.new.items ≡ text.old.items ++ change_members form facts.now changes.now) }
{
    for at in 0..changes.len() {
        push_one(text, form, facts, changes, at)?;
    }
    Ok(())
}

/// Adds the changes of pins, in the order in which they are to be made, and those that undo them, in theirs.
#[tactic(auto, unfolding(crate::specs::Json::change_lists))]
fn push_lists(
    text: &mut Vec<u8>,
    facts: &Facts,
    changes: &[PinChange],
    back: &[PinChange],
) -> Result<(), AllocError>
    ensures { OnOk result (text.new.items ≡ text.old.items ++ change_lists facts.now changes.now back.now) }
{
    push_text(text, "],\n\"changes\":[")?;
    push_changes(text, ChangeForm::There, facts, changes)?;
    push_text(text, "],\n\"back\":[")?;
    push_changes(text, ChangeForm::Back, facts, back)?;
    push_text(text, "]}\n")
}

/// The plan as JSON: bound, loads, the rank of each part, what is left where it is, the changes of pins, and those that
/// undo them.
#[tactic(auto, unfolding(crate::specs::Json::json))]
pub fn make_json(
    alloc: Global,
    facts: &Facts,
    changes: &[PinChange],
    back: &[PinChange],
    is_proposed: bool,
) -> Result<Vec<u8>, AllocError>
    ensures { IfOk result (λ text. text.items ≡ json facts.now changes.now back.now is_proposed) }
{
    let mut text = Vec::new(alloc);
    push_head(&mut text, facts, is_proposed)?;
    push_numbers(&mut text, facts)?;
    push_ranks(&mut text, facts)?;
    push_parts(&mut text, &facts.plan.packing.rank)?;
    push_stays(&mut text, facts.directories, facts.stays)?;
    push_lists(&mut text, facts, changes, back)?;
    Ok(text)
}
