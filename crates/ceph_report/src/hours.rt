//! The hours that a plan is for, as the report and the JSON tell of them.
ghost use Rattle.std.specs.Prelude.{◌≡◌, ◌<◌, ◌≤◌, ◌*◌, ◌^◌, ◌++◌, [], OnOk, codes, slice_get, if◌then◌else◌};
ghost use Rattle.ceph_report.specs.Hours.{heat_at_ranks, has_more_hours, hour_line, hour_line_at, hour_lines};
ghost use Rattle.ceph_report.specs.Hours.{hour_list};
ghost use Rattle.ceph_report.specs.Hours.{hour_member, hour_name, hour_object, hour_ratio, hour_ratios, hours_member};
ghost use Rattle.ceph_report.specs.Hours.{hours_table, hours_text, hundredths_above, ratio_columns, left_hour_at};
ghost use Rattle.ceph_report.specs.Hours.{left_hour_line, left_hour_lines, ratio_of, to_mean, worst_line};
ghost use Rattle.ceph_report.specs.Hours.{hour_head, worst_ratio};

use crate::facts::{Facts, hottest, number_at};
use crate::text::{comma, push_columns, push_number, push_path, push_path_value, push_text, truth};
use mds_types::RankSet;
use mds_types::limits::RANK_LIMIT;
use std::alloc::AllocError;

/// An hour that was planned for.
#[derive(Drop)]
pub struct PlannedHour {
    /// The words of the command line that name its folder or record; where it was made, the path of the directory below
    /// which half of its load lies.
    pub name: Vec<u8>,
    /// Whether it was seen, and not made.
    pub is_seen: bool,
    /// What no assignment of the planned directories to the ranks that may have a part gets below in it, in
    /// thousandths of heat.
    pub bound: u64,
    /// The heat of each rank in it where each directory is now, in thousandths.
    pub now: Vec<u64>,
    /// The same as planned.
    pub planned: Vec<u64>,
}

/// What is told of an hour, as a ratio.
#[derive(Clone, Copy)]
pub(crate) enum HourColumn {
    /// The hottest rank to the mean, where each directory is now.
    Now,
    /// The same as planned.
    Planned,
    /// The hottest rank as planned to the bound.
    Bound,
}

/// How often a whole goes into a part, in hundredths, rounded up; 0 where the whole is 0.
#[tactic(auto, unfolding(crate::specs::Hours::hundredths_above))]
fn hundredths_above(part: u128, whole: u128) -> u64
    requires part { part < 2 ^ 80 }
    requires whole { whole < 2 ^ 80 }
    ensures { result ≡ hundredths_above part whole }
{
    if whole == 0 {
        return 0;
    }
    let hundredths = (part * 100 + (whole - 1)) / whole;
    u128::from(u64::MAX).min(hundredths) as u64
}

/// The heat at all ranks.
fn heat_at_ranks(heats: &[u64]) -> u128
    ensures heat { result ≡ heat_at_ranks heats.now }
    ensures small { result ≤ 64 * 2 ^ 64 }
{
    let mut all = 0u128;
    for number in 0..RANK_LIMIT {
        all += u128::from(number_at(heats, number));
    }
    all
}

/// The hottest rank to the mean of the ranks that may have a part.
fn to_mean(ranks: RankSet, heats: &[u64]) -> u64
    ensures { result ≡ to_mean ranks heats.now }
{
    hundredths_above(
        u128::from(hottest(heats)) * u128::from(ranks.len()),
        heat_at_ranks(heats),
    )
}

/// What is told of an hour.
fn hour_ratio(column: HourColumn, ranks: RankSet, hour: &PlannedHour) -> u64
    ensures { result ≡ hour_ratio column ranks hour.entry.now }
{
    match column {
        HourColumn::Now => to_mean(ranks, &hour.now),
        HourColumn::Planned => to_mean(ranks, &hour.planned),
        HourColumn::Bound => {
            hundredths_above(u128::from(hottest(&hour.planned)), u128::from(hour.bound))
        }
    }
}

/// The same of the hour at a place.
fn ratio_of(column: HourColumn, ranks: RankSet, hours: &[PlannedHour], at: usize) -> u64
    ensures { result ≡ ratio_of column ranks (slice_get hours.now at) }
{
    match hours.get(at) {
        Some(hour) => hour_ratio(column, ranks, hour),
        None => 0,
    }
}

/// The greatest of these hours.
fn worst_ratio(column: HourColumn, ranks: RankSet, hours: &[PlannedHour]) -> u64
    ensures { result ≡ worst_ratio column ranks hours.now }
{
    let mut greatest = 0;
    for at in 0..hours.len() {
        greatest = ratio_of(column, ranks, hours, at).max(greatest);
    }
    greatest
}

/// Adds a ratio in hundredths.
#[tactic(auto, unfolding(crate::specs::Hours::ratio_columns))]
fn push_ratio_columns(text: &mut Vec<u8>, ratio: u64) -> Result<(), AllocError>
    ensures { OnOk result (text.new.items ≡ text.old.items ++ ratio_columns ratio) }
{
    push_columns(text, ratio / 100, 9)?;
    push_number(text, ".", ratio / 10 % 10)?;
    push_number(text, "", ratio % 10)
}

/// Adds the ratios of a line.
#[tactic(auto, unfolding(crate::specs::Hours::hour_ratios))]
fn push_ratios(text: &mut Vec<u8>, now: u64, planned: u64, bound: u64) -> Result<(), AllocError>
    ensures { OnOk result (text.new.items ≡ text.old.items ++ hour_ratios now planned bound) }
{
    push_ratio_columns(text, now)?;
    push_ratio_columns(text, planned)?;
    push_ratio_columns(text, bound)?;
    push_text(text, "  ")
}

/// What comes before the name of an hour.
fn before_name(hour: &PlannedHour) -> &'static str
    ensures { result.now ≡ (if hour.entry.now.is_seen then [] else codes "made: half of the load below ") }
{
    if hour.is_seen {
        ""
    } else {
        "made: half of the load below "
    }
}

/// Adds what an hour is called, and ends the line.
#[tactic(auto, unfolding(crate::specs::Hours::hour_name))]
fn push_name(text: &mut Vec<u8>, hour: &PlannedHour) -> Result<(), AllocError>
    ensures { OnOk result (text.new.items ≡ text.old.items ++ hour_name hour.entry.now) }
{
    push_text(text, before_name(hour))?;
    push_path(text, &hour.name)?;
    push_text(text, "\n")
}

/// Adds the line of an hour.
#[tactic(auto, unfolding(crate::specs::Hours::hour_line))]
fn push_hour(text: &mut Vec<u8>, ranks: RankSet, hour: &PlannedHour) -> Result<(), AllocError>
    ensures { OnOk result (text.new.items ≡ text.old.items ++ hour_line ranks hour.entry.now) }
{
    let now = hour_ratio(HourColumn::Now, ranks, hour);
    let planned = hour_ratio(HourColumn::Planned, ranks, hour);
    let bound = hour_ratio(HourColumn::Bound, ranks, hour);
    push_ratios(text, now, planned, bound)?;
    push_name(text, hour)
}

/// Adds the line of the hour at a place, if there is one.
#[tactic(auto, unfolding(crate::specs::Hours::hour_line_at))]
fn push_hour_at(
    text: &mut Vec<u8>,
    ranks: RankSet,
    hours: &[PlannedHour],
    at: usize,
) -> Result<(), AllocError>
    ensures { OnOk result (text.new.items ≡ text.old.items ++ hour_line_at ranks (slice_get hours.now at)) }
{
    match hours.get(at) {
        Some(hour) => push_hour(text, ranks, hour),
        None => Ok(()),
    }
}

/// Adds the lines of the hours.
#[tactic(auto, unfolding(crate::specs::Hours::hour_lines))]
fn push_hours(text: &mut Vec<u8>, ranks: RankSet, hours: &[PlannedHour]) -> Result<(), AllocError>
    ensures { OnOk result (text.new.items ≡ text.old.items ++ hour_lines ranks hours.now) }
{
    for at in 0..hours.len() {
        push_hour_at(text, ranks, hours, at)?;
    }
    Ok(())
}

/// Adds the worst of each column.
#[tactic(auto, unfolding(crate::specs::Hours::worst_line))]
fn push_worst(text: &mut Vec<u8>, ranks: RankSet, hours: &[PlannedHour]) -> Result<(), AllocError>
    ensures { OnOk result (text.new.items ≡ text.old.items ++ worst_line ranks hours.now) }
{
    let now = worst_ratio(HourColumn::Now, ranks, hours);
    let planned = worst_ratio(HourColumn::Planned, ranks, hours);
    let bound = worst_ratio(HourColumn::Bound, ranks, hours);
    push_ratios(text, now, planned, bound)?;
    push_text(text, "the worst of these\n")
}

/// What comes before the name of an hour that is not planned for.
const NOT_PLANNED: &str = "not planned for, as others stand for it or it has little load: ";

/// Adds the line of an hour of this name that is not planned for.
#[tactic(auto, unfolding(crate::specs::Hours::left_hour_line))]
fn push_left_hour(text: &mut Vec<u8>, name: &[u8]) -> Result<(), AllocError>
    ensures { OnOk result (text.new.items ≡ text.old.items ++ left_hour_line name.now) }
{
    push_text(text, NOT_PLANNED)?;
    push_path(text, name)?;
    push_text(text, "\n")
}

/// Adds the line of the one at a place, if there is one.
#[tactic(auto, unfolding(crate::specs::Hours::left_hour_at))]
fn push_left_at(text: &mut Vec<u8>, names: &[Vec<u8>], at: usize) -> Result<(), AllocError>
    ensures { OnOk result (text.new.items ≡ text.old.items ++ left_hour_at (slice_get names.now at)) }
{
    match names.get(at) {
        Some(name) => push_left_hour(text, name),
        None => Ok(()),
    }
}

/// Adds the hours that are not planned for.
#[tactic(auto, unfolding(crate::specs::Hours::left_hour_lines))]
fn push_left_hours(text: &mut Vec<u8>, names: &[Vec<u8>]) -> Result<(), AllocError>
    ensures { OnOk result (text.new.items ≡ text.old.items ++ left_hour_lines names.now) }
{
    for at in 0..names.len() {
        push_left_at(text, names, at)?;
    }
    Ok(())
}

/// Whether there are other hours than that of now.
fn has_more_hours(facts: &Facts) -> bool
    ensures { result ≡ has_more_hours facts.now }
{
    facts.hours.len() + facts.left_hours.len() > 1
}

/// Adds the table of hours.
#[tactic(auto, unfolding(crate::specs::Hours::hours_table))]
fn push_hours_table(text: &mut Vec<u8>, facts: &Facts) -> Result<(), AllocError>
    ensures { OnOk result (text.new.items ≡ text.old.items ++ hours_table facts.now) }
{
    push_text(
        text,
        "\nhottest rank to the mean\n         now     planned    to bound  hour\n",
    )?;
    push_hours(text, facts.ranks, facts.hours)?;
    push_worst(text, facts.ranks, facts.hours)?;
    push_left_hours(text, facts.left_hours)
}

/// Adds the table of hours, if there are other hours than that of now.
#[tactic(auto, unfolding(crate::specs::Hours::hours_text))]
pub(crate) fn push_all_hours(text: &mut Vec<u8>, facts: &Facts) -> Result<(), AllocError>
    ensures { OnOk result (text.new.items ≡ text.old.items ++ hours_text facts.now) }
{
    if has_more_hours(facts) {
        push_hours_table(text, facts)
    } else {
        Ok(())
    }
}

/// Adds the name of an hour to the JSON, and whether it was seen.
#[tactic(auto, unfolding(crate::specs::Hours::hour_head))]
fn push_object_head(text: &mut Vec<u8>, hour: &PlannedHour) -> Result<(), AllocError>
    ensures { OnOk result (text.new.items ≡ text.old.items ++ hour_head hour.entry.now) }
{
    push_text(text, "\n  {\"name")?;
    push_path_value(text, &hour.name)?;
    push_text(text, ",\"seen\":")?;
    push_text(text, truth(hour.is_seen))
}

/// Adds an hour to the JSON.
#[tactic(auto, unfolding(crate::specs::Hours::hour_object))]
fn push_hour_object(text: &mut Vec<u8>, hour: &PlannedHour) -> Result<(), AllocError>
    ensures { OnOk result (text.new.items ≡ text.old.items ++ hour_object hour.entry.now) }
{
    push_object_head(text, hour)?;
    push_number(text, ",\"bound\":", hour.bound)?;
    push_number(text, ",\"now\":", hottest(&hour.now))?;
    push_number(text, ",\"planned\":", hottest(&hour.planned))?;
    push_text(text, "}")
}

/// Adds the hour at a place to the JSON, if there is one.
#[tactic(auto, unfolding(crate::specs::Hours::hour_member))]
fn push_hour_member(text: &mut Vec<u8>, hours: &[PlannedHour], at: usize) -> Result<(), AllocError>
    ensures { OnOk result (text.new.items ≡ text.old.items ++ hour_member at (slice_get hours.now at)) }
{
    match hours.get(at) {
        Some(hour) => {
            push_text(text, comma(at))?;
            push_hour_object(text, hour)
        }
        None => Ok(()),
    }
}

/// Adds the hours to the JSON.
#[tactic(auto, unfolding(crate::specs::Hours::hour_list))]
fn push_hour_list(text: &mut Vec<u8>, hours: &[PlannedHour]) -> Result<(), AllocError>
    ensures { OnOk result (text.new.items ≡ text.old.items ++ hour_list hours.now) }
{
    push_text(text, ",\n\"hours\":[")?;
    for at in 0..hours.len() {
        push_hour_member(text, hours, at)?;
    }
    push_text(text, "]")
}

/// Adds the hours to the JSON, if there are other hours than that of now.
#[tactic(auto, unfolding(crate::specs::Hours::hours_member))]
pub(crate) fn push_hours_member(text: &mut Vec<u8>, facts: &Facts) -> Result<(), AllocError>
    ensures { OnOk result (text.new.items ≡ text.old.items ++ hours_member facts.now) }
{
    if has_more_hours(facts) {
        push_hour_list(text, facts.hours)
    } else {
        Ok(())
    }
}
