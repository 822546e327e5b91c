//! The report, for people.
ghost use Rattle.std.specs.Prelude.{◌≡◌, ◌<◌, ◌+◌, ◌++◌, OnOk, IfOk, slice_get, if◌then◌else◌};
ghost use Rattle.ceph_report.specs.Report.{bound_lines, brought_line, brought_lines, brought_text, count_line};
ghost use Rattle.ceph_report.specs.Report.{folded_line, head_line, heat_lines, hot_count, hottest_line, left_out};
ghost use Rattle.ceph_report.specs.Report.{mode_text, more_line, move_counts, moves_table, nothing_text, moves_text};
ghost use Rattle.ceph_report.specs.Report.{plan_text, rank_heats, rank_inodes, rank_roots, rank_row, rank_table};
ghost use Rattle.ceph_report.specs.Report.{ratio_text, report, standing_text, term_text, told_line};
ghost use Rattle.ceph_report.specs.Text.{place_text};

use crate::facts::{BoundTerm, Facts, number_at};
use crate::hours::push_all_hours;
use crate::moves::Move;
use crate::notes::{push_all_absent, push_all_capped, push_all_over};
use crate::spreading::push_advice;
use crate::staying_text::push_all_left;
use crate::text::{
    per_mille, per_mille_above, push_columns, push_heat, push_number, push_path, push_percent,
    push_text,
};
use ceph_snapshot::Directory;
use mds_types::limits::RANK_LIMIT;
use std::alloc::{AllocError, Global};

/// How many moves, or directories that are left where they are, have a line each.
pub(crate) const LINES_EACH: usize = 40;

/// How many directories have heat of their own.
#[tactic(auto, unfolding(crate::specs::Report::hot_count))]
fn hot_count(directories: &[Directory]) -> usize
    ensures { result ≡ hot_count directories.now }
{
    let mut count = 0usize;
    for directory in directories {
        if directory.heat > 0 {
            count += 1;
        }
    }
    count
}

/// Adds the first line.
#[tactic(auto, unfolding(crate::specs::Report::head_line))]
fn push_head(text: &mut Vec<u8>, facts: &Facts) -> Result<(), AllocError>
    ensures { OnOk result (text.new.items ≡ text.old.items ++ head_line facts.now) }
{
    push_number(text, "", facts.directories.len() as u64)?;
    push_number(text, " directories, ", hot_count(facts.directories) as u64)?;
    push_number(text, " with heat of their own; mean of ", facts.samples)?;
    push_text(text, " samples\n\n")
}

/// Adds a rank and its heat: now, as planned, and what pins of others hold there.
#[tactic(auto, unfolding(crate::specs::Report::rank_heats))]
fn push_rank_heats(text: &mut Vec<u8>, facts: &Facts, number: u8) -> Result<(), AllocError>
    ensures { OnOk result (text.new.items ≡ text.old.items ++ rank_heats facts.now number) }
{
    push_columns(text, u64::from(number), 4)?;
    push_heat(text, "", number_at(&facts.sums.now, number))?;
    push_heat(text, "", number_at(facts.planned, number))?;
    push_heat(text, "", number_at(facts.pinned, number))
}

/// Adds the inodes that come to a rank, and those that go from it.
#[tactic(auto, unfolding(crate::specs::Report::rank_inodes))]
fn push_rank_inodes(text: &mut Vec<u8>, facts: &Facts, number: u8) -> Result<(), AllocError>
    ensures { OnOk result (text.new.items ≡ text.old.items ++ rank_inodes facts.now number) }
{
    push_columns(text, number_at(&facts.sums.into, number), 12)?;
    push_columns(text, number_at(&facts.sums.out, number), 12)
}

/// Adds how many roots of subtrees a rank has, now and as planned.
#[tactic(auto, unfolding(crate::specs::Report::rank_roots))]
fn push_rank_roots(text: &mut Vec<u8>, facts: &Facts, number: u8) -> Result<(), AllocError>
    ensures { OnOk result (text.new.items ≡ text.old.items ++ rank_roots facts.now number) }
{
    push_columns(text, number_at(&facts.roots.now, number), 12)?;
    push_columns(text, number_at(&facts.roots.planned, number), 12)?;
    push_text(text, "\n")
}

/// Adds the line of a rank.
#[tactic(auto, unfolding(crate::specs::Report::rank_row))]
fn push_rank(text: &mut Vec<u8>, facts: &Facts, number: u8) -> Result<(), AllocError>
    ensures { OnOk result (text.new.items ≡ text.old.items ++ rank_row facts.now number) }
{
    push_rank_heats(text, facts, number)?;
    push_rank_inodes(text, facts, number)?;
    push_rank_roots(text, facts, number)
}

/// Adds the line of a rank, if it has one.
#[tactic(auto, unfolding(crate::specs::Report::told_line))]
fn push_told(text: &mut Vec<u8>, facts: &Facts, number: u8) -> Result<(), AllocError>
    requires { number < 64 }
    ensures { OnOk result (text.new.items ≡ text.old.items ++ told_line facts.now number) }
{
    if facts.is_told(number) {
        push_rank(text, facts, number)
    } else {
        Ok(())
    }
}

/// Adds the table of ranks.
#[tactic(auto, unfolding(crate::specs::Report::rank_table))]
fn push_ranks(text: &mut Vec<u8>, facts: &Facts) -> Result<(), AllocError>
    ensures { OnOk result (text.new.items ≡ text.old.items ++ rank_table facts.now) }
{
    push_text(
        text,
        "rank         now     planned      pinned   inodes in  inodes out   roots now  roots then\n",
    )?;
    for number in 0..RANK_LIMIT {
        push_told(text, facts, number)?;
    }
    Ok(())
}

/// What is said of the bound and of heat.
const CAVEAT: &str =
    "  No assignment of these directories to these ranks, connected or not, has a cooler hottest rank than the bound.
  Heat is the mean of the samples: load that comes or goes between them is not in it, and a walk over the directories
  adds to it.

";

/// What a term of the bound is called.
fn term_text(term: BoundTerm) -> &'static str
    ensures { result.now ≡ term_text term }
{
    match term {
        BoundTerm::Mean => "the mean load",
        BoundTerm::Hottest => "the hottest directory, where least is pinned",
        BoundTerm::Pinned => "what is pinned to one rank",
    }
}

/// Adds a label, tenths of a percent, and what comes after them, unless there is so little heat that a ratio says
/// nothing.
#[tactic(auto, unfolding(crate::specs::Report::ratio_text))]
fn push_ratio(
    text: &mut Vec<u8>,
    facts: &Facts,
    label: &str,
    tenths: u64,
    after: &str,
) -> Result<(), AllocError>
    ensures { OnOk result (text.new.items ≡ text.old.items ++ ratio_text facts.now label.now tenths after.now) }
{
    if facts.is_idle {
        return Ok(());
    }
    push_percent(text, label, tenths)?;
    push_text(text, after)
}

/// Adds the heat of the hottest rank, now and as planned, and the heat that moves.
#[tactic(auto, unfolding(crate::specs::Report::heat_lines))]
fn push_heats(text: &mut Vec<u8>, facts: &Facts) -> Result<(), AllocError>
    ensures { OnOk result (text.new.items ≡ text.old.items ++ heat_lines facts.now) }
{
    let (now, planned) = (facts.hottest_now(), facts.hottest_planned());
    push_heat(text, "\nhottest rank now     ", now)?;
    push_heat(text, "\nhottest rank planned ", planned)?;
    let cooler = per_mille(now.saturating_sub(planned), now);
    push_ratio(text, facts, ", cooler than now: ", cooler, "")?;
    push_heat(text, "\nheat that moves      ", facts.sums.heat)
}

/// Adds the bound, which term makes it, and how far the plan is above it.
#[tactic(auto, unfolding(crate::specs::Report::bound_lines))]
fn push_bound(text: &mut Vec<u8>, facts: &Facts) -> Result<(), AllocError>
    ensures { OnOk result (text.new.items ≡ text.old.items ++ bound_lines facts.now) }
{
    let (planned, bound) = (facts.hottest_planned(), facts.hottest_bound());
    push_heat(text, "\nlower bound          ", bound)?;
    push_text(text, "  ")?;
    push_text(text, term_text(facts.bound_term()))?;
    let above = per_mille_above(planned.saturating_sub(bound), bound);
    push_ratio(text, facts, "; the plan is ", above, " above it")
}

/// Adds the hottest directory that was collected.
#[tactic(auto, unfolding(crate::specs::Report::hottest_line))]
fn push_hottest(text: &mut Vec<u8>, facts: &Facts) -> Result<(), AllocError>
    ensures { OnOk result (text.new.items ≡ text.old.items ++ hottest_line facts.now) }
{
    push_heat(text, "\nhottest directory    ", facts.hottest.heat)?;
    push_text(text, "  ")?;
    push_path(text, &facts.hottest.path)?;
    push_text(text, "\n")
}

/// Adds how many pins of an earlier plan stay as they are.
#[tactic(auto, unfolding(crate::specs::Report::standing_text))]
fn push_standing(text: &mut Vec<u8>, count: usize) -> Result<(), AllocError>
    ensures { OnOk result (text.new.items ≡ text.old.items ++ standing_text count) }
{
    if count == 0 {
        return Ok(());
    }
    push_number(text, ", ", count as u64)?;
    push_text(text, " pins are set already")
}

/// Adds how many parts there are, and what moves.
#[tactic(auto, unfolding(crate::specs::Report::move_counts))]
fn push_move_counts(text: &mut Vec<u8>, facts: &Facts) -> Result<(), AllocError>
    ensures { OnOk result (text.new.items ≡ text.old.items ++ move_counts facts.now) }
{
    push_number(text, CAVEAT, u64::from(facts.plan.count))?;
    push_number(text, " parts, ", facts.plan.moved)?;
    push_number(text, " inodes move (", facts.sums.cold)?;
    push_text(text, " of them without heat), ")
}

/// Adds how many parts there are, what moves, and what changes.
#[tactic(auto, unfolding(crate::specs::Report::count_line))]
fn push_counts(text: &mut Vec<u8>, facts: &Facts) -> Result<(), AllocError>
    ensures { OnOk result (text.new.items ≡ text.old.items ++ count_line facts.now) }
{
    push_move_counts(text, facts)?;
    push_number(text, "", facts.changes as u64)?;
    push_text(text, " changes of pins")?;
    push_standing(text, facts.standing)?;
    push_text(text, "\n")
}

/// What is known of directories without a pin.
fn mode_text(balances: bool) -> &'static str
    ensures { result.now ≡ mode_text balances }
{
    if balances {
        "Ceph's balancer counts as on: no directory is taken to stay where it is without a pin\n"
    } else {
        "Ceph's balancer is off: a directory without a pin stays where it is\n"
    }
}

/// Adds the path of a directory, and ends the line.
#[tactic(auto, unfolding(crate::specs::Text::place_text))]
pub(crate) fn push_place(
    text: &mut Vec<u8>,
    directories: &[Directory],
    at: usize,
) -> Result<(), AllocError>
    ensures { OnOk result (text.new.items ≡ text.old.items ++ place_text directories.now at) }
{
    match directories.get(at) {
        Some(directory) => push_path(text, &directory.path)?,
        None => push_path(text, b"")?,
    }
    push_text(text, "\n")
}

/// Adds the line of a move.
#[tactic(auto, unfolding(crate::specs::Report::brought_text))]
fn push_brought(text: &mut Vec<u8>, directories: &[Directory], one: Move) -> Result<(), AllocError>
    ensures { OnOk result (text.new.items ≡ text.old.items ++ brought_text directories.now one) }
{
    push_columns(text, one.inodes, 8)?;
    push_heat(text, "", one.heat)?;
    push_columns(text, u64::from(one.to.number()), 4)?;
    push_text(text, "  ")?;
    push_place(text, directories, one.directory)
}

/// Adds the line of a move, if there is one at this place.
#[tactic(auto, unfolding(crate::specs::Report::brought_line))]
fn push_move(
    text: &mut Vec<u8>,
    directories: &[Directory],
    moves: &[Move],
    at: usize,
) -> Result<(), AllocError>
    ensures { OnOk result (text.new.items ≡ text.old.items ++ brought_line directories.now (slice_get moves.now at)) }
{
    match moves.get(at).copied() {
        Some(one) => push_brought(text, directories, one),
        None => Ok(()),
    }
}

/// Adds how many have no line of their own, if any.
#[tactic(auto, unfolding(crate::specs::Report::more_line))]
pub(crate) fn push_more(text: &mut Vec<u8>, count: usize, what: &str) -> Result<(), AllocError>
    ensures { OnOk result (text.new.items ≡ text.old.items ++ more_line count what.now) }
{
    if count == 0 {
        return Ok(());
    }
    push_number(text, "and ", count as u64)?;
    push_text(text, what)
}

/// Adds the first moves, and how many more there are.
#[tactic(auto, unfolding(crate::specs::Report::brought_lines))]
fn push_move_lines(
    text: &mut Vec<u8>,
    directories: &[Directory],
    moves: &[Move],
) -> Result<(), AllocError>
    ensures { OnOk result (text.new.items ≡ text.old.items ++ brought_lines directories.now moves.now) }
{
    for at in 0..LINES_EACH.min(moves.len()) {
        push_move(text, directories, moves, at)?;
    }
    push_more(
        text,
        moves.len().saturating_sub(LINES_EACH),
        " smaller ones\n",
    )
}

/// Adds the table of moves.
#[tactic(auto, unfolding(crate::specs::Report::moves_table))]
fn push_move_table(
    text: &mut Vec<u8>,
    directories: &[Directory],
    moves: &[Move],
) -> Result<(), AllocError>
    ensures { OnOk result (text.new.items ≡ text.old.items ++ moves_table directories.now moves.now) }
{
    push_text(
        text,
        "\n  inodes        heat  to  directory that is pinned\n",
    )?;
    push_move_lines(text, directories, moves)
}

/// Adds the moves, the largest first, if there are any.
#[tactic(auto, unfolding(crate::specs::Report::moves_text))]
fn push_moves(
    text: &mut Vec<u8>,
    directories: &[Directory],
    moves: &[Move],
) -> Result<(), AllocError>
    ensures { OnOk result (text.new.items ≡ text.old.items ++ moves_text directories.now moves.now) }
{
    if moves.is_empty() {
        Ok(())
    } else {
        push_move_table(text, directories, moves)
    }
}

/// Adds how many directories were folded.
#[tactic(auto, unfolding(crate::specs::Report::folded_line))]
fn push_folded(text: &mut Vec<u8>, count: usize) -> Result<(), AllocError>
    ensures { OnOk result (text.new.items ≡ text.old.items ++ folded_line count) }
{
    if count == 0 {
        return Ok(());
    }
    push_number(text, "\n", count as u64)?;
    push_text(text, " directories were folded into their parents\n")
}

/// The last line of the report where nothing is proposed.
const NOTHING: &str = "\nnothing is proposed: the plan gains less than is asked for\n";

/// The same where there is too little heat.
const IDLE: &str = "\nnothing is proposed: there is less heat than --least-heat asks for\n";

/// The same where no plan that is tried keeps within what is asked for.
const NONE_WITHIN: &str =
    "\nnothing is proposed: no plan that is tried keeps within --most-inodes, --leave and --mask\n";

/// The last line of the report where nothing is proposed; empty where something is.
fn nothing_text(facts: &Facts, is_proposed: bool) -> &'static str
    ensures { result.now ≡ nothing_text facts.now is_proposed }
{
    if is_proposed {
        return "";
    }
    match (facts.is_idle, facts.is_within) {
        (true, _) => IDLE,
        (false, false) => NONE_WITHIN,
        (false, true) => NOTHING,
    }
}

/// Adds what the plan comes to.
#[tactic(auto, unfolding(crate::specs::Report::plan_text))]
fn push_plan(text: &mut Vec<u8>, facts: &Facts) -> Result<(), AllocError>
    ensures { OnOk result (text.new.items ≡ text.old.items ++ plan_text facts.now) }
{
    push_head(text, facts)?;
    push_ranks(text, facts)?;
    push_all_hours(text, facts)?;
    push_heats(text, facts)?;
    push_bound(text, facts)?;
    push_hottest(text, facts)?;
    push_counts(text, facts)?;
    push_text(text, mode_text(facts.balances))?;
    push_moves(text, facts.directories, facts.moves)
}

/// Adds what was left out, or has no single rank.
#[tactic(auto, unfolding(crate::specs::Report::left_out))]
fn push_left_out(text: &mut Vec<u8>, facts: &Facts) -> Result<(), AllocError>
    ensures { OnOk result (text.new.items ≡ text.old.items ++ left_out facts.now) }
{
    push_folded(text, facts.folded)?;
    push_all_over(text, facts)?;
    push_advice(text, facts)?;
    push_all_absent(text, facts)?;
    push_all_left(text, facts.directories, facts.stays)?;
    push_all_capped(text, facts.directories)
}

/// The report.
#[tactic(auto, unfolding(crate::specs::Report::report))]
pub fn make_report(alloc: Global, facts: &Facts, is_proposed: bool) -> Result<Vec<u8>, AllocError>
    ensures { IfOk result (λ text. text.items ≡ report facts.now is_proposed) }
{
    let mut text = Vec::new(alloc);
    push_plan(&mut text, facts)?;
    push_left_out(&mut text, facts)?;
    push_text(&mut text, nothing_text(facts, is_proposed))?;
    Ok(text)
}
