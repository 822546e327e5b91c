//! What Ceph's policy of distributed pins would give: a line of the report, and a member of the JSON.
ghost use Rattle.std.specs.Prelude.{◌≡◌, ◌++◌, OnOk};
ghost use Rattle.ceph_report.specs.Spreading.{advice_line, advice_member, advice_object, advice_text};
ghost use Rattle.ceph_report.specs.Spreading.{children_text, fair_shares, hundredths_text, is_near, near_line};
ghost use Rattle.ceph_report.specs.Spreading.{planned_share, spread_share, spread_text};

use crate::facts::{Facts, hottest};
use crate::text::{push_number, push_path, push_path_value, push_text};
use ceph_pins::Advice;
use std::alloc::AllocError;

/// How many times a fair share of all this heat for each of these ranks a heat is, in hundredths; 0 of no heat.
#[tactic(auto, unfolding(crate::specs::Spreading::fair_shares))]
fn fair_shares(heat: u64, ranks: u8, all: u128) -> u64
    ensures { result ≡ fair_shares heat ranks all }
{
    if all == 0 {
        return 0;
    }
    let shares = u128::from(heat) * u128::from(ranks) * 100 / all;
    u128::from(u64::MAX).min(shares) as u64
}

/// Adds a label, and hundredths with two digits after the point.
#[tactic(auto, unfolding(crate::specs::Spreading::hundredths_text))]
fn push_hundredths(text: &mut Vec<u8>, label: &str, number: u64) -> Result<(), AllocError>
    ensures { OnOk result (text.new.items ≡ text.old.items ++ hundredths_text label.now number) }
{
    push_number(text, label, number / 100)?;
    push_number(text, ".", number % 100 / 10)?;
    push_number(text, "", number % 10)
}

/// Adds how many hot children a directory has, and what of all heat.
#[tactic(auto, unfolding(crate::specs::Spreading::children_text))]
fn push_children(text: &mut Vec<u8>, advice: &Advice, all: u128) -> Result<(), AllocError>
    ensures { OnOk result (text.new.items ≡ text.old.items ++ children_text advice.now all) }
{
    push_path(text, &advice.path)?;
    push_number(text, ": ", advice.children as u64)?;
    push_number(text, " children with ", fair_shares(advice.heat, 1, all))?;
    push_text(text, " % of the heat")
}

/// How many times the mean of these ranks the hottest of them would have, in hundredths.
fn spread_share(advice: &Advice, ranks: u8) -> u64
    ensures { result ≡ spread_share advice.now ranks }
{
    fair_shares(hottest(&advice.spread), ranks, u128::from(advice.heat))
}

/// The same as planned, of the ranks that may have a part.
fn planned_share(facts: &Facts) -> u64
    ensures { result ≡ planned_share facts.now }
{
    fair_shares(facts.hottest_planned(), facts.ranks.len(), facts.heat_now())
}

/// Whether the policy comes to at most a tenth above the plan.
fn is_near(spread: u64, planned: u64) -> bool
    ensures { result ≡ is_near spread planned }
{
    u128::from(spread) * 10 <= u128::from(planned) * 11
}

/// Adds over how many ranks the policy would spread it, and how evenly.
#[tactic(auto, unfolding(crate::specs::Spreading::spread_text))]
fn push_spread(text: &mut Vec<u8>, advice: &Advice, ranks: u8) -> Result<(), AllocError>
    ensures { OnOk result (text.new.items ≡ text.old.items ++ spread_text advice.now ranks) }
{
    let label = "; ceph.dir.pin.distributed would spread it over ";
    push_number(text, label, u64::from(ranks))?;
    push_hundredths(text, " ranks, the hottest at ", spread_share(advice, ranks))
}

/// Adds the line of a directory whose children the policy would spread.
#[tactic(auto, unfolding(crate::specs::Spreading::advice_line))]
fn push_line(text: &mut Vec<u8>, facts: &Facts, advice: &Advice) -> Result<(), AllocError>
    ensures { OnOk result (text.new.items ≡ text.old.items ++ advice_line facts.now advice.now) }
{
    push_children(text, advice, facts.heat_now())?;
    push_spread(text, advice, facts.size)?;
    push_hundredths(text, " of the mean (the plan: ", planned_share(facts))?;
    push_text(text, ")\n")
}

/// Adds the line, if the policy comes near the plan or is better.
#[tactic(auto, unfolding(crate::specs::Spreading::near_line))]
fn push_near(text: &mut Vec<u8>, facts: &Facts, advice: &Advice) -> Result<(), AllocError>
    ensures { OnOk result (text.new.items ≡ text.old.items ++ near_line facts.now advice.now) }
{
    if is_near(spread_share(advice, facts.size), planned_share(facts)) {
        push_line(text, facts, advice)
    } else {
        Ok(())
    }
}

/// Adds the line, if there is such a directory.
#[tactic(auto, unfolding(crate::specs::Spreading::advice_text))]
pub(crate) fn push_advice(text: &mut Vec<u8>, facts: &Facts) -> Result<(), AllocError>
    ensures { OnOk result (text.new.items ≡ text.old.items ++ advice_text facts.now facts.now.advice) }
{
    match facts.advice {
        Some(advice) => push_near(text, facts, advice),
        None => Ok(()),
    }
}

/// Adds the member of JSON of such a directory.
#[tactic(auto, unfolding(crate::specs::Spreading::advice_object))]
fn push_object(text: &mut Vec<u8>, advice: &Advice, ranks: u8) -> Result<(), AllocError>
    ensures { OnOk result (text.new.items ≡ text.old.items ++ advice_object advice.now ranks) }
{
    push_text(text, ",\n\"distributed\":{\"path")?;
    push_path_value(text, &advice.path)?;
    push_number(text, ",\"children\":", advice.children as u64)?;
    push_number(text, ",\"heat\":", advice.heat)?;
    push_number(text, ",\"hottest\":", hottest(&advice.spread))?;
    push_number(text, ",\"ranks\":", u64::from(ranks))?;
    push_text(text, "}")
}

/// Adds the member, `null` where there is no such directory.
#[tactic(auto, unfolding(crate::specs::Spreading::advice_member))]
pub(crate) fn push_member(text: &mut Vec<u8>, facts: &Facts) -> Result<(), AllocError>
    ensures { OnOk result (text.new.items ≡ text.old.items ++ advice_member facts.now.size facts.now.advice) }
{
    match facts.advice {
        Some(advice) => push_object(text, advice, facts.size),
        None => push_text(text, ",\n\"distributed\":null"),
    }
}
