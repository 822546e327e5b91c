//! Reading the text that is stored of a plan.
ghost use Rattle.std.specs.Prelude.{◌≡◌, ◌≢◌, ◌<◌, ◌^◌, ◌++◌, ℕ, List, Err, IfErr, IfOk, MatchResult, OnOk, codes};
ghost use Rattle.std.specs.Prelude.{length, true};
ghost use Rattle.pin_driver.specs.Driven.{IsMark};
ghost use Rattle.pin_driver.specs.PinPlan.{PlanParts};
ghost use Rattle.pin_driver.specs.StoredReading.{HasVersion, IsOutOfMemory};
ghost use Rattle.pin_driver.specs.StoredReading.{FindsAs, found_view, read_body, read_change, read_changes};
ghost use Rattle.pin_driver.specs.StoredReading.{read_count, read_earlier, read_identity, read_many, read_mark};
ghost use Rattle.pin_driver.specs.StoredReading.{read_pins};
ghost use Rattle.pin_driver.specs.StoredText.{FitsText, stored_text as text_of, version_text};
ghost use Rattle.pin_driver.specs.declared.question.Mark.{Mark as MarkOf};
ghost use Rattle.pin_driver.specs.declared.text_error.TextError.TheVariants as errors;

use crate::bytes::Bytes;
use crate::fields::{bytes, number, optional_number, optional_rank, rank, word};
use crate::plan::{EarlierPin, PinPlan, PlannedChange};
use crate::question::Mark;
use crate::stored_writer::stored_text;
use crate::text_error::TextError;
use std::alloc::Global;

/// A plan, and how far it is.
#[derive(Drop)]
pub struct StoredPlan {
    /// The plan.
    pub plan: PinPlan,
    /// How far it is.
    pub mark: Mark,
}

/// The change of a line.
#[tactic(auto, unfolding(crate::specs::StoredReading::read_change))]
fn change(alloc: Global, text: &[u8]) -> Result<(PlannedChange, &[u8]), TextError>
    ensures { FindsAs (λ change. change) result (read_change text.now) }
{
    let Some(rest) = word(text, b"change") else {
        return Err(TextError::Form);
    };
    let Some((inode, rest)) = optional_number(rest) else {
        return Err(TextError::Form);
    };
    let Some((before, rest)) = optional_rank(rest) else {
        return Err(TextError::Form);
    };
    let Some((after, rest)) = optional_rank(rest) else {
        return Err(TextError::Form);
    };
    let Some((inodes, rest)) = number(rest) else {
        return Err(TextError::Form);
    };
    let (path, rest) = bytes(alloc, rest)?;
    let change = PlannedChange {
        path,
        inode,
        before,
        after,
        inodes,
    };
    Ok((change, rest))
}

/// The pin of a line.
#[tactic(auto, unfolding(crate::specs::StoredReading::read_earlier))]
fn earlier(alloc: Global, text: &[u8]) -> Result<(EarlierPin, &[u8]), TextError>
    ensures { FindsAs (λ pin. pin) result (read_earlier text.now) }
{
    let Some(rest) = word(text, b"pin") else {
        return Err(TextError::Form);
    };
    let Some((inode, rest)) = optional_number(rest) else {
        return Err(TextError::Form);
    };
    let Some((rank, rest)) = rank(rest) else {
        return Err(TextError::Form);
    };
    let (path, rest) = bytes(alloc, rest)?;
    Ok((EarlierPin { path, inode, rank }, rest))
}

/// The number after a word.
#[tactic(auto, unfolding(crate::specs::StoredReading::read_count))]
fn count<'a>(text: &'a [u8], name: &[u8]) -> Result<(u64, &'a [u8]), TextError>
    ensures { FindsAs (λ n. n) result (read_count name.now text.now) }
{
    let Some(rest) = word(text, name) else {
        return Err(TextError::Form);
    };
    match number(rest) {
        Some(found) => Ok(found),
        None => Err(TextError::Form),
    }
}

/// This many changes.
fn many_changes(
    alloc: Global,
    text: &[u8],
    count: u64,
) -> Result<(Vec<PlannedChange>, &[u8]), TextError>
    ensures { FindsAs (λ changes. changes.items) result (read_many read_change count text.now) }
{
    let mut changes = Vec::new(alloc);
    let mut rest = text;
    for _ in 0..count {
        match change(alloc, rest) {
            Ok(found) => {
                changes.push(found.0)?;
                rest = found.1;
            }
            Err(error) => return Err(error),
        }
    }
    Ok((changes, rest))
}

/// This many pins.
fn many_pins(alloc: Global, text: &[u8], count: u64) -> Result<(Vec<EarlierPin>, &[u8]), TextError>
    ensures { FindsAs (λ pins. pins.items) result (read_many read_earlier count text.now) }
{
    let mut pins = Vec::new(alloc);
    let mut rest = text;
    for _ in 0..count {
        match earlier(alloc, rest) {
            Ok(found) => {
                pins.push(found.0)?;
                rest = found.1;
            }
            Err(error) => return Err(error),
        }
    }
    Ok((pins, rest))
}

/// The changes, with their number in front.
#[tactic(auto, unfolding(crate::specs::StoredReading::read_changes))]
fn changes(alloc: Global, text: &[u8]) -> Result<(Vec<PlannedChange>, &[u8]), TextError>
    ensures { FindsAs (λ changes. changes.items) result (read_changes text.now) }
{
    let (number, rest) = count(text, b"changes")?;
    many_changes(alloc, rest, number)
}

/// The earlier pins, with their number in front.
#[tactic(auto, unfolding(crate::specs::StoredReading::read_pins))]
fn pins(alloc: Global, text: &[u8]) -> Result<(Vec<EarlierPin>, &[u8]), TextError>
    ensures { FindsAs (λ pins. pins.items) result (read_pins text.now) }
{
    let (number, rest) = count(text, b"pins")?;
    many_pins(alloc, rest, number)
}

/// What names the plan.
#[tactic(auto, unfolding(crate::specs::StoredReading::read_identity))]
fn identity(alloc: Global, text: &[u8]) -> Result<(Bytes, &[u8]), TextError>
    ensures { FindsAs (λ identity. identity) result (read_identity text.now) }
{
    let Some(rest) = word(text, b"plan") else {
        return Err(TextError::Form);
    };
    bytes(alloc, rest)
}

/// The mark.
#[tactic(auto, unfolding(crate::specs::StoredReading::read_mark))]
fn mark(text: &[u8]) -> Result<(Mark, &[u8]), TextError>
    ensures { FindsAs (λ mark. mark) result (read_mark text.now) }
{
    let Some(rest) = word(text, b"mark") else {
        return Err(TextError::Form);
    };
    let Some((begun, rest)) = number(rest) else {
        return Err(TextError::Form);
    };
    let Some((certain, rest)) = number(rest) else {
        return Err(TextError::Form);
    };
    let mark = Mark {
        begun: begun as usize,
        certain: certain as usize,
    };
    Ok((mark, rest))
}

/// What follows the first line.
#[tactic(auto, unfolding(crate::specs::StoredReading::read_body))]
fn body(alloc: Global, text: &[u8]) -> Result<(StoredPlan, &[u8]), TextError>
    ensures { FindsAs (λ found. (found.plan, found.mark)) result (read_body text.now) }
{
    let (identity, rest) = identity(alloc, text)?;
    let (mark, rest) = mark(rest)?;
    let (changes, rest) = changes(alloc, rest)?;
    let (pins, rest) = pins(alloc, rest)?;
    let Some(rest) = word(rest, b"end") else {
        return Err(TextError::Form);
    };
    let plan = PinPlan::new(identity, changes, pins);
    Ok((StoredPlan { plan, mark }, rest))
}

/// The number of the first line.
#[tactic(auto, unfolding(crate::specs::StoredReading::read_count))]
fn version(text: &[u8]) -> Option<(u64, &[u8])>
    ensures { found_view (λ n. n) result ≡ read_count (codes "mdbal_pins") text.now }
{
    let rest = word(text, b"mdbal_pins")?;
    number(rest)
}

/// What follows the first line, if that has version 1.
fn after_version(text: &[u8]) -> Result<&[u8], TextError>
    ensures { HasVersion result (read_count (codes "mdbal_pins") text.now) }
{
    match version(text) {
        None => Err(TextError::Form),
        Some((1, rest)) => Ok(rest),
        Some((other, _)) => Err(TextError::Version(other)),
    }
}

/// Whether the mark is one of a plan with this many changes.
fn is_mark(mark: Mark, changes: usize) -> bool
    ensures sound { result ≡ true → IsMark mark changes }
    ensures complete { IsMark mark changes → result ≡ true }
{
    mark.begun <= changes && mark.certain <= mark.begun
}

/// What a text says, if it is written in any way that can be read.
fn parse(alloc: Global, text: &[u8]) -> Result<StoredPlan, TextError>
    ensures again { (plan : PlanParts) (mark : MarkOf) → FitsText plan mark → text.now ≡ text_of plan mark →
        MatchResult result (λ found. (found.plan ≡ plan) × (found.mark ≡ mark)) IsOutOfMemory }
    ensures newer { (number : ℕ) (more : List ℕ) → number < 2 ^ 64 → number ≢ 1 →
        text.now ≡ version_text number ++ more → result ≡ Err (errors.Version number) }
{
    match after_version(text) {
        Err(error) => Err(error),
        Ok(rest) => match body(alloc, rest) {
            Ok((found, _)) => Ok(found),
            Err(error) => Err(error),
        },
    }
}

/// What was read of a text, if that is written just so.
fn checked(alloc: Global, text: &[u8], found: StoredPlan) -> Result<StoredPlan, TextError>
    ensures found { IfOk result (λ kept. kept ≡ found) }
    ensures same { OnOk result (text.now ≡ text_of found.plan found.mark) }
    ensures sound { OnOk result (IsMark found.mark (length found.plan.changes)) }
    ensures right { text.now ≡ text_of found.plan found.mark → IsMark found.mark (length found.plan.changes) →
        IfErr result IsOutOfMemory }
{
    if !is_mark(found.mark, found.plan.changes().len()) {
        return Err(TextError::Form);
    }
    let Ok(written) = stored_text(alloc, &found.plan, found.mark) else {
        return Err(TextError::Memory);
    };
    if written.as_slice() == text {
        Ok(found)
    } else {
        Err(TextError::Form)
    }
}

/// Reads what `stored_text` wrote. The text is all of it.
pub fn read_stored(alloc: Global, text: &[u8]) -> Result<StoredPlan, TextError>
    // What is read is written so.
    ensures same { IfOk result (λ found. text.now ≡ text_of found.plan found.mark) }
    ensures sound { IfOk result (λ found. IsMark found.mark (length found.plan.changes)) }
    // What is written is read again, unless memory is refused.
    ensures again { (plan : PlanParts) (mark : MarkOf) → FitsText plan mark → IsMark mark (length plan.changes) →
        text.now ≡ text_of plan mark →
        MatchResult result (λ found. (found.plan ≡ plan) × (found.mark ≡ mark)) IsOutOfMemory }
    // A text of another version is refused for that.
    ensures newer { (number : ℕ) (more : List ℕ) → number < 2 ^ 64 → number ≢ 1 →
        text.now ≡ version_text number ++ more → result ≡ Err (errors.Version number) }
{
    match parse(alloc, text) {
        Err(error) => Err(error),
        Ok(found) => checked(alloc, text, found),
    }
}
