//! Writing the text that is stored of a plan.
ghost use Rattle.std.specs.Prelude.{◌≡◌, ◌<◌, ◌++◌, IfOk, OnOk, decimal};
ghost use Rattle.std.specs.List.{flat_map};
ghost use Rattle.pin_driver.specs.StoredText.{FitsText};
ghost use Rattle.pin_driver.specs.StoredText.{change_text, count_text, earlier_text, field_text, kept_byte, kept_bytes};
ghost use Rattle.pin_driver.specs.StoredText.{is_kept, last_text, mark_text, number_or_dash, stored_text};

use crate::bytes::Bytes;
use crate::fits::text_fits;
use crate::plan::{EarlierPin, PinPlan, PlannedChange};
use crate::question::Mark;
use mds_types::Rank;
use std::alloc::{AllocError, Global};

/// The version of the text.
pub(crate) const VERSION: u64 = 1;

fn is_kept(byte: u8) -> bool
    ensures { result ≡ is_kept byte }
{
    byte > 32 && byte < 127 && byte != b'\\'
}

/// Adds a byte: printable ASCII as it is, all else as a backslash and three octal digits.
fn push_byte(text: &mut Vec<u8>, byte: u8) -> Result<(), AllocError>
    ensures { OnOk result (text.new.items ≡ text.old.items ++ kept_byte byte) }
{
    if is_kept(byte) {
        text.push(byte)?;
        Ok(())
    } else {
        text.extend_from_slice(&[
            b'\\',
            b'0' + byte / 64,
            b'0' + byte / 8 % 8,
            b'0' + byte % 8,
        ])
    }
}

/// Adds the last field of a line, of any bytes.
fn push_bytes(text: &mut Vec<u8>, bytes: &Bytes) -> Result<(), AllocError>
    ensures { OnOk result (text.new.items ≡ text.old.items ++ last_text (kept_bytes bytes.now)) }
{
    for byte in bytes.as_slice() {
        push_byte(text, *byte)?;
    }
    text.push(b'\n')?;
    Ok(())
}

/// Adds a field that others follow.
fn push_field(text: &mut Vec<u8>, field: &[u8]) -> Result<(), AllocError>
    ensures { OnOk result (text.new.items ≡ text.old.items ++ field_text field.now) }
{
    text.extend_from_slice(field)?;
    text.push(b' ')?;
    Ok(())
}

/// Adds the last field of a line.
fn push_last(text: &mut Vec<u8>, field: &[u8]) -> Result<(), AllocError>
    ensures { OnOk result (text.new.items ≡ text.old.items ++ last_text field.now) }
{
    text.extend_from_slice(field)?;
    text.push(b'\n')?;
    Ok(())
}

fn push_number(alloc: Global, text: &mut Vec<u8>, number: u64) -> Result<(), AllocError>
    ensures { OnOk result (text.new.items ≡ text.old.items ++ field_text (decimal number)) }
{
    let digits = format!(in alloc; "{number}")?;
    push_field(text, digits.as_bytes())
}

fn push_last_number(alloc: Global, text: &mut Vec<u8>, number: u64) -> Result<(), AllocError>
    ensures { OnOk result (text.new.items ≡ text.old.items ++ last_text (decimal number)) }
{
    let digits = format!(in alloc; "{number}")?;
    push_last(text, digits.as_bytes())
}

/// Adds a number that may be unknown.
fn push_optional(alloc: Global, text: &mut Vec<u8>, number: Option<u64>) -> Result<(), AllocError>
    ensures { OnOk result (text.new.items ≡ text.old.items ++ field_text (number_or_dash number)) }
{
    match number {
        None => push_field(text, b"-"),
        Some(number) => push_number(alloc, text, number),
    }
}

/// Adds a pin that may be none.
fn push_pin(alloc: Global, text: &mut Vec<u8>, pin: &Option<Rank>) -> Result<(), AllocError>
    ensures { OnOk result (text.new.items ≡ text.old.items ++ field_text (number_or_dash pin.now)) }
{
    match pin {
        None => push_field(text, b"-"),
        Some(rank) => push_number(alloc, text, u64::from(rank.number())),
    }
}

fn push_change(alloc: Global, text: &mut Vec<u8>, change: &PlannedChange) -> Result<(), AllocError>
    ensures { OnOk result (text.new.items ≡ text.old.items ++ change_text change.now) }
{
    push_field(text, b"change")?;
    push_optional(alloc, text, change.inode)?;
    push_pin(alloc, text, &change.before)?;
    push_pin(alloc, text, &change.after)?;
    push_number(alloc, text, change.inodes)?;
    push_bytes(text, &change.path)
}

fn push_earlier(alloc: Global, text: &mut Vec<u8>, pin: &EarlierPin) -> Result<(), AllocError>
    ensures { OnOk result (text.new.items ≡ text.old.items ++ earlier_text pin.now) }
{
    push_field(text, b"pin")?;
    push_optional(alloc, text, pin.inode)?;
    push_number(alloc, text, u64::from(pin.rank.number()))?;
    push_bytes(text, &pin.path)
}

/// Adds a word, and a number.
fn push_count(alloc: Global, text: &mut Vec<u8>, word: &[u8], number: u64) -> Result<(), AllocError>
    ensures { OnOk result (text.new.items ≡ text.old.items ++ count_text word.now number) }
{
    push_field(text, word)?;
    push_last_number(alloc, text, number)
}

fn push_mark(alloc: Global, text: &mut Vec<u8>, mark: Mark) -> Result<(), AllocError>
    ensures { OnOk result (text.new.items ≡ text.old.items ++ mark_text mark) }
{
    push_field(text, b"mark")?;
    push_number(alloc, text, mark.begun as u64)?;
    push_last_number(alloc, text, mark.certain as u64)
}

fn push_changes(
    alloc: Global,
    text: &mut Vec<u8>,
    changes: &[PlannedChange],
) -> Result<(), AllocError>
    ensures { OnOk result (text.new.items ≡ text.old.items ++ flat_map change_text changes.now) }
{
    for change in changes {
        push_change(alloc, text, change)?;
    }
    Ok(())
}

fn push_pins(alloc: Global, text: &mut Vec<u8>, pins: &[EarlierPin]) -> Result<(), AllocError>
    ensures { OnOk result (text.new.items ≡ text.old.items ++ flat_map earlier_text pins.now) }
{
    for pin in pins {
        push_earlier(alloc, text, pin)?;
    }
    Ok(())
}

/// The text of a plan with this mark.
#[tactic(auto, unfolding(crate::specs::StoredText::stored_text, crate::specs::StoredText::body_text, crate::specs::StoredText::version_text))]
pub fn stored_text(alloc: Global, plan: &PinPlan, mark: Mark) -> Result<Vec<u8>, AllocError>
    ensures text { IfOk result (λ text. text.items ≡ stored_text plan.now mark) }
    // So `read_stored` reads it again.
    ensures fits { FitsText plan.now mark }
{
    text_fits(plan, mark);
    let mut text = Vec::new(alloc);
    push_count(alloc, &mut text, b"mdbal_pins", VERSION)?;
    push_field(&mut text, b"plan")?;
    push_bytes(&mut text, plan.identity())?;
    push_mark(alloc, &mut text, mark)?;
    push_count(alloc, &mut text, b"changes", plan.changes().len() as u64)?;
    push_changes(alloc, &mut text, plan.changes())?;
    push_count(alloc, &mut text, b"pins", plan.earlier().len() as u64)?;
    push_pins(alloc, &mut text, plan.earlier())?;
    push_last(&mut text, b"end")?;
    Ok(text)
}
