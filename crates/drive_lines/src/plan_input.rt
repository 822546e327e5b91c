//! Reading the stored text of a plan, which a line with only a dot ends.
ghost use Rattle.std.specs.Prelude.{◌≡◌, ◌++◌, IfOk, IsErrOf, OnErr, OnOk, List, ℕ, codes, length};
ghost use Rattle.pin_driver.specs.Driven.{IsMark};
ghost use Rattle.pin_driver.specs.StoredText.{last_text, stored_text as text_of};
ghost use Rattle.pin_driver.specs.declared.text_error.TextError.{TextError as Texts};
ghost use Rattle.drive_lines.specs.Dialogue.{HasTaken};
ghost use Rattle.drive_lines.specs.Outcomes.{IsBeforeDot, IsNoDot, IsNoPlan, dot_line};

use crate::drive_error::DriveError;
use crate::host::{HostLine, HostReader};
use crate::plan_run_error::PlanRunError;
use pin_driver::{StoredPlan, TextError, read_stored};
use std::alloc::{AllocError, Global};
use std::io::Read;

/// Adds a line, and its newline.
fn push_line(text: &mut Vec<u8>, line: &[u8]) -> Result<(), AllocError>
    ensures { OnOk result (text.new.items ≡ text.old.items ++ last_text line.now) }
{
    text.extend_from_slice(line)?;
    text.push(b'\n')?;
    Ok(())
}

/// Reads lines up to the first that is only a dot.
pub(crate) fn read_text<R: Read>(
    alloc: Global,
    host: &mut HostReader<R>,
) -> Result<Vec<u8>, PlanRunError>
    ensures text { IfOk result (λ text. HasTaken R.remaining host.old host.new (text.items ++ dot_line)
        × IsBeforeDot text.items) }
    ensures unended { IsErrOf result PlanRunError.Unended → IsNoDot R.remaining host.old host.new }
    ensures other { (error : Texts) → IsErrOf result (PlanRunError.Text error) → ⊥ }
{
    let mut text = Vec::new(alloc);
    for _ in 0..u64::MAX {
        match host.next_line(alloc)? {
            HostLine::Whole(line) => {
                if line.as_slice() == b".".as_slice() {
                    return Ok(text);
                }
                push_line(&mut text, line.as_slice())?;
            }
            HostLine::TooLong | HostLine::Ended => return Err(PlanRunError::Unended),
        }
    }
    Err(PlanRunError::Cut(DriveError::Read))
}

/// The plan of a text, and how far it is.
pub(crate) fn plan_of(alloc: Global, text: &[u8]) -> Result<StoredPlan, PlanRunError>
    ensures same { IfOk result (λ found. text.now ≡ text_of found.plan found.mark) }
    ensures sound { IfOk result (λ found. IsMark found.mark (length found.plan.changes)) }
    ensures refused { (error : Texts) → IsErrOf result (PlanRunError.Text error) → IsNoPlan text.now }
    ensures ended { IsErrOf result PlanRunError.Unended → ⊥ }
{
    match read_stored(alloc, text) {
        Ok(found) => Ok(found),
        Err(TextError::Memory) => Err(PlanRunError::Cut(DriveError::Memory)),
        Err(error) => Err(PlanRunError::Text(error)),
    }
}
