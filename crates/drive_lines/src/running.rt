//! A run of a plan: its text is read, and then it is driven.
ghost use Rattle.std.specs.Prelude.{◌≡◌};
ghost use Rattle.drive_lines.specs.Outcomes.{IsRunResult, drive_status};

use crate::driving::drive;
use crate::host::HostReader;
use crate::plan_input::{plan_of, read_text};
use crate::plan_run_error::PlanRunError;
use crate::run_end::RunEnd;
use pin_driver::{Ending, Pace, Task};
use std::alloc::Global;
use std::io::{Read, Write};

/// Reads the stored text of a plan and the line with only a dot after it, and sets its pins at this pace, or restores
/// them on the way back.
pub fn run<R: Read, W: Write>(
    alloc: Global,
    is_back: bool,
    pace: Pace,
    host: &mut HostReader<R>,
    writer: &mut W,
) -> Result<RunEnd, PlanRunError>
    ensures { IsRunResult R.remaining W.contents host.old host.new writer.old writer.new is_back pace result }
{
    let text = read_text(alloc, host)?;
    let found = plan_of(alloc, text.as_slice())?;
    let task = Task {
        plan: found.plan,
        first: found.mark,
        pace,
    };
    match drive(alloc, is_back, task, host, writer) {
        Ok(end) => Ok(end),
        Err(error) => Err(PlanRunError::Cut(error)),
    }
}

/// The exit status of a run: 0 where all is done; where it stopped, 4 if it was asked to set a pin, else 3; and 1 where
/// it came to no end.
pub fn drive_status(outcome: &Result<RunEnd, PlanRunError>) -> u8
    ensures { result ≡ drive_status outcome.now }
{
    match outcome {
        Ok(end) => match end.ending {
            Ending::Done => 0,
            Ending::Stopped(_) => { if end.was_set { 4 } else { 3 } }
        },
        Err(_) => 1,
    }
}
