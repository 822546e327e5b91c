//! The dialogue of a run.
ghost use Rattle.std.specs.Prelude.{◌≡◌, ◌||◌, IfOk, List, OnErr, ℕ, length};
ghost use Rattle.pin_driver.specs.Driven.{IsMark};
ghost use Rattle.pin_driver.specs.declared.answer.HostAnswer.{HostAnswer as HostAnswers};
ghost use Rattle.drive_lines.specs.Dialogue.{HasTaken, IsCutRun, IsWholeRun};
ghost use Rattle.drive_lines.specs.Machines.{ending_of, is_set_question};

use crate::drive_error::DriveError;
use crate::host::HostReader;
use crate::machine::PinMachine;
use crate::questions::{say_note, say_question};
use crate::run_end::RunEnd;
use pin_driver::{Ending, Question, Task, laws};
use std::alloc::Global;
use std::io::{Read, Write};

/// Whether a question is to set a pin.
fn is_set_question(question: &Question) -> bool
    ensures { result ≡ is_set_question question.now }
{
    match question {
        Question::Set(_, _) => true,
        _ => false,
    }
}

/// Whether one of them is true.
fn either(first: bool, second: bool) -> bool
    ensures { result ≡ (first || second) }
{
    first || second
}

/// How a run ended, where nothing more is asked.
fn ending_of(question: &Question) -> Option<Ending>
    ensures { result ≡ ending_of question.now }
{
    match question {
        Question::End(ending) => Some(*ending),
        _ => None,
    }
}

/// Asks a host all that a setter of the task asks, or a restorer on the way back, until that ends.
pub fn drive<R: Read, W: Write>(
    alloc: Global,
    is_back: bool,
    task: Task,
    host: &mut HostReader<R>,
    writer: &mut W,
) -> Result<RunEnd, DriveError>
    requires mark { IsMark task.first (length task.plan.changes) }
    ensures done { IfOk result (λ end. (bytes : List ℕ) × (more : List HostAnswers)
        × HasTaken R.remaining host.old host.new bytes
        × IsWholeRun (R.remaining host.old.reader) is_back task end
        (W.contents writer.old) (W.contents writer.new) bytes more) }
    ensures cut { OnErr result ((bytes : List ℕ) × (more : List HostAnswers)
        × HasTaken R.remaining host.old host.new bytes
        × IsCutRun (R.remaining host.old.reader) is_back task
        (W.contents writer.old) (W.contents writer.new) bytes more) }
{
    laws::setter();
    laws::restorer();
    let mut machine = PinMachine::new(is_back, task);
    let mut was_set = false;
    for _ in 0..u64::MAX {
        let question = machine.question();
        say_question(alloc, &machine.task().plan, &question, writer)?;
        match ending_of(&question) {
            Some(ending) => return Ok(RunEnd { ending, was_set }),
            None => was_set = either(was_set, is_set_question(&question)),
        }
        let answer = host.answer(alloc)?;
        let note = machine.answer(answer);
        say_note(alloc, &machine.task().plan, note, writer)?;
    }
    Err(DriveError::Read)
}
