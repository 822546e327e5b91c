//! Reads a script to its end, and has each line answered.
ghost use Rattle.std.specs.Prelude.{◌≡◌, ◌⊎◌, ℕ, ◌+◌, ◌^◌, ◌++◌, List, IfOk, IfSome, IsErrOf, true, false, not, ◌&&◌};
ghost use Rattle.script_engine.specs.Lines.{lines_of};
ghost use Rattle.script_engine.specs.Telling.{AlwaysTells};
ghost use Rattle.script_engine.specs.Runs.{AcceptsUpTo, AnswersAll, AnswersSome, AnswersWhole, Gives, IsEnded};

use crate::input::{Input, READ_LIMIT};
use crate::interpreter::Interpreter;
use crate::progress::Progress;
use crate::writes::WriteFailed;
use std::alloc::Global;
use std::io::{Read, Write};
use thiserror::Error;

/// Why a run ended before its script did.
#[derive(Clone, Copy, Debug, PartialEq, Eq, Hash, Error)]
pub enum RunError {
    /// There was no memory to begin with. No device was touched.
    #[error("no memory to begin with")]
    Memory,
    /// A read failed, or reads came to no end.
    #[error("read failed")]
    Read,
    /// A write failed, or took no byte.
    #[error("write failed")]
    Write,
}

/// Reads a script to its end, and has each of its lines answered. Says whether each was accepted.
///
/// `answer` is called with the state, the line's number, the line and the writer, and says whether the line was
/// accepted. Where it finds no room for the line's fields, it answers as for a line that has no room.
/// At most 2^40 reads are made. If a script has more, the next counts as one that failed, and all bytes that came
/// were carried out. A strict run ends after the first line that isn't accepted. What was read after that line is
/// lost. An answer that is an `Err` of the reader or the writer ends the run, an interrupted call too. A line that
/// finds no room in memory is answered `line L: refused 0 Memory`, and the run goes on.
pub fn run_script<
    I: Interpreter,
    R: Read,
    W: Write,
    F: Fn(&mut I, u64, &[u8], &mut W) -> Result<bool, WriteFailed>,
>(
    alloc: Global,
    answer: &F,
    interpreter: &mut I,
    input: &mut Input<R>,
    writer: &mut W,
    strict: bool,
) -> Result<bool, RunError>
    requires may { F.IsAlwaysCallable answer.now }
    requires tells { AlwaysTells I.answers W.contents (F.post answer.now) }
    requires unread { input.old.reads ≡ 0 }
    ensures done { IfOk result (λ accepted. IfSome (R.remaining input.old.reader) (λ all.
        AnswersAll I.answers strict interpreter.old (lines_of all) interpreter.new accepted
        (W.contents writer.old) (W.contents writer.new))) }
    // The same for the bytes that came, of any reader.
    ensures given { IfOk result (λ accepted. (bytes : List ℕ) × Gives R.remaining input.old input.new bytes
        × ((strict && not accepted) ≡ false → IsEnded R.remaining input.new)
        × AnswersAll I.answers strict interpreter.old (lines_of bytes) interpreter.new accepted
        (W.contents writer.old) (W.contents writer.new)) }
    // A strict run reads nothing after the read in which its last line ends.
    ensures stops { IfOk result (λ accepted. (strict && not accepted) ≡ true → (front : List ℕ) × (last : List ℕ)
        × Gives R.remaining input.old input.new (front ++ last)
        × AcceptsUpTo I.answers strict interpreter.old front last) }
    // Where a read fails, the lines that were whole were answered.
    ensures read { IsErrOf result RunError.Read → (bytes : List ℕ) × Gives R.remaining input.old input.new bytes
        × AnswersWhole I.answers strict interpreter.old bytes interpreter.new
        (W.contents writer.old) (W.contents writer.new) }
    // It is answered so only where a read failed, or after 2^40 reads.
    ensures cause { IsErrOf result RunError.Read → (input.new.failed ≡ true) ⊎ (input.new.reads ≡ 2 ^ 40) }
    // Where a write fails, a beginning of what is due for the lines so far was written.
    ensures write { IsErrOf result RunError.Write → (bytes : List ℕ) × Gives R.remaining input.old input.new bytes
        × AnswersSome I.answers strict interpreter.old bytes (W.contents writer.old) (W.contents writer.new) }
    // It takes no memory to begin.
    ensures begun { IsErrOf result RunError.Memory → ⊥ }
{
    let mut buffer = [0u8; 16384];
    let mut progress = Progress {
        line: Vec::new(alloc),
        has_room: true,
        number: 1,
        accepted: true,
    };
    for _ in 0..READ_LIMIT {
        let Ok(count) = input.read(&mut buffer) else {
            return Err(RunError::Read);
        };
        if count == 0 {
            let Ok(accepted) = progress.finish(answer, interpreter, writer) else {
                return Err(RunError::Write);
            };
            return Ok(accepted);
        }
        let piece = &buffer[..count];
        let Ok(()) = progress.take_piece(answer, interpreter, writer, strict, piece) else {
            return Err(RunError::Write);
        };
        if strict && !progress.accepted {
            return Ok(false);
        }
    }
    Err(RunError::Read)
}
