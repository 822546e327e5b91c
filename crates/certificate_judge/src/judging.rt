//! Whether the bytes of a reader are certificates whose proofs hold.
ghost use Rattle.std.specs.Prelude.{IfErr, IfOk, IfSome};
ghost use Rattle.certificate_judge.specs.Judged.{HaveAnswers, Refuses};

use crate::answers::Answers;
use crate::judge_error::JudgeError;
use crate::unjudged::Unjudged;
use plan_text::laws::prefix_free;
use plan_text::{Expected, ReadError};
use std::alloc::Global;
use std::io::Read;

/// Reads certificates to the reader's end, at least one, and answers for each whether its proofs hold. One is in memory
/// at a time, and what was read of those after it. An error that names a line says that the bytes aren't certificates.
/// The others say that memory was refused or a read failed.
pub fn judge<R: Read>(alloc: Global, reader: &mut R) -> Result<Answers, JudgeError>
    ensures answered { IfOk result (λ answers. IfSome (R.remaining reader.old) (λ bytes. HaveAnswers bytes answers)) }
    ensures refused { IfErr result (λ error. IfSome (R.remaining reader.old) (λ bytes. Refuses bytes error)) }
{
    prefix_free();
    let mut unjudged = Unjudged::new(alloc);
    let mut answers = Answers::new(alloc);
    for number in 1..u64::MAX {
        match unjudged.next(alloc, reader)? {
            Some(certificate) => answers.add(alloc, number, &certificate)?,
            None if number > 1 => return Ok(answers),
            None => return Err(JudgeError::Text(ReadError::Line(1, Expected::First))),
        }
    }
    Err(JudgeError::Text(ReadError::Memory))
}
