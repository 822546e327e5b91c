//! Printing the answers for the certificates of a reader.
ghost use Rattle.std.specs.Prelude.{◌≡◌, ◌≤◌, ◌⊎◌, IfErr, IfOk, IfSome, IsTrue, OnOk, string_bytes};
ghost use Rattle.std.specs.Io.KnownBytes.{Appends};
ghost use Rattle.certificate_judge.specs.Judged.{GrowsByFront, IsJudged, error_status, memory_line};
ghost use Rattle.certificate_judge.specs.declared.judge_error.JudgeError.TheVariants.{Text};
ghost use Rattle.plan_text.specs.declared.read_error.ReadError.TheVariants.{Memory};

use crate::answers::Answers;
use crate::judge_error::JudgeError;
use crate::judging::judge;
use plan_text::ReadError;
use std::alloc::Global;
use std::io;
use std::io::{ErrorKind, Read, Write};

/// Prints a line for each certificate that the reader has: whether its proofs hold. The name is that of the file.
///
/// Gives the status: 0 where all hold, 1 where some don't, 2 where the bytes aren't certificates or memory is refused,
/// and 3 where the bytes could not all be read or the lines not all be written. Where nothing was judged, `errors` gets
/// the reason, and `writer` nothing.
pub fn report<R: Read, W: Write, E: Write>(
    alloc: Global,
    name: &str,
    reader: &mut R,
    writer: &mut W,
    errors: &mut E,
) -> u8
    ensures { IfSome (R.remaining reader.old) (λ bytes. IsJudged W.contents E.contents bytes writer.old writer.new
        errors.old errors.new result) ⊎ ((result ≡ 3) × (writer.new ≡ writer.old)) }
{
    print_judged(judge(alloc, reader), name, writer, errors)
}

/// Prints the answers, or why there are none, and gives the status.
fn print_judged<W: Write, E: Write>(
    judged: Result<Answers, JudgeError>,
    name: &str,
    writer: &mut W,
    errors: &mut E,
) -> u8
    ensures yes { IfOk judged (λ answers. result ≡ 0 → IsTrue answers.hold) }
    ensures no { IfOk judged (λ answers. result ≡ 1 → ¬ (IsTrue answers.hold)) }
    ensures all { IfOk judged (λ answers. result ≤ 1 → Appends
        (W.contents writer.old) (W.contents writer.new) (string_bytes answers.lines)) }
    ensures front { IfOk judged (λ answers. GrowsByFront
        (W.contents writer.old) (W.contents writer.new) (string_bytes answers.lines)) }
    ensures few { OnOk judged ((result ≤ 1) ⊎ (result ≡ 3)) }
    ensures refused { IfErr judged (λ error. (result ≡ error_status error) × (writer.new ≡ writer.old)) }
    ensures memory { IfErr judged (λ error. error ≡ Text Memory →
        GrowsByFront (E.contents errors.old) (E.contents errors.new) memory_line) }
{
    match judged {
        Ok(answers) => print_answers(&answers, writer, errors),
        Err(JudgeError::Read(error)) => say_unread(&error, name, errors),
        Err(JudgeError::Text(error)) => refuse(error, name, errors),
    }
}

/// Says that a file was not read, and gives the status for that.
pub(crate) fn say_unread<E: Write>(error: &io::Error, name: &str, errors: &mut E) -> u8
    ensures { result ≡ 3 }
{
    let _ = writeln!(errors, "mdbal_check: {name}: {error}");
    3
}

/// Says why nothing was judged, and gives the status for that.
fn refuse<E: Write>(error: ReadError, name: &str, errors: &mut E) -> u8
    ensures status { result ≡ 2 }
    ensures memory { error ≡ Memory → GrowsByFront (E.contents errors.old) (E.contents errors.new) memory_line }
{
    match error {
        ReadError::Memory => {
            say_memory(errors);
        }
        ReadError::Line(line, expected) => {
            let _ = writeln!(errors, "{name}:{line}: expected {expected}");
        }
    }
    2
}

/// Says that memory was refused.
pub(crate) fn say_memory<E: Write>(errors: &mut E)
    ensures { GrowsByFront (E.contents errors.old) (E.contents errors.new) memory_line }
{
    let _written = print(errors, b"mdbal_check: 0 Memory\n");
}

/// Prints text, as far as it can be written, and says whether all of it was.
fn print<W: Write>(writer: &mut W, text: &[u8]) -> bool
    ensures all { IsTrue result → Appends (W.contents writer.old) (W.contents writer.new) text.now }
    ensures front { GrowsByFront (W.contents writer.old) (W.contents writer.new) text.now }
{
    let mut rest = text;
    for _ in 0..text.len() {
        if rest.is_empty() {
            return true;
        }
        match writer.write(rest) {
            Ok(count) => rest = &rest[count..],
            Err(error) => {
                if error.kind() != ErrorKind::Interrupted {
                    return false;
                }
            }
        }
    }
    rest.is_empty()
}

/// Prints the answers, and gives the status for them.
fn print_answers<W: Write, E: Write>(answers: &Answers, writer: &mut W, errors: &mut E) -> u8
    ensures yes { result ≡ 0 → IsTrue answers.now.hold }
    ensures no { result ≡ 1 → ¬ (IsTrue answers.now.hold) }
    ensures all { result ≤ 1 → Appends
        (W.contents writer.old) (W.contents writer.new) (string_bytes answers.now.lines) }
    ensures front { GrowsByFront (W.contents writer.old) (W.contents writer.new) (string_bytes answers.now.lines) }
    ensures few { (result ≤ 1) ⊎ (result ≡ 3) }
{
    if !print(writer, answers.lines.as_bytes()) {
        let _ = writeln!(errors, "mdbal_check: write failed");
        return 3;
    }
    if answers.hold { 0 } else { 1 }
}
