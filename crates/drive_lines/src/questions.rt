//! The lines that are written to a host.
ghost use Rattle.std.specs.Prelude.{◌≡◌, ◌++◌, IfOk, OnErr, OnOk, codes, decimal};
ghost use Rattle.std.specs.Io.KnownBytes.{Appends};
ghost use Rattle.script_engine.specs.Known.{AppendsFront};
ghost use Rattle.pin_driver.specs.StoredText.{field_text, is_kept, kept_byte, kept_bytes, last_text};
ghost use Rattle.drive_lines.specs.Questions.{ending_text, note_text, path_text, pin_word, question_text, trouble_word};

use crate::drive_error::DriveError;
use mds_types::Rank;
use pin_driver::{Ending, Mark, Note, PinPlan, Question, Trouble, stored_text};
use script_engine::write_whole;
use std::alloc::{AllocError, Global};
use std::io::Write;

/// Whether a byte is written as it is: printable ASCII, no blank and no backslash.
fn is_kept(byte: u8) -> bool
    ensures { result ≡ is_kept byte }
{
    byte > 32 && byte < 127 && byte != b'\\'
}

/// Adds a byte of a path: all that is not printable ASCII as a backslash and three octal digits.
fn push_byte(text: &mut Vec<u8>, byte: u8) -> Result<(), AllocError>
    ensures { OnOk result (text.new.items ≡ text.old.items ++ kept_byte byte) }
{
    if is_kept(byte) {
        text.push(byte)?;
        Ok(())
    } else {
        text.extend_from_slice(&[
            b'\\',
            b'0' + byte / 64,
            b'0' + byte / 8 % 8,
            b'0' + byte % 8,
        ])
    }
}

/// Adds the bytes of a path.
fn push_kept(text: &mut Vec<u8>, bytes: &[u8]) -> Result<(), AllocError>
    ensures { OnOk result (text.new.items ≡ text.old.items ++ kept_bytes bytes.now) }
{
    for byte in bytes {
        push_byte(text, *byte)?;
    }
    Ok(())
}

/// Adds the path of the change at a place, to the end of the line.
fn push_path(text: &mut Vec<u8>, plan: &PinPlan, place: usize) -> Result<(), AllocError>
    ensures { OnOk result (text.new.items ≡ text.old.items ++ path_text plan.now place) }
{
    if let Some(change) = plan.changes().get(place) {
        push_kept(text, change.path.as_slice())?;
    }
    text.push(b'\n')?;
    Ok(())
}

/// Adds a word that others follow.
fn push_word(text: &mut Vec<u8>, word: &[u8]) -> Result<(), AllocError>
    ensures { OnOk result (text.new.items ≡ text.old.items ++ field_text word.now) }
{
    text.extend_from_slice(word)?;
    text.push(b' ')?;
    Ok(())
}

/// Adds the last word of a line.
fn push_last_word(text: &mut Vec<u8>, word: &[u8]) -> Result<(), AllocError>
    ensures { OnOk result (text.new.items ≡ text.old.items ++ last_text word.now) }
{
    text.extend_from_slice(word)?;
    text.push(b'\n')?;
    Ok(())
}

/// Adds the question to wait so many seconds.
fn push_wait(alloc: Global, text: &mut Vec<u8>, seconds: u64) -> Result<(), AllocError>
    ensures { OnOk result (text.new.items
        ≡ text.old.items ++ (field_text (codes "wait") ++ last_text (decimal seconds))) }
{
    let digits = format!(in alloc; "{seconds}")?;
    push_word(text, b"wait")?;
    push_last_word(text, digits.as_bytes())
}

/// Adds a pin.
fn push_pin(alloc: Global, text: &mut Vec<u8>, pin: Option<Rank>) -> Result<(), AllocError>
    ensures { OnOk result (text.new.items ≡ text.old.items ++ field_text (pin_word pin)) }
{
    match pin {
        None => push_word(text, b"-1"),
        Some(rank) => {
            let number = rank.number();
            let digits = format!(in alloc; "{number}")?;
            push_word(text, digits.as_bytes())
        }
    }
}

/// Adds the text to store, with its first line and its last.
fn push_stored(
    alloc: Global,
    text: &mut Vec<u8>,
    plan: &PinPlan,
    mark: Mark,
) -> Result<(), AllocError>
    ensures { OnOk result (text.new.items ≡ text.old.items ++ question_text plan.now (Question.Store mark)) }
{
    let stored = stored_text(alloc, plan, mark)?;
    push_last_word(text, b"store")?;
    text.extend_from_slice(stored.as_slice())?;
    push_last_word(text, b".")
}

/// The word for why a driver stops.
fn trouble_word(trouble: Trouble) -> &'static [u8]
    ensures { result.now ≡ trouble_word trouble }
{
    match trouble {
        Trouble::NoAnswer => b"no-answer",
        Trouble::Refused => b"refused",
        Trouble::Nonsense => b"nonsense",
        Trouble::RanksChanged => b"ranks-changed",
        Trouble::NewWarning => b"new-warning",
        Trouble::OtherDirectory => b"other-directory",
        Trouble::PinChanged => b"pin-changed",
        Trouble::TooSlow => b"too-slow",
    }
}

/// Adds how a driver ended.
fn push_ending(text: &mut Vec<u8>, ending: Ending) -> Result<(), AllocError>
    ensures { OnOk result (text.new.items ≡ text.old.items ++ (field_text (codes "end") ++ ending_text ending)) }
{
    push_word(text, b"end")?;
    match ending {
        Ending::Done => push_last_word(text, b"done"),
        Ending::Stopped(trouble) => {
            push_word(text, b"stopped")?;
            push_last_word(text, trouble_word(trouble))
        }
    }
}

/// Adds the question to set a pin.
fn push_set(
    alloc: Global,
    text: &mut Vec<u8>,
    plan: &PinPlan,
    place: usize,
    pin: Option<Rank>,
) -> Result<(), AllocError>
    ensures { OnOk result (text.new.items ≡ text.old.items ++ question_text plan.now (Question.Set place pin)) }
{
    push_word(text, b"set")?;
    push_pin(alloc, text, pin)?;
    push_path(text, plan, place)
}

/// Adds the line of a question.
fn push_question(
    alloc: Global,
    text: &mut Vec<u8>,
    plan: &PinPlan,
    question: Question,
) -> Result<(), AllocError>
    ensures { OnOk result (text.new.items ≡ text.old.items ++ question_text plan.now question) }
{
    match question {
        Question::Wait(seconds) => push_wait(alloc, text, seconds),
        Question::Cluster => push_last_word(text, b"cluster"),
        Question::Store(mark) => push_stored(alloc, text, plan, mark),
        Question::Get(place) => {
            push_word(text, b"get")?;
            push_path(text, plan, place)
        }
        Question::Set(place, pin) => push_set(alloc, text, plan, place, pin),
        Question::Roots => push_last_word(text, b"roots"),
        Question::End(ending) => push_ending(text, ending),
    }
}

/// Adds the line that says what became of a change.
fn push_note(text: &mut Vec<u8>, plan: &PinPlan, note: Note) -> Result<(), AllocError>
    ensures { OnOk result (text.new.items ≡ text.old.items ++ note_text plan.now note) }
{
    let (word, place): (&[u8], usize) = match note {
        Note::Nothing => return Ok(()),
        Note::Set(place) => (b"set", place),
        Note::Gone(place) => (b"gone", place),
        Note::LeftAlone(place) => (b"left", place),
    };
    push_word(text, b"note")?;
    push_word(text, word)?;
    push_path(text, plan, place)
}

/// Writes a question, and flushes the writer. What is written where that fails is a beginning of it.
pub(crate) fn say_question<W: Write>(
    alloc: Global,
    plan: &PinPlan,
    question: &Question,
    writer: &mut W,
) -> Result<(), DriveError>
    ensures ok { OnOk result
        (Appends (W.contents writer.old) (W.contents writer.new) (question_text plan.now question.now)) }
    ensures err { OnErr result
        (AppendsFront (W.contents writer.old) (W.contents writer.new) (question_text plan.now question.now)) }
{
    let mut text = Vec::new(alloc);
    push_question(alloc, &mut text, plan, *question)?;
    write_whole(writer, text.as_slice())?;
    match writer.flush() {
        Ok(()) => Ok(()),
        Err(_) => Err(DriveError::Write),
    }
}

/// Writes what became of a change. What is written where that fails is a beginning of it.
pub(crate) fn say_note<W: Write>(
    alloc: Global,
    plan: &PinPlan,
    note: Note,
    writer: &mut W,
) -> Result<(), DriveError>
    ensures ok { OnOk result (Appends (W.contents writer.old) (W.contents writer.new) (note_text plan.now note)) }
    ensures err { OnErr result
        (AppendsFront (W.contents writer.old) (W.contents writer.new) (note_text plan.now note)) }
{
    let mut text = Vec::new(alloc);
    push_note(&mut text, plan, note)?;
    write_whole(writer, text.as_slice())?;
    Ok(())
}
