//! How far a run has come: the line that has begun, and what the next piece of the script does.
ghost use Rattle.std.specs.Prelude.{◌≡◌, ◌≢◌, MatchBool, Bool, ℕ, ◌+◌, ◌<◌, ◌≤◌, ◌^◌, ◌++◌, ◌∷◌, []};
ghost use Rattle.std.specs.Prelude.{List, OnOk, OnErr, IfOk, true, false, not, ◌&&◌, length};
ghost use Rattle.std.specs.Io.KnownBytes.{Appends};
ghost use Rattle.script_engine.specs.Known.{AppendsFront};
ghost use Rattle.script_engine.specs.Answers.{Answer, Takes};
ghost use Rattle.script_engine.specs.Lines.{IsLine};
ghost use Rattle.script_engine.specs.Telling.{AlwaysTells};
ghost use Rattle.script_engine.specs.Progress.{Holds, Stands, Broken, Ends, Cut};

use crate::interpreter::Interpreter;
use crate::writes::{WriteFailed, write_refusal};
use mds_types::Refusal;
use memchr::memchr;
use std::io::Write;

/// What a run keeps between two bytes: the line that has begun, its number, and whether all earlier ones were accepted.
#[derive(Drop)]
pub(crate) struct Progress {
    pub(crate) line: Vec<u8>,
    pub(crate) has_room: bool,
    pub(crate) number: u64,
    pub(crate) accepted: bool,
}

impl Progress {
    /// Puts bytes of the line into the buffer, where there is room.
    fn hold(&mut self, part: &[u8])
        ensures kept { self.new.has_room ≡ true
            → (self.old.has_room ≡ true) × (self.new.line.items ≡ self.old.line.items ++ part.now) }
        ensures holds { (rest : List ℕ) → Holds rest self.old.line.items self.old.has_room
            → Holds (rest ++ part.now) self.new.line.items self.new.has_room }
        ensures number { self.new.number ≡ self.old.number }
        ensures accepted { self.new.accepted ≡ self.old.accepted }
    {
        if !self.has_room {
            return;
        }
        if self.line.extend_from_slice(part).is_err() {
            self.has_room = false;
        }
    }

    /// Has the line in the buffer answered.
    fn answer_held<
        I: Interpreter,
        W: Write,
        F: Fn(&mut I, u64, &[u8], &mut W) -> Result<bool, WriteFailed>,
    >(&self, answer: &F, interpreter: &mut I, writer: &mut W) -> Result<bool, WriteFailed>
        requires may { F.IsAlwaysCallable answer.now }
        requires tells { AlwaysTells I.answers W.contents (F.post answer.now) }
        ensures ok { IfOk result (λ accepted. (line : List ℕ) → (self.now.has_room ≡ true → self.now.line.items ≡ line)
            → (a : Answer) × Takes I.answers interpreter.old self.now.number line a interpreter.new
            × (accepted ≡ a.accepted) × Appends (W.contents writer.old) (W.contents writer.new) a.text) }
        ensures err { OnErr result ((line : List ℕ) → (self.now.has_room ≡ true → self.now.line.items ≡ line)
            → (a : Answer) × Takes I.answers interpreter.old self.now.number line a interpreter.new
            × AppendsFront (W.contents writer.old) (W.contents writer.new) a.text) }
    {
        if self.has_room {
            answer(interpreter, self.number, &self.line, writer)
        } else {
            write_refusal(writer, self.number, Refusal::Memory)?;
            Ok(false)
        }
    }

    /// Has the line that ends with these bytes answered. One that has just begun is handed on as it is.
    fn answer_line<
        I: Interpreter,
        W: Write,
        F: Fn(&mut I, u64, &[u8], &mut W) -> Result<bool, WriteFailed>,
    >(
        &mut self,
        answer: &F,
        interpreter: &mut I,
        writer: &mut W,
        part: &[u8],
    ) -> Result<bool, WriteFailed>
        requires may { F.IsAlwaysCallable answer.now }
        requires tells { AlwaysTells I.answers W.contents (F.post answer.now) }
        ensures ok { IfOk result (λ accepted. (line : List ℕ)
            → (self.old.has_room ≡ true → self.old.line.items ++ part.now ≡ line)
            → (a : Answer) × Takes I.answers interpreter.old self.old.number line a interpreter.new
            × (accepted ≡ a.accepted) × Appends (W.contents writer.old) (W.contents writer.new) a.text) }
        ensures err { OnErr result ((line : List ℕ)
            → (self.old.has_room ≡ true → self.old.line.items ++ part.now ≡ line)
            → (a : Answer) × Takes I.answers interpreter.old self.old.number line a interpreter.new
            × AppendsFront (W.contents writer.old) (W.contents writer.new) a.text) }
        ensures number { self.new.number ≡ self.old.number }
        ensures accepted { self.new.accepted ≡ self.old.accepted }
    {
        if self.has_room && self.line.is_empty() {
            return answer(interpreter, self.number, part, writer);
        }
        self.hold(part);
        let accepted = self.answer_held(answer, interpreter, writer)?;
        Ok(accepted)
    }

    /// Ends the line with these bytes, and begins the next.
    fn end_line<
        I: Interpreter,
        W: Write,
        F: Fn(&mut I, u64, &[u8], &mut W) -> Result<bool, WriteFailed>,
    >(
        &mut self,
        answer: &F,
        interpreter: &mut I,
        writer: &mut W,
        part: &[u8],
    ) -> Result<(), WriteFailed>
        requires may { F.IsAlwaysCallable answer.now }
        requires tells { AlwaysTells I.answers W.contents (F.post answer.now) }
        requires number { self.old.number + 1 < 2 ^ 64 }
        ensures ok { OnOk result ((line : List ℕ) → (self.old.has_room ≡ true → self.old.line.items ++ part.now ≡ line)
            → (a : Answer) × Takes I.answers interpreter.old self.old.number line a interpreter.new
            × (self.new.accepted ≡ (self.old.accepted && a.accepted))
            × Appends (W.contents writer.old) (W.contents writer.new) a.text) }
        ensures begun { OnOk result ((self.new.line.items ≡ []) × (self.new.has_room ≡ true)
            × (self.new.number ≡ self.old.number + 1)) }
        ensures number { self.new.number ≤ self.old.number + 1 }
        ensures err { OnErr result ((line : List ℕ)
            → (self.old.has_room ≡ true → self.old.line.items ++ part.now ≡ line)
            → (a : Answer) × Takes I.answers interpreter.old self.old.number line a interpreter.new
            × AppendsFront (W.contents writer.old) (W.contents writer.new) a.text) }
    {
        let accepted = self.answer_line(answer, interpreter, writer, part)?;
        self.accepted = self.accepted && accepted;
        self.number += 1;
        self.line.clear();
        self.has_room = true;
        Ok(())
    }

    /// Takes a line's last bytes and the newline after them. After the end of a strict run that changes nothing.
    fn take_line<
        I: Interpreter,
        W: Write,
        F: Fn(&mut I, u64, &[u8], &mut W) -> Result<bool, WriteFailed>,
    >(
        &mut self,
        answer: &F,
        interpreter: &mut I,
        writer: &mut W,
        strict: bool,
        part: &[u8],
    ) -> Result<(), WriteFailed>
        requires may { F.IsAlwaysCallable answer.now }
        requires tells { AlwaysTells I.answers W.contents (F.post answer.now) }
        requires number { self.old.number + 1 < 2 ^ 64 }
        requires line { IsLine part.now }
        ensures ok { OnOk result ((start : I) (bytes text : List ℕ)
            → Stands I.answers strict start bytes text interpreter.old self.old
            → (more : List ℕ) × Stands I.answers strict start (bytes ++ (part.now ++ 10 ∷ [])) (text ++ more)
            interpreter.new self.new
            × Appends (W.contents writer.old) (W.contents writer.new) more) }
        ensures number { self.new.number ≤ self.old.number + 1 }
        ensures err { OnErr result ((start : I) (bytes text : List ℕ)
            → Stands I.answers strict start bytes text interpreter.old self.old
            → (tail : List ℕ) × Broken I.answers strict start (bytes ++ (part.now ++ 10 ∷ [])) text tail
            × AppendsFront (W.contents writer.old) (W.contents writer.new) tail) }
    {
        if strict && !self.accepted {
            return Ok(());
        }
        self.end_line(answer, interpreter, writer, part)?;
        Ok(())
    }

    /// Takes the next piece of the script.
    pub(crate) fn take_piece<
        I: Interpreter,
        W: Write,
        F: Fn(&mut I, u64, &[u8], &mut W) -> Result<bool, WriteFailed>,
    >(
        &mut self,
        answer: &F,
        interpreter: &mut I,
        writer: &mut W,
        strict: bool,
        piece: &[u8],
    ) -> Result<(), WriteFailed>
        requires may { F.IsAlwaysCallable answer.now }
        requires tells { AlwaysTells I.answers W.contents (F.post answer.now) }
        requires number { self.old.number + length piece.now < 2 ^ 64 }
        ensures ok { OnOk result ((start : I) (bytes text : List ℕ)
            → Stands I.answers strict start bytes text interpreter.old self.old
            → (more : List ℕ) × Stands I.answers strict start (bytes ++ piece.now) (text ++ more)
            interpreter.new self.new
            × Appends (W.contents writer.old) (W.contents writer.new) more) }
        ensures number { self.new.number ≤ self.old.number + length piece.now }
        ensures err { OnErr result ((start : I) (bytes text : List ℕ)
            → Stands I.answers strict start bytes text interpreter.old self.old
            → (tail : List ℕ) × Broken I.answers strict start (bytes ++ piece.now) text tail
            × AppendsFront (W.contents writer.old) (W.contents writer.new) tail) }
    {
        let mut rest = piece;
        while let Some(end) = memchr(b'\n', rest) {
            self.take_line(answer, interpreter, writer, strict, &rest[..end])?;
            rest = &rest[end + 1..];
        }
        self.hold(rest);
        Ok(())
    }

    /// Whether a line has begun, also one without room.
    fn has_begun(&self) -> bool
        ensures { (rest : List ℕ) → Holds rest self.now.line.items self.now.has_room
            → MatchBool result (rest ≢ []) (rest ≡ []) }
    {
        if self.has_room {
            !self.line.is_empty()
        } else {
            true
        }
    }

    /// At the end of the input, has a last line answered that no newline ends.
    pub(crate) fn finish<
        I: Interpreter,
        W: Write,
        F: Fn(&mut I, u64, &[u8], &mut W) -> Result<bool, WriteFailed>,
    >(&mut self, answer: &F, interpreter: &mut I, writer: &mut W) -> Result<bool, WriteFailed>
        requires may { F.IsAlwaysCallable answer.now }
        requires tells { AlwaysTells I.answers W.contents (F.post answer.now) }
        requires number { self.old.number + 1 < 2 ^ 64 }
        ensures ok { IfOk result (λ accepted. (strict : Bool) (start : I) (bytes text : List ℕ)
            → (strict && not self.old.accepted) ≡ false
            → Stands I.answers strict start bytes text interpreter.old self.old
            → (more : List ℕ) × Ends I.answers strict start bytes text more interpreter.new accepted
            × Appends (W.contents writer.old) (W.contents writer.new) more) }
        ensures err { OnErr result ((strict : Bool) (start : I) (bytes text : List ℕ)
            → (strict && not self.old.accepted) ≡ false
            → Stands I.answers strict start bytes text interpreter.old self.old
            → (tail : List ℕ) × Cut I.answers strict start bytes text tail
            × AppendsFront (W.contents writer.old) (W.contents writer.new) tail) }
    {
        if !self.has_begun() {
            return Ok(self.accepted);
        }
        self.end_line(answer, interpreter, writer, b"")?;
        Ok(self.accepted)
    }
}
