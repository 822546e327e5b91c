//! A session: the board that `ranks` makes, and the lines that come before it.
ghost use Rattle.std.specs.Prelude.{◌≡◌, ◌<◌, ◌≤◌, ◌⊎◌, ℕ, Bool, List, IfErr, IfOk, IfSome, IsErrOf};
ghost use Rattle.std.specs.Prelude.{Ok, OnErr, OnOk, Some, None, [], length, take, false, true};
ghost use Rattle.script_commands.specs.Commands.{Ranks, asked};
ghost use Rattle.script_commands.specs.Commands as words;
ghost use Rattle.script_commands.specs.View.{asked_view, view};
ghost use Rattle.script_session.specs.Does.{IsCaused, is_by_threads, meaning};
ghost use Rattle.script_session.specs.Done.{IsShowable, IsShowableAt, shown, shown_at};
ghost use Rattle.script_session.specs.Printed.{joined, only_lines};
ghost use Rattle.script_engine.specs.Answers.{fault_text};
ghost use Rattle.script_engine.specs.Known.{AppendsFront};
ghost use Rattle.std.specs.Io.KnownBytes.{Appends};
ghost use Rattle.script_session.specs.Fault.{words as fault_words};
ghost use Rattle.script_session.specs.Proofs.{IsProved};
ghost use Rattle.script_session.specs.Script.{IsKeptAt};
ghost use Rattle.std.specs.Option.{option_and_then};
ghost use Rattle.script_engine.specs.Telling.{Tells};
ghost use Rattle.script_session.specs.Session.{DoesAt, IsDone, IsTold, answers};
ghost use Rattle.script_session.specs.Session.{asked_cause, beginning, cause_at, published};

use crate::carry_out::{carry_out_by_threads, change, change_quietly, is_by_threads};
use crate::done::Done;
use crate::page::Page;
use crate::plan::parts_in_force;
use crate::print::{Unprinted, print_reply};
use crate::reply::CommandReply;
use crate::report::{write_fault, write_refused};
use authority_map::Publisher;
use board_certificates::{Unwritten, write_certificates};
use proof_names::Naming;
use script_board::{Fault, Parts, ScriptBoard};
use script_commands::{Asked, Command, RankCount, read_line};
use script_engine::{Interpreter, WriteFailed};
use std::alloc::{AllocError, Global};
use std::io::Write;
use std::marker::{Model, Send, Sync};
use std::mem;
use std::sync::Wait;
use std::thread::Threads;

/// What a script has made so far: nothing, or a board once `ranks` was accepted. `J` names the board.
/// The parts of a board are kept until there is one, so that a `ranks` that was refused can be tried again. A session
/// can't be dropped, only ended, as it has the writer of the board's map.
pub struct Session<'r, J: Naming, M: Publisher<J>, R: Threads> {
    rt: &'r R,
    limit: u32,
    parts: Option<Parts<J, M>>,
    board: Option<ScriptBoard<J, M>>,
    page: Page,
    /// Why the last line that wasn't accepted was not.
    fault: Option<Fault>,
}

impl<'r, J: Naming, M: Publisher<J>, R: Threads> Model for Session<'r, J, M, R> {
    ghost use Rattle.std.specs.Prelude.{◌≡◌, ◌≤◌, ◌||◌, is_some, true};
    ghost use Rattle.script_session.specs.Session.{SessionData};

    ghost Value = { SessionData };

    ghost view = { λ session. record { limit = session.limit; board = session.board } };

    ghost invariant = { λ session. (session.limit ≡ J.limit) × (1 ≤ session.limit) × (session.limit ≤ 65536)
        × ((is_some session.board || is_some session.parts) ≡ true) };
}

// Fills a place that is empty.
fn fill<T>(place: &mut Option<T>, value: T)
    requires { place.old ≡ None }
    ensures { place.new ≡ Some value }
{
    match mem::replace(place, Some(value)) {
        None => {}
        Some(_) => unreachable!(),
    }
}

impl<'r, J: Naming, M: Publisher<J>, R: Threads> Session<'r, J, M, R> {
    ghost use Rattle.script_engine.specs.Answers.{Answer};

    /// The session at the beginning of a script. Its tree is to give at most `limit` numbers.
    pub fn new(rt: &'r R, alloc: Global, limit: u32, parts: Parts<J, M>) -> Session<'r, J, M, R>
        requires limit { limit ≡ J.limit }
        requires some { 1 ≤ limit }
        requires few { limit ≤ 65536 }
        ensures { result ≡ beginning limit }
    {
        Session {
            rt,
            limit,
            parts: Some(parts),
            board: None,
            page: Page::new(alloc),
            fault: None,
        }
    }

    /// Why the last line that wasn't accepted was not, for a hint.
    pub fn fault(&self) -> Option<Fault> {
        self.fault
    }

    /// Ends the map, if there is one.
    pub fn end(self) {
        let Session {
            rt: _rt,
            limit: _limit,
            parts,
            board,
            page: _page,
            fault: _fault,
        } = self;
        if let Some(parts) = parts {
            parts.end();
        }
        if let Some(board) = board {
            board.end();
        }
    }

    /// What holds of every board holds of this one: its state is the replay of its history, each adopted plan is best
    /// for the problem of its opening, and each directory has exactly one authority. It does nothing.
    pub fn promises(&self)
        ensures { IsKeptAt self.now.board }
    {
        if let Some(board) = &self.board {
            board.board().promises();
        }
    }

    /// Writes the certificates of the plans that the board has adopted, where there is a writer for them.
    pub fn prove<P: Write>(&self, alloc: Global, proofs: &mut Option<P>) -> Result<(), Unwritten>
        ensures proved { IsProved result
            (option_and_then P.contents proofs.old) (option_and_then P.contents proofs.new) self.now.board }
        ensures unasked { proofs.old ≡ None → result ≡ Ok tt }
    {
        let Some(board) = &self.board else {
            return Ok(());
        };
        let Some(writer) = proofs else {
            return Ok(());
        };
        write_certificates(alloc, board.board(), writer)
    }

    // Makes the board. Where memory is refused, its parts are kept.
    fn begin(&mut self, alloc: Global, active: RankCount) -> Result<Done, Fault>
        requires { self.old.board ≡ None }
        ensures done { IfOk result (λ done. IsDone self.old (words.Asks (Ranks active.number))
            (shown_at self.new.board done) true self.new) }
        ensures showable { IfOk result (IsShowableAt self.new.board) }
        ensures fault { IfErr result (λ fault. fault ≡ Fault.Memory) }
        ensures unchanged { OnErr result (self.new ≡ self.old) }
    {
        let Some(parts) = self.parts.take() else {
            unreachable!()
        };
        match ScriptBoard::new(alloc, parts, self.limit, active.number) {
            Ok(board) => {
                fill(&mut self.board, board);
                Ok(Done::Lines(CommandReply::Nothing))
            }
            Err(parts) => {
                fill(&mut self.parts, parts);
                Err(Fault::Memory)
            }
        }
    }

    // Publishes the map, if there is a board and memory suffices.
    fn publish(&mut self)
        ensures { (self.new ≡ published self.old) ⊎ (self.new ≡ self.old) }
    {
        if let Some(board) = &mut self.board {
            let _is_published = board.publish();
        }
    }

    // Writes the lines of what was done.
    fn print<W: Write>(
        &mut self,
        alloc: Global,
        done: &Done,
        writer: &mut W,
    ) -> Result<(), Unprinted>
        requires { IsShowableAt self.old.board done.now }
        ensures done { OnOk result (Appends (W.contents writer.old) (W.contents writer.new)
            (joined (shown_at self.old.board done.now).lines)) }
        ensures memory { IsErrOf result Unprinted.Memory
            → (count : ℕ) × (count < length (shown_at self.old.board done.now).lines)
            × Appends (W.contents writer.old) (W.contents writer.new)
            (joined (take count (shown_at self.old.board done.now).lines)) }
        ensures write { IsErrOf result Unprinted.Write
            → AppendsFront (W.contents writer.old) (W.contents writer.new)
            (joined (shown_at self.old.board done.now).lines) }
        ensures same { self.new ≡ self.old }
    {
        match &mut self.board {
            Some(board) => print(board, alloc, done, &mut self.page, writer),
            None => Ok(()),
        }
    }

    // Keeps why a line isn't accepted, for a hint.
    fn note(&mut self, fault: Option<&Fault>)
        ensures { self.new ≡ self.old }
    {
        self.fault = fault.copied();
    }

    // Writes why a line is refused, which isn't accepted then.
    fn refuse<W: Write>(
        &mut self,
        writer: &mut W,
        number: u64,
        fault: &Fault,
    ) -> Result<bool, WriteFailed>
        ensures ok { IfOk result (λ accepted. (accepted ≡ false)
            × Appends (W.contents writer.old) (W.contents writer.new) (fault_text number (fault_words fault.now))) }
        ensures err { OnErr result (AppendsFront (W.contents writer.old) (W.contents writer.new)
            (fault_text number (fault_words fault.now))) }
        ensures same { self.new ≡ self.old }
    {
        self.note(Some(fault));
        write_fault(writer, number, *fault)?;
        Ok(false)
    }

    // Writes what was done, and publishes the map if the line is accepted. It says whether it is.
    fn settle<W: Write>(
        &mut self,
        alloc: Global,
        number: u64,
        done: &Done,
        writer: &mut W,
    ) -> Result<bool, WriteFailed>
        requires { IsShowableAt self.old.board done.now }
        ensures ok { IfOk result (λ accepted. (ample : Bool)
            → (a : Answer) × IsTold number (shown_at self.old.board done.now) ample self.old a self.new
            × (accepted ≡ a.accepted) × Appends (W.contents writer.old) (W.contents writer.new) a.text) }
        ensures err { OnErr result ((ample : Bool)
            → (a : Answer) × IsTold number (shown_at self.old.board done.now) ample self.old a self.new
            × AppendsFront (W.contents writer.old) (W.contents writer.new) a.text) }
    {
        match self.print(alloc, done, writer) {
            Ok(()) => {}
            Err(Unprinted::Memory) => {
                self.note(Some(&Fault::Memory));
                write_fault(writer, number, Fault::Memory)?;
                return Ok(false);
            }
            Err(Unprinted::Write) => return Err(WriteFailed),
        }
        let refused = done.refused();
        write_refused(writer, number, refused)?;
        if !refused.is_empty() {
            self.note(refused.first());
            return Ok(false);
        }
        self.publish();
        Ok(true)
    }
}

impl<'r, J: Naming + Send + Sync, M: Publisher<J> + Send, R: Threads + Wait + Sync> Session<
    'r,
    J,
    M,
    R,
> {
    // Carries out a command. Before `ranks` was accepted no other is.
    fn carry_out(&mut self, alloc: Global, command: Command<'_>) -> Result<Done, Fault>
        ensures done { IfOk result (λ done. (ample : Bool)
            × IsDone self.old (words.Asks (view command.entry)) (shown_at self.new.board done) ample self.new) }
        ensures showable { IfOk result (IsShowableAt self.new.board) }
        ensures fault { IfErr result (IsCaused (cause_at self.old.limit self.old.board (view command.entry))) }
        ensures unchanged { OnErr result (self.new ≡ self.old) }
    {
        if is_by_threads(&command) {
            return self.carry_out_by_threads(alloc, command);
        }
        match &mut self.board {
            Some(board) => change(board, self.rt, alloc, command),
            None => match command {
                Command::Ranks(active) => self.begin(alloc, active),
                _ => Err(Fault::NoRanks),
            },
        }
    }

    // Carries out a command for which the threads of the ranks take the board.
    fn carry_out_by_threads(&mut self, alloc: Global, command: Command<'_>) -> Result<Done, Fault>
        requires { is_by_threads (meaning (view command)) ≡ true }
        ensures done { IfOk result (λ done. (ample : Bool)
            × IsDone self.old (words.Asks (view command.entry)) (shown_at self.new.board done) ample self.new) }
        ensures showable { IfOk result (IsShowableAt self.new.board) }
        ensures fault { IfErr result (IsCaused (cause_at self.old.limit self.old.board (view command.entry))) }
        ensures unchanged { OnErr result (self.new ≡ self.old) }
    {
        let Some(board) = self.board.take() else {
            return Err(Fault::NoRanks);
        };
        let (board, done) = carry_out_by_threads(board, self.rt, alloc, command);
        fill(&mut self.board, board);
        done
    }

    // Carries out what a line asks for, and answers what it prints.
    fn carry_asked(&mut self, alloc: Global, what: Asked<'_>) -> Result<Done, Fault>
        ensures done { IfOk result (λ done. (ample : Bool)
            × IsDone self.old (asked_view what.entry) (shown_at self.new.board done) ample self.new) }
        ensures showable { IfOk result (IsShowableAt self.new.board) }
        ensures fault { IfErr result (IsCaused (asked_cause self.old (asked_view what.entry))) }
        ensures unchanged { OnErr result (self.new ≡ self.old) }
    {
        match what {
            Asked::Nothing => Ok(Done::Lines(CommandReply::Nothing)),
            Asked::Syntax => Err(Fault::Syntax),
            Asked::Asks(command) => self.carry_out(alloc, command),
        }
    }

    // Carries out what a line asks for where that is a directory to make or a request that is to wait, and there is a
    // board. Most lines are such, and print nothing: no room is made for a reply. It does nothing for other lines.
    fn change_quietly(&mut self, alloc: Global, what: &Asked<'_>) -> Option<Result<(), Fault>>
        ensures done { IfSome result (λ changed. OnOk changed
            (IsDone self.old (asked_view what.now) (only_lines []) true self.new)) }
        ensures fault { IfSome result (λ changed. IfErr changed
            (IsCaused (asked_cause self.old (asked_view what.now)))) }
        ensures unchanged { IfSome result (λ changed. OnErr changed (self.new ≡ self.old)) }
        ensures left { result ≡ None → self.new ≡ self.old }
    {
        let Asked::Asks(command) = what else {
            return None;
        };
        let Some(board) = &mut self.board else {
            return None;
        };
        change_quietly(board, alloc, command)
    }

    // Carries out what any line asks for, and writes what that prints.
    #[inline(never)]
    fn answer_fully<W: Write>(
        &mut self,
        alloc: Global,
        number: u64,
        what: Asked<'_>,
        writer: &mut W,
    ) -> Result<bool, WriteFailed>
        ensures { (line : List ℕ) → asked line ≡ asked_view what.entry
            → Tells answers W.contents self.old number line writer.old result self.new writer.new }
    {
        match self.carry_asked(alloc, what) {
            Ok(done) => self.settle(alloc, number, &done, writer),
            Err(fault) => self.refuse(writer, number, &fault),
        }
    }

    /// Answers a line: carries out what it asks for, writes what that prints, and publishes the map if the line is
    /// accepted. It says whether it is. Where the fields of a line that asks for a cost or an export find no room, it
    /// is refused whatever they say.
    pub fn answer<W: Write>(
        &mut self,
        alloc: Global,
        number: u64,
        line: &[u8],
        writer: &mut W,
    ) -> Result<bool, WriteFailed>
        ensures { Tells answers W.contents self.old number line.now writer.old result self.new writer.new }
    {
        let what = match read_line(alloc, line) {
            Ok(what) => what,
            Err(error) => return self.refuse(writer, number, &Fault::from(error)),
        };
        match self.change_quietly(alloc, &what) {
            Some(Ok(())) => {
                self.publish();
                Ok(true)
            }
            Some(Err(fault)) => self.refuse(writer, number, &fault),
            None => self.answer_fully(alloc, number, what, writer),
        }
    }
}

// Writes the lines of what was done to a board.
fn print<J: Naming, M: Publisher<J>, W: Write>(
    board: &mut ScriptBoard<J, M>,
    alloc: Global,
    done: &Done,
    page: &mut Page,
    writer: &mut W,
) -> Result<(), Unprinted>
    requires { IsShowable board.old done.now }
    ensures done { OnOk result (Appends (W.contents writer.old) (W.contents writer.new)
        (joined (shown board.old done.now).lines)) }
    ensures memory { IsErrOf result Unprinted.Memory
        → (count : ℕ) × (count < length (shown board.old done.now).lines)
        × Appends (W.contents writer.old) (W.contents writer.new)
        (joined (take count (shown board.old done.now).lines)) }
    ensures write { IsErrOf result Unprinted.Write
        → AppendsFront (W.contents writer.old) (W.contents writer.new) (joined (shown board.old done.now).lines) }
    ensures same { board.new ≡ board.old }
{
    match done {
        Done::Served(_) => Ok(()),
        Done::Planned => match parts_in_force(alloc, board) {
            Ok(parts) => print_reply(board, alloc, &CommandReply::Plan(parts), page, writer),
            Err(_) => Err(Unprinted::Memory),
        },
        Done::Lines(reply) => print_reply(board, alloc, reply, page, writer),
        Done::Carried(_, reply) => print_reply(board, alloc, reply, page, writer),
    }
}

impl<'r, J: Naming, M: Publisher<J>, R: Threads> Interpreter for Session<'r, J, M, R> {
    ghost use Rattle.script_session.specs.Session.{answers};

    ghost answers = { answers };
}
