//! Reports why a line isn't accepted. Nothing that is proved of a session rests on it.
ghost use Rattle.script_engine.specs.Telling.{Tells};
ghost use Rattle.script_session.specs.Session.{answers};

use crate::session::Session;
use authority_map::Publisher;
use mds_types::Refusal;
use proof_names::Naming;
use script_board::Fault;
use script_commands::{Hint, explain, form_of_line};
use script_engine::{Interpreter, WriteFailed};
use std::alloc::Global;
use std::io::Write;
use std::marker::{Model, Send, Sync};
use std::sync::Wait;
use std::thread::Threads;

/// Receives each line that isn't accepted, once it is answered; those that are out of memory say all themselves.
pub trait Hints {
    fn faulty_line(&mut self, number: u64, hint: &Hint<'_>);
}

/// Receives each such line, and does nothing.
#[derive(Clone, Copy, Debug)]
pub struct Silence;

impl Hints for Silence {
    fn faulty_line(&mut self, _number: u64, _hint: &Hint<'_>) {}
}

/// A session, and what receives its lines that aren't accepted.
pub(crate) struct Hinted<'h, S, H> {
    pub(crate) session: S,
    pub(crate) hints: &'h mut H,
}

impl<'h, S, H> Model for Hinted<'h, S, H> {
    ghost Value = { S };

    ghost view = { λ hinted. hinted.session };
}

impl<'h, S: Interpreter, H> Interpreter for Hinted<'h, S, H> {
    ghost answers = { S.answers };
}

impl<
    'h,
    'r,
    J: Naming + Send + Sync,
    M: Publisher<J> + Send,
    R: Threads + Wait + Sync,
    H: Hints,
> Hinted<'h, Session<'r, J, M, R>, H> {
    /// Answers a line. Where it isn't accepted, `hints` receives it.
    pub(crate) fn answer<W: Write>(
        &mut self,
        alloc: Global,
        number: u64,
        line: &[u8],
        writer: &mut W,
    ) -> Result<bool, WriteFailed>
        ensures { Tells answers W.contents self.old number line.now writer.old result self.new writer.new }
    {
        let answered = self.session.answer(alloc, number, line, writer);
        if is_unaccepted(&answered) {
            tell(alloc, self.hints, number, line, self.session.fault());
        }
        answered
    }
}

fn is_unaccepted(answered: &Result<bool, WriteFailed>) -> bool {
    match answered {
        Ok(accepted) => !*accepted,
        Err(_) => false,
    }
}

fn tell<H: Hints>(alloc: Global, hints: &mut H, number: u64, line: &[u8], fault: Option<Fault>) {
    let Some(fault) = fault else {
        return;
    };
    if let Some(hint) = hint_of(alloc, line, fault) {
        hints.faulty_line(number, &hint);
    }
}

// What is said of a line that isn't accepted because of this.
fn hint_of(alloc: Global, line: &[u8], fault: Fault) -> Option<Hint<'_>> {
    let form = form_of_line(line);
    match fault {
        Fault::Memory => None,
        Fault::Syntax => spelling_hint(alloc, line),
        Fault::NoRanks => Some(Hint::NoRanks(form?)),
        Fault::RanksAgain => Some(Hint::RanksAgain(form?)),
        Fault::Mask => Some(Hint::Refused(form?, Refusal::BadMask)),
        Fault::Refused(error) => Some(Hint::Refused(form?, Refusal::from(error))),
        Fault::ShareFull => Some(Hint::Refused(form?, Refusal::ShareFull)),
        Fault::NoThread => Some(Hint::Refused(form?, Refusal::NoThread)),
        Fault::Pinned => Some(Hint::Refused(form?, Refusal::Pinned)),
    }
}

fn spelling_hint(alloc: Global, line: &[u8]) -> Option<Hint<'_>> {
    match explain(alloc, line) {
        Ok(Some(fault)) => Some(Hint::Spelling(fault)),
        _ => None,
    }
}
