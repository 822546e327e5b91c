//! Requests that still run when the threads of a phase have joined end.
ghost use Rattle.std.specs.Prelude.{◌≡◌, ◌⊎◌, ◌↔◌, ◌++◌, ◌<◌, ℕ, IsOk, List, None, Some, length, slice_get, true};
ghost use Rattle.mds_board.specs.declared.change.Answer.TheVariants as answer;
ghost use Rattle.export_protocol.specs.Authority.{request_of};
ghost use Rattle.export_protocol.specs.declared.event.Reply.TheVariants as reply;
ghost use Rattle.mds_board.specs.declared.entry.Entry.{Entry};
ghost use Rattle.mds_board.specs.Stored.{shown_entry};
ghost use Rattle.phased_board.specs.Begun.{IsEndMet, IsEndTold};

use crate::phased::{Phase, Phased};
use authority_map::Publisher;
use export_protocol::Reply;
use mds_board::{Answer, BoardError, Shown};
use proof_names::Naming;
use std::alloc::Global;

/// The first refusal, if there is one.
pub fn first_refusal(
    first: Result<(), BoardError>,
    second: Result<(), BoardError>,
) -> Result<(), BoardError>
    ensures both { IsOk result ↔ (IsOk first × IsOk second) }
    ensures either { (result ≡ first) ⊎ (result ≡ second) }
{
    match first {
        Ok(()) => second,
        Err(error) => Err(error),
    }
}

// The ticket with which a request began, if an entry says that one began.
fn ticket_of(shown: Shown<'_>) -> Option<u32>
    ensures { (ticket : ℕ) → (shown_entry shown.entry).reply ≡ answer.Reply (reply.Ticket ticket)
        → result ≡ Some ticket }
{
    match shown {
        Shown::Began(_, _, ticket) => Some(ticket),
        Shown::Ended(_) => None,
        Shown::Other(entry) => match &entry.reply {
            Answer::Reply(Reply::Ticket(ticket)) => Some(*ticket),
            _ => None,
        },
    }
}

impl<J: Naming, M: Publisher<J>, K: Phase> Phased<J, M, K> {
    // Ends a request, unless it has ended.
    fn end_once(&mut self, alloc: Global, ticket: u32) -> Result<(), BoardError>
        requires { K.requests ≡ true }
        ensures ended { IsOk result → request_of self.new.state.cluster ticket ≡ None }
        ensures others { (t : ℕ) → request_of self.old.state.cluster t ≡ None
            → request_of self.new.state.cluster t ≡ None }
        ensures refused { IsEndMet K.before self.new.history result }
        ensures history { (more : List Entry) × (self.new.history ≡ self.old.history ++ more) }
    {
        if self.has_ended(ticket) {
            return Ok(());
        }
        match self.end(alloc, ticket) {
            Ok(_reply) => Ok(()),
            Err(error) => Err(error),
        }
    }

    /// Ends the requests that began in the phase and still run, and reports the first refusal. The history had `first`
    /// entries when the phase began.
    pub fn end_all(&mut self, alloc: Global, first: usize) -> Result<(), BoardError>
        requires requests { K.requests ≡ true }
        requires first { first ≡ length K.before.history }
        ensures { IsEndTold K.before self.new result }
    {
        self.promises();
        let mut ended = Ok(());
        for number in first..self.entries() {
            if let Some(ticket) = self.ticket_at(number) {
                ended = first_refusal(ended, self.end_once(alloc, ticket));
            }
        }
        ended
    }

    // How many entries the history has.
    fn entries(&self) -> usize
        ensures { result ≡ length self.now.history }
    {
        self.board().history().len()
    }

    // The ticket with which a request began, if the entry of this number says that one began.
    fn ticket_at(&self, number: usize) -> Option<u32>
        requires { number < length self.now.history }
        ensures { (ticket : ℕ) (entry : Entry) → slice_get self.now.history number ≡ Some entry
            → entry.reply ≡ answer.Reply (reply.Ticket ticket) → result ≡ Some ticket }
    {
        ticket_of(self.board().history().at(number))
    }
}
