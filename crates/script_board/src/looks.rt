//! The commands `export` and `journal`: what exports have left.
ghost use Rattle.std.specs.Prelude.{◌≡◌, ◌<◌, ◌++◌, ◌||◌, ℕ, All, IfErr, IfOk, OnOk, Ok, false, length, map};
ghost use Rattle.std.specs.Prelude.{nat_lt, slice_index_or};
ghost use Rattle.export_protocol.specs.Authority.{order_in};
ghost use Rattle.mds_board.specs.Stored.{shown_entry};
ghost use Rattle.script_board.specs.Fault.{IsDue};
ghost use Rattle.script_board.specs.Looks.{export_facts, facts_of, is_that, journal_entries};
ghost use Rattle.script_board.specs.Looks.{message_come, message_fact, messages_of, sent_message, was_delivered};

use crate::export_fact::ExportFact;
use crate::fault::Fault;
use crate::script_board::ScriptBoard;
use authority_map::Publisher;
use export_protocol::{Event, JournalEntry, Message, StepError};
use mds_board::{Board, BoardError, Change, Shown};
use mds_types::{Dir, Order, Rank};
use proof_names::Naming;
use std::alloc::{AllocError, Global};

// The message that comes to its rank by an entry of the history, if one does.
fn message_come(entry: &Shown<'_>) -> Option<u32>
    ensures { result ≡ message_come (shown_entry entry.now).change }
{
    match entry {
        Shown::Other(entry) => match &entry.change {
            Change::Step(event) => match event.event() {
                Event::Deliver(message) => Some(*message),
                _ => None,
            },
            _ => None,
        },
        _ => None,
    }
}

// Marks the message, if there is one and it has a mark.
fn mark(marks: &mut Vec<bool>, message: Option<u32>)
    ensures size { length marks.new.items ≡ length marks.old.items }
    ensures marked { (m : ℕ) → m < length marks.old.items
        → slice_index_or marks.new.items m false ≡ (slice_index_or marks.old.items m false || is_that m message) }
{
    if let Some(message) = message {
        let place = message as usize;
        if place < marks.len() {
            marks[place] = true;
        }
    }
}

// For each message, whether it was delivered.
fn delivered<J: Naming, M: Publisher<J>>(
    alloc: Global,
    board: &Board<J, M>,
) -> Result<Vec<bool>, AllocError>
    ensures size { IfOk result (λ marks. length marks.items ≡ length board.now.state.cluster.sent) }
    ensures marks { IfOk result (λ marks. (m : ℕ) → m < length board.now.state.cluster.sent
        → slice_index_or marks.items m false ≡ was_delivered board.now m) }
{
    let mut marks = vec![in alloc; false; board.cluster().sent() as usize]?;
    let history = board.history();
    for number in 0..history.len() {
        mark(&mut marks, message_come(&history.at(number)));
    }
    Ok(marks)
}

// The message of a number.
fn sent_message<J: Naming, M: Publisher<J>>(board: &Board<J, M>, message: u32) -> Message
    ensures { result ≡ sent_message board.now message }
{
    match board.cluster().message(message) {
        Some(message) => message,
        None => Message::Discover(0),
    }
}

// The numbers of the messages about an export, rising.
fn messages_of<J: Naming, M: Publisher<J>>(
    alloc: Global,
    board: &Board<J, M>,
    export: u32,
) -> Result<Vec<u32>, AllocError>
    ensures messages { IfOk result (λ found. found.items ≡ messages_of board.now export) }
    ensures sent { IfOk result (λ found. All (λ m. m < length board.now.state.cluster.sent) found.items) }
{
    let mut found = Vec::new(alloc);
    for message in 0..board.cluster().sent() {
        if sent_message(board, message).export() == export {
            found.push(message)?;
        }
    }
    Ok(found)
}

// Adds what there is to say of some messages.
fn add_messages<J: Naming, M: Publisher<J>>(
    board: &Board<J, M>,
    messages: &[u32],
    delivered: &[bool],
    facts: &mut Vec<ExportFact>,
) -> Result<(), AllocError>
    requires sent { All (λ m. m < length board.now.state.cluster.sent) messages.now }
    requires size { length delivered.now ≡ length board.now.state.cluster.sent }
    requires marks { (m : ℕ) → m < length board.now.state.cluster.sent
        → slice_index_or delivered.now m false ≡ was_delivered board.now m }
    ensures { OnOk result (facts.new.items ≡ facts.old.items ++ map (message_fact board.now) messages.now) }
{
    for message in messages {
        let kind = sent_message(board, *message);
        let is_delivered = delivered[*message as usize];
        facts.push(ExportFact::Sent(*message, kind, is_delivered))?;
    }
    Ok(())
}

// Adds that an export moves these directories.
fn add_dirs(dirs: &[Dir], facts: &mut Vec<ExportFact>) -> Result<(), AllocError>
    ensures { OnOk result (facts.new.items ≡ facts.old.items ++ map ExportFact.Moves dirs.now) }
{
    for dir in dirs {
        facts.push(ExportFact::Moves(*dir))?;
    }
    Ok(())
}

// What there is to say of an export, which moves what this order says.
fn facts_of<J: Naming, M: Publisher<J>>(
    alloc: Global,
    board: &Board<J, M>,
    export: u32,
    order: &Order,
) -> Result<Vec<ExportFact>, AllocError>
    requires there { export < length board.now.state.cluster.orders }
    requires order { order.now ≡ order_in board.now.state.cluster.orders export }
    ensures { IfOk result (λ facts. facts.items ≡ facts_of board.now export) }
{
    let Some((exporter, importer)) = board.cluster().states(export) else {
        unreachable!()
    };
    let messages = messages_of(alloc, board, export)?;
    let marks = delivered(alloc, board)?;
    let mut facts = Vec::new(alloc);
    facts.push(ExportFact::Way(export, order.from, order.to))?;
    facts.push(ExportFact::Exporter(exporter))?;
    facts.push(ExportFact::Importer(importer))?;
    add_dirs(order.dirs.as_slice(), &mut facts)?;
    add_messages(board, &messages, &marks, &mut facts)?;
    Ok(facts)
}

/// Whether a rank is active.
pub(crate) fn has_rank<J: Naming, M: Publisher<J>>(board: &Board<J, M>, rank: Rank) -> bool
    ensures { result ≡ nat_lt rank board.now.state.cluster.ranks }
{
    board.promises();
    rank.number() < board.pins().active()
}

impl<J: Naming, M: Publisher<J>> ScriptBoard<J, M> {
    /// An export that was started: its two ranks, its state at each, its directories and its messages.
    pub fn export_facts(&self, alloc: Global, export: u32) -> Result<Vec<ExportFact>, Fault>
        ensures done { IfOk result (λ facts. export_facts self.now export ≡ Ok facts.items) }
        ensures fault { IfErr result (IsDue (export_facts self.now export)) }
    {
        let Some(order) = self.board.cluster().export(export) else {
            return Err(Fault::from(BoardError::Step(StepError::NoExport)));
        };
        let facts = facts_of(alloc, &self.board, export, order)?;
        Ok(facts)
    }

    /// The journal of an active rank, the oldest entry first.
    pub fn journal_entries(&self, alloc: Global, rank: Rank) -> Result<Vec<JournalEntry>, Fault>
        ensures done { IfOk result (λ entries. journal_entries self.now rank ≡ Ok entries.items) }
        ensures fault { IfErr result (IsDue (journal_entries self.now rank)) }
    {
        if !has_rank(&self.board, rank) {
            return Err(Fault::from(BoardError::Step(StepError::NoRank)));
        }
        let entries = self.board.cluster().journal(rank).to_vec(alloc)?;
        Ok(entries)
    }
}
