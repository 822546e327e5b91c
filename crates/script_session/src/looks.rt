//! The lines of `export` and `journal`. Each is made in a text, in place of what it held.
ghost use Rattle.std.specs.Prelude.{◌≡◌, OnOk, string_bytes};
ghost use Rattle.script_session.specs.Looks.{delivery_word, dir_entry_line, entry_line, export_entry_line, fact_line};
ghost use Rattle.script_session.specs.Looks.{importer_word, message_line, message_word, moves_line, ranks_line};
ghost use Rattle.script_session.specs.Looks.{state_line};

use crate::moved::dir_path;
use authority_map::Publisher;
use export_protocol::{ImporterState, JournalEntry, Message};
use mds_types::{Dir, Rank};
use proof_names::Naming;
use script_board::{ExportFact, ScriptBoard};
use std::alloc::{AllocError, Global};

fn importer_word(state: ImporterState) -> &'static str
    ensures { result.now ≡ importer_word state }
{
    match state {
        ImporterState::Unknown => "unknown",
        ImporterState::Discovered => "discovered",
        ImporterState::Prepared => "prepared",
        ImporterState::Started => "started",
        ImporterState::Imported => "imported",
        ImporterState::Dropped => "dropped",
    }
}

fn message_word(message: Message) -> &'static str
    ensures { result.now ≡ message_word message }
{
    match message {
        Message::Discover(_) => "Discover",
        Message::DiscoverAck(_) => "DiscoverAck",
        Message::Prep(_) => "Prep",
        Message::PrepAck(_) => "PrepAck",
        Message::Export(_) => "Export",
        Message::ExportAck(_) => "ExportAck",
        Message::Finish(_) => "Finish",
        Message::Cancel(_) => "Cancel",
        Message::Query(_) => "Query",
    }
}

fn delivery_word(is_delivered: bool) -> &'static str
    ensures { result.now ≡ delivery_word is_delivered }
{
    if is_delivered { "delivered" } else { "sent" }
}

/// Makes the line on a fact of an export.
pub(crate) fn fact_line<J: Naming, M: Publisher<J>>(
    alloc: Global,
    board: &ScriptBoard<J, M>,
    fact: ExportFact,
    field: &mut String,
    line: &mut String,
) -> Result<(), AllocError>
    ensures { OnOk result (string_bytes line.new ≡ fact_line board.now fact) }
{
    match fact {
        ExportFact::Way(export, from, to) => ranks_line(export, from, to, line),
        ExportFact::Exporter(state) => state_line("exporter", state.stage().text(), line),
        ExportFact::Importer(state) => state_line("importer", importer_word(state), line),
        ExportFact::Moves(dir) => moves_line(alloc, board, dir, field, line),
        ExportFact::Sent(message, kind, is_delivered) => message_line(
            message,
            message_word(kind),
            delivery_word(is_delivered),
            line,
        ),
    }
}

fn ranks_line(export: u32, from: Rank, to: Rank, line: &mut String) -> Result<(), AllocError>
    ensures { OnOk result (string_bytes line.new ≡ ranks_line export from to) }
{
    let from = from.number();
    let to = to.number();
    line.clear();
    write!(line, "export {export} from {from} to {to}\n")
}

fn state_line(side: &str, word: &str, line: &mut String) -> Result<(), AllocError>
    ensures { OnOk result (string_bytes line.new ≡ state_line side.now word.now) }
{
    line.clear();
    write!(line, "{side} {word}\n")
}

fn moves_line<J: Naming, M: Publisher<J>>(
    alloc: Global,
    board: &ScriptBoard<J, M>,
    dir: Dir,
    field: &mut String,
    line: &mut String,
) -> Result<(), AllocError>
    ensures { OnOk result (string_bytes line.new ≡ moves_line board.now dir) }
{
    dir_path(alloc, board, dir, field)?;
    let path = field.as_str();
    let number = dir.number();
    line.clear();
    write!(line, "dir {number} {path}\n")
}

fn message_line(message: u32, kind: &str, told: &str, line: &mut String) -> Result<(), AllocError>
    ensures { OnOk result (string_bytes line.new ≡ message_line message kind.now told.now) }
{
    line.clear();
    write!(line, "message {message} {kind} {told}\n")
}

/// Makes the line on an entry of a rank's journal.
pub(crate) fn entry_line<J: Naming, M: Publisher<J>>(
    alloc: Global,
    board: &ScriptBoard<J, M>,
    rank: Rank,
    entry: JournalEntry,
    field: &mut String,
    line: &mut String,
) -> Result<(), AllocError>
    ensures { OnOk result (string_bytes line.new ≡ entry_line board.now rank entry) }
{
    match entry {
        JournalEntry::Made(dir) => dir_entry_line(alloc, board, rank, "Made", dir, field, line),
        JournalEntry::Gone(dir) => dir_entry_line(alloc, board, rank, "Gone", dir, field, line),
        JournalEntry::Started(export) => export_entry_line(rank, "Started", export, line),
        JournalEntry::Exported(export) => export_entry_line(rank, "Exported", export, line),
        JournalEntry::Notified(export) => export_entry_line(rank, "Notified", export, line),
        JournalEntry::Imported(export) => export_entry_line(rank, "Imported", export, line),
        JournalEntry::Dropped(export) => export_entry_line(rank, "Dropped", export, line),
    }
}

fn dir_entry_line<J: Naming, M: Publisher<J>>(
    alloc: Global,
    board: &ScriptBoard<J, M>,
    rank: Rank,
    word: &str,
    dir: Dir,
    field: &mut String,
    line: &mut String,
) -> Result<(), AllocError>
    ensures { OnOk result (string_bytes line.new ≡ dir_entry_line board.now rank word.now dir) }
{
    dir_path(alloc, board, dir, field)?;
    let path = field.as_str();
    let rank = rank.number();
    let number = dir.number();
    line.clear();
    write!(line, "journal {rank} {word} {number} {path}\n")
}

fn export_entry_line(
    rank: Rank,
    word: &str,
    export: u32,
    line: &mut String,
) -> Result<(), AllocError>
    ensures { OnOk result (string_bytes line.new ≡ export_entry_line rank word.now export) }
{
    let rank = rank.number();
    line.clear();
    write!(line, "journal {rank} {word} {export}\n")
}
