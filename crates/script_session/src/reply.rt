//! What a command prints.
ghost use Rattle.std.specs.Prelude.{◌≡◌, length};
ghost use Rattle.script_board.specs.Board.{BoardData};
ghost use Rattle.script_session.specs.Reply.{IsPrintable, reply_lines};

use export_protocol::{JournalEntry, Reply};
use mds_types::{Dir, Order, Rank};
use phased_board::Outcome;
use script_board::ExportFact;
use tree_parts::{Part, PlanPart};

/// What a command prints, from which its lines are made one by one as they are written.
#[derive(Drop)]
pub enum CommandReply {
    /// No line.
    Nothing,
    /// The parts of a division.
    Cost(Vec<Part>),
    /// The plan in force, by its parts.
    Plan(Vec<PlanPart>),
    /// Orders, each with what became of it.
    Move(Vec<Order>, Vec<Outcome>),
    /// A report on these directories.
    Stat(Vec<Dir>),
    /// The reply to a step of exports or requests.
    Step(Reply),
    /// What there is to say of an export.
    Export(Vec<ExportFact>),
    /// The entries of a rank's journal.
    Journal(Rank, Vec<JournalEntry>),
}

impl CommandReply {
    /// How many lines a board prints for it.
    pub fn line_count(&self) -> usize
        ensures { (board : BoardData) → IsPrintable board self.now → result ≡ length (reply_lines board self.now) }
    {
        match self {
            CommandReply::Nothing => 0,
            CommandReply::Cost(parts) => parts.len() + 1,
            CommandReply::Plan(parts) => parts.len() + 1,
            CommandReply::Move(orders, _) => orders.len() + 1,
            CommandReply::Stat(dirs) => dirs.len() + 1,
            CommandReply::Step(_) => 1,
            CommandReply::Export(facts) => facts.len(),
            CommandReply::Journal(_, entries) => entries.len(),
        }
    }
}
