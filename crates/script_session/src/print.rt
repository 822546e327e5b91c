//! Writing a reply, line by line.
ghost use Rattle.std.specs.Prelude.{◌≡◌, ◌<◌, ℕ, IsErrOf, IsSome, Some, OnErr, OnOk, ◌++◌};
ghost use Rattle.std.specs.Prelude.{[], length, slice_index_or, string_bytes, take};
ghost use Rattle.std.specs.Io.KnownBytes.{Appends};
ghost use Rattle.script_engine.specs.Known.{AppendsFront};
ghost use Rattle.script_session.specs.Printed.{joined};
ghost use Rattle.mds_types.specs.declared.plan.Plan.{Plan as ThePlan};
ghost use Rattle.mds_board.specs.InForce.{plan_in_force};
ghost use Rattle.script_session.specs.Plan.{plan_line};
ghost use Rattle.script_session.specs.Reply.{IsPrintable, reply_lines};

use crate::cost::{cost_line, part_line};
use crate::looks::{entry_line, fact_line};
use crate::moved::{export_line, move_line};
use crate::page::Page;
use crate::plan::{plan_line, plan_part_line};
use crate::reply::CommandReply;
use crate::stat::{cluster_line, dir_line};
use crate::stepped::step_line;
use authority_map::Publisher;
use proof_names::Naming;
use script_board::ScriptBoard;
use script_engine::{WriteFailed, write_whole};
use std::alloc::{AllocError, Global};
use std::io::Write;

/// How many bytes of lines are written at once, in bytes.
const CHUNK_SIZE: usize = 65536;

/// Why the lines of a reply weren't all written.
#[derive(Clone, Copy, Debug, PartialEq, Eq)]
pub enum Unprinted {
    /// A line found no memory. The lines before it were written.
    Memory,
    /// A write failed.
    Write,
}

impl From<WriteFailed> for Unprinted {
    ghost use Rattle.std.specs.Prelude.{◌≡◌};
    ghost use Rattle.script_session.specs.declared.print.Unprinted.TheVariants.{Write};

    ghost from_gives = { λ _ e. e ≡ Write };

    fn from(_e: WriteFailed) -> Unprinted {
        Unprinted::Write
    }
}

/// Writes the lines of a reply, in pieces of 64 KB or a little more. They are made on `page`, whatever it holds.
pub fn print_reply<J: Naming, M: Publisher<J>, W: Write>(
    board: &mut ScriptBoard<J, M>,
    alloc: Global,
    reply: &CommandReply,
    page: &mut Page,
    writer: &mut W,
) -> Result<(), Unprinted>
    requires { IsPrintable board.old reply.now }
    ensures done { OnOk result (Appends (W.contents writer.old) (W.contents writer.new)
        (joined (reply_lines board.old reply.now))) }
    ensures memory { IsErrOf result Unprinted.Memory
        → (count : ℕ) × (count < length (reply_lines board.old reply.now))
        × Appends (W.contents writer.old) (W.contents writer.new)
        (joined (take count (reply_lines board.old reply.now))) }
    // No line stays on the page that isn't written.
    ensures emptied { IsErrOf result Unprinted.Memory → string_bytes page.new.chunk ≡ [] }
    ensures write { IsErrOf result Unprinted.Write
        → AppendsFront (W.contents writer.old) (W.contents writer.new) (joined (reply_lines board.old reply.now)) }
    ensures same { board.new ≡ board.old }
{
    page.chunk.clear();
    for index in 0..reply.line_count() {
        match push_line(board, alloc, reply, index, page) {
            Ok(()) => {}
            Err(_) => {
                write_whole(writer, page.chunk.as_bytes())?;
                page.chunk.clear();
                return Err(Unprinted::Memory);
            }
        }
        if page.chunk.len() >= CHUNK_SIZE {
            write_whole(writer, page.chunk.as_bytes())?;
            page.chunk.clear();
        }
    }
    write_whole(writer, page.chunk.as_bytes())?;
    Ok(())
}

// One line more in the chunk.
fn push_line<J: Naming, M: Publisher<J>>(
    board: &mut ScriptBoard<J, M>,
    alloc: Global,
    reply: &CommandReply,
    index: usize,
    page: &mut Page,
) -> Result<(), AllocError>
    requires there { IsPrintable board.old reply.now }
    requires inside { index < length (reply_lines board.old reply.now) }
    ensures more { OnOk result (string_bytes page.new.chunk
        ≡ string_bytes page.old.chunk ++ slice_index_or (reply_lines board.old reply.now) index []) }
    ensures unchanged { OnErr result (string_bytes page.new.chunk ≡ string_bytes page.old.chunk) }
    ensures same { board.new ≡ board.old }
{
    let Page { chunk, line, field } = page;
    make_line(board, alloc, reply, index, field, line)?;
    chunk.push_str(line.as_str())
}

// Makes one line of a reply, in place of what the text held.
fn make_line<J: Naming, M: Publisher<J>>(
    board: &mut ScriptBoard<J, M>,
    alloc: Global,
    reply: &CommandReply,
    index: usize,
    field: &mut String,
    line: &mut String,
) -> Result<(), AllocError>
    requires there { IsPrintable board.old reply.now }
    requires inside { index < length (reply_lines board.old reply.now) }
    ensures line { OnOk result (string_bytes line.new ≡ slice_index_or (reply_lines board.old reply.now) index []) }
    ensures same { board.new ≡ board.old }
{
    match reply {
        CommandReply::Nothing => unreachable!(),
        CommandReply::Cost(parts) => match index {
            0 => cost_line(parts, line),
            _ => part_line(alloc, board, parts[index - 1], field, line),
        },
        CommandReply::Plan(parts) => match index {
            0 => line_in_force(board, line),
            _ => plan_part_line(alloc, board, parts[index - 1], field, line),
        },
        CommandReply::Move(orders, outcomes) => match index {
            0 => move_line(orders.len(), line),
            _ => export_line(
                alloc,
                board,
                &orders[index - 1],
                outcomes[index - 1],
                field,
                line,
            ),
        },
        CommandReply::Stat(dirs) => match index {
            0 => cluster_line(board, dirs.len(), line),
            _ => dir_line(alloc, board, dirs[index - 1], field, line),
        },
        CommandReply::Step(reply) => step_line(*reply, line),
        CommandReply::Export(facts) => fact_line(alloc, board, facts[index], field, line),
        CommandReply::Journal(rank, entries) => {
            entry_line(alloc, board, *rank, entries[index], field, line)
        }
    }
}

// The line on the plan in force.
fn line_in_force<J: Naming, M: Publisher<J>>(
    board: &ScriptBoard<J, M>,
    line: &mut String,
) -> Result<(), AllocError>
    requires { IsSome (plan_in_force board.now.world) }
    ensures { (plan : ThePlan) → plan_in_force board.now.world ≡ Some plan
        → OnOk result (string_bytes line.new ≡ plan_line plan) }
{
    match board.board().plan_in_force() {
        Some(plan) => plan_line(plan, line),
        None => unreachable!(),
    }
}
