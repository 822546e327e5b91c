//! What a line asks for.
ghost use Rattle.std.specs.Option.{option_map};
ghost use Rattle.std.specs.Prelude.{◌≡◌, IfOk, OnErr, true};
ghost use Rattle.script_commands.specs.Commands.{asked, asked_by, fields, keeps_paths};
ghost use Rattle.script_commands.specs.View.{asked_view, view};

use crate::command::{Command, find_command, is_cost, is_start, start_export, tops};
use crate::fields::{begins_with_hash, is_plain_line, split_field};
use std::alloc::{AllocError, Global};

/// What a line asks for.
#[derive(Debug, Drop)]
pub enum Asked<'a> {
    /// The line has no fields, or is a comment.
    Nothing,
    /// No command is spelled so.
    Syntax,
    Asks(Command<'a>),
}

// What a line asks for, if it spells this command or none.
fn asked_by(found: Option<Command<'_>>) -> Asked<'_>
    ensures { asked_view result ≡ asked_by (option_map view found.entry) }
{
    match found {
        Some(command) => Asked::Asks(command),
        None => Asked::Syntax,
    }
}

/// What a line asks for. Only memory can be refused, which no line needs but one that asks for a cost or for an export.
pub fn read_line(alloc: Global, line: &[u8]) -> Result<Asked<'_>, AllocError>
    ensures asked { IfOk result (λ found. asked_view found ≡ asked line.now) }
    ensures memory { OnErr result (keeps_paths (fields line.now) ≡ true) }
{
    let Some((word, rest)) = split_field(line) else {
        return Ok(Asked::Nothing);
    };
    if begins_with_hash(word) {
        return Ok(Asked::Nothing);
    }
    if !is_plain_line(line) {
        return Ok(Asked::Syntax);
    }
    if is_cost(word) {
        return Ok(Asked::Asks(Command::Cost(tops(alloc, rest)?)));
    }
    if is_start(word) {
        return Ok(asked_by(start_export(alloc, rest)?));
    }
    Ok(asked_by(find_command(word, rest)))
}
