//! The lines of `cost`. Each is made in a text, in place of what it held.
ghost use Rattle.std.specs.Prelude.{◌≡◌, OnOk, string_bytes, true};
ghost use Rattle.dirtree.specs.Tree.{is_there};
ghost use Rattle.script_session.specs.Cost.{cost_line, part_line};

use authority_map::Publisher;
use proof_names::Naming;
use script_board::ScriptBoard;
use std::alloc::{AllocError, Global};
use tree_parts::{Part, greatest_heat};

pub(crate) fn cost_line(parts: &[Part], line: &mut String) -> Result<(), AllocError>
    ensures { OnOk result (string_bytes line.new ≡ cost_line parts.now) }
{
    let greatest = greatest_heat(parts);
    let count = parts.len();
    line.clear();
    write!(line, "cost greatest {greatest} parts {count}\n")
}

pub(crate) fn part_line<J: Naming, M: Publisher<J>>(
    alloc: Global,
    board: &ScriptBoard<J, M>,
    part: Part,
    field: &mut String,
    line: &mut String,
) -> Result<(), AllocError>
    requires { is_there board.now.world.state.directories.entries part.top ≡ true }
    ensures { OnOk result (string_bytes line.new ≡ part_line board.now part) }
{
    board.write_path(alloc, part.top, field)?;
    let path = field.as_str();
    let heat = part.heat;
    let inodes = part.inodes;
    line.clear();
    write!(line, "part {path} heat {heat} inodes {inodes}\n")
}
