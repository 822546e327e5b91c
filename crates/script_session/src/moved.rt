//! The lines of `move`. Each is made in a text, in place of what it held.
ghost use Rattle.std.specs.Prelude.{◌≡◌, OnOk, string_bytes};
ghost use Rattle.script_session.specs.Move.{all_inodes, dir_path, export_line, export_text, move_line};
ghost use Rattle.script_session.specs.Move.{top_of, top_path, way_text, word};

use authority_map::Publisher;
use dirtree::Tree;
use mds_types::{Dir, Order, Rank, Refusal};
use phased_board::Outcome;
use proof_names::Naming;
use script_board::ScriptBoard;
use std::alloc::{AllocError, Global};

pub(crate) fn move_line(count: usize, line: &mut String) -> Result<(), AllocError>
    ensures { OnOk result (string_bytes line.new ≡ move_line count) }
{
    line.clear();
    write!(line, "move {count}\n")
}

fn word(outcome: Outcome, text: &mut String) -> Result<(), AllocError>
    ensures { OnOk result (string_bytes text.new ≡ word outcome) }
{
    text.clear();
    match outcome {
        Outcome::Done(_) => text.push_str("done"),
        Outcome::Aborted(_) => text.push_str("aborted"),
        Outcome::Open(_) => text.push_str("open"),
        Outcome::Refused(error) => write!(text, "refused {error}"),
        Outcome::NoThread => write!(text, "refused {}", Refusal::NoThread),
    }
}

// The top of an order, or the root of one without directories.
fn top_of(order: &Order) -> Dir
    ensures { result ≡ top_of order.now }
{
    match order.dirs.as_slice() {
        [] => Dir::ROOT,
        [top, ..] => *top,
    }
}

// The inodes of an order's directories together.
fn all_inodes(tree: &Tree, dirs: &[Dir]) -> u128
    ensures { result ≡ all_inodes tree.now.entries dirs.now }
{
    let mut sum = 0;
    for dir in dirs {
        if let Some(row) = tree.row(*dir) {
            sum += u128::from(row.inodes);
        }
    }
    sum
}

/// The path of a directory, or `-` where it is no longer there.
pub(crate) fn dir_path<J: Naming, M: Publisher<J>>(
    alloc: Global,
    board: &ScriptBoard<J, M>,
    dir: Dir,
    text: &mut String,
) -> Result<(), AllocError>
    ensures { OnOk result (string_bytes text.new ≡ dir_path board.now dir) }
{
    if board.contains(dir) {
        board.write_path(alloc, dir, text)
    } else {
        text.clear();
        text.push_str("-")
    }
}

// The path of an order's top, as long as it is there.
fn top_path<J: Naming, M: Publisher<J>>(
    alloc: Global,
    board: &ScriptBoard<J, M>,
    order: &Order,
    text: &mut String,
) -> Result<(), AllocError>
    ensures { OnOk result (string_bytes text.new ≡ top_path board.now order.now) }
{
    dir_path(alloc, board, top_of(order), text)
}

pub(crate) fn export_line<J: Naming, M: Publisher<J>>(
    alloc: Global,
    board: &ScriptBoard<J, M>,
    order: &Order,
    outcome: Outcome,
    field: &mut String,
    line: &mut String,
) -> Result<(), AllocError>
    ensures { OnOk result (string_bytes line.new ≡ export_line board.now (order.now, outcome)) }
{
    top_path(alloc, board, order, field)?;
    way_text(field.as_str(), order.from, order.to, line)?;
    let dirs = order.dirs.as_slice();
    let inodes = all_inodes(board.board().tree(), dirs);
    word(outcome, field)?;
    add_told(dirs.len(), inodes, field.as_str(), line)
}

// Whence and where the directories below a path go.
fn way_text(path: &str, from: Rank, to: Rank, line: &mut String) -> Result<(), AllocError>
    ensures { OnOk result (string_bytes line.new ≡ way_text path.now from to) }
{
    let from = from.number();
    let to = to.number();
    line.clear();
    write!(line, "export {path} from {from} to {to}")
}

// Adds to the way what goes it, and what became of it.
fn add_told(count: usize, inodes: u128, word: &str, line: &mut String) -> Result<(), AllocError>
    ensures { OnOk result (string_bytes line.new ≡ export_text (string_bytes line.old) count inodes word.now) }
{
    write!(line, " dirs {count} inodes {inodes} {word}\n")
}
