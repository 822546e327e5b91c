//! What each command does to a board.
ghost use Rattle.std.specs.Prelude.{◌≡◌, Bool, [], IfErr, IfOk, IfSome, None, OnErr, OnOk, false, map, true};
ghost use Rattle.script_commands.specs.Commands as line;
ghost use Rattle.script_commands.specs.View.{view};
ghost use Rattle.script_session.specs.Does.{Does, IsCaused, cause, is_by_threads, meaning};
ghost use Rattle.script_session.specs.Done.{IsShowable, shown};
ghost use Rattle.script_session.specs.Printed.{only_lines};
ghost use Rattle.script_session.specs.declared.done.Done.TheVariants as done;
ghost use Rattle.script_session.specs.declared.reply.CommandReply.TheVariants as reply;

use crate::done::Done;
use crate::reply::CommandReply;
use crate::stepped::event_of;
use authority_map::Publisher;
use proof_names::Naming;
use script_board::{Carried, Fault, ScriptBoard};
use script_commands::{Command, NewExport};
use std::alloc::Global;
use std::marker::{Send, Sync};
use std::sync::Wait;
use std::thread::Threads;

/// Whether the threads of the ranks carry a command out.
pub fn is_by_threads(command: &Command<'_>) -> bool
    ensures { result ≡ is_by_threads (meaning (view command.now)) }
{
    match command {
        Command::Go | Command::Move | Command::Traffic => true,
        _ => false,
    }
}

// What is printed of a `move` or a `traffic`.
fn done_by(carried: Carried) -> Done
    ensures { result ≡ done.Carried carried.refused (reply.Move carried.orders carried.outcomes) }
{
    let Carried {
        refused,
        orders,
        outcomes,
    } = carried;
    Done::Carried(refused, CommandReply::Move(orders, outcomes))
}

/// Carries out a command by threads of the ranks, and answers the board and what is printed of it.
pub fn carry_out_by_threads<
    J: Naming + Send + Sync,
    M: Publisher<J> + Send,
    R: Threads + Wait + Sync,
>(
    board: ScriptBoard<J, M>,
    rt: &R,
    alloc: Global,
    command: Command<'_>,
) -> (ScriptBoard<J, M>, Result<Done, Fault>)
    requires { is_by_threads (meaning (view command)) ≡ true }
    ensures done { IfOk result.1 (λ done. (ample : Bool)
        × Does board (meaning (view command.entry)) (shown result.0 done) ample result.0) }
    ensures showable { IfOk result.1 (IsShowable result.0) }
    ensures fault { IfErr result.1 (IsCaused (cause board (meaning (view command.entry)))) }
    ensures unchanged { OnErr result.1 (result.0 ≡ board) }
{
    match command {
        Command::Go => {
            let (board, refused) = board.go(rt, alloc);
            match refused {
                Ok(refused) => (board, Ok(Done::Served(refused))),
                Err(error) => (board, Err(Fault::from(error))),
            }
        }
        Command::Move => {
            let (board, moved) = board.carry_out_moves(rt, alloc);
            match moved {
                Ok(carried) => (board, Ok(done_by(carried))),
                Err(memory) => (board, Err(Fault::from(memory))),
            }
        }
        Command::Traffic => {
            let (board, carried) = board.traffic(rt, alloc);
            match carried {
                Ok(carried) => (board, Ok(done_by(carried))),
                Err(memory) => (board, Err(Fault::from(memory))),
            }
        }
        _ => unreachable!(),
    }
}

/// Carries out a command that takes no threads of the ranks.
pub fn change<J: Naming, M: Publisher<J>, R: Threads + Sync>(
    board: &mut ScriptBoard<J, M>,
    rt: &R,
    alloc: Global,
    command: Command<'_>,
) -> Result<Done, Fault>
    requires { is_by_threads (meaning (view command)) ≡ false }
    ensures done { IfOk result (λ done. (ample : Bool)
        × Does board.old (meaning (view command.entry)) (shown board.new done) ample board.new) }
    ensures showable { IfOk result (IsShowable board.new) }
    ensures fault { IfErr result (IsCaused (cause board.old (meaning (view command.entry)))) }
    ensures unchanged { OnErr result (board.new ≡ board.old) }
{
    match command {
        Command::Ranks(_) => return Err(Fault::RanksAgain),
        Command::Mask(text) => board.set_mask(text)?,
        Command::MakeDir(path, inodes) => board.make_dir(alloc, path, inodes)?,
        Command::RemoveDir(path) => board.remove_dir(path)?,
        Command::Pin(path, pin) => board.set_pin(path, pin)?,
        Command::Load(path, hits, kind) => board.load(path, hits, kind)?,
        Command::Weight(read, write) => board.set_weights(read, write)?,
        Command::Tick => board.tick()?,
        Command::Stop(rank) => board.stop(alloc, rank)?,
        Command::Fail(rank, round) => board.fail(rank, round)?,
        Command::Restart(rank) => board.restart(alloc, rank)?,
        Command::Plan => {
            board.plan(rt, alloc)?;
            return Ok(Done::Planned);
        }
        Command::Cost(paths) => {
            return Ok(Done::Lines(CommandReply::Cost(board.cost(alloc, &paths)?)));
        }
        Command::Stat => return Ok(Done::Lines(CommandReply::Stat(board.directories(alloc)?))),
        Command::Start(export) => return start(board, alloc, export),
        Command::Begin(rank, path) => {
            return Ok(Done::Lines(CommandReply::Step(board.begin(rank, path)?)));
        }
        Command::Step(step) => {
            return Ok(Done::Lines(CommandReply::Step(board.step(alloc, event_of(step))?)));
        }
        Command::Export(export) => {
            let facts = board.export_facts(alloc, export)?;
            return Ok(Done::Lines(CommandReply::Export(facts)));
        }
        Command::Journal(rank) => {
            let entries = board.journal_entries(alloc, rank)?;
            return Ok(Done::Lines(CommandReply::Journal(rank, entries)));
        }
        Command::Go | Command::Move | Command::Traffic => unreachable!(),
    }
    Ok(Done::Lines(CommandReply::Nothing))
}

// Starts an export.
fn start<J: Naming, M: Publisher<J>>(
    board: &mut ScriptBoard<J, M>,
    alloc: Global,
    export: NewExport<'_>,
) -> Result<Done, Fault>
    ensures done { IfOk result (λ done. Does board.old (meaning (line.Start export.entry.from export.entry.to
        (map (λ path. path.now) export.entry.paths.items))) (shown board.new done) true board.new) }
    ensures showable { IfOk result (IsShowable board.new) }
    ensures fault { IfErr result (IsCaused (cause board.old (meaning (line.Start export.entry.from export.entry.to
        (map (λ path. path.now) export.entry.paths.items))))) }
    ensures unchanged { OnErr result (board.new ≡ board.old) }
{
    let NewExport {
        from,
        to,
        paths,
        room,
    } = export;
    let reply = board.start(alloc, from, to, &paths, room)?;
    Ok(Done::Lines(CommandReply::Step(reply)))
}

/// Makes a directory or lets a request wait, and says how that went. Most commands are these two, and they print
/// nothing. It does nothing for any other.
pub fn change_quietly<J: Naming, M: Publisher<J>>(
    board: &mut ScriptBoard<J, M>,
    alloc: Global,
    command: &Command<'_>,
) -> Option<Result<(), Fault>>
    ensures done { IfSome result (λ changed. OnOk changed
        (Does board.old (meaning (view command.now)) (only_lines []) true board.new)) }
    ensures fault { IfSome result (λ changed. IfErr changed (IsCaused (cause board.old (meaning (view command.now))))) }
    ensures unchanged { IfSome result (λ changed. OnErr changed (board.new ≡ board.old)) }
    ensures left { result ≡ None → board.new ≡ board.old }
{
    match command {
        Command::MakeDir(path, inodes) => Some(board.make_dir(alloc, path, *inodes)),
        Command::Load(path, hits, kind) => Some(board.load(path, *hits, *kind)),
        _ => None,
    }
}
