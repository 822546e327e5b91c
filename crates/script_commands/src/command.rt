//! The commands, each with what its word asks of the fields after it.
ghost use Rattle.std.specs.Prelude.{◌≡◌, ◌∷◌, bytes_eq, codes, map, IfOk, false, true};
ghost use Rattle.std.specs.List.{list_all};
ghost use Rattle.std.specs.Option.{option_map};
ghost use Rattle.script_commands.specs.Commands.{alone, command, fail, fields, is_plain, kind_named, kind_of};
ghost use Rattle.script_commands.specs.Commands.{load, make_dir, mask, pin, weight};
ghost use Rattle.script_commands.specs.Commands.{begin_request, further_step, its_number, named_way, start};
ghost use Rattle.script_commands.specs.Commands.{export, journal, look};
ghost use Rattle.script_commands.specs.Commands.{rank_of, ranks, remove_dir, restart, step_of_number, stop};
ghost use Rattle.script_commands.specs.View.{view};

use crate::fields::{fields, is_blank_line, one_field, split_field, text, two_fields};
use crate::new_export::NewExport;
use crate::number::{number, pin_value};
use crate::rank_count::RankCount;
use crate::step::NumberedStep;
use mds_types::{Kind, Rank};
use std::alloc::{AllocError, Global};

/// A command, with its texts as they are in the line.
#[derive(Debug, Drop)]
pub enum Command<'a> {
    Ranks(RankCount),
    /// The ranks that the balancer may use, as `bal_rank_mask` writes them.
    Mask(&'a str),
    /// A directory to make, and its inodes.
    MakeDir(&'a str, u32),
    /// A directory to remove.
    RemoveDir(&'a str),
    /// An export pin: a rank, or -1 to take the directory's own pin away.
    Pin(&'a str, i32),
    /// One request that waits, with its hits, 1 to 1000000, and their kind.
    Load(&'a str, u32, Kind),
    /// How much a read and a write count.
    Weight(u8, u8),
    /// The waiting requests are served.
    Go,
    /// All heats are halved.
    Tick,
    /// The cost of the division at these tops.
    Cost(Vec<&'a str>),
    /// The best plan for the directories that no pin holds.
    Plan,
    /// The orders of pins and of the last plan are carried out.
    Move,
    /// The waiting requests are served while the orders of pins and of the last plan are carried out.
    Traffic,
    /// A rank stops.
    Stop(Rank),
    /// A rank runs again.
    Restart(Rank),
    /// A rank stops before this round, 1 to 8, of the next phase of exports.
    Fail(Rank, u8),
    /// The report on all directories.
    Stat,
    /// An export starts.
    Start(NewExport<'a>),
    /// A request on the directory of a path begins at a rank.
    Begin(Rank, &'a str),
    /// A step that a number names.
    Step(NumberedStep),
    /// What this export is and has left.
    Export(u32),
    /// What the journal of a rank has.
    Journal(Rank),
}

fn ranks(rest: &[u8]) -> Option<Command<'_>>
    ensures { option_map view result ≡ ranks (fields rest.now) }
{
    let number = number(one_field(rest)?, 1, 64)?;
    Some(Command::Ranks(RankCount {
        number: number as u8,
    }))
}

// A rank by its number, 0 to 63.
fn rank(field: &[u8]) -> Option<Rank>
    ensures { result ≡ rank_of field.now }
{
    match number(field, 0, 63) {
        Some(n) => Rank::new(n as u8),
        None => None,
    }
}

fn stop(rest: &[u8]) -> Option<Command<'_>>
    ensures { option_map view result ≡ stop (fields rest.now) }
{
    let rank = rank(one_field(rest)?)?;
    Some(Command::Stop(rank))
}

fn restart(rest: &[u8]) -> Option<Command<'_>>
    ensures { option_map view result ≡ restart (fields rest.now) }
{
    let rank = rank(one_field(rest)?)?;
    Some(Command::Restart(rank))
}

fn fail(rest: &[u8]) -> Option<Command<'_>>
    ensures { option_map view result ≡ fail (fields rest.now) }
{
    let (name, round) = two_fields(rest)?;
    let rank = rank(name)?;
    let round = number(round, 1, 8)?;
    Some(Command::Fail(rank, round as u8))
}

fn mask(rest: &[u8]) -> Option<Command<'_>>
    requires { list_all (list_all is_plain) (fields rest.now) ≡ true }
    ensures { option_map view result ≡ mask (fields rest.now) }
{
    let bits = one_field(rest)?;
    Some(Command::Mask(text(bits)))
}

fn make_dir(rest: &[u8]) -> Option<Command<'_>>
    requires { list_all (list_all is_plain) (fields rest.now) ≡ true }
    ensures { option_map view result ≡ make_dir (fields rest.now) }
{
    let (path, inodes) = two_fields(rest)?;
    let inodes = number(inodes, 0, u32::MAX)?;
    Some(Command::MakeDir(text(path), inodes))
}

fn remove_dir(rest: &[u8]) -> Option<Command<'_>>
    requires { list_all (list_all is_plain) (fields rest.now) ≡ true }
    ensures { option_map view result ≡ remove_dir (fields rest.now) }
{
    let path = one_field(rest)?;
    Some(Command::RemoveDir(text(path)))
}

fn pin(rest: &[u8]) -> Option<Command<'_>>
    requires { list_all (list_all is_plain) (fields rest.now) ≡ true }
    ensures { option_map view result ≡ pin (fields rest.now) }
{
    let (path, value) = two_fields(rest)?;
    let value = pin_value(value)?;
    Some(Command::Pin(text(path), value))
}

/// The kind that a field names.
pub(crate) fn kind_named(field: &[u8]) -> Option<Kind>
    ensures { result ≡ kind_named field.now }
{
    match field {
        b"r" => Some(Kind::Read),
        b"w" => Some(Kind::Write),
        _ => None,
    }
}

// The kind of hits by what comes after their number.
fn kind(rest: &[u8]) -> Option<Kind>
    ensures { result ≡ kind_of (fields rest.now) }
{
    if is_blank_line(rest) {
        return Some(Kind::Read);
    }
    kind_named(one_field(rest)?)
}

fn load(rest: &[u8]) -> Option<Command<'_>>
    requires { list_all (list_all is_plain) (fields rest.now) ≡ true }
    ensures { option_map view result ≡ load (fields rest.now) }
{
    let (path, rest) = split_field(rest)?;
    let (hits, rest) = split_field(rest)?;
    let hits = number(hits, 1, 1_000_000)?;
    let kind = kind(rest)?;
    Some(Command::Load(text(path), hits, kind))
}

fn weight(rest: &[u8]) -> Option<Command<'_>>
    ensures { option_map view result ≡ weight (fields rest.now) }
{
    let (read, write) = two_fields(rest)?;
    let read = number(read, 0, 255)?;
    let write = number(write, 0, 255)?;
    Some(Command::Weight(read as u8, write as u8))
}

/// A command that has no fields after its word.
fn alone<'a>(command: Command<'a>, rest: &[u8]) -> Option<Command<'a>>
    ensures { option_map view result ≡ alone (view command.entry) (fields rest.now) }
{
    if is_blank_line(rest) {
        Some(command)
    } else {
        None
    }
}

fn texts<'a>(alloc: Global, rest: &[&'a [u8]]) -> Result<Vec<&'a str>, AllocError>
    requires { list_all (list_all is_plain) (map (λ field. field.now) rest.now) ≡ true }
    ensures { IfOk result (λ paths. map (λ path. path.now) paths.items ≡ map (λ field. field.now) rest.now) }
{
    let mut paths = Vec::with_capacity(alloc, rest.len())?;
    for field in rest {
        paths.push(text(field))?;
    }
    Ok(paths)
}

/// Whether a line's first word asks for the cost of a division, whose tops are all fields after the word.
pub(crate) fn is_cost(word: &[u8]) -> bool
    ensures { result ≡ bytes_eq word.now (codes "cost") }
{
    match word {
        b"cost" => true,
        _ => false,
    }
}

/// The fields after a line's first word, as texts.
pub(crate) fn tops(alloc: Global, rest: &[u8]) -> Result<Vec<&str>, AllocError>
    requires { list_all (list_all is_plain) (fields rest.now) ≡ true }
    ensures { IfOk result (λ paths. map (λ path. path.now) paths.items ≡ fields rest.now) }
{
    texts(alloc, &fields(alloc, rest)?)
}

// The ranks between which an export is to go, and what comes after them.
fn way(rest: &[u8]) -> Option<(Rank, Rank, &[u8])>
    ensures { option_map (λ way. (way.0, way.1, fields way.2.now)) result ≡ named_way (fields rest.now) }
{
    let (from, rest) = split_field(rest)?;
    let (to, rest) = split_field(rest)?;
    let from = rank(from)?;
    let to = rank(to)?;
    Some((from, to, rest))
}

/// Whether a line's first word asks for an export, whose directories are all fields after the two ranks.
pub(crate) fn is_start(word: &[u8]) -> bool
    ensures { result ≡ bytes_eq word.now (codes "start") }
{
    match word {
        b"start" => true,
        _ => false,
    }
}

/// The export that the fields after `start` ask for, if they ask for one. Memory is asked for its paths and for as many
/// directories, once the ranks are found.
pub(crate) fn start_export(alloc: Global, rest: &[u8]) -> Result<Option<Command<'_>>, AllocError>
    requires { list_all (list_all is_plain) (fields rest.now) ≡ true }
    ensures { IfOk result (λ found. option_map view found ≡ start (fields rest.now)) }
{
    let Some((from, to, rest)) = way(rest) else {
        return Ok(None);
    };
    let paths = tops(alloc, rest)?;
    let room = Vec::with_capacity(alloc, paths.len())?;
    Ok(Some(Command::Start(NewExport {
        from,
        to,
        paths,
        room,
    })))
}

fn begin_request(rest: &[u8]) -> Option<Command<'_>>
    requires { list_all (list_all is_plain) (fields rest.now) ≡ true }
    ensures { option_map view result ≡ begin_request (fields rest.now) }
{
    let (number, path) = two_fields(rest)?;
    let rank = rank(number)?;
    Some(Command::Begin(rank, text(path)))
}

// The number of a message, an export or a ticket.
fn its_number(rest: &[u8]) -> Option<u32>
    ensures { result ≡ its_number (fields rest.now) }
{
    number(one_field(rest)?, 0, u32::MAX)
}

fn deliver(rest: &[u8]) -> Option<Command<'_>>
    ensures { option_map view result ≡ step_of_number NumberedStep.Deliver (fields rest.now) }
{
    let message = its_number(rest)?;
    Some(Command::Step(NumberedStep::Deliver(message)))
}

fn froze(rest: &[u8]) -> Option<Command<'_>>
    ensures { option_map view result ≡ step_of_number NumberedStep.Froze (fields rest.now) }
{
    let export = its_number(rest)?;
    Some(Command::Step(NumberedStep::Froze(export)))
}

fn notify(rest: &[u8]) -> Option<Command<'_>>
    ensures { option_map view result ≡ step_of_number NumberedStep.Notify (fields rest.now) }
{
    let export = its_number(rest)?;
    Some(Command::Step(NumberedStep::Notify(export)))
}

fn abort(rest: &[u8]) -> Option<Command<'_>>
    ensures { option_map view result ≡ step_of_number NumberedStep.Abort (fields rest.now) }
{
    let export = its_number(rest)?;
    Some(Command::Step(NumberedStep::Abort(export)))
}

fn ask(rest: &[u8]) -> Option<Command<'_>>
    ensures { option_map view result ≡ step_of_number NumberedStep.Ask (fields rest.now) }
{
    let export = its_number(rest)?;
    Some(Command::Step(NumberedStep::Ask(export)))
}

fn end(rest: &[u8]) -> Option<Command<'_>>
    ensures { option_map view result ≡ step_of_number NumberedStep.End (fields rest.now) }
{
    let ticket = its_number(rest)?;
    Some(Command::Step(NumberedStep::End(ticket)))
}

fn export(rest: &[u8]) -> Option<Command<'_>>
    ensures { option_map view result ≡ export (fields rest.now) }
{
    let number = its_number(rest)?;
    Some(Command::Export(number))
}

fn journal(rest: &[u8]) -> Option<Command<'_>>
    ensures { option_map view result ≡ journal (fields rest.now) }
{
    let rank = rank(one_field(rest)?)?;
    Some(Command::Journal(rank))
}

// The look at what exports have left that a word and the fields after it spell, if they spell one.
fn find_look<'a>(word: &[u8], rest: &'a [u8]) -> Option<Command<'a>>
    ensures { option_map view result ≡ look word.now (fields rest.now) }
{
    if word == b"export".as_slice() {
        export(rest)
    } else if word == b"journal".as_slice() {
        journal(rest)
    } else {
        None
    }
}

// The step of exports that a word other than `start` and the fields after it spell, or the look at what they have left,
// if they spell one.
fn find_step<'a>(word: &[u8], rest: &'a [u8]) -> Option<Command<'a>>
    requires { list_all (list_all is_plain) (fields rest.now) ≡ true }
    ensures { option_map view result ≡ further_step word.now (fields rest.now) }
{
    if word == b"deliver".as_slice() {
        deliver(rest)
    } else if word == b"froze".as_slice() {
        froze(rest)
    } else if word == b"notify".as_slice() {
        notify(rest)
    } else if word == b"abort".as_slice() {
        abort(rest)
    } else if word == b"ask".as_slice() {
        ask(rest)
    } else if word == b"begin".as_slice() {
        begin_request(rest)
    } else if word == b"end".as_slice() {
        end(rest)
    } else {
        find_look(word, rest)
    }
}

/// The command that a word other than `cost` and `start` and the fields after it spell, if they spell one.
pub(crate) fn find_command<'a>(word: &[u8], rest: &'a [u8]) -> Option<Command<'a>>
    requires other { bytes_eq word.now (codes "cost") ≡ false }
    requires no_start { bytes_eq word.now (codes "start") ≡ false }
    requires plain { list_all (list_all is_plain) (fields rest.now) ≡ true }
    ensures { option_map view result ≡ command (word.now ∷ fields rest.now) }
{
    match word {
        b"load" => load(rest),
        b"dir" => make_dir(rest),
        _ => find_rarer_command(word, rest),
    }
}

// The same for a word other than `load` and `dir` too, of which a script has few. Not inlined, since room for what each
// of these words spells would be made for each line.
#[inline(never)]
fn find_rarer_command<'a>(word: &[u8], rest: &'a [u8]) -> Option<Command<'a>>
    requires other { bytes_eq word.now (codes "cost") ≡ false }
    requires no_start { bytes_eq word.now (codes "start") ≡ false }
    requires no_load { bytes_eq word.now (codes "load") ≡ false }
    requires no_dir { bytes_eq word.now (codes "dir") ≡ false }
    requires plain { list_all (list_all is_plain) (fields rest.now) ≡ true }
    ensures { option_map view result ≡ command (word.now ∷ fields rest.now) }
{
    if word == b"ranks".as_slice() {
        ranks(rest)
    } else if word == b"mask".as_slice() {
        mask(rest)
    } else if word == b"rmdir".as_slice() {
        remove_dir(rest)
    } else if word == b"pin".as_slice() {
        pin(rest)
    } else if word == b"weight".as_slice() {
        weight(rest)
    } else if word == b"go".as_slice() {
        alone(Command::Go, rest)
    } else if word == b"tick".as_slice() {
        alone(Command::Tick, rest)
    } else if word == b"plan".as_slice() {
        alone(Command::Plan, rest)
    } else if word == b"move".as_slice() {
        alone(Command::Move, rest)
    } else if word == b"traffic".as_slice() {
        alone(Command::Traffic, rest)
    } else if word == b"stop".as_slice() {
        stop(rest)
    } else if word == b"restart".as_slice() {
        restart(rest)
    } else if word == b"fail".as_slice() {
        fail(rest)
    } else if word == b"stat".as_slice() {
        alone(Command::Stat, rest)
    } else {
        find_step(word, rest)
    }
}
