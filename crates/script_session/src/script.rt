//! A whole script from a reader, with its answers to a writer.
ghost use Rattle.std.specs.Option.{option_and_then};
ghost use Rattle.std.specs.Prelude.{◌≡◌, ◌≤◌, [], Err, None, Ok, IsErrOf, vec_len};
ghost use Rattle.script_engine.specs.Telling.{Tells};
ghost use Rattle.script_session.specs.Ending.{IsRunOf};
ghost use Rattle.script_session.specs.Session.{answers};

use crate::hints::{Hinted, Hints};
use crate::session::Session;
use authority_map::{MapReader, MapWriter, Publisher};
use board_certificates::Unwritten;
use dirtree::NameKey;
use mds_board::BoardParts;
use proof_names::Naming;
use script_board::Parts;
use script_engine::{Input, RunError, WriteFailed, run_script};
use std::alloc::Global;
use std::io::{Read, Write};
use std::marker::{Brand, Send, Sync};
use std::sync::Wait;
use std::thread::Threads;

/// How a script is to be carried out.
#[derive(Clone, Copy)]
pub struct RunOptions {
    /// Picks the hash by which names are found. It changes no answer.
    pub key: NameKey,
    /// The numbers of the tree's directories are below it.
    pub limit: u32,
    /// Whether the first line that isn't accepted ends the run.
    pub strict: bool,
}

/// How a run ended.
#[derive(Clone, Copy)]
pub struct Ended {
    /// Whether each line was accepted, or why the run ended before its script did.
    pub answered: Result<bool, RunError>,
    /// Whether the certificates of all adopted plans were written.
    pub proved: Result<(), Unwritten>,
}

impl Ended {
    // There was no memory to begin with.
    fn without_memory() -> Ended
        ensures { result ≡ record { answered = Err RunError.Memory; proved = Ok tt } }
    {
        Ended {
            answered: Err(RunError::Memory),
            proved: Ok(()),
        }
    }
}

/// Carries out a script, and says whether each of its lines was accepted.
///
/// A device that fails ends the run. The parts of a board are opened first; where there is no memory for them, nothing
/// is read. However a run ends, the certificates of the plans that the board has adopted are then written to `proofs`,
/// where one is given.
///
/// `hints` receives each line that isn't accepted, and why. It changes no answer.
pub fn run<T: Threads + Wait + Sync, R: Read, W: Write, P: Write, H: Hints>(
    rt: &T,
    alloc: Global,
    input: &mut Input<R>,
    writer: &mut W,
    proofs: &mut Option<P>,
    hints: &mut H,
    options: RunOptions,
) -> Ended
    requires some { 1 ≤ options.limit }
    requires few { options.limit ≤ 65536 }
    requires unread { input.old.reads ≡ 0 }
    ensures run { IsRunOf R.remaining options.limit options.strict input.old input.new
        (W.contents writer.old) (W.contents writer.new)
        (option_and_then P.contents proofs.old) (option_and_then P.contents proofs.new) result }
    // Where there is no memory to begin with, no device was touched.
    ensures memory { IsErrOf result.answered RunError.Memory → (input.new ≡ input.old) × (writer.new ≡ writer.old)
        × (proofs.new ≡ proofs.old) × (hints.new ≡ hints.old) }
    // Only what is asked for can fail to be written.
    ensures unasked { proofs.old ≡ None → result.proved ≡ Ok tt }
{
    let Ok(book) = heat_ledger::NewBook::new(alloc) else {
        return Ended::without_memory();
    };
    let map = authority_map::NewMap::new();
    run_named::<Brand, T, R, W, P, H>(rt, alloc, book, map, input, writer, proofs, hints, options)
}

// The same for a board whose name was picked. Only it names the type of the board's map, and hands the rest on: a
// function that names it takes long to prove.
fn run_named<
    J: Naming + Send + Sync,
    T: Threads + Wait + Sync,
    R: Read,
    W: Write,
    P: Write,
    H: Hints,
>(
    rt: &T,
    alloc: Global,
    book: heat_ledger::NewBook,
    map: authority_map::NewMap,
    input: &mut Input<R>,
    writer: &mut W,
    proofs: &mut Option<P>,
    hints: &mut H,
    options: RunOptions,
) -> Ended
    requires book { book ≡ J.ledger }
    requires map { map ≡ J.map }
    requires limit { options.limit ≡ J.limit }
    requires some { 1 ≤ options.limit }
    requires few { options.limit ≤ 65536 }
    requires unread { input.old.reads ≡ 0 }
    ensures run { IsRunOf R.remaining options.limit options.strict input.old input.new
        (W.contents writer.old) (W.contents writer.new)
        (option_and_then P.contents proofs.old) (option_and_then P.contents proofs.new) result }
    ensures memory { IsErrOf result.answered RunError.Memory → (input.new ≡ input.old) × (writer.new ≡ writer.old)
        × (proofs.new ≡ proofs.old) × (hints.new ≡ hints.old) }
    // Only what is asked for can fail to be written.
    ensures unasked { proofs.old ≡ None → result.proved ≡ Ok tt }
{
    match MapWriter::<J, &T>::open(rt, alloc, map, options.limit, 1) {
        Ok((publisher, readers)) => run_over(
            rt, alloc, book, publisher, readers, input, writer, proofs, hints, options,
        ),
        Err(_) => Ended::without_memory(),
    }
}

// The same over any map.
fn run_over<
    J: Naming + Send + Sync,
    M: Publisher<J> + Send,
    T: Threads + Wait + Sync,
    R: Read,
    W: Write,
    P: Write,
    H: Hints,
>(
    rt: &T,
    alloc: Global,
    book: heat_ledger::NewBook,
    publisher: M,
    readers: Vec<MapReader<J>>,
    input: &mut Input<R>,
    writer: &mut W,
    proofs: &mut Option<P>,
    hints: &mut H,
    options: RunOptions,
) -> Ended
    requires book { book ≡ J.ledger }
    requires map { (M.published publisher ≡ []) × (M.pending publisher ≡ []) }
    requires readers { vec_len readers ≡ 1 }
    requires limit { options.limit ≡ J.limit }
    requires some { 1 ≤ options.limit }
    requires few { options.limit ≤ 65536 }
    requires unread { input.old.reads ≡ 0 }
    ensures run { IsRunOf R.remaining options.limit options.strict input.old input.new
        (W.contents writer.old) (W.contents writer.new)
        (option_and_then P.contents proofs.old) (option_and_then P.contents proofs.new) result }
    ensures memory { IsErrOf result.answered RunError.Memory → (input.new ≡ input.old) × (writer.new ≡ writer.old)
        × (proofs.new ≡ proofs.old) × (hints.new ≡ hints.old) }
    // Only what is asked for can fail to be written.
    ensures unasked { proofs.old ≡ None → result.proved ≡ Ok tt }
{
    let mut readers = readers;
    let Some(reader) = readers.pop() else {
        unreachable!()
    };
    let parts = Parts::new(BoardParts::keyed(book, publisher, options.key), reader);
    let session = Session::<J, M, T>::new(rt, alloc, options.limit, parts);
    let mut hinted = Hinted { session, hints };
    let answer = |hinted: &mut Hinted<
        '_,
        Session<'_, J, M, T>,
        H,
    >, number: u64, line: &[u8], writer: &mut W| -> Result<bool, WriteFailed>
        ensures { Tells answers W.contents hinted.old number line.now writer.old result hinted.new writer.new }
    { hinted.answer(alloc, number, line, writer) };
    let answered = run_script(alloc, &answer, &mut hinted, input, writer, options.strict);
    let Hinted {
        session,
        hints: _hints,
    } = hinted;
    session.promises();
    let proved = session.prove(alloc, proofs);
    session.end();
    Ended { answered, proved }
}
