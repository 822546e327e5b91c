//! The program over any devices: from the words of its command line to its exit status.
ghost use Rattle.std.specs.Prelude.{◌≡◌, ◌≤◌, map, option_map, is_some};
ghost use Rattle.command_line.specs.Outcome.{EndsWith};
ghost use Rattle.command_line.specs.declared.options_error.OptionsError.TheVariants as cause;
ghost use Rattle.script_engine.specs.Known.{AppendsFront};
ghost use Rattle.script_program.specs.Exit.{HasAllIn, HasFrontIn, IsExit, IsFiledRun, IsMemorySaid, IsRun};
ghost use Rattle.script_program.specs.Exit.{message, run_status};
ghost use Rattle.std.specs.Option.{option_and_then};

use crate::hints::LineHints;
use crate::proof_files::ProofFiles;
use command_line::{OptionsError, Settings, options};
use dirtree::NameKey;
use script_engine::{Input, RunError, write_whole};
use script_session::laws::certificates_are_best;
use script_session::{RunOptions, run};
use std::alloc::Global;
use std::convert::AsStr;
use std::io;
use std::io::{Read, Write};
use std::marker::Sync;
use std::random::RandomSource;
use std::sync::Wait;
use std::thread::Threads;

/// Carries out a script as the words of a command line ask, of which the first
/// is the program's name. Gives the exit status.
///
/// It is 0 where every line was accepted, 1 where one was not, 2 where the command line is refused or there is no
/// memory to begin with, and 3 where a device failed, or the certificates of the adopted plans that `--proofs FILE`
/// asks for could not all be written, or there are no random bytes to key the hash of names with. The help and the
/// version end with 0. For a line that isn't accepted a line on
/// standard error says why, unless the words have `--quiet`.
pub fn start<
    T: Threads + Wait + RandomSource + Sync,
    F: ProofFiles,
    S: AsStr,
    R: Read,
    W: Write,
    E: Write,
>(
    rt: &T,
    alloc: Global,
    words: &[S],
    files: &mut F,
    input: &mut Input<R>,
    writer: &mut W,
    errors: &mut E,
) -> u8
    requires unread { input.old.reads ≡ 0 }
    ensures { IsExit R.remaining E.contents input.old input.new (W.contents writer.old) (W.contents writer.new)
        errors.old errors.new (F.holds files.new) (map S.text words.now) result }
{
    match options(alloc, words) {
        Ok(settings) => carry_out(rt, alloc, &settings, files, input, writer, errors),
        Err(error) => explain(&error, writer, errors),
    }
}

// Prints why the words give no settings: the help and the version to `writer`, all else to `errors`. Gives the status.
fn explain<W: Write, E: Write>(error: &OptionsError, writer: &mut W, errors: &mut E) -> u8
    ensures status { EndsWith error.now result }
    ensures unprinted { result ≡ 2 → writer.new ≡ writer.old }
    ensures memory { error.now ≡ cause.Memory → IsMemorySaid E.contents errors.old errors.new }
{
    if let OptionsError::Memory = error {
        return fail(RunError::Memory, errors);
    }
    error.print(writer, errors)
}

// Carries out a script with these settings. Where a file for certificates is asked for, it is made first.
fn carry_out<T: Threads + Wait + RandomSource + Sync, F: ProofFiles, R: Read, W: Write, E: Write>(
    rt: &T,
    alloc: Global,
    settings: &Settings<'_>,
    files: &mut F,
    input: &mut Input<R>,
    writer: &mut W,
    errors: &mut E,
) -> u8
    requires some { 1 ≤ settings.now.limit }
    requires few { settings.now.limit ≤ 65536 }
    requires unread { input.old.reads ≡ 0 }
    ensures { IsFiledRun R.remaining input.old input.new (W.contents writer.old) (W.contents writer.new)
        settings.now.limit settings.now.strict (F.holds files.new) (option_map (λ file. file.now) settings.now.proofs)
        result }
{
    let Some(name) = settings.proofs else {
        let mut none: Option<F::File> = None;
        return prove(rt, alloc, settings, input, writer, &mut none, errors);
    };
    let mut proofs = match files.create(name) {
        Ok(file) => Some(file),
        Err(error) => {
            let _ = writeln!(errors, "mdbal: --proofs: {error}");
            return 3;
        }
    };
    let status = prove(rt, alloc, settings, input, writer, &mut proofs, errors);
    if let Some(file) = proofs {
        files.keep(name, file);
    }
    status
}

// A key that nobody else knows, for the hash by which names are found.
fn name_key<T: RandomSource>(rt: &T) -> io::Result<NameKey> {
    let mut bytes = [0; 8];
    rt.fill_bytes(&mut bytes)?;
    Ok(NameKey(bytes))
}

// Carries out a script, and writes the certificates of the plans that it adopts to `proofs`, if there is such a file.
// Unless it is to be quiet, standard error says why a line isn't accepted.
fn prove<T: Threads + Wait + RandomSource + Sync, R: Read, W: Write, P: Write, E: Write>(
    rt: &T,
    alloc: Global,
    settings: &Settings<'_>,
    input: &mut Input<R>,
    writer: &mut W,
    proofs: &mut Option<P>,
    errors: &mut E,
) -> u8
    requires some { 1 ≤ settings.now.limit }
    requires few { settings.now.limit ≤ 65536 }
    requires unread { input.old.reads ≡ 0 }
    ensures { IsRun R.remaining input.old input.new (W.contents writer.old) (W.contents writer.new)
        settings.now.limit settings.now.strict
        (HasAllIn (option_and_then P.contents proofs.old) (option_and_then P.contents proofs.new))
        (HasFrontIn (option_and_then P.contents proofs.old) (option_and_then P.contents proofs.new))
        (is_some proofs.old) result }
{
    let Ok(key) = name_key(rt) else {
        return fail(RunError::Read, errors);
    };
    let options = RunOptions {
        key,
        limit: settings.limit,
        strict: settings.strict,
    };
    let mut hints = LineHints {
        errors,
        quiet: settings.quiet,
    };
    let ended = run(rt, alloc, input, writer, proofs, &mut hints, options);
    let LineHints {
        errors,
        quiet: _quiet,
    } = hints;
    let accepted = match ended.answered {
        Ok(accepted) => accepted,
        Err(failure) => return fail(failure, errors),
    };
    if let Err(why) = ended.proved {
        let _ = writeln!(errors, "mdbal: --proofs: {why}");
        return 3;
    }
    certificates_are_best();
    if accepted { 0 } else { 1 }
}

// Says why a run ended before its script did, and gives the status for that.
fn fail<E: Write>(failure: RunError, errors: &mut E) -> u8
    ensures status { result ≡ run_status failure }
    ensures text { AppendsFront (E.contents errors.old) (E.contents errors.new) (message failure) }
{
    let (status, message) = match failure {
        RunError::Memory => (2, b"mdbal: 0 Memory\n".as_slice()),
        RunError::Read => (3, b"mdbal: read failed\n".as_slice()),
        RunError::Write => (3, b"mdbal: write failed\n".as_slice()),
    };
    let _ = write_whole(errors, message);
    status
}
