//! The program over any files and devices: from the words of its command line to its exit status.
ghost use Rattle.std.specs.Prelude.{◌≡◌, map, option_map};
ghost use Rattle.certificate_judge.specs.Exit.{IsExit, IsRun};
ghost use Rattle.certificate_judge.specs.Judged.{GrowsByFront, memory_line};
ghost use Rattle.command_line.specs.Outcome.{EndsWith};
ghost use Rattle.command_line.specs.declared.options_error.OptionsError.TheVariants.{Memory};

use crate::files::CertificateFiles;
use crate::reporting::{report, say_memory, say_unread};
use crate::settings::file_of;
use command_line::OptionsError;
use std::alloc::Global;
use std::convert::AsStr;
use std::io::{Read, Write};

/// Checks the certificates of the file that the words of a command line name, or those of `reader` where they name
/// none. The first word is the program's name. Gives the exit status.
///
/// It is 0 where the proofs of all certificates hold, 1 where some don't, 2 where the bytes aren't certificates, memory
/// is refused or the words are, and 3 where a read or a write failed. The help and the version end with 0.
pub fn start<F: CertificateFiles, S: AsStr, R: Read, W: Write, E: Write>(
    files: &F,
    alloc: Global,
    words: &[S],
    reader: &mut R,
    writer: &mut W,
    errors: &mut E,
) -> u8
    ensures { IsExit F.holds R.remaining W.contents E.contents files.now reader.old writer.old writer.new
        errors.old errors.new (map S.text words.now) result }
{
    match file_of(alloc, words) {
        Ok(file) => check_file(files, alloc, file, reader, writer, errors),
        Err(error) => explain(&error, writer, errors),
    }
}

/// Checks the certificates of the file of this name, or those of the reader where there is no name.
fn check_file<F: CertificateFiles, R: Read, W: Write, E: Write>(
    files: &F,
    alloc: Global,
    file: Option<&str>,
    reader: &mut R,
    writer: &mut W,
    errors: &mut E,
) -> u8
    ensures { IsRun F.holds R.remaining W.contents E.contents files.now reader.old writer.old writer.new
        errors.old errors.new (option_map (λ name. name.now) file.entry) result }
{
    let Some(name) = file else {
        return report(alloc, "-", reader, writer, errors);
    };
    match files.open(name) {
        Ok(mut opened) => report(alloc, name, &mut opened, writer, errors),
        Err(error) => say_unread(&error, name, errors),
    }
}

/// Prints why the words name no file: the help and the version to `writer`, all else to `errors`. Gives the status.
fn explain<W: Write, E: Write>(error: &OptionsError, writer: &mut W, errors: &mut E) -> u8
    ensures status { EndsWith error.now result }
    ensures unprinted { result ≡ 2 → writer.new ≡ writer.old }
    ensures memory { error.now ≡ Memory → GrowsByFront (E.contents errors.old) (E.contents errors.new) memory_line }
{
    if let OptionsError::Memory = error {
        say_memory(errors);
        return 2;
    }
    error.print(writer, errors)
}
