//! The program over any devices: from the words of its command line to its exit status.
ghost use Rattle.std.specs.Prelude.{◌≡◌, map};
ghost use Rattle.drive_lines.specs.Outcomes.{IsDriveExit, IsRefusedExit, IsRunExit};

use crate::host::HostReader;
use crate::running::{drive_status, run};
use crate::settings::{DriveSettings, SettingsError, settings};
use std::alloc::Global;
use std::convert::AsStr;
use std::io::{Read, Write};

/// Drives a plan as the words of a command line say, and gives the exit status. The first word is the program's name.
///
/// The host's answers come from `host`, and the questions go to `writer`, as do the help and the version. Why a run
/// came to no end goes to `errors`.
pub fn start<S: AsStr, R: Read, W: Write, E: Write>(
    alloc: Global,
    words: &[S],
    host: &mut HostReader<R>,
    writer: &mut W,
    errors: &mut E,
) -> u8
    ensures { IsDriveExit R.remaining W.contents host.old host.new writer.old writer.new (map S.text words.now) result }
{
    match settings(alloc, words) {
        Ok(found) => drive_plan(alloc, found, host, writer, errors),
        Err(error) => explain(&error, writer, errors),
    }
}

/// Drives a plan by these settings, and says why it came to no end.
fn drive_plan<R: Read, W: Write, E: Write>(
    alloc: Global,
    found: DriveSettings,
    host: &mut HostReader<R>,
    writer: &mut W,
    errors: &mut E,
) -> u8
    ensures { IsRunExit R.remaining W.contents host.old host.new writer.old writer.new found result }
{
    let outcome = run(alloc, found.is_back, found.pace, host, writer);
    if let Err(error) = &outcome {
        let _ = writeln!(errors, "mdbal_drive: {error}");
    }
    drive_status(&outcome)
}

/// Prints why the words give no settings: the help and the version to `writer`, all else to `errors`. Gives the status.
fn explain<W: Write, E: Write>(error: &SettingsError, writer: &mut W, errors: &mut E) -> u8
    ensures { IsRefusedExit writer.old writer.new error.now result }
{
    match error {
        SettingsError::Words(error) => error.print(writer, errors),
        SettingsError::Value => {
            let _ = writeln!(
                errors,
                "mdbal_drive: the first word is set or restore, and options take whole numbers: see --help"
            );
            2
        }
    }
}
