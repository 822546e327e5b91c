//! The program over any files and devices: from the words of its command line to its exit status.
ghost use Rattle.std.specs.Prelude.{◌≡◌, ◌⊎◌, IfErr, IfOk, OnOk, map};
ghost use Rattle.std.specs.Io.KnownBytes.{Appends};
ghost use Rattle.mdbal_ceph.specs.Exit.{IsAskedFor, IsCutShort, IsExit, IsRun, IsUnprinted, Writes, files_made};
ghost use Rattle.mdbal_ceph.specs.Exit.{status_made, text_made};
ghost use Rattle.mdbal_ceph.specs.NotMade.{IsNotMade};

use crate::collected::read_named;
use crate::comparing::compared;
use crate::dump_reader::DumpReader;
use crate::files::carry_out;
use crate::folder::Folder;
use crate::inputs::Inputs;
use crate::messages::{Messages, explain};
use crate::no_result::NoResult;
use crate::outputs::{OutputFiles, write_files};
use crate::progress::Progress;
use crate::settings::{PlanSettings, settings_of};
use crate::writing::PlanOutput;
use ceph_report::PinCheck;
use std::alloc::Global;
use std::convert::AsStr;
use std::io::Write;

/// What a run makes.
#[derive(Drop)]
pub enum Made {
    /// How a plan or the pins of a list hold.
    Checked(PinCheck),
    /// The paths of directories.
    Named(Vec<u8>),
    /// A plan.
    Planned(PlanOutput),
}

impl Made {
    /// What is printed of it.
    fn text(&self) -> &[u8]
        ensures { result.now ≡ text_made self.now }
    {
        match self {
            Made::Checked(found) => &found.text,
            Made::Named(text) => text,
            Made::Planned(output) => &output.text,
        }
    }

    /// The status of the program.
    fn status(&self) -> u8
        ensures { result ≡ status_made self.now }
    {
        match self {
            Made::Checked(found) => found.status(),
            Made::Named(_) => 0,
            Made::Planned(output) => output.status(),
        }
    }
}

/// Makes what the settings ask for.
fn make<F: Folder, D: DumpReader, P: Progress>(
    inputs: &Inputs<'_, F, D, P>,
    settings: &PlanSettings,
) -> Result<Made, NoResult>
    ensures made { IfOk result (IsAskedFor (F.reads inputs.now.files.now) D.says settings.now) }
    ensures failed { IfErr result (IsNotMade (F.reads inputs.now.files.now) D.says D.refuses settings.now) }
{
    if let Some(name) = settings.check {
        let found = compared(inputs, settings.folder, name)?;
        return Ok(Made::Checked(found));
    }
    if settings.paths0 {
        let text = read_named(inputs, settings.folder, settings.own)?;
        return Ok(Made::Named(text));
    }
    let output = carry_out(inputs, settings)?;
    Ok(Made::Planned(output))
}

/// Writes the files of what was made.
fn write_made<O: OutputFiles>(
    outputs: &mut O,
    alloc: Global,
    settings: &PlanSettings,
    made: &Made,
) -> Result<(), NoResult>
    ensures whole { OnOk result (Writes (O.written outputs.old) (O.written outputs.new)
        (files_made settings.now made.now)) }
    ensures cut { IfErr result (IsCutShort (O.written outputs.old) (O.written outputs.new)
        (files_made settings.now made.now)) }
{
    if let Made::Planned(output) = made {
        write_files(outputs, alloc, settings, output)?;
    }
    Ok(())
}

/// Prints a text.
fn print<W: Write>(writer: &mut W, text: &[u8]) -> Result<(), NoResult>
    ensures text { OnOk result (Appends (W.contents writer.old) (W.contents writer.new) text.now) }
    ensures failed { IfErr result IsUnprinted }
{
    match writer.write_all(text) {
        Ok(()) => Ok(()),
        Err(error) => Err(NoResult::Unprinted(error)),
    }
}

/// Writes the files of what was made, and then prints its text.
fn deliver<O: OutputFiles, W: Write>(
    outputs: &mut O,
    writer: &mut W,
    alloc: Global,
    settings: &PlanSettings,
    made: &Made,
) -> Result<(), NoResult>
    ensures files { OnOk result (Writes (O.written outputs.old) (O.written outputs.new)
        (files_made settings.now made.now)) }
    ensures text { OnOk result (Appends (W.contents writer.old) (W.contents writer.new) (text_made made.now)) }
    ensures failed { IfErr result (λ error. (IsCutShort (O.written outputs.old) (O.written outputs.new)
        (files_made settings.now made.now) error × (writer.new ≡ writer.old))
        ⊎ (Writes (O.written outputs.old) (O.written outputs.new) (files_made settings.now made.now)
        × IsUnprinted error)) }
{
    write_made(outputs, alloc, settings, made)?;
    print(writer, made.text())?;
    Ok(())
}

/// Does what the settings ask for. Gives the status.
fn run<F: Folder, D: DumpReader, P: Progress, O: OutputFiles, W: Write, M: Messages>(
    inputs: &Inputs<'_, F, D, P>,
    outputs: &mut O,
    writer: &mut W,
    messages: &mut M,
    settings: &PlanSettings,
) -> u8
    ensures { IsRun (F.reads inputs.now.files.now) D.says D.refuses W.contents O.written M.said writer.old writer.new
        outputs.old outputs.new messages.old messages.new settings.now result }
{
    let made = match make(inputs, settings) {
        Ok(made) => made,
        Err(error) => {
            explain(messages, &error);
            return 1;
        }
    };
    match deliver(outputs, writer, inputs.alloc, settings, &made) {
        Ok(()) => made.status(),
        Err(error) => {
            explain(messages, &error);
            1
        }
    }
}

/// Does what the words of a command line ask for, of which the first is the program's name. Gives the status.
///
/// It is 0 where changes are proposed, where a driver's plan or the pins of a list hold, for a list of paths, and for
/// the help and the version; 1 where a file is missing, broken or can't be written, or there is no plan; 2 where the
/// words are refused; 3 where nothing is proposed; 4 where the driver's plan or a pin does not hold.
pub fn start<
    F: Folder,
    D: DumpReader,
    P: Progress,
    O: OutputFiles,
    S: AsStr,
    W: Write,
    M: Messages,
>(
    inputs: &Inputs<'_, F, D, P>,
    words: &[S],
    outputs: &mut O,
    writer: &mut W,
    messages: &mut M,
) -> u8
    ensures { IsExit (F.reads inputs.now.files.now) D.says D.refuses W.contents O.written M.said writer.old writer.new
        outputs.old outputs.new messages.old messages.new (map S.text words.now) result }
{
    match settings_of(inputs.alloc, words) {
        Ok(settings) => run(inputs, outputs, writer, messages, &settings),
        Err(refused) => refused.print(writer, messages),
    }
}
