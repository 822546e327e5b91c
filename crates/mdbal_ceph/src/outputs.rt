//! The files that are written.
ghost use Rattle.std.specs.Prelude.{◌≡◌, ◌++◌, ◌∷◌, [], IfErr, IfOk, OnOk, Some, string_bytes};
ghost use Rattle.std.specs.Option.{option_map};
ghost use Rattle.mdbal_ceph.specs.Exit.{IsCutShort, Whole, Writes, pins_files, plan_files, shown_files, text_files};

use crate::no_result::{NoResult, unwritten};
use crate::settings::PlanSettings;
use crate::writing::{PinFiles, PlanOutput};
use command_line::create_file;
use std::alloc::{AllocError, Global};
use std::io;
use std::io::Write;
use std::rt::Files;

/// Where files are written.
pub trait OutputFiles {
    ghost use Rattle.std.specs.Prelude.{◌∷◌, [], ℕ, List, Option, OnErr, OnOk};
    ghost use Rattle.mdbal_ceph.specs.Exit.{FileWrite, IsFrontLeft, Whole, Writes};

    // What was written, in its order, where it is known.
    ghost written: { Self → Option (List FileWrite) };

    /// Makes a file of this name, or empties the one that is there, and writes these bytes to it.
    fn write_file(&mut self, name: &str, bytes: &[u8]) -> io::Result<()>
        ensures whole { OnOk result (Writes (written self.old) (written self.new) (Whole name.now bytes.now ∷ [])) }
        ensures cut { OnErr result (IsFrontLeft (written self.old) (written self.new) [] name.now) };
}

/// The files of the system. No contract says what they hold afterwards.
#[derive(Clone, Copy, Drop)]
pub struct SystemOutputs<'a, T> {
    /// The system.
    pub runtime: &'a T,
}

impl<T: Files> OutputFiles for SystemOutputs<'_, T> {
    ghost use Rattle.std.specs.Prelude.{None};

    ghost written = { λ _. None };

    fn write_file(&mut self, name: &str, bytes: &[u8]) -> io::Result<()> {
        let mut made = create_file(self.runtime, name)?;
        made.write_all(bytes)?;
        Ok(())
    }
}

/// Writes a file.
fn write_file<O: OutputFiles>(
    outputs: &mut O,
    alloc: Global,
    name: &str,
    bytes: &[u8],
) -> Result<(), NoResult>
    ensures whole { OnOk result (Writes (O.written outputs.old) (O.written outputs.new)
        (Whole name.now bytes.now ∷ [])) }
    ensures cut { IfErr result (IsCutShort (O.written outputs.old) (O.written outputs.new)
        (Whole name.now bytes.now ∷ [])) }
{
    match outputs.write_file(name, bytes) {
        Ok(()) => Ok(()),
        Err(error) => Err(unwritten(alloc, name, error)),
    }
}

/// A name with these letters after it.
fn with_ending(alloc: Global, name: &str, ending: &str) -> Result<String, AllocError>
    ensures { IfOk result (λ made. string_bytes made ≡ name.now ++ ending.now) }
{
    format!(in alloc; "{name}{ending}")
}

/// Writes the files of `--pins`. The script comes last, so that the others are there once it is.
fn write_pin_files<O: OutputFiles>(
    outputs: &mut O,
    alloc: Global,
    name: &str,
    pins: &PinFiles,
) -> Result<(), NoResult>
    ensures whole { OnOk result (Writes (O.written outputs.old) (O.written outputs.new)
        (pins_files (Some name.now) (Some pins.now))) }
    ensures cut { IfErr result (IsCutShort (O.written outputs.old) (O.written outputs.new)
        (pins_files (Some name.now) (Some pins.now))) }
{
    let own = with_ending(alloc, name, ".own")?;
    let plan = with_ending(alloc, name, ".plan")?;
    let back = with_ending(alloc, name, ".back")?;
    write_file(outputs, alloc, own.as_str(), pins.own.as_slice())?;
    write_file(outputs, alloc, plan.as_str(), pins.plan.as_slice())?;
    write_file(outputs, alloc, back.as_str(), pins.back.as_slice())?;
    write_file(outputs, alloc, name, pins.script.as_slice())?;
    Ok(())
}

/// Writes the files of `--pins`, where it is given.
fn write_pins<O: OutputFiles>(
    outputs: &mut O,
    alloc: Global,
    name: Option<&str>,
    pins: &Option<PinFiles>,
) -> Result<(), NoResult>
    ensures whole { OnOk result (Writes (O.written outputs.old) (O.written outputs.new)
        (pins_files (option_map (λ name. name.now) name.entry) pins.now)) }
    ensures cut { IfErr result (IsCutShort (O.written outputs.old) (O.written outputs.new)
        (pins_files (option_map (λ name. name.now) name.entry) pins.now)) }
{
    let Some(name) = name else {
        return Ok(());
    };
    let Some(pins) = pins else {
        return Ok(());
    };
    write_pin_files(outputs, alloc, name, pins)?;
    Ok(())
}

/// Writes a text to a file, where both are there.
fn write_text<O: OutputFiles>(
    outputs: &mut O,
    alloc: Global,
    name: Option<&str>,
    text: &Option<Vec<u8>>,
) -> Result<(), NoResult>
    ensures whole { OnOk result (Writes (O.written outputs.old) (O.written outputs.new)
        (text_files (option_map (λ name. name.now) name.entry) text.now)) }
    ensures cut { IfErr result (IsCutShort (O.written outputs.old) (O.written outputs.new)
        (text_files (option_map (λ name. name.now) name.entry) text.now)) }
{
    let Some(name) = name else {
        return Ok(());
    };
    let Some(text) = text else {
        return Ok(());
    };
    write_file(outputs, alloc, name, text.as_slice())?;
    Ok(())
}

/// Writes the record and the picture, where they are asked for.
fn write_texts<O: OutputFiles>(
    outputs: &mut O,
    alloc: Global,
    settings: &PlanSettings,
    output: &PlanOutput,
) -> Result<(), NoResult>
    ensures whole { OnOk result (Writes (O.written outputs.old) (O.written outputs.new)
        (shown_files settings.now output.now)) }
    ensures cut { IfErr result (IsCutShort (O.written outputs.old) (O.written outputs.new)
        (shown_files settings.now output.now)) }
{
    write_text(outputs, alloc, settings.record_to, &output.hour_record)?;
    write_text(outputs, alloc, settings.svg, &output.picture)?;
    Ok(())
}

/// Writes the files of a plan that are asked for.
pub(crate) fn write_files<O: OutputFiles>(
    outputs: &mut O,
    alloc: Global,
    settings: &PlanSettings,
    output: &PlanOutput,
) -> Result<(), NoResult>
    ensures whole { OnOk result (Writes (O.written outputs.old) (O.written outputs.new)
        (plan_files settings.now output.now)) }
    ensures cut { IfErr result (IsCutShort (O.written outputs.old) (O.written outputs.new)
        (plan_files settings.now output.now)) }
{
    write_texts(outputs, alloc, settings, output)?;
    write_text(outputs, alloc, settings.script, &output.script)?;
    write_pins(outputs, alloc, settings.pins, &output.pins)?;
    Ok(())
}
