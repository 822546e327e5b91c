//! `mdbal_ceph [options] DIR ..`: reads what `ceph/collect` wrote of a live CephFS, and says which export pins balance
//! it.
#![tactic(auto)]

mod answers;
mod arguments;
mod collected;
mod comparing;
mod driver_plan;
mod dump_reader;
mod files;
mod folder;
mod hours;
mod input;
mod inputs;
mod laws;
mod matched;
mod messages;
mod named;
mod no_result;
mod outcome;
mod outputs;
mod past;
mod planning;
mod progress;
mod running;
mod settings;
mod source;
mod values;
mod writing;
mod wrong_value;

use dump_reader::CephDumps;
use folder::SystemFolder;
use inputs::Inputs;
use messages::SystemMessages;
use outputs::SystemOutputs;
use progress::ProgressLines;
use running::start;
use std::process::ExitCode;
use std::{env, io};

/// The words of the command line. One that isn't UTF-8 is an error.
fn words(rt: &HostRuntime) -> io::Result<Vec<String>> {
    let words = env::args(rt)?.collect(rt.alloc())?;
    Ok(words)
}

/// Does what these words ask for. Gives the status.
fn done(rt: &HostRuntime, words: &[String]) -> u8 {
    let inputs = Inputs {
        files: &SystemFolder { runtime: rt },
        reader: CephDumps,
        progress: &ProgressLines::new(rt, rt.stderr()),
        alloc: rt.alloc(),
    };
    let mut outputs = SystemOutputs { runtime: rt };
    let mut messages = SystemMessages {
        errors: rt.stderr(),
    };
    start(
        &inputs,
        words,
        &mut outputs,
        &mut io::writer(rt),
        &mut messages,
    )
}

fn main(rt: HostRuntime) -> ExitCode {
    let words: Vec<String> = match words(&rt) {
        Ok(words) => words,
        Err(error) => {
            let _ = eprintln!(rt; "mdbal_ceph: command line: {error}");
            return ExitCode::from(2);
        }
    };
    ExitCode::from(done(&rt, words.as_slice()))
}
