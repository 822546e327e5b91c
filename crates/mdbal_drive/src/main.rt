//! `mdbal_drive set|restore`: asks a host over standard input and output to set the export pins of a plan, or to
//! restore those of before.
#![tactic(auto)]

use drive_lines::{HostReader, start};
use script_engine::Output;
use std::process::ExitCode;
use std::{env, io};

/// The words of the command line. One that isn't UTF-8 is an error.
fn words(rt: &HostRuntime) -> io::Result<Vec<String>> {
    let words = env::args(rt)?.collect(rt.alloc())?;
    Ok(words)
}

fn main(rt: HostRuntime) -> ExitCode {
    let words: Vec<String> = match words(&rt) {
        Ok(words) => words,
        Err(error) => {
            let _ = eprintln!(rt; "mdbal_drive: command line: {error}");
            return ExitCode::from(2);
        }
    };
    let (mut host, mut output) = (HostReader::new(rt.reader()), Output::new(io::writer(&rt)));
    ExitCode::from(start(
        rt.alloc(),
        words.as_slice(),
        &mut host,
        &mut output,
        &mut rt.stderr(),
    ))
}
