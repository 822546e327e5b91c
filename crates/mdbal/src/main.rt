//! `mdbal [--limit N] [--strict] [--proofs FILE] [--quiet]`: reads a script on standard input, and writes the answers
//! to standard output.
#![tactic(auto)]

use script_engine::{Input, Output};
use script_program::{SystemProofs, start};
use std::process::ExitCode;
use std::{env, io};

/// The words of the command line. One that isn't UTF-8 is an error.
fn words(rt: &HostRuntime) -> io::Result<Vec<String>> {
    let words = env::args(rt)?.collect(rt.alloc())?;
    Ok(words)
}

fn main(rt: HostRuntime) -> ExitCode {
    let words: Vec<String> = match words(&rt) {
        Ok(words) => words,
        Err(error) => {
            let _ = eprintln!(rt; "mdbal: command line: {error}");
            return ExitCode::from(2);
        }
    };
    let (mut input, mut output) = (Input::new(rt.reader()), Output::new(io::writer(&rt)));
    ExitCode::from(start(
        &rt,
        rt.alloc(),
        words.as_slice(),
        &mut SystemProofs { runtime: &rt },
        &mut input,
        &mut output,
        &mut rt.stderr(),
    ))
}
