//! `mdbal_check [FILE]`: reports whether the plans of certificates are best, by their proofs.
#![tactic(auto)]

use certificate_judge::{SystemFiles, start};
use std::process::ExitCode;
use std::{env, io};

/// The words of the command line. One that isn't UTF-8 is an error.
fn words(rt: &HostRuntime) -> io::Result<Vec<String>> {
    let words = env::args(rt)?.collect(rt.alloc())?;
    Ok(words)
}

fn main(rt: HostRuntime) -> ExitCode {
    let words: Vec<String> = match words(&rt) {
        Ok(words) => words,
        Err(error) => {
            let _ = eprintln!(rt; "mdbal_check: command line: {error}");
            return ExitCode::from(2);
        }
    };
    ExitCode::from(start(
        &SystemFiles { runtime: &rt },
        rt.alloc(),
        words.as_slice(),
        &mut rt.reader(),
        &mut io::writer(&rt),
        &mut rt.stderr(),
    ))
}
