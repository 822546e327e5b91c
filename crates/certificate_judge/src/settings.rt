//! What the words of the command line ask for.
ghost use Rattle.std.specs.Prelude.{◌≡◌, [], false, IfErr, IfOk, map, option_map};
ghost use Rattle.certificate_judge.specs.CommandLine.{file_of, file_rule, mdbal_check, unless_dash};
ghost use Rattle.clap.specs.Words.{app_of, fault_of, rule_of};
ghost use Rattle.command_line.specs.Outcome.{Explains};

use clap::{Arg, Command};
use command_line::OptionsError;
use std::alloc::{AllocError, Global};
use std::convert::AsStr;

/// The version that `--version` prints.
const VERSION: &str = "0.1.0";

/// What `--help` prints first.
const ABOUT: &str =
    "Checks certificates by their proofs. Status 0: all hold; 1: some don't; 2: malformed; 3: read or write failed";

fn file_argument<'a>(alloc: Global) -> Arg<'a>
    ensures rule { rule_of result ≡ file_rule }
    ensures local { result.global ≡ false }
{
    Arg::new(alloc, "file").value_name("FILE").help(
        "Certificates as mdbal writes them; standard input where it is - or left out",
    )
}

/// The program's command, as `clap` knows it.
fn command<'a>(alloc: Global) -> Result<Command<'a>, AllocError>
    ensures { IfOk result (λ c. app_of c ≡ mdbal_check) }
{
    Command::new(alloc, "mdbal_check")
        .version(VERSION)
        .about(ABOUT)
        .arg(file_argument(alloc))
}

/// The file that the words of a command line name, or none for standard input. The first word is the program's name.
pub fn file_of<'a, S: AsStr>(alloc: Global, words: &'a [S]) -> Result<Option<&'a str>, OptionsError>
    ensures accepted { IfOk result (λ _. fault_of mdbal_check (map S.text words.now) ≡ []) }
    ensures file { IfOk result (λ file. option_map (λ name. name.now) file ≡ file_of (map S.text words.now)) }
    ensures refused { IfErr result (Explains (fault_of mdbal_check (map S.text words.now))) }
{
    let matches = command(alloc)?.try_get_matches_from(words)?;
    Ok(unless_dash(matches.get_str("file")))
}

/// No file where the name is a dash.
fn unless_dash(named: Option<&str>) -> Option<&str>
    ensures { option_map (λ name. name.now) result ≡ unless_dash (option_map (λ name. name.now) named.entry) }
{
    match named {
        Some(name) if name != "-" => Some(name),
        _ => None,
    }
}
