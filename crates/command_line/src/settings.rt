//! The settings that the words of a command line give.
ghost use Rattle.std.specs.Prelude.{◌≡◌, false, ◌≤◌, [], IfErr, IfOk, map, option_map};
ghost use Rattle.clap.specs.Words.{app_of, fault_of, rule_of, with_rule};
ghost use Rattle.command_line.specs.CommandLine.{is_quiet, is_strict, limit_of, limit_rule, mdbal};
ghost use Rattle.command_line.specs.CommandLine.{proofs_of, proofs_rule, quiet_rule, strict_rule, versioned};
ghost use Rattle.command_line.specs.Outcome.{Explains};

use crate::options_error::OptionsError;
use clap::{Arg, ArgAction, Command, value_parser};
use mds_types::limits::DIR_LIMIT;
use std::alloc::{AllocError, Global};
use std::convert::AsStr;

/// The version that `--version` prints.
const VERSION: &str = "0.1.0";

/// The end of the help.
const AFTER_HELP: &str = "\
Commands of a script, one a line:
  ranks N           start a cluster of N active ranks, 1 to 64; the first command
  mask MASK         set the ranks that the balancer may use, as bal_rank_mask does
  dir PATH INODES   make a directory
  rmdir PATH        remove a directory that has no child
  pin PATH RANK     set the export pin of a directory; RANK -1 removes it
  load PATH HITS [KIND]
                    queue a request with that many hits: reads, or writes if KIND is w
  weight READ WRITE set how much a read and a write count, 1 to 16 each
  go                serve the queued requests
  tick              halve all heats
  cost [PATH ..]    print what the division at these directories costs
  plan              make, adopt and print a best plan
  move              move directories to the ranks of their pins and of the plan
  traffic           serve the queued requests while directories move
  stop RANK         stop a rank
  restart RANK      restart a rank
  fail RANK ROUND   stop a rank before a round of the next move or traffic
  stat              print a report on all directories
  start FROM TO [PATH ..]
                    start an export of these directories, from one rank to another
  deliver MESSAGE   deliver a message that was sent
  froze EXPORT      freeze the directories of an export
  notify EXPORT     make the map name the importer
  abort EXPORT      give an export up
  ask EXPORT        ask the exporter what became of an export
  begin RANK PATH   begin a request at a rank
  end TICKET        end a request
  export EXPORT     print an export, with its states and messages
  journal RANK      print what the journal of a rank has

Exit status:
  0  every line was accepted
  1  some line was faulty
  2  the command line was refused, or there was no memory to begin with
  3  a read or a write failed";

/// What the program is started with.
#[derive(Clone, Copy, Debug, PartialEq, Eq)]
pub struct Settings<'a> {
    /// How many directory numbers the tree may give, 1 to 65536.
    pub limit: u32,
    /// Whether the run ends with the first faulty line.
    pub strict: bool,
    /// The file that the certificates of the adopted plans are written to, if one is named.
    pub proofs: Option<&'a str>,
    /// Whether no hints are written on standard error for lines that aren't accepted.
    pub quiet: bool,
}

/// Reads the words of a command line, of which the first is the program's name.
///
/// `--limit N` takes 1 to 65536, which is also the limit where the words name none. `--strict` and
/// `--limit` may each be given once, and so may `--proofs FILE` and `--quiet`.
pub fn options<'a, S: AsStr>(alloc: Global, words: &'a [S]) -> Result<Settings<'a>, OptionsError>
    ensures accepted { IfOk result (λ _. fault_of mdbal (map S.text words.now) ≡ []) }
    ensures limit { IfOk result (λ s. s.limit ≡ limit_of (map S.text words.now)) }
    ensures within { IfOk result (λ s. (1 ≤ s.limit) × (s.limit ≤ DIR_LIMIT)) }
    ensures strict { IfOk result (λ s. s.strict ≡ is_strict (map S.text words.now)) }
    ensures proofs { IfOk result (λ s. option_map (λ file. file.now) s.proofs ≡ proofs_of (map S.text words.now)) }
    ensures quiet { IfOk result (λ s. s.quiet ≡ is_quiet (map S.text words.now)) }
    ensures refused { IfErr result (Explains (fault_of mdbal (map S.text words.now))) }
{
    let matches = command(alloc)?.try_get_matches_from(words)?;
    Ok(Settings {
        limit: matches.get_one::<u32>("limit").unwrap_or(DIR_LIMIT),
        strict: matches.get_flag("strict"),
        proofs: matches.get_str("proofs"),
        quiet: matches.get_flag("quiet"),
    })
}

fn limit_option<'a>(alloc: Global) -> Arg<'a>
    ensures rule { rule_of result ≡ limit_rule }
    ensures local { result.global ≡ false }
{
    Arg::new(alloc, "limit")
        .long("limit")
        .value_name("N")
        .value_parser(value_parser!(u32).range(1..=i64::from(DIR_LIMIT)))
        .help("Limit on directory numbers, 1 to 65536 (default: 65536)")
}

fn strict_flag<'a>(alloc: Global) -> Arg<'a>
    ensures rule { rule_of result ≡ strict_rule }
    ensures local { result.global ≡ false }
{
    Arg::new(alloc, "strict")
        .long("strict")
        .action(ArgAction::SetTrue)
        .value_parser(value_parser!(bool))
        .help("End the run with the first faulty line")
}

fn proofs_option<'a>(alloc: Global) -> Arg<'a>
    ensures rule { rule_of result ≡ proofs_rule }
    ensures local { result.global ≡ false }
{
    Arg::new(alloc, "proofs")
        .long("proofs")
        .value_name("FILE")
        .help("File to write the certificates of the adopted plans to; mdbal_check checks them")
}

fn quiet_flag<'a>(alloc: Global) -> Arg<'a>
    ensures rule { rule_of result ≡ quiet_rule }
    ensures local { result.global ≡ false }
{
    Arg::new(alloc, "quiet")
        .long("quiet")
        .action(ArgAction::SetTrue)
        .value_parser(value_parser!(bool))
        .help("Write no hints on standard error for lines that aren't accepted")
}

// The program's command with `--limit` and `--strict`.
fn limited_command<'a>(alloc: Global) -> Result<Command<'a>, AllocError>
    ensures { IfOk result (λ c. app_of c ≡ with_rule (with_rule versioned limit_rule) strict_rule) }
{
    Command::new(alloc, "mdbal")
        .version(VERSION)
        .about(
            "Carries out the script on standard input, and writes its answers to standard output",
        )
        .after_help(AFTER_HELP)
        .arg(limit_option(alloc))?
        .arg(strict_flag(alloc))
}

// The program's command, as `clap` knows it.
fn command<'a>(alloc: Global) -> Result<Command<'a>, AllocError>
    ensures { IfOk result (λ c. app_of c ≡ mdbal) }
{
    limited_command(alloc)?
        .arg(proofs_option(alloc))?
        .arg(quiet_flag(alloc))
}
