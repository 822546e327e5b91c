//! What the words of the command line ask for.
ghost use Rattle.std.specs.Prelude.{◌≡◌, ◌≢◌, [], Some, false, IfErr, IfOk, codes, map, option_map};
ghost use Rattle.clap.specs.Words.{app_of, fault_of, first_of, found_of, matches_of, rows_of, rule_of, with_rule};
ghost use Rattle.command_line.specs.Outcome.{Explains};
ghost use Rattle.drive_lines.specs.Settings.{IsRefusedBy, asked_settings, drive_app, found_settings, mdbal_drive};
ghost use Rattle.drive_lines.specs.Settings.{number_or, number_rule, settings_of, way_of, way_rule};

use crate::answers::answered_number;
use clap::{Arg, ArgMatches, Command};
use command_line::OptionsError;
use pin_driver::Pace;
use std::alloc::{AllocError, Global};
use std::convert::AsStr;

/// The version that `--version` prints.
const VERSION: &str = "0.1.0";

/// What `--help` prints first.
const ABOUT: &str =
    "Asks a host over standard input and output to set the export pins of a plan, or to restore those of \
                     before. Status 0: done; 1: text refused, or a device failed; 2: command line refused; 3: stopped \
                     before any pin was set; 4: stopped after";

/// What the program is asked to do.
#[derive(Clone, Copy, Debug)]
pub struct DriveSettings {
    /// Whether the pins of before are restored.
    pub is_back: bool,
    /// How much is changed at a time, and how long is waited.
    pub pace: Pace,
}

/// Why the words give no settings.
#[derive(Drop)]
pub enum SettingsError {
    /// The words are refused, or ask for the help or the version, or memory was refused.
    Words(OptionsError),
    /// The first word is neither `set` nor `restore`, or an option's value is no number below 2^64.
    Value,
}

fn way_argument<'a>(alloc: Global) -> Arg<'a>
    ensures rule { rule_of result ≡ way_rule }
    ensures local { result.global ≡ false }
{
    Arg::new(alloc, "way")
        .value_name("set|restore")
        .required(true)
        .help("Whether the pins of the plan are set, or those of before restored")
}

/// An option with a number.
fn number_option<'a>(
    alloc: Global,
    name: &'static str,
    value: &'static str,
    help: &'static str,
) -> Arg<'a>
    ensures rule { rule_of result ≡ number_rule name.now }
    ensures local { result.global ≡ false }
{
    Arg::new(alloc, name)
        .long(name)
        .value_name(value)
        .help(help)
}

/// The program's command with its first word, as `clap` knows it.
fn way_command<'a>(alloc: Global) -> Result<Command<'a>, AllocError>
    ensures { IfOk result (λ c. app_of c ≡ with_rule drive_app way_rule) }
{
    Command::new(alloc, "mdbal_drive")
        .version(VERSION)
        .about(ABOUT)
        .arg(way_argument(alloc))
}

/// The program's command, as `clap` knows it.
fn command<'a>(alloc: Global) -> Result<Command<'a>, AllocError>
    ensures { IfOk result (λ c. app_of c ≡ mdbal_drive) }
{
    way_command(alloc)?
        .arg(number_option(
            alloc,
            "batch-inodes",
            "N",
            "Wait until all is in place after the pins of this many inodes (default: 100000)",
        ))?
        .arg(number_option(
            alloc,
            "poll",
            "SECONDS",
            "Wait this long between two looks (default: 5)",
        ))?
        .arg(number_option(
            alloc,
            "longest-wait",
            "SECONDS",
            "Stop if a batch is not in place after this long (default: 600)",
        ))
}

/// Whether the pins are restored.
fn way_of(word: Option<&str>) -> Option<bool>
    ensures { result ≡ way_of (option_map (λ text. text.now) word.entry) }
{
    let word = word?;
    if word == "set" {
        Some(false)
    } else if word == "restore" {
        Some(true)
    } else {
        None
    }
}

/// The number of an option, or this one where the option isn't there.
fn number_or(other: u64, text: Option<&str>) -> Option<u64>
    ensures { result ≡ number_or other (option_map (λ text. text.now) text.entry) }
{
    match text {
        None => Some(other),
        Some(text) => answered_number(text.as_bytes()),
    }
}

/// The settings that these values give.
fn settings_of(
    way: Option<&str>,
    batch: Option<&str>,
    poll: Option<&str>,
    longest: Option<&str>,
) -> Option<DriveSettings>
    ensures { result ≡ settings_of (option_map (λ text. text.now) way.entry) (option_map (λ text. text.now) batch.entry)
        (option_map (λ text. text.now) poll.entry) (option_map (λ text. text.now) longest.entry) }
{
    let is_back = way_of(way)?;
    let batch_inodes = number_or(100000, batch)?;
    let poll_seconds = number_or(5, poll)?;
    let longest_wait = number_or(600, longest)?;
    Some(DriveSettings {
        is_back,
        pace: Pace {
            batch_inodes,
            poll_seconds,
            longest_wait,
        },
    })
}

/// The value of an argument, if it is there.
fn value_of<'a>(matches: &ArgMatches<'a>, name: &str) -> Option<&'a str>
    ensures { option_map (λ text. text.now) result ≡ first_of name.now (rows_of (found_of matches.now)) }
{
    matches.get_str(name)
}

/// The settings that were found.
fn found_settings(matches: &ArgMatches<'_>) -> Option<DriveSettings>
    ensures { result ≡ found_settings (rows_of (found_of matches.now)) }
{
    settings_of(
        value_of(matches, "way"),
        value_of(matches, "batch-inodes"),
        value_of(matches, "poll"),
        value_of(matches, "longest-wait"),
    )
}

/// What `clap` finds in the words.
fn found_in<'a, S: AsStr>(alloc: Global, words: &'a [S]) -> Result<ArgMatches<'a>, OptionsError>
    ensures accepted { IfOk result (λ _. fault_of mdbal_drive (map S.text words.entry.now) ≡ []) }
    ensures found { IfOk result (λ m. rows_of (found_of m) ≡ matches_of mdbal_drive (map S.text words.entry.now)) }
    ensures refused { IfErr result (Explains (fault_of mdbal_drive (map S.text words.entry.now))) }
{
    let matches = command(alloc)?.try_get_matches_from(words)?;
    Ok(matches)
}

/// What the words of a command line ask for. The first word is the program's name.
pub fn settings<S: AsStr>(alloc: Global, words: &[S]) -> Result<DriveSettings, SettingsError>
    ensures accepted { IfOk result (λ _. fault_of mdbal_drive (map S.text words.now) ≡ []) }
    ensures settings { IfOk result (λ found. asked_settings (map S.text words.now) ≡ Some found) }
    ensures refused { IfErr result (IsRefusedBy (map S.text words.now)) }
{
    match found_in(alloc, words) {
        Err(error) => Err(SettingsError::Words(error)),
        Ok(matches) => match found_settings(&matches) {
            Some(found) => Ok(found),
            None => Err(SettingsError::Value),
        },
    }
}
