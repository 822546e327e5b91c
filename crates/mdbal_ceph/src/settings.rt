//! What the words of the command line ask for.
ghost use Rattle.std.specs.Prelude.{◌≡◌, ◌&&◌, ◌||◌, [], All, IfErr, IfOk, codes, is_some, length, map, nat_lt};
ghost use Rattle.clap.specs.Words.{fault_of, found_of, matches_of, rows_of};
ghost use Rattle.command_line.specs.Outcome.{Explains};
ghost use Rattle.mdbal_ceph.specs.CommandLine.{AreSettings, EndsAs, GivesNoSettings, GivesNone, mdbal_ceph};
ghost use Rattle.mdbal_ceph.specs.Exit.{IsRefusalSaid};
ghost use Rattle.mdbal_ceph.specs.Options.{AreRead, FitTogether, IsFlag, IsPastNamed, folders_named, least_named};
ghost use Rattle.mdbal_ceph.specs.Options.{parts_named, value_or};
ghost use Rattle.mdbal_ceph.specs.WrongValues.{AreRight, IsFirstWrong, IsRight, IsWrong, least_order, parts_order};
ghost use Rattle.mdbal_ceph.specs.WrongValues.{past_order, value_order};

use crate::answers::answer;
use crate::arguments::command;
use crate::matched::{folders_of, has_flag, value_of, value_or};
use crate::messages::Messages;
use crate::values::{
    count_of, heat_if_any, heat_of, hours_of, inodes_if_any, made_of, mask_of, mount_of, percent_of,
};
use crate::wrong_value::{ValueOption, WrongValue};
use ceph_plan::PartCount;
use clap::ArgMatches;
use command_line::OptionsError;
use mds_types::RankSet;
use std::alloc::Global;
use std::convert::AsStr;
use std::io::Write;

/// What a plan has to come to for a proposal. Heat is in thousandths.
#[derive(Clone, Copy)]
pub struct Least {
    /// The heat of the hottest rank. Where none is given, that of an idle rank for each rank that may have a part.
    pub heat: Option<u64>,
    /// By how many percent the hottest rank gets cooler.
    pub percent: u8,
    /// By how much heat it gets cooler for each thousand inodes that move.
    pub each_thousand: u64,
}

/// Which hours are planned for beside that of now.
#[derive(Drop)]
pub struct HoursAsked<'a> {
    /// The folders and the records of earlier hours, the oldest first.
    pub earlier: Vec<&'a str>,
    /// How many hours are chosen, with that of now, where more are given.
    pub hours: u8,
    /// How many hours are made for what was not seen, as far as 32 hours leave room.
    pub made: u8,
}

/// What the program is asked to do.
#[derive(Drop)]
pub struct PlanSettings<'a> {
    /// The folder that `ceph/collect` wrote now.
    pub folder: &'a str,
    /// The other hours.
    pub past: HoursAsked<'a>,
    /// Into how many parts the directories are divided.
    pub parts: PartCount,
    /// By how many percent a load may pass the greatest so that a part stays where it is.
    pub keep: u8,
    /// No more inodes than this are to move, where it is given.
    pub most_inodes: Option<u64>,
    /// The list of directories that are to be left where they are.
    pub leave: Option<&'a str>,
    /// The ranks that may have a part; where there is none, those of the cluster's own mask.
    pub mask: Option<RankSet>,
    /// The list of pins that this program set before.
    pub own: Option<&'a str>,
    /// The driver's plan or the list of pins that is compared with the cluster, and nothing is planned.
    pub check: Option<&'a str>,
    /// What a plan has to come to for a proposal.
    pub least: Least,
    /// Where the file system is mounted on the machine that sets the pins.
    pub mount: &'a str,
    /// Where the script that sets the pins goes.
    pub pins: Option<&'a str>,
    /// Whether that script pins subvolumes and their groups by Ceph's own commands.
    pub subvolumes: bool,
    /// Where the record of now goes, that stands for its folder in a later run.
    pub record_to: Option<&'a str>,
    /// Where the picture goes.
    pub svg: Option<&'a str>,
    /// Where the directories go as a script of `mdbal`.
    pub script: Option<&'a str>,
    /// Whether the report is JSON.
    pub is_json: bool,
    /// Whether only the paths of the directories are printed, and nothing is planned.
    pub paths0: bool,
}

/// Why the words give no settings.
#[derive(Drop)]
pub enum Refused {
    /// The words are refused, or ask for the help or the version, or memory was refused.
    Words(OptionsError),
    /// This value is wrong.
    Value(WrongValue),
    /// Earlier hours are given where only one folder is looked at.
    ManyFolders,
}

impl Refused {
    /// Says why: the help and the version go to `writer`, all else to `messages`. Gives the status: 0 for the help and
    /// the version, 1 where they can't be written, else 2.
    pub fn print<W: Write, M: Messages>(&self, writer: &mut W, messages: &mut M) -> u8
        ensures status { EndsAs self.now result }
        ensures unprinted { result ≡ 2 → writer.new ≡ writer.old }
        ensures said { IsRefusalSaid (M.said messages.old) (M.said messages.new) result self.now }
    {
        match self {
            Refused::Words(error) => answer(error, writer, messages),
            Refused::Value(wrong) => {
                let text = wrong.text();
                messages.say(format_args!("mdbal_ceph: {text}: see --help\n"));
                2
            }
            Refused::ManyFolders => {
                messages.say("mdbal_ceph: --check and --paths0 take one DIR: see --help\n");
                2
            }
        }
    }
}

/// What a plan has to come to.
fn least_of(matches: &ArgMatches<'_>) -> Result<Least, WrongValue>
    ensures least { IfOk result (λ least. least ≡ least_named (rows_of (found_of matches.now))) }
    ensures right { IfOk result (λ _. All (IsRight (rows_of (found_of matches.now))) least_order) }
    ensures wrong { IfErr result (IsFirstWrong (rows_of (found_of matches.now)) least_order) }
{
    let heat = heat_if_any(value_of(matches, "least-heat"), ValueOption::LeastHeat)?;
    let percent = percent_of(value_or(matches, "least-gain", "5"), ValueOption::LeastGain)?;
    let each_thousand = heat_of(
        value_or(matches, "least-by-inodes", "0"),
        ValueOption::LeastByInodes,
    )?;
    Ok(Least {
        heat,
        percent,
        each_thousand,
    })
}

/// The folder of now, and the other hours, where the words name these folders.
fn hours_asked<'a>(
    matches: &ArgMatches<'a>,
    folders: Vec<&'a str>,
) -> Result<(&'a str, HoursAsked<'a>), WrongValue>
    ensures past { map (λ text. text.now) folders.entry.items ≡ folders_named (rows_of (found_of matches.now))
        → IfOk result (λ asked. IsPastNamed (rows_of (found_of matches.now)) asked.0.now asked.1) }
    ensures right { map (λ text. text.now) folders.entry.items ≡ folders_named (rows_of (found_of matches.now))
        → IfOk result (λ _. All (IsRight (rows_of (found_of matches.now))) past_order) }
    ensures wrong { map (λ text. text.now) folders.entry.items ≡ folders_named (rows_of (found_of matches.now))
        → IfErr result (IsFirstWrong (rows_of (found_of matches.now)) past_order) }
{
    let mut earlier = folders;
    let Some(folder) = earlier.pop() else {
        return Err(WrongValue::NoFolder);
    };
    if folder.is_empty() {
        return Err(WrongValue::EmptyFolder);
    }
    let hours = hours_of(value_or(matches, "hours", "24"))?;
    let made = made_of(value_or(matches, "made", "0"))?;
    let past = HoursAsked {
        earlier,
        hours,
        made,
    };
    Ok((folder, past))
}

/// Whether earlier hours are given where only one folder is looked at.
fn has_needless_past(settings: &PlanSettings) -> bool
    ensures { result ≡ ((is_some settings.now.check || settings.now.paths0)
        && nat_lt 0 (length settings.now.past.earlier.items)) }
{
    (settings.check.is_some() || settings.paths0) && !settings.past.earlier.is_empty()
}

/// Into how many parts the directories are divided, where the other option names the most that `auto` tries.
fn parts_asked(matches: &ArgMatches<'_>) -> Result<PartCount, WrongValue>
    ensures parts { IfOk result (λ parts. parts
        ≡ parts_named (value_or (rows_of (found_of matches.now)) (codes "parts") (codes "auto"))
        (value_or (rows_of (found_of matches.now)) (codes "most-pins") (codes "10000"))) }
    ensures right { IfOk result (λ _. All (IsRight (rows_of (found_of matches.now))) parts_order) }
    ensures wrong { IfErr result (IsFirstWrong (rows_of (found_of matches.now)) parts_order) }
{
    let most = count_of(
        value_or(matches, "most-pins", "10000"),
        ValueOption::MostPins,
    )?;
    let text = value_or(matches, "parts", "auto");
    if text == "auto" {
        return Ok(PartCount::Auto(most));
    }
    let count = count_of(text, ValueOption::Parts)?;
    Ok(PartCount::AtMost(count))
}

/// Where the file system is mounted.
fn mount_asked<'a>(matches: &ArgMatches<'a>) -> Result<&'a str, WrongValue>
    ensures mount { IfOk result (λ mount. mount.now
        ≡ value_or (rows_of (found_of matches.now)) (codes "mount") (codes "/mnt/cephfs")) }
    ensures right { IfOk result (λ _. IsRight (rows_of (found_of matches.now)) (WrongValue.Of ValueOption.Mount)) }
    ensures wrong { IfErr result (λ wrong. (wrong ≡ WrongValue.Of ValueOption.Mount)
        × IsWrong (rows_of (found_of matches.now)) wrong) }
{
    mount_of(value_or(matches, "mount", "/mnt/cephfs"))
}

/// The settings that were found, where the words name these folders.
fn found<'a>(
    matches: &ArgMatches<'a>,
    folders: Vec<&'a str>,
) -> Result<PlanSettings<'a>, WrongValue>
    ensures read { map (λ text. text.now) folders.entry.items ≡ folders_named (rows_of (found_of matches.now))
        → IfOk result (AreRead (rows_of (found_of matches.now))) }
    ensures right { map (λ text. text.now) folders.entry.items ≡ folders_named (rows_of (found_of matches.now))
        → IfOk result (λ _. AreRight (rows_of (found_of matches.now))) }
    ensures wrong { map (λ text. text.now) folders.entry.items ≡ folders_named (rows_of (found_of matches.now))
        → IfErr result (IsFirstWrong (rows_of (found_of matches.now)) value_order) }
{
    let mask = mask_of(value_of(matches, "mask"))?;
    let parts = parts_asked(matches)?;
    let keep = percent_of(value_or(matches, "keep", "5"), ValueOption::Keep)?;
    let (folder, past) = hours_asked(matches, folders)?;
    let most_inodes = inodes_if_any(value_of(matches, "most-inodes"))?;
    let least = least_of(matches)?;
    let mount = mount_asked(matches)?;
    Ok(PlanSettings {
        folder,
        past,
        parts,
        keep,
        most_inodes,
        leave: value_of(matches, "leave"),
        mask,
        own: value_of(matches, "own"),
        check: value_of(matches, "check"),
        least,
        mount,
        pins: value_of(matches, "pins"),
        subvolumes: has_flag(matches, "subvolumes"),
        record_to: value_of(matches, "record"),
        svg: value_of(matches, "svg"),
        script: value_of(matches, "script"),
        is_json: has_flag(matches, "json"),
        paths0: has_flag(matches, "paths0"),
    })
}

/// The settings that were found, where they fit together.
fn fitting<'a>(matches: &ArgMatches<'a>, folders: Vec<&'a str>) -> Result<PlanSettings<'a>, Refused>
    ensures settings { map (λ text. text.now) folders.entry.items ≡ folders_named (rows_of (found_of matches.now))
        → IfOk result (λ settings. AreRead (rows_of (found_of matches.now)) settings × FitTogether settings) }
    ensures right { map (λ text. text.now) folders.entry.items ≡ folders_named (rows_of (found_of matches.now))
        → IfOk result (λ _. AreRight (rows_of (found_of matches.now))) }
    ensures wrong { map (λ text. text.now) folders.entry.items ≡ folders_named (rows_of (found_of matches.now))
        → IfErr result (GivesNone (rows_of (found_of matches.now))) }
{
    let settings = match found(matches, folders) {
        Ok(settings) => settings,
        Err(wrong) => return Err(Refused::Value(wrong)),
    };
    if has_needless_past(&settings) {
        return Err(Refused::ManyFolders);
    }
    Ok(settings)
}

/// What `clap` finds in the words.
fn found_in<'a, S: AsStr>(alloc: Global, words: &'a [S]) -> Result<ArgMatches<'a>, OptionsError>
    ensures accepted { IfOk result (λ _. fault_of mdbal_ceph (map S.text words.entry.now) ≡ []) }
    ensures found { IfOk result (λ m. rows_of (found_of m) ≡ matches_of mdbal_ceph (map S.text words.entry.now)) }
    ensures refused { IfErr result (Explains (fault_of mdbal_ceph (map S.text words.entry.now))) }
{
    let matches = command(alloc)?.try_get_matches_from(words)?;
    Ok(matches)
}

/// What the words of a command line ask for, of which the first is the program's name.
pub fn settings_of<'a, S: AsStr>(alloc: Global, words: &'a [S]) -> Result<PlanSettings<'a>, Refused>
    ensures accepted { IfOk result (λ _. fault_of mdbal_ceph (map S.text words.entry.now) ≡ []) }
    ensures settings { IfOk result (AreSettings (map S.text words.entry.now)) }
    ensures refused { IfErr result (GivesNoSettings (map S.text words.entry.now)) }
{
    let matches = match found_in(alloc, words) {
        Ok(matches) => matches,
        Err(error) => return Err(Refused::Words(error)),
    };
    let Ok(folders) = folders_of(alloc, &matches) else {
        return Err(Refused::Words(OptionsError::Memory));
    };
    let settings = fitting(&matches, folders)?;
    Ok(settings)
}
