//! The words that the command line may have, as `clap` knows them.
ghost use Rattle.std.specs.Prelude.{◌≡◌, IfOk, false, map};
ghost use Rattle.clap.specs.Words.{app_of, rule_of, with_rule};
ghost use Rattle.mdbal_ceph.specs.CommandLine.{folder_rule, mdbal_ceph, option_rule, option_rules};
ghost use Rattle.mdbal_ceph.specs.CommandLine.{plan_command, with_options};

use clap::{Arg, ArgAction, Command};
use std::alloc::{AllocError, Global};

/// The version that `--version` prints.
const VERSION: &str = "0.1.0";

/// An option.
#[derive(Clone, Copy)]
struct PlanOption {
    name: &'static str,
    /// The value where the option isn't there, if that has one.
    default: Option<&'static str>,
    /// How the help calls the value, if the option takes one.
    value: Option<&'static str>,
    help: &'static str,
}

/// The options, in the order of the help.
const OPTIONS: &[PlanOption] = &[
    PlanOption {
        name: "parts",
        default: Some("auto"),
        value: Some("auto|N"),
        help: "Into how many connected parts the directories are divided, 1 to 65535, or auto",
    },
    PlanOption {
        name: "most-pins",
        default: Some("10000"),
        value: Some("N"),
        help: "The most pins of this program that --parts auto leaves in the file system, 1 to 65535",
    },
    PlanOption {
        name: "mask",
        default: None,
        value: Some("MASK"),
        help: "The ranks that may have a part: all, --mask=-1 for all, too, or hexadecimal digits, as 0x3",
    },
    PlanOption {
        name: "own",
        default: None,
        value: Some("FILE"),
        help: "The list of pins that an earlier run wrote; they count as unpinned",
    },
    PlanOption {
        name: "check",
        default: None,
        value: Some("FILE"),
        help: "Plan nothing, and report how the cluster differs from this plan of a driver, or which pins of this \
               list are not set or do not hold",
    },
    PlanOption {
        name: "least-gain",
        default: Some("5"),
        value: Some("PERCENT"),
        help: "Propose nothing if the hottest rank gets cooler by less",
    },
    PlanOption {
        name: "least-heat",
        default: None,
        value: Some("HEAT"),
        help: "Propose nothing if the hottest rank has less heat; 4 for each rank where left out: half a read a second",
    },
    PlanOption {
        name: "least-by-inodes",
        default: Some("0"),
        value: Some("HEAT"),
        help: "Propose nothing if the hottest rank gets cooler by less for each thousand inodes that move",
    },
    PlanOption {
        name: "keep",
        default: Some("5"),
        value: Some("PERCENT"),
        help: "By how much the hottest rank may pass that of the coolest plan, so that fewer inodes move",
    },
    PlanOption {
        name: "most-inodes",
        default: None,
        value: Some("N"),
        help: "Propose the coolest plan of those that are tried that moves no more inodes",
    },
    PlanOption {
        name: "leave",
        default: None,
        value: Some("FILE"),
        help: "A list of directories, one a line: none of them moves, nor anything below or above them",
    },
    PlanOption {
        name: "hours",
        default: Some("24"),
        value: Some("N"),
        help: "How many hours are planned for, with that of now, where more DIRs are given, 1 to 32",
    },
    PlanOption {
        name: "made",
        default: Some("0"),
        value: Some("N"),
        help: "How many hours are made for load that was not seen, 0 to 31, as far as 32 hours leave room: in each, \
               half of the load lies below one directory",
    },
    PlanOption {
        name: "record",
        default: None,
        value: Some("FILE"),
        help: "Write the heat of the last DIR to FILE, which stands for that DIR in later runs",
    },
    PlanOption {
        name: "mount",
        default: Some("/mnt/cephfs"),
        value: Some("PATH"),
        help: "Where the file system is mounted on the machine that sets the pins",
    },
    PlanOption {
        name: "pins",
        default: None,
        value: Some("FILE"),
        help: "Write a shell script that sets the pins to FILE, one that restores the pins of now to FILE.back, the \
               list of the pins to FILE.own, and the changes for a driver of pins to FILE.plan",
    },
    PlanOption {
        name: "subvolumes",
        default: None,
        value: None,
        help: "Let the script of --pins call `ceph fs subvolume pin` and `ceph fs subvolumegroup pin` for directories \
               of /volumes, which needs no mount",
    },
    PlanOption {
        name: "svg",
        default: None,
        value: Some("FILE"),
        help: "Write a picture of the directories, as SVG",
    },
    PlanOption {
        name: "script",
        default: None,
        value: Some("FILE"),
        help: "Write the directories as a script of mdbal",
    },
    PlanOption {
        name: "json",
        default: None,
        value: None,
        help: "Print the plan as JSON in place of the report",
    },
    PlanOption {
        name: "paths0",
        default: None,
        value: None,
        help: "Plan nothing, and print a dot, the path and a NUL of each directory of the dumps and of --own",
    },
];

/// The options.
fn options() -> &'static [PlanOption]
    ensures { map option_rule result.now ≡ option_rules }
{
    OPTIONS
}

/// An option, as `clap` knows it.
fn option_arg<'a>(alloc: Global, option: PlanOption) -> Arg<'a>
    ensures rule { rule_of result ≡ option_rule option }
    ensures local { result.global ≡ false }
{
    let arg = Arg::new(alloc, option.name)
        .long(option.name)
        .help(option.help);
    match (option.value, option.default) {
        (None, _) => arg.action(ArgAction::SetTrue),
        (Some(value), None) => arg.value_name(value),
        (Some(value), Some(default)) => arg.value_name(value).default_value(default),
    }
}

/// The folder, as `clap` knows it.
fn folder_arg<'a>(alloc: Global) -> Arg<'a>
    ensures rule { rule_of result ≡ folder_rule }
    ensures local { result.global ≡ false }
{
    Arg::new(alloc, "folder")
        .value_name("DIR")
        .required(true)
        .action(ArgAction::Append)
        .help(
            "What ceph/collect wrote: the last is now, those before are earlier hours or their records, oldest first",
        )
}

/// The program's command without its arguments, as `clap` knows it.
fn plain_command<'a>(alloc: Global) -> Command<'a>
    ensures { app_of result ≡ plan_command }
{
    Command::new(alloc, "mdbal_ceph").version(VERSION).about(
        "Plans export pins that balance a live CephFS. Status 0: changes are proposed; 1: a file is missing, broken \
         or can't be written, or there is no plan; 2: the command line is refused; 3: nothing is proposed; 4: the plan \
         or a pin of --check does not hold",
    )
}

/// The command with one more option.
fn with_option<'a>(
    alloc: Global,
    command: Command<'a>,
    option: PlanOption,
) -> Result<Command<'a>, AllocError>
    ensures { IfOk result (λ c. app_of c ≡ with_rule (app_of command.entry) (option_rule option)) }
{
    command.arg(option_arg(alloc, option))
}

/// The command with these options.
fn with_options<'a>(
    alloc: Global,
    command: Command<'a>,
    options: &'static [PlanOption],
) -> Result<Command<'a>, AllocError>
    ensures { IfOk result (λ c. app_of c ≡ with_options (app_of command.entry) options.now) }
{
    let mut command = command;
    for at in 0..options.len() {
        command = with_option(alloc, command, options[at])?;
    }
    Ok(command)
}

/// The program's command, as `clap` knows it.
pub fn command<'a>(alloc: Global) -> Result<Command<'a>, AllocError>
    ensures { IfOk result (λ c. app_of c ≡ mdbal_ceph) }
{
    let command = plain_command(alloc).arg(folder_arg(alloc))?;
    with_options(alloc, command, options())
}
