//! What `clap` found in the words, option by option.
ghost use Rattle.std.specs.Prelude.{◌≡◌, IfOk, map};
ghost use Rattle.std.specs.Option.{option_map};
ghost use Rattle.clap.specs.Words.{first_of, found_of, rows_of};
ghost use Rattle.mdbal_ceph.specs.Options.{IsFlag, folders_named, value_or};

use clap::ArgMatches;
use std::alloc::{AllocError, Global};

/// The value of an option, if it is there or has a default.
pub(crate) fn value_of<'a>(matches: &ArgMatches<'a>, option: &str) -> Option<&'a str>
    ensures { option_map (λ text. text.now) result ≡ first_of option.now (rows_of (found_of matches.now)) }
{
    matches.get_str(option)
}

/// Whether the words have this option, which takes no value.
pub(crate) fn has_flag(matches: &ArgMatches<'_>, option: &str) -> bool
    ensures { IsFlag (rows_of (found_of matches.now)) option.now result }
{
    matches.get_flag(option)
}

/// The value of an option, or this text where the option isn't there.
pub(crate) fn value_or<'a>(matches: &ArgMatches<'a>, option: &str, other: &'static str) -> &'a str
    ensures { result.now ≡ value_or (rows_of (found_of matches.now)) option.now other.now }
{
    match value_of(matches, option) {
        Some(value) => value,
        None => other,
    }
}

/// The folders and records that the words name, in their order.
pub(crate) fn folders_of<'a>(
    alloc: Global,
    matches: &ArgMatches<'a>,
) -> Result<Vec<&'a str>, AllocError>
    ensures { IfOk result (λ folders. map (λ text. text.now) folders.items
        ≡ folders_named (rows_of (found_of matches.now))) }
{
    match matches.get_strs("folder") {
        Some(folders) => Vec::from_slice(alloc, folders),
        None => Ok(Vec::new(alloc)),
    }
}
