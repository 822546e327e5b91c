//! What `clap`'s function makes of some lines that are written out.
ghost use Rattle.std.specs.Prelude.{◌≡◌, ◌∷◌, None, Some, [], codes, false, true};
ghost use Rattle.clap.specs.Words.{fault_of};
ghost use Rattle.clap.specs.declared.error.kind.ErrorKind.TheVariants.{DisplayHelp, DisplayVersion, ValueValidation};
ghost use Rattle.command_line.specs.CommandLine.{is_quiet, is_strict, limit_of, mdbal, proofs_of};

use mds_types::limits::DIR_LIMIT;

/// A line without options is accepted, with the greatest limit, and is neither strict nor quiet.
pub fn no_options()
    ensures accepted { fault_of mdbal (codes "mdbal" ∷ []) ≡ [] }
    ensures limit { limit_of (codes "mdbal" ∷ []) ≡ DIR_LIMIT }
    ensures strict { is_strict (codes "mdbal" ∷ []) ≡ false }
    ensures quiet { is_quiet (codes "mdbal" ∷ []) ≡ false }
{}

/// A line with both options is accepted, with the limit that it names, and is strict.
pub fn both_options()
    ensures accepted { fault_of mdbal (codes "mdbal" ∷ codes "--limit" ∷ codes "2" ∷ codes "--strict" ∷ []) ≡ [] }
    ensures limit { limit_of (codes "mdbal" ∷ codes "--limit" ∷ codes "2" ∷ codes "--strict" ∷ []) ≡ 2 }
    ensures strict { is_strict (codes "mdbal" ∷ codes "--limit" ∷ codes "2" ∷ codes "--strict" ∷ []) ≡ true }
{}

/// A line names the file for certificates, or none.
pub fn proofs_file()
    ensures accepted { fault_of mdbal (codes "mdbal" ∷ codes "--proofs" ∷ codes "plans" ∷ []) ≡ [] }
    ensures named { proofs_of (codes "mdbal" ∷ codes "--proofs" ∷ codes "plans" ∷ []) ≡ Some (codes "plans") }
    ensures none { proofs_of (codes "mdbal" ∷ []) ≡ None }
{}

/// A line with that option is accepted, and is quiet.
pub fn quiet_option()
    ensures accepted { fault_of mdbal (codes "mdbal" ∷ codes "--quiet" ∷ []) ≡ [] }
    ensures quiet { is_quiet (codes "mdbal" ∷ codes "--quiet" ∷ []) ≡ true }
{}

/// Limits are 1 to 65536.
pub fn limits()
    ensures least { fault_of mdbal (codes "mdbal" ∷ codes "--limit" ∷ codes "0" ∷ []) ≡ ValueValidation ∷ [] }
    ensures greatest { fault_of mdbal (codes "mdbal" ∷ codes "--limit" ∷ codes "65536" ∷ []) ≡ [] }
    ensures past { fault_of mdbal (codes "mdbal" ∷ codes "--limit" ∷ codes "65537" ∷ []) ≡ ValueValidation ∷ [] }
{}

/// A line that asks for the version has that as its one fault.
pub fn version()
    ensures { fault_of mdbal (codes "mdbal" ∷ codes "--version" ∷ []) ≡ DisplayVersion ∷ [] }
{}

/// A line that asks for help has that as its one fault.
pub fn help()
    ensures { fault_of mdbal (codes "mdbal" ∷ codes "--help" ∷ []) ≡ DisplayHelp ∷ [] }
{}
