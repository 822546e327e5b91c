//! What joins `mdbal --proofs` and `mdbal_check`.
ghost use Rattle.std.specs.Prelude.{◌≡◌, ◌≢◌, ◌≤◌, ◌⊎◌, [], ℕ, List, Option, Some};
ghost use Rattle.certificate_judge.specs.Judged.{GrowsByFront, IsJudged, memory_line};
ghost use Rattle.clap.specs.Words.{Text, fault_of};
ghost use Rattle.command_line.specs.CommandLine.{mdbal, proofs_of};
ghost use Rattle.script_engine.specs.Devices.{Reading};
ghost use Rattle.script_program.specs.Exit.{IsExit};

use std::io::{Read, Write};

/// What `mdbal --proofs FILE` leaves in the file, where it ends with 0 or 1, `mdbal_check FILE` doesn't refuse, if it
/// is anything: its status is 0, or 3 where its answers could not be written, or 2 where it ran out of memory.
pub fn certificates_are_judged_yes<R: Read, W: Write, E: Write>()
    ensures { (words : List Text) (holds : List ℕ → Option (List ℕ)) (status : ℕ) (read_before read_after : Reading R)
        (answers_before answers_after : Option (List ℕ)) (said_before said_after : E)
        → IsExit R.remaining E.contents read_before read_after answers_before answers_after said_before said_after
        holds words status → fault_of mdbal words ≡ [] → status ≤ 1
        → (name file : List ℕ) → proofs_of words ≡ Some name → holds name ≡ Some file → file ≢ []
        → (old new : W) (before after : E) (verdict : ℕ)
        → IsJudged W.contents E.contents file old new before after verdict
        → (verdict ≡ 0) ⊎ (verdict ≡ 3)
        ⊎ ((verdict ≡ 2) × GrowsByFront (E.contents before) (E.contents after) memory_line) }
{}
