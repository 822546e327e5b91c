//! Why a file was not judged.

use plan_text::ReadError;
use std::alloc::AllocError;
use std::io;

/// Why a file was not judged.
#[derive(Debug, Drop)]
pub enum JudgeError {
    /// A read failed.
    Read(io::Error),
    /// What was read isn't certificates, or memory was refused.
    Text(ReadError),
}

impl From<io::Error> for JudgeError {
    ghost use Rattle.std.specs.Prelude.{◌≡◌};
    ghost use Rattle.certificate_judge.specs.declared.judge_error.JudgeError.TheVariants.{Read};

    ghost from_gives = { λ error made. made ≡ Read error };

    fn from(error: io::Error) -> JudgeError {
        JudgeError::Read(error)
    }
}

impl From<AllocError> for JudgeError {
    ghost use Rattle.std.specs.Prelude.{◌≡◌};
    ghost use Rattle.certificate_judge.specs.declared.judge_error.JudgeError.TheVariants.{Text};
    ghost use Rattle.plan_text.specs.declared.read_error.ReadError.TheVariants.{Memory};

    ghost from_gives = { λ _ made. made ≡ Text Memory };

    fn from(_: AllocError) -> JudgeError {
        JudgeError::Text(ReadError::Memory)
    }
}
