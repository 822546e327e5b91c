//! What answers words that give no settings.
ghost use Rattle.std.specs.Prelude.{◌≡◌, ◌⊎◌};
ghost use Rattle.mdbal_ceph.specs.CommandLine.{AnswersAs};
ghost use Rattle.mdbal_ceph.specs.Exit.{IsAnswerSaid, IsHelpSaid};

use crate::messages::{Messages, explain};
use crate::no_result::NoResult;
use command_line::OptionsError;
use std::io::Write;

/// Prints the help or the version. Gives the status.
fn print_answer<W: Write, M: Messages>(error: &OptionsError, writer: &mut W, messages: &mut M) -> u8
    ensures status { (result ≡ 0) ⊎ (result ≡ 1) }
    ensures unprinted { result ≡ 2 → writer.new ≡ writer.old }
    ensures said { IsHelpSaid (M.said messages.old) (M.said messages.new) result }
{
    match write!(writer, "{error}") {
        Ok(()) => 0,
        Err(error) => {
            explain(messages, &NoResult::Unprinted(error));
            1
        }
    }
}

/// Answers words that ask for the help or the version, or that are refused. Gives the status.
pub(crate) fn answer<W: Write, M: Messages>(
    error: &OptionsError,
    writer: &mut W,
    messages: &mut M,
) -> u8
    ensures status { AnswersAs error.now result }
    ensures unprinted { result ≡ 2 → writer.new ≡ writer.old }
    ensures said { IsAnswerSaid (M.said messages.old) (M.said messages.new) result error.now }
{
    match error {
        OptionsError::Memory => {
            messages.say("mdbal_ceph: no memory\n");
            2
        }
        OptionsError::Refused(error) => {
            messages.say(format_args!("{error}"));
            2
        }
        OptionsError::Help(_) => print_answer(error, writer, messages),
        OptionsError::Version(_) => print_answer(error, writer, messages),
    }
}
