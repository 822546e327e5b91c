//! What a run says on standard error.
ghost use Rattle.std.specs.Prelude.{◌++◌, codes};
ghost use Rattle.std.specs.Io.KnownBytes.{Appends};
ghost use Rattle.mdbal_ceph.specs.Messages.{IsCauseSaid, IsFileSaid, IsPlanSaid, IsReasonSaid, IsSaid, IsSaidAfter};
ghost use Rattle.mdbal_ceph.specs.Messages.{past_text};

use crate::no_result::{FileFault, NoPlan, NoResult, PastFault};
use ceph_pins::ScriptError;
use std::fmt::Display;
use std::io;
use std::io::Write;

/// Where a run says why it has no result.
pub trait Messages {
    ghost use Rattle.std.specs.Prelude.{ℕ, List, Option};
    ghost use Rattle.mdbal_ceph.specs.Messages.{SaysText};

    // The bytes that were said, where they are known.
    ghost said: { Self → Option (List ℕ) };

    /// Says this text.
    fn say<T: Display + Drop>(&mut self, text: T)
        ensures { SaysText (said self.old) (said self.new) (T.output text) };
}

/// Standard error. No contract says what it takes.
#[derive(Drop)]
pub struct SystemMessages<E> {
    /// The device.
    pub errors: E,
}

impl<E: Write> Messages for SystemMessages<E> {
    ghost use Rattle.std.specs.Prelude.{None};

    ghost said = { λ _. None };

    fn say<T: Display + Drop>(&mut self, text: T) {
        let _ = write!(self.errors, "{text}");
    }
}

/// Says what is wrong with a file.
fn say_fault<M: Messages>(messages: &mut M, fault: &FileFault)
    ensures { IsReasonSaid (M.said messages.old) (M.said messages.new) fault.now }
{
    match fault {
        FileFault::Device(error) => messages.say(format_args!("{error}")),
        FileFault::Missing => messages.say("there is no such file"),
        FileFault::NoFolder => messages.say("there is no such folder"),
        FileFault::Unfinished => {
            messages.say("there is no such file: ceph/collect did not finish");
        }
        FileFault::Refused(error) => messages.say(format_args!("{error}")),
        FileFault::Stored(error) => messages.say(format_args!("{error}")),
    }
}

/// Says why there is no plan.
fn say_no_plan<M: Messages>(messages: &mut M, why: &NoPlan)
    ensures { IsPlanSaid (M.said messages.old) (M.said messages.new) why.now }
{
    match why {
        NoPlan::BadMask => messages.say(
            "the cluster's mask isn't -1, all or 1 to 16 hexadecimal digits: give --mask",
        ),
        NoPlan::MaskWithoutZero => messages.say(
            "the cluster's mask lacks rank 0, which keeps the root directory: give --mask",
        ),
        NoPlan::ZeroNotActive => messages.say("rank 0 is not active: wait until it is"),
        NoPlan::Refused(error) => messages.say(format_args!("{error}")),
        NoPlan::Unwritable(ScriptError::Memory) => messages.say("no memory"),
        NoPlan::Unwritable(ScriptError::Nul) => {
            messages.say("a path or the mount has a NUL byte");
        }
        NoPlan::Unwritable(ScriptError::NoDirectory(row)) => messages.say(format_args!(
            "a change names directory {row}, which does not exist"
        )),
    }
}

/// Says what is wrong with an earlier hour of this name.
fn say_past<M: Messages>(messages: &mut M, name: &str, fault: &PastFault)
    ensures { Appends (M.said messages.old) (M.said messages.new) (past_text name.now fault.now) }
{
    match fault {
        PastFault::OtherFileSystem(system, fsid) => {
            messages.say(format_args!("{name}: another file system: {system} {fsid}"));
        }
        PastFault::NothingInCommon => {
            messages.say(format_args!("{name}: no directory that had heat then is there now"));
        }
    }
}

/// Says what is wrong with the file of this name.
fn say_file<M: Messages>(messages: &mut M, name: &str, fault: &FileFault)
    ensures { IsFileSaid (M.said messages.old) (M.said messages.new) name.now fault.now }
{
    messages.say(format_args!("{name}: "));
    say_fault(messages, fault);
}

/// Says that the file of this name can't be written, with the words of its device.
fn say_unwritten<M: Messages>(messages: &mut M, name: &str, error: &io::Error)
    ensures { IsSaidAfter (M.said messages.old) (M.said messages.new) (name.now ++ codes ": ") }
{
    messages.say(format_args!("{name}: "));
    messages.say(format_args!("{error}"));
}

/// Says that the text can't be printed, with the words of the device.
fn say_unprinted<M: Messages>(messages: &mut M, error: &io::Error)
    ensures { IsSaidAfter (M.said messages.old) (M.said messages.new) (codes "standard output: ") }
{
    messages.say("standard output: ");
    messages.say(format_args!("{error}"));
}

/// Says the cause.
fn say_cause<M: Messages>(messages: &mut M, error: &NoResult)
    ensures { IsCauseSaid (M.said messages.old) (M.said messages.new) error.now }
{
    match error {
        NoResult::Memory => messages.say("no memory"),
        NoResult::File(name, fault) => say_file(messages, name.as_str(), fault),
        NoResult::TooMany => messages.say("too many directories"),
        NoResult::Gathered(error) => messages.say(format_args!("{error}")),
        NoResult::Past(name, fault) => say_past(messages, name.as_str(), fault),
        NoResult::NoPlan(why) => say_no_plan(messages, why),
        NoResult::Unwritten(name, error) => say_unwritten(messages, name.as_str(), error),
        NoResult::Unprinted(error) => say_unprinted(messages, error),
    }
}

/// Says why a run has no result, in one line.
pub fn explain<M: Messages>(messages: &mut M, error: &NoResult)
    ensures { IsSaid (M.said messages.old) (M.said messages.new) error.now }
{
    messages.say("mdbal_ceph: ");
    say_cause(messages, error);
    messages.say("\n");
}
