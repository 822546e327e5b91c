//! Why a line isn't accepted, in words for people.

use crate::faults::{Form, LineFault};
use mds_types::Refusal;
use std::fmt;
use std::fmt::Write as _;

/// Why a line isn't accepted. It prints as a text for people, without a newline.
#[derive(Clone, Copy)]
pub enum Hint<'a> {
    /// It spells no command.
    Spelling(LineFault<'a>),
    /// A line of this form comes before `ranks`.
    NoRanks(Form),
    /// `ranks` was accepted already.
    RanksAgain(Form),
    /// A line of this form is refused, or the first of the requests and deposits that one refuses.
    Refused(Form, Refusal),
}

impl fmt::Display for Hint<'_> {
    fn fmt<W: fmt::Write>(&self, f: &mut fmt::Formatter<W>) -> fmt::Result {
        match *self {
            Hint::Spelling(fault) => write!(f, "{fault}"),
            Hint::NoRanks(form) => write!(f, "{form}: the ranks have to be set first"),
            Hint::RanksAgain(form) => write!(f, "{form}: the ranks are set already"),
            Hint::Refused(form, refusal) => {
                write!(f, "{form}: ")?;
                write_refusal(f, refusal)
            }
        }
    }
}

fn write_refusal<W: fmt::Write>(f: &mut fmt::Formatter<W>, refusal: Refusal) -> fmt::Result {
    match refusal {
        Refusal::Elsewhere(rank) => {
            let number = rank.number();
            write!(f, "rank {number} has the directory")
        }
        Refusal::Busy(export) => write!(f, "export {export}, which is open, has the directory"),
        Refusal::Frozen(export) => write!(f, "export {export} holds new requests back"),
        Refusal::NotYet(count) => write!(f, "requests that still run there: {count}"),
        Refusal::Late(stage) => {
            let word = stage.text();
            write!(
                f,
                "the export doesn't allow it while its exporter is {word}"
            )
        }
        Refusal::Stopped(rank) => {
            let number = rank.number();
            write!(f, "rank {number} is stopped")
        }
        _ => f.write_str(plain_reason(refusal)),
    }
}

// The reason for a refusal that has no value. One that no line gets is said by its name.
fn plain_reason(refusal: Refusal) -> &'static str {
    match refusal {
        Refusal::BadMask => "MASK must be -1, or 0x and 1 to 16 hexadecimal digits",
        Refusal::NoDir => "a directory of the path isn't there",
        Refusal::Exists => "the parent has a directory of this name",
        Refusal::BadName => {
            "a path is /, or names of 1 to 255 bytes with a / before each, and . and .. are no names"
        }
        Refusal::NotEmpty => "the directory has a child",
        Refusal::IsRoot => "the root can't be removed",
        Refusal::TreeFull => "all numbers for directories are given",
        Refusal::NoRank => "ranks 0 to N - 1 are active, for the N of `ranks`",
        Refusal::ShareFull => "the rank can count no more such hits on the directory",
        Refusal::NoExport => "no export has this number",
        Refusal::SameRank => "FROM and TO must differ",
        Refusal::NoMessage => "no message has this number",
        Refusal::NoTicket => "no request that runs has this ticket",
        Refusal::NotConnected => "the directories must be connected, and each named once",
        Refusal::ExportsFull => "all numbers for exports are given",
        Refusal::BalancerOff => "no mask is set, or it has no active rank",
        Refusal::HistoryFull => "the history is full",
        Refusal::Pinned => "a pin holds one of the directories",
        Refusal::NoThread => "the system gave no thread for a rank",
        Refusal::BadWeight => "READ and WRITE must be 1 to 16",
        _ => refusal.text(),
    }
}
