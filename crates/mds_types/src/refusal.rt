//! The numbered refusals, and what is printed for each: number, name, and the value where there is
//! one, as `19 Busy 4`.
//!
//! This is the one place that has a number's text. The errors of the crates print by it. A number
//! never changes its meaning and is never used again.
ghost use Rattle.std.specs.Prelude.{◌≡◌, Some};
ghost use Rattle.std.specs.Fmt.{DisplaysOnOk};
ghost use Rattle.mds_types.specs.Refusal.{name, stage_word, value, value_of};

use crate::rank::Rank;
use std::fmt;

/// How far an export has come at its exporter.
#[derive(Clone, Copy, Debug, PartialEq, Eq)]
pub enum ExportStage {
    Discovering,
    Freezing,
    Preparing,
    Exporting,
    Logged,
    Done,
    Aborted,
}

impl ExportStage {
    /// Its word, as it is printed.
    pub fn text(self) -> &'static str
        ensures { result.now ≡ stage_word self }
    {
        match self {
            ExportStage::Discovering => "discovering",
            ExportStage::Freezing => "freezing",
            ExportStage::Preparing => "preparing",
            ExportStage::Exporting => "exporting",
            ExportStage::Logged => "logged",
            ExportStage::Done => "done",
            ExportStage::Aborted => "aborted",
        }
    }
}

/// Why a call was refused, which left everything as it was.
#[derive(Clone, Copy, Debug, PartialEq, Eq)]
pub enum Refusal {
    /// The allocator refused a growth.
    Memory,
    /// The text is not a mask.
    BadMask,
    /// This row doesn't name a smaller row, or row 0 doesn't name itself.
    BadParent(u32),
    /// This row is hotter than a directory can be.
    TooHot(u32),
    /// There are more rows than directories can be.
    TooMany,
    /// The set of ranks is empty.
    NoRanks,
    /// There is no such directory.
    NoDir,
    /// The parent has a child of that name.
    Exists,
    /// The text is no name, or no path.
    BadName,
    /// The directory has a child.
    NotEmpty,
    /// The root can't be removed.
    IsRoot,
    /// All directory numbers were given.
    TreeFull,
    /// The number is no active rank's.
    NoRank,
    /// The share has counted as many hits on the directory as it can.
    ShareFull,
    /// Shares of this weight were not handed over.
    Missing(u8),
    /// As many ticks as can be were made.
    TicksFull,
    /// This row, the least such, is hotter than the bound.
    Heavy(u32),
    /// There is no export of that number.
    NoExport,
    /// This rank is the authority.
    Elsewhere(Rank),
    /// The directory is in this open export.
    Busy(u32),
    /// The authority doesn't serve the directory because of this export.
    Frozen(u32),
    /// An export needs two ranks.
    SameRank,
    /// This many requests are running there.
    NotYet(u32),
    /// The export has come so far at its exporter, which doesn't allow the event.
    Late(ExportStage),
    /// No message of that number was sent.
    NoMessage,
    /// No running request has that ticket.
    NoTicket,
    /// The list is empty, repeats a directory, or isn't connected.
    NotConnected,
    /// As many exports as can be were started.
    ExportsFull,
    /// This rank is stopped.
    Stopped(Rank),
    /// No mask was set, or it has no active rank.
    BalancerOff,
    /// No problem is open.
    NoProblem,
    /// This event, the first such since the problem was opened, changed what it was made of.
    Changed(u32),
    /// The plan isn't proved best for the problem that is open.
    NotBest,
    /// As many events as can be were accepted.
    HistoryFull,
    /// There is no place for a reader.
    NoReader,
    /// A pin holds a directory that is named as a top.
    Pinned,
    /// The system gave no thread for the rank.
    NoThread,
    /// A weight of reads or writes isn't 1 to 16.
    BadWeight,
}

/// What is printed after a refusal's name.
#[derive(Clone, Copy, Debug, PartialEq, Eq)]
pub enum RefusalValue {
    /// The name says all.
    Nothing,
    /// A number: of a row, a rank, an export, an event, or how many.
    Number(u32),
    /// How far an export has come.
    Stage(ExportStage),
}

impl Refusal {
    /// Its number and name, as they are printed. What `Display` prints also has the value.
    pub fn text(self) -> &'static str
        ensures { result.now ≡ name self }
    {
        match self {
            Refusal::Memory => "0 Memory",
            Refusal::BadMask => "1 BadMask",
            Refusal::BadParent(_) => "2 BadParent",
            Refusal::TooHot(_) => "3 TooHot",
            Refusal::TooMany => "4 TooMany",
            Refusal::NoRanks => "5 NoRanks",
            Refusal::NoDir => "6 NoDir",
            Refusal::Exists => "7 Exists",
            Refusal::BadName => "8 BadName",
            Refusal::NotEmpty => "9 NotEmpty",
            Refusal::IsRoot => "10 IsRoot",
            Refusal::TreeFull => "11 TreeFull",
            Refusal::NoRank => "12 NoRank",
            Refusal::ShareFull => "13 ShareFull",
            Refusal::Missing(_) => "14 Missing",
            Refusal::TicksFull => "15 TicksFull",
            Refusal::Heavy(_) => "16 Heavy",
            Refusal::NoExport => "17 NoExport",
            Refusal::Elsewhere(_) => "18 Elsewhere",
            Refusal::Busy(_) => "19 Busy",
            Refusal::Frozen(_) => "20 Frozen",
            Refusal::SameRank => "21 SameRank",
            Refusal::NotYet(_) => "22 NotYet",
            Refusal::Late(_) => "23 Late",
            Refusal::NoMessage => "24 NoMessage",
            Refusal::NoTicket => "25 NoTicket",
            Refusal::NotConnected => "26 NotConnected",
            Refusal::ExportsFull => "27 ExportsFull",
            Refusal::Stopped(_) => "28 Stopped",
            Refusal::BalancerOff => "29 BalancerOff",
            Refusal::NoProblem => "30 NoProblem",
            Refusal::Changed(_) => "31 Changed",
            Refusal::NotBest => "32 NotBest",
            Refusal::HistoryFull => "33 HistoryFull",
            Refusal::NoReader => "34 NoReader",
            Refusal::Pinned => "35 Pinned",
            Refusal::NoThread => "36 NoThread",
            Refusal::BadWeight => "37 BadWeight",
        }
    }

    /// Its value.
    pub fn value(self) -> RefusalValue
        ensures { result ≡ value_of self }
    {
        match self {
            Refusal::BadParent(number)
            | Refusal::TooHot(number)
            | Refusal::Heavy(number)
            | Refusal::Busy(number)
            | Refusal::Frozen(number)
            | Refusal::NotYet(number)
            | Refusal::Changed(number) => RefusalValue::Number(number),
            Refusal::Missing(weight) => RefusalValue::Number(u32::from(weight)),
            Refusal::Elsewhere(rank) | Refusal::Stopped(rank) => {
                RefusalValue::Number(u32::from(rank.number()))
            }
            Refusal::Late(stage) => RefusalValue::Stage(stage),
            _ => RefusalValue::Nothing,
        }
    }

    /// Writes the value, after a space.
    fn write_value<W: fmt::Write>(self, f: &mut fmt::Formatter<W>) -> fmt::Result
        ensures { DisplaysOnOk W.write_str_gives f.old result (Some (value self)) f.new }
    {
        match self.value() {
            RefusalValue::Nothing => Ok(()),
            RefusalValue::Number(number) => write!(f, " {number}"),
            RefusalValue::Stage(stage) => {
                f.write_str(" ")?;
                f.write_str(stage.text())
            }
        }
    }
}

impl fmt::Display for Refusal {
    ghost use Rattle.std.specs.Prelude.{Some};
    ghost use Rattle.mds_types.specs.Refusal.{words};

    ghost output = { λ refusal. Some (words refusal) };

    fn fmt<W: fmt::Write>(&self, f: &mut fmt::Formatter<W>) -> fmt::Result {
        f.write_str(self.text())?;
        self.write_value(f)
    }
}
