//! What is written for a faulty line, and for refused requests.
ghost use Rattle.std.specs.Prelude.{OnOk, OnErr};
ghost use Rattle.std.specs.Io.KnownBytes.{Appends};
ghost use Rattle.script_engine.specs.Answers.{fault_text};
ghost use Rattle.script_engine.specs.Known.{AppendsFront};
ghost use Rattle.script_session.specs.Fault.{words};
ghost use Rattle.script_session.specs.Session.{refusal_lines};

use mds_types::Refusal;
use script_board::Fault;
use script_engine::{WriteFailed, write_refusal};
use std::io::Write;

/// Writes the answer to a faulty line. It takes no memory.
pub fn write_fault<W: Write>(writer: &mut W, number: u64, fault: Fault) -> Result<(), WriteFailed>
    ensures ok { OnOk result (Appends (W.contents writer.old) (W.contents writer.new)
        (fault_text number (words fault))) }
    ensures err { OnErr result (AppendsFront (W.contents writer.old) (W.contents writer.new)
        (fault_text number (words fault))) }
{
    match fault {
        Fault::Syntax => script_engine::write_fault(writer, number, "syntax"),
        Fault::NoRanks => script_engine::write_fault(writer, number, "no ranks"),
        Fault::RanksAgain => script_engine::write_fault(writer, number, "ranks again"),
        Fault::Memory => write_refusal(writer, number, Refusal::Memory),
        Fault::Mask => write_refusal(writer, number, Refusal::BadMask),
        Fault::Refused(error) => write_refusal(writer, number, Refusal::from(error)),
        Fault::ShareFull => write_refusal(writer, number, Refusal::ShareFull),
        Fault::NoThread => write_refusal(writer, number, Refusal::NoThread),
        Fault::Pinned => write_refusal(writer, number, Refusal::Pinned),
    }
}

/// Writes a line for each refusal that requests and deposits met.
pub fn write_refused<W: Write>(
    writer: &mut W,
    number: u64,
    refused: &[Fault],
) -> Result<(), WriteFailed>
    ensures ok { OnOk result (Appends (W.contents writer.old) (W.contents writer.new)
        (refusal_lines number refused.now)) }
    ensures err { OnErr result (AppendsFront (W.contents writer.old) (W.contents writer.new)
        (refusal_lines number refused.now)) }
{
    for fault in refused {
        write_fault(writer, number, *fault)?;
    }
    Ok(())
}
