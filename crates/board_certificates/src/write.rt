//! Writing the certificates of a history.
ghost use Rattle.std.specs.Option.{option_map};
ghost use Rattle.std.specs.Prelude.{◌≡◌, ◌≤◌, All, None, OnErr, OnOk, Some, length};
ghost use Rattle.std.specs.Io.KnownBytes.{Appends};
ghost use Rattle.board_certificates.specs.Certificates.{certified_by, certificates, certificates_of};
ghost use Rattle.board_certificates.specs.Posed.{IsSized, posed_of};
ghost use Rattle.mds_board.specs.State.{State, start};
ghost use Rattle.mds_board.specs.History.{IsReplay};
ghost use Rattle.mds_board.specs.Stored.{shown_entry};
ghost use Rattle.plan_text.specs.Text.{text, texts};
ghost use Rattle.plan_text.specs.Writable.{IsWritable};
ghost use Rattle.script_engine.specs.Known.{AppendsFront};

use crate::opened::{Posed, follow};
use crate::replay::Replay;
use crate::unwritten::Unwritten;
use authority_map::Publisher;
use mds_board::{Board, Change, History, Shown};
use mds_types::Plan;
use plan_text::certificate_text;
use proof_names::Naming;
use script_engine::write_whole;
use std::alloc::Global;
use std::io::Write;

/// Writes a certificate.
fn write_one<W: Write>(
    alloc: Global,
    posed: &Posed<'_>,
    plan: &Plan,
    writer: &mut W,
) -> Result<(), Unwritten>
    requires { length posed.now.names ≡ length posed.now.problem.now.rows }
    ensures written { OnOk result (Appends (W.contents writer.old) (W.contents writer.new)
        (text posed.now.problem.now (Some posed.now.names) plan.now)) }
    ensures begun { OnErr result (AppendsFront (W.contents writer.old) (W.contents writer.new)
        (text posed.now.problem.now (Some posed.now.names) plan.now)) }
    ensures writable { OnOk result (IsWritable (record {
      problem = posed.now.problem.now;
      names = Some posed.now.names;
      plan = plan.now;
    })) }
{
    let made = certificate_text(alloc, posed.problem, Some(&posed.names), plan)?;
    write_whole(writer, made.as_bytes())?;
    Ok(())
}

/// Writes the certificate of the plan that a change adopts, if it adopts one, for the problem that was opened last.
fn write_adopted<W: Write>(
    alloc: Global,
    last: Option<&Posed<'_>>,
    change: &Change,
    writer: &mut W,
) -> Result<(), Unwritten>
    requires { IsSized (option_map (λ posed. posed_of posed.now) last) }
    ensures written { OnOk result (Appends
        (W.contents writer.old) (W.contents writer.new) (texts (certified_by (option_map
        (λ posed. posed_of posed.now) last.entry) change.now))) }
    ensures begun { OnErr result (AppendsFront
        (W.contents writer.old) (W.contents writer.new) (texts (certified_by (option_map
        (λ posed. posed_of posed.now) last.entry) change.now))) }
    ensures writable { OnOk result (All IsWritable (certified_by (option_map
        (λ posed. posed_of posed.now) last.entry) change.now)) }
{
    let Change::Adopt(plan) = change else {
        return Ok(());
    };
    let Some(posed) = last else {
        return Ok(());
    };
    write_one(alloc, posed, plan.plan(), writer)
}

/// Writes the certificate of the plan that an entry adopts, if it adopts one, for the problem that was opened last.
fn write_entry<W: Write>(
    alloc: Global,
    last: Option<&Posed<'_>>,
    kept: &Shown<'_>,
    writer: &mut W,
) -> Result<(), Unwritten>
    requires { IsSized (option_map (λ posed. posed_of posed.now) last) }
    ensures written { OnOk result (Appends
        (W.contents writer.old) (W.contents writer.new) (texts (certified_by (option_map
        (λ posed. posed_of posed.now) last.entry) (shown_entry kept.now).change))) }
    ensures begun { OnErr result (AppendsFront
        (W.contents writer.old) (W.contents writer.new) (texts (certified_by (option_map
        (λ posed. posed_of posed.now) last.entry) (shown_entry kept.now).change))) }
    ensures writable { OnOk result (All IsWritable (certified_by (option_map
        (λ posed. posed_of posed.now) last.entry) (shown_entry kept.now).change)) }
{
    match kept {
        Shown::Other(entry) => write_adopted(alloc, last, &entry.change, writer),
        Shown::Began(_, _, _) | Shown::Ended(_) => Ok(()),
    }
}

/// Writes the certificates of the plans that a history adopts, where the directory numbers are below `limit`, and the
/// ranks below `active`.
fn write_history<W: Write>(
    alloc: Global,
    history: &History,
    limit: u32,
    active: u8,
    writer: &mut W,
) -> Result<(), Unwritten>
    requires some { 1 ≤ limit }
    requires few { limit ≤ 65536 }
    requires few_ranks { active ≤ 64 }
    requires replay { (s : State) × IsReplay (start limit active) history.now.entries s }
    ensures written { OnOk result (Appends (W.contents writer.old) (W.contents writer.new)
        (texts (certificates (start limit active) None history.now.entries))) }
    ensures begun { OnErr result (AppendsFront (W.contents writer.old) (W.contents writer.new)
        (texts (certificates (start limit active) None history.now.entries))) }
    ensures writable { OnOk result (All IsWritable (certificates (start limit active) None history.now.entries)) }
{
    let mut replay = Replay::new(alloc, limit, active)?;
    let mut last: Option<Posed<'_>> = None;
    for number in 0..history.len() {
        let entry = history.at(number);
        write_entry(alloc, last.as_ref(), &entry, writer)?;
        last = follow(alloc, &mut replay, last, entry)?;
    }
    Ok(())
}

/// Writes the certificates of all plans that a board has adopted, in the order of their adoption. Each has the problem
/// that was opened last before, the names of its rows at the opening, the plan and the plan's proofs. Where a write
/// fails, a beginning of them was written.
pub fn write_certificates<J: Naming, M: Publisher<J>, W: Write>(
    alloc: Global,
    board: &Board<J, M>,
    writer: &mut W,
) -> Result<(), Unwritten>
    ensures written { OnOk result (Appends
        (W.contents writer.old) (W.contents writer.new) (texts (certificates_of board.now))) }
    ensures begun { OnErr result (AppendsFront
        (W.contents writer.old) (W.contents writer.new) (texts (certificates_of board.now))) }
    ensures writable { OnOk result (All IsWritable (certificates_of board.now)) }
{
    board.promises();
    let _numbers = board.tree().numbers();
    let active = board.pins().active();
    write_history(alloc, board.history(), board.limit(), active, writer)
}
