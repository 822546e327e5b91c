//! The lines of `plan`. Each is made in a text, in place of what it held.
ghost use Rattle.std.specs.Prelude.{◌≡◌, All, IfOk, OnOk, Some, string_bytes, true};
ghost use Rattle.dirtree.specs.Tree.{is_there};
ghost use Rattle.mds_types.specs.declared.plan.Plan.{Plan as ThePlan};
ghost use Rattle.mds_board.specs.InForce.{plan_in_force};
ghost use Rattle.script_board.specs.Board.{BoardData};
ghost use Rattle.script_board.specs.Plan.{IsPlanned};
ghost use Rattle.script_session.specs.Plan.{first_line, parts_in_force, plan_line, plan_part_line, proof_word};

use authority_map::Publisher;
use mds_types::{CutProof, Plan};
use proof_names::Naming;
use script_board::ScriptBoard;
use std::alloc::{AllocError, Global};
use tree_parts::PlanPart;
use tree_parts::plan_parts::parts;

pub(crate) fn plan_part_line<J: Naming, M: Publisher<J>>(
    alloc: Global,
    board: &ScriptBoard<J, M>,
    part: PlanPart,
    field: &mut String,
    line: &mut String,
) -> Result<(), AllocError>
    requires { is_there board.now.world.state.directories.entries part.top ≡ true }
    ensures { OnOk result (string_bytes line.new ≡ plan_part_line board.now part) }
{
    board.write_path(alloc, part.top, field)?;
    let path = field.as_str();
    let rank = part.rank.number();
    let heat = part.heat;
    let inodes = part.inodes;
    line.clear();
    write!(
        line,
        "part {path} rank {rank} heat {heat} inodes {inodes}\n"
    )
}

fn first_line(greatest: u64, moved: u64, proof: &str, line: &mut String) -> Result<(), AllocError>
    ensures { OnOk result (string_bytes line.new ≡ first_line greatest moved proof.now) }
{
    line.clear();
    write!(
        line,
        "plan greatest {greatest} moved {moved} proof {proof}\n"
    )
}

pub(crate) fn plan_line(plan: &Plan, line: &mut String) -> Result<(), AllocError>
    ensures { OnOk result (string_bytes line.new ≡ plan_line plan.now) }
{
    first_line(plan.greatest, plan.moved, proof_word(&plan.cut), line)
}

fn proof_word(proof: &CutProof) -> &'static str
    ensures { result.now ≡ proof_word proof.now }
{
    match proof {
        CutProof::Zero => "zero",
        CutProof::Heavy(_) => "heavy",
        CutProof::Table(_) => "table",
    }
}

/// The parts of the plan that was just made and adopted.
pub fn parts_in_force<J: Naming, M: Publisher<J>>(
    alloc: Global,
    board: &ScriptBoard<J, M>,
) -> Result<Vec<PlanPart>, AllocError>
    requires { (old : BoardData) × (plan : ThePlan) × IsPlanned old plan board.now }
    ensures plan { (old : BoardData) (plan : ThePlan) → IsPlanned old plan board.now
        → plan_in_force board.now.world ≡ Some plan }
    ensures parts { IfOk result (λ parts. parts.items ≡ parts_in_force board.now) }
    ensures there { IfOk result (λ parts. All
        (λ part. is_there board.now.world.state.directories.entries part.top ≡ true) parts.items) }
{
    let made = board.board();
    made.promises();
    let Some(force) = made.in_force() else {
        unreachable!()
    };
    let Some(plan) = made.plan_in_force() else {
        unreachable!()
    };
    parts(alloc, force.problem(), force.dirs(), plan)
}
