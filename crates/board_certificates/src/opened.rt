//! The problem for which a plan is adopted.
ghost use Rattle.std.specs.Option.{option_map};
ghost use Rattle.std.specs.Prelude.{◌≡◌, IfOk, None, OnOk};
ghost use Rattle.board_certificates.specs.Certificates.{opened};
ghost use Rattle.board_certificates.specs.Posed.{posed_of};
ghost use Rattle.board_certificates.specs.Replayed.{IsNext, IsReplayed};
ghost use Rattle.mds_board.specs.State.{State, next, refusal};
ghost use Rattle.mds_board.specs.Stored.{shown_entry};

use crate::replay::Replay;
use mds_board::{Answer, Shown};
use mds_types::Problem;
use plan_text::RowNames;
use std::alloc::{AllocError, Global};

/// A problem that was opened, and the names of its rows at that time.
#[derive(Drop)]
pub struct Posed<'h> {
    pub problem: &'h Problem,
    pub names: RowNames,
}

// The problem that was opened last, once this reply was given.
fn opened<'h>(
    alloc: Global,
    replay: &Replay<'h>,
    last: Option<Posed<'h>>,
    reply: &'h Answer,
) -> Result<Option<Posed<'h>>, AllocError>
    requires { (s : State) × IsReplayed s replay.now }
    ensures { IfOk result (λ now. (s : State) → IsReplayed s replay.now →
        option_map posed_of now ≡ opened s (option_map posed_of last.entry) reply.now) }
{
    match reply {
        Answer::Problem(problem) => {
            let names = replay.row_names(alloc)?;
            Ok(Some(Posed {
                problem: problem.problem(),
                names,
            }))
        }
        _ => Ok(last),
    }
}

/// Makes the change of an entry, and gives the problem that was opened last then.
pub(crate) fn follow<'h>(
    alloc: Global,
    replay: &mut Replay<'h>,
    last: Option<Posed<'h>>,
    kept: Shown<'h>,
) -> Result<Option<Posed<'h>>, AllocError>
    requires { IsNext replay.old (shown_entry kept).change }
    ensures posed { IfOk result (λ now. (s : State) → IsReplayed s replay.old →
        option_map posed_of now ≡ opened s (option_map posed_of last.entry) (shown_entry kept.entry).reply) }
    ensures replayed { OnOk result ((s : State) → IsReplayed s replay.old
        → refusal s (shown_entry kept.entry).change ≡ None
        → IsReplayed (next s (shown_entry kept.entry).change) replay.new) }
{
    match kept {
        Shown::Other(entry) => {
            let now = opened(alloc, replay, last, &entry.reply)?;
            replay.change(alloc, &entry.change)?;
            Ok(now)
        }
        _ => Ok(last),
    }
}
