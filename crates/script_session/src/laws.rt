//! Laws of sessions, each the contract of a function that does nothing.
ghost use Rattle.std.specs.Prelude.{◌≡◌, ℕ, All, Bool, List, Option, true};
ghost use Rattle.std.specs.List.{list_all};
ghost use Rattle.mds_types.specs.Certificate.{IsBest, IsCertified};
ghost use Rattle.script_board.specs.Board.{BoardData};
ghost use Rattle.script_engine.specs.Answers.{Answer, IsDetermined, Run, all_ample, played, text_of};
ghost use Rattle.script_engine.specs.Lines.{lines_of};
ghost use Rattle.script_session.specs.History.{GoesOn};
ghost use Rattle.script_session.specs.Outcome.{answer_to, is_sure};
ghost use Rattle.script_session.specs.Proofs.{certificates_at};
ghost use Rattle.script_session.specs.Script.{IsKeptAt};
ghost use Rattle.script_session.specs.Session.{SessionData, answers, beginning};
ghost use Rattle.script_session.specs.Visible.{IsSeenAs, NoneSaysMemory, TellsNoMemory, is_visible};

use board_certificates::laws::{all_best, all_certified};

/// Where memory suffices for a line other than `go`, `plan`, `move` and `traffic`, its answer and what it leads to are
/// a function of the session, the line's number and the line.
pub fn determined()
    ensures { IsDetermined is_sure answers answer_to }
{}

/// What a run of a script without `go`, `plan`, `move` and `traffic` writes is a function of its bytes, the limit and
/// `strict`, where memory sufficed for each line.
pub fn output_is_determined()
    ensures { (limit : ℕ) (strict : Bool) (bytes : List ℕ) (replies : List Answer) (last : SessionData)
        → list_all is_sure (lines_of bytes) ≡ true
        → Run answers strict (beginning limit) 1 (lines_of bytes) replies last
        → all_ample replies ≡ true
        → text_of replies ≡ text_of (played answer_to strict (beginning limit) 1 (lines_of bytes)).0 }
{}

/// A line's answer shows where memory ran out: if no line of it says `refused 0 Memory`, the answer to a line other
/// than `go`, `plan`, `move` and `traffic` is a function of the session, the line's number and the line, and so is the
/// session after it, except that its map may not have been published.
pub fn line_is_visible()
    ensures { (old new : SessionData) (number : ℕ) (line : List ℕ) (a : Answer) → is_sure line ≡ true
        → answers old number line a new → TellsNoMemory number a → IsSeenAs a new (answer_to old number line) }
{}

/// The output shows where memory ran out: what a run of a script without `plan`, `move`, `go`, `traffic` and `stat`
/// writes is a function of its bytes, the limit and `strict`, if no answer says `refused 0 Memory`.
pub fn output_is_visible()
    ensures { (limit : ℕ) (strict : Bool) (bytes : List ℕ) (replies : List Answer) (last : SessionData)
        → list_all is_visible (lines_of bytes) ≡ true
        → Run answers strict (beginning limit) 1 (lines_of bytes) replies last
        → NoneSaysMemory 1 replies
        → text_of replies ≡ text_of (played answer_to strict (beginning limit) 1 (lines_of bytes)).0 }
{}

/// The history of a session's board before a line is a beginning of the one after it: what a line does is added to
/// it, and nothing is taken away.
pub fn histories_grow()
    ensures { (old new : SessionData) (number : ℕ) (line : List ℕ) (a : Answer) → answers old number line a new
        → GoesOn old.board new.board }
{}

/// The plan of each certificate of a session's board is best for the certificate's problem, and its proofs hold.
pub fn certificates_are_best()
    ensures best { (board : Option BoardData) → IsKeptAt board
        → All (λ c. IsBest c.problem c.plan) (certificates_at board) }
    ensures certified { (board : Option BoardData) → IsKeptAt board
        → All (λ c. IsCertified c.problem c.plan) (certificates_at board) }
{
    all_best();
    all_certified();
}
