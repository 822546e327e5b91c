//! What holds of every change of a board.
ghost use Rattle.std.specs.Prelude.{◌≡◌, Result, Ok, Err};
ghost use Rattle.mds_board.specs.declared.board_error.BoardError.{BoardError};
ghost use Rattle.mds_board.specs.declared.board_error.BoardError.TheVariants.{Memory};
ghost use Rattle.mds_board.specs.declared.change.Answer.{Answer};
ghost use Rattle.mds_board.specs.declared.change.Change.{Change};
ghost use Rattle.mds_board.specs.History.{World, IsAnswer};

/// A change that was refused because no memory was left loses nothing: when it is made again, the untouched board
/// could have answered so at once. All boards that accept it answer and end alike, and one that refuses it although
/// it can be accepted was out of memory.
pub fn refused_once()
    ensures again { (old between new : World) (c : Change) (answer : Result Answer BoardError) →
        IsAnswer old c (Err Memory) between → IsAnswer between c answer new → IsAnswer old c answer new }
    ensures alike { (old one other : World) (c : Change) (a b : Answer) →
        IsAnswer old c (Ok a) one → IsAnswer old c (Ok b) other → (a ≡ b) × (one ≡ other) }
    ensures memory { (old one other : World) (c : Change) (a : Answer) (error : BoardError) →
        IsAnswer old c (Ok a) one → IsAnswer old c (Err error) other → error ≡ Memory }
{}
