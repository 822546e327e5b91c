//! How the boards of a phase relate to each other, and what they keep.
ghost use Rattle.std.specs.Prelude.{◌≡◌, ◌≤◌, ℕ, All, Bool, List, false, length, true};
ghost use mathlib.Core.List.{IsPrefix};
ghost use Rattle.mds_board.specs.declared.board_error.BoardError.TheVariants.{HistoryFull};
ghost use Rattle.mds_board.specs.declared.change.Change.{Change as TheChange};
ghost use Rattle.mds_board.specs.History.{World};
ghost use Rattle.mds_board.specs.Promises.{IsKept};
ghost use Rattle.phased_board.specs.Going.{KeepsRest, WentOnBy, WentOnWithStops, added, is_of_requests};
ghost use Rattle.phased_board.specs.Moments.{IsMet};

/// What goes on only by exports, and stops of ranks, keeps the tree, the pins, the heats, the mask, the counts and the
/// plan in force.
pub fn exports_keep()
    ensures { (stops : List ℕ) (old new : World) → WentOnWithStops false true stops old new
        → KeepsRest old.state new.state }
{}

/// What goes on only by requests, and stops of ranks, publishes no map. Where no rank stops, its entries are all of
/// requests.
pub fn requests_keep()
    ensures published { (stops : List ℕ) (old new : World) → WentOnWithStops true false stops old new
        → new.published ≡ old.published }
    ensures entries { (old new : World) → WentOnBy true false old new
        → All (λ e. is_of_requests e.change ≡ true) (added old new) }
{}

/// Going on twice is going on.
pub fn went_joins()
    ensures same { (requests exports : Bool) (stops : List ℕ) (w : World)
        → WentOnWithStops requests exports stops w w }
    ensures joined { (requests exports : Bool) (stops : List ℕ) (old between new : World)
        → WentOnWithStops requests exports stops old between → WentOnWithStops requests exports stops between new
        → WentOnWithStops requests exports stops old new }
{}

/// A board of a phase of requests whose history begins that of the last board is on the way to the last board.
pub fn went_between()
    ensures { (before between last : World) → WentOnBy true false before between → WentOnBy true false before last
        → IsPrefix between.history last.history → WentOnBy true false between last }
{}

/// A request, an end or a deposit is refused as the history is full only where it is full on the last board.
pub fn full_stays()
    ensures { (before last : World) (change : TheChange) → is_of_requests change ≡ true
        → WentOnBy true false before last → IsKept last → IsMet before last.history change HistoryFull
        → 1048576 ≤ length last.history }
{}
