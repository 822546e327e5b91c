//! What a script's board is made of.
ghost use Rattle.std.specs.Prelude.{◌≡◌, []};

use authority_map::{MapReader, Publisher};
use mds_board::BoardParts;
use proof_names::Naming;

/// What was opened for a script's board before it is made: the board's ledger and map, and a reader of the map. Since
/// the writer of a map can't be dropped, neither can this.
pub struct Parts<J: Naming, M: Publisher<J>> {
    pub(crate) board: BoardParts<J, M>,
    pub(crate) reader: MapReader<J>,
}

impl<J: Naming, M: Publisher<J>> Parts<J, M> {
    /// These parts.
    pub fn new(board: BoardParts<J, M>, reader: MapReader<J>) -> Parts<J, M> {
        Parts { board, reader }
    }

    /// Ends the map of a board that wasn't made.
    pub fn end(self) {
        let Parts {
            board,
            reader: _reader,
        } = self;
        board.end();
    }
}
