//! The state of an order.

use mds_board::BoardError;
use mds_types::Order;

/// The state of an order in a phase.
#[derive(Drop)]
pub enum Standing {
    /// Its exporter hasn't taken it up.
    Waiting(Order),
    /// It is this export.
    Started(u32),
    /// It was refused for this cause.
    Refused(BoardError),
}
