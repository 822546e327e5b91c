//! What a `move` or a `traffic` did.

use crate::fault::Fault;
use mds_types::Order;
use rank_threads::Outcome;

/// What requests and stops met, and what became of orders.
#[derive(Drop)]
pub struct Carried {
    /// The refusals: those of requests in the order of their loads, then the first of an end, of a deposit, and of a
    /// rank that was to stop.
    pub refused: Vec<Fault>,
    /// The orders of pins, and then those of the last plan.
    pub orders: Vec<Order>,
    /// What became of each order.
    pub outcomes: Vec<Outcome>,
}
