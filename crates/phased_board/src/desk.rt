//! What a rank has to look after in a phase.
ghost use Rattle.std.specs.Prelude.{◌≡◌, []};

use crate::looks::{is_awaited, is_under_way};
use crate::unsettled::Unsettled;
use export_machine::Cluster;
use export_protocol::{Event, ImporterState, StepError};
use mds_types::{Dir, Order, Rank};
use std::alloc::{AllocError, Global};
use std::ops::Range;

/// What a rank has to look after in a phase. Orders, messages and exports go by their numbers. It says what a rank
/// tries in its turn, and not what it may do.
#[derive(Drop)]
pub struct Desk {
    /// The rank.
    pub rank: Rank,
    /// The orders by which it gives away directories, and that it is to start, rising.
    pub orders: Vec<usize>,
    /// Its imports that were started when the phase began.
    pub imports: Vec<u32>,
    /// The messages to it that have come and that it hasn't taken, rising.
    pub messages: Vec<u32>,
    /// Its exports that were neither done nor aborted at its last turn, rising.
    pub exports: Vec<u32>,
}

impl Desk {
    /// A rank's desk with nothing on it. It asks for no memory.
    pub fn new(alloc: Global, rank: Rank) -> Desk
        ensures rank { result.rank ≡ rank }
        ensures orders { result.orders.items ≡ [] }
        ensures imports { result.imports.items ≡ [] }
        ensures messages { result.messages.items ≡ [] }
        ensures exports { result.exports.items ≡ [] }
    {
        Desk {
            rank,
            orders: Vec::new(alloc),
            imports: Vec::new(alloc),
            messages: Vec::new(alloc),
            exports: Vec::new(alloc),
        }
    }

    /// Whether there is nothing to look after.
    pub fn is_empty(&self) -> bool {
        self.orders.is_empty()
            && self.imports.is_empty()
            && self.messages.is_empty()
            && self.exports.is_empty()
    }
}

/// A desk for each active rank, with its orders and with what isn't settled when the phase begins.
pub fn set_up(
    alloc: Global,
    cluster: &Cluster,
    active: u8,
    orders: &[Order],
    unsettled: &Unsettled,
) -> Result<Vec<Desk>, AllocError> {
    let mut desks = Vec::with_capacity(alloc, active as usize)?;
    for number in 0..active {
        if let Some(rank) = Rank::new(number) {
            desks.push(Desk::new(alloc, rank))?;
        }
    }
    lay_orders(orders, &mut desks)?;
    lay_exports(cluster, &mut desks, unsettled.exports())?;
    lay_messages(cluster, &mut desks, unsettled.messages())?;
    Ok(desks)
}

// Puts orders on the desks of their exporters.
fn lay_orders(orders: &[Order], desks: &mut Vec<Desk>) -> Result<(), AllocError> {
    for (number, order) in orders.iter().enumerate() {
        if let Some(desk) = desks.get_mut(order.from.number() as usize) {
            desk.orders.push(number)?;
        }
    }
    Ok(())
}

// Puts exports on the desks of their ranks.
fn lay_exports(
    cluster: &Cluster,
    desks: &mut Vec<Desk>,
    exports: &[u32],
) -> Result<(), AllocError> {
    for export in exports {
        lay_export(cluster, desks, *export)?;
    }
    Ok(())
}

// Puts messages on the desks of the ranks that they are for.
fn lay_messages(
    cluster: &Cluster,
    desks: &mut Vec<Desk>,
    messages: &[u32],
) -> Result<(), AllocError> {
    for message in messages {
        lay_message(cluster, desks, *message)?;
    }
    Ok(())
}

// Puts an export on the desks of its ranks, as far as these have to look after it.
fn lay_export(cluster: &Cluster, desks: &mut Vec<Desk>, export: u32) -> Result<(), AllocError> {
    let (Some(order), Some((exporter, importer))) = (cluster.export(export), cluster.states(export))
    else {
        return Ok(());
    };
    if let ImporterState::Started = importer {
        if let Some(desk) = desks.get_mut(order.to.number() as usize) {
            desk.imports.push(export)?;
        }
    }
    if is_under_way(exporter) {
        if let Some(desk) = desks.get_mut(order.from.number() as usize) {
            desk.exports.push(export)?;
        }
    }
    Ok(())
}

// Puts a message on the desk of the rank that it is for, unless it can't do anything any more or the rank has stopped.
fn lay_message(cluster: &Cluster, desks: &mut Vec<Desk>, message: u32) -> Result<(), AllocError> {
    if let Some((export, rank)) = cluster.to(message) {
        if is_awaited(cluster, export) && !is_stopped(cluster, rank) {
            if let Some(desk) = desks.get_mut(rank.number() as usize) {
                desk.messages.push(message)?;
            }
        }
    }
    Ok(())
}

/// Takes the messages off the desks of ranks that have stopped.
pub fn clear_stopped(cluster: &Cluster, desks: &mut [Desk]) {
    for desk in desks {
        if is_stopped(cluster, desk.rank) {
            desk.messages.clear();
        }
    }
}

/// Puts messages that came on the desks of the ranks that they are for, except those that can't do anything any more. A
/// stopped rank gets none.
pub fn sort_out(
    cluster: &Cluster,
    desks: &mut Vec<Desk>,
    messages: Range<u32>,
) -> Result<(), AllocError> {
    for message in messages {
        lay_message(cluster, desks, message)?;
    }
    Ok(())
}

// Whether a rank has stopped. Where the history is full the answer is no, and no event is accepted.
fn is_stopped(cluster: &Cluster, rank: Rank) -> bool {
    let refused = cluster.can_apply(&Event::Begin(rank, Dir::ROOT));
    matches!(refused, Err(StepError::Stopped(_)))
}
