//! The turn of a rank in a round of exports. The lock is held for one event at a time.

use export_protocol::Event;
use phased_board::looks::{is_at_work, is_freezing, is_logged, is_wanted};
use phased_board::{Desk, ExportSide, Gate};
use std::alloc::Global;
use std::sync::{Mutex, Wait};

/// A rank starts its orders and asks about its imports, once; takes the messages that have come, goes on with its
/// exports, and publishes the map if it changed that.
pub(crate) fn take_turn<X: ExportSide, R: Wait, G: Gate>(
    rt: &R,
    alloc: Global,
    cell: &Mutex<X>,
    gate: &G,
    round: u64,
    desk: &mut Desk,
) {
    gate.before(desk.rank, round);
    start(rt, alloc, cell, desk);
    ask(rt, alloc, cell, desk);
    take_messages(rt, alloc, cell, desk);
    freeze(rt, alloc, cell, &desk.exports);
    if notify(rt, alloc, cell, &desk.exports) {
        cell.lock(rt).publish();
    }
    desk.exports
        .retain(|export| is_at_work(cell.lock(rt).cluster(), *export));
    gate.after(desk.rank, round);
}

// Starts the rank's orders, and lays their exports on its desk.
fn start<X: ExportSide, R: Wait>(rt: &R, alloc: Global, cell: &Mutex<X>, desk: &mut Desk) {
    for number in desk.orders.iter() {
        if let Some(export) = cell.lock(rt).start(alloc, *number) {
            // an export that finds no place is aborted at the end of the phase
            let _ = desk.exports.push(export);
        }
    }
    desk.orders.clear();
}

// Asks what became of the rank's imports that were left started.
fn ask<X: ExportSide, R: Wait>(rt: &R, alloc: Global, cell: &Mutex<X>, desk: &mut Desk) {
    for import in desk.imports.iter() {
        cell.lock(rt).step(alloc, Event::Ask(*import));
    }
    desk.imports.clear();
}

// Delivers the rank's messages, except those about an export whose import is over.
fn take_messages<X: ExportSide, R: Wait>(rt: &R, alloc: Global, cell: &Mutex<X>, desk: &mut Desk) {
    for message in desk.messages.iter() {
        let mut board = cell.lock(rt);
        if is_wanted(board.cluster(), *message) {
            board.step(alloc, Event::Deliver(*message));
        }
    }
    desk.messages.clear();
}

// Freezes the exports that are in state freezing.
fn freeze<X: ExportSide, R: Wait>(rt: &R, alloc: Global, cell: &Mutex<X>, exports: &[u32]) {
    for export in exports {
        let mut board = cell.lock(rt);
        if is_freezing(board.cluster(), *export) {
            board.step(alloc, Event::Froze(*export));
        }
    }
}

// Notifies of the exports that are logged, and says whether it did.
fn notify<X: ExportSide, R: Wait>(rt: &R, alloc: Global, cell: &Mutex<X>, exports: &[u32]) -> bool {
    let mut notified = false;
    for export in exports {
        let mut board = cell.lock(rt);
        if is_logged(board.cluster(), *export) {
            notified |= board.step(alloc, Event::Notify(*export));
        }
    }
    notified
}
