//! The command `move`: orders are carried out.
ghost use Rattle.std.specs.Prelude.{◌≡◌, ◌<◌, [], IfOk, OnErr, vec_capacity, vec_len};
ghost use Rattle.script_board.specs.Move.{IsMoved, move_orders};

use crate::carried::Carried;
use crate::fault::Fault;
use crate::script_board::{ScriptBoard, whole};
use authority_map::Publisher;
use mds_types::Order;
use proof_names::Naming;
use rank_threads::{OpenGate, export_phase_with_stops};
use std::alloc::{AllocError, Global};
use std::marker::{Send, Sync};
use std::sync::Wait;
use std::thread::Threads;

impl<J: Naming + Send + Sync, M: Publisher<J> + Send> ScriptBoard<J, M> {
    /// Carries out the orders of pins, and then those of the last plan, which are forgotten, by a thread for each rank
    /// that has something to do. Meanwhile the ranks stop that are to. It returns the orders, each with its outcome,
    /// and why a rank didn't stop. Where memory is refused before the first order is started, nothing has changed.
    pub fn carry_out_moves<R: Threads + Wait + Sync>(
        self,
        rt: &R,
        alloc: Global,
    ) -> (ScriptBoard<J, M>, Result<Carried, AllocError>)
        ensures done { IfOk result.1
            (λ m. IsMoved self m.refused.items m.orders.items m.outcomes.items result.0) }
        ensures unchanged { OnErr result.1 (result.0 ≡ self) }
    {
        let (orders, mut refused) = match self.plan_moves(alloc) {
            Ok(planned) => planned,
            Err(error) => return (self, Err(error)),
        };
        let ScriptBoard {
            board,
            shares,
            reader,
            loads,
            kept,
            stops,
            mut shortcuts,
        } = self;
        let left = &mut shortcuts.unsettled;
        let (board, done) = export_phase_with_stops(
            rt, alloc, board, &OpenGate, &orders, &stops, left,
        );
        match done {
            Ok(exported) => {
                ScriptBoard::<J, M>::tell_rest(exported.stopped, &mut refused);
                let carried = Carried {
                    refused,
                    orders,
                    outcomes: exported.outcomes,
                };
                let waiting = (loads, Vec::new(alloc), Vec::new(alloc));
                let after = whole(board, shares, reader, waiting, shortcuts);
                (after, Ok(carried))
            }
            Err(error) => {
                let after = whole(board, shares, reader, (loads, kept, stops), shortcuts);
                (after, Err(error))
            }
        }
    }
}

impl<J: Naming, M: Publisher<J>> ScriptBoard<J, M> {
    // The orders, and room for a refusal.
    fn plan_moves(&self, alloc: Global) -> Result<(Vec<Order>, Vec<Fault>), AllocError>
        ensures orders { IfOk result (λ p. p.0.items ≡ move_orders self.now) }
        ensures none { IfOk result (λ p. p.1.items ≡ []) }
        ensures room { IfOk result (λ p. vec_len p.1 < vec_capacity p.1) }
    {
        let orders = self.all_orders(alloc)?;
        let refused = Vec::with_capacity(alloc, 1)?;
        Ok((orders, refused))
    }

    /// The orders of pins, and then those of the last plan.
    pub(crate) fn all_orders(&self, alloc: Global) -> Result<Vec<Order>, AllocError>
        ensures { IfOk result (λ orders. orders.items ≡ move_orders self.now) }
    {
        let mut orders = self.board.pin_orders(alloc)?;
        for order in &self.kept {
            orders.push(order.copied(alloc)?)?;
        }
        Ok(orders)
    }
}
