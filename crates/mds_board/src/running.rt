//! Lists of commands.
ghost use Rattle.std.specs.Prelude.{◌≡◌, All, IfOk, OnErr, true};
ghost use Rattle.mds_board.specs.Steps.{is_inner, spelled};
ghost use Rattle.mds_board.specs.History.{IsAnswer};
ghost use Rattle.mds_board.specs.Commands.{AreCarriedOut, IsCarriedOut, is_fit};

use crate::board::Board;
use crate::command::BoardCommand;
use crate::{Answer, BoardError, Change, Orders, Solver, or_memory};
use authority_map::Publisher;
use export_protocol::{Event, Reply};
use proof_names::Naming;
use std::alloc::{AllocError, Global};
use std::thread::Threads;

impl<J: Naming, M: Publisher<J>> Board<J, M> {
    /// Carries out commands one after the other, whatever the answers to earlier ones. It returns the answer to each.
    /// Memory for the answers is asked for before the first command.
    pub fn run<S: Solver, R: Threads + Sync>(
        &mut self,
        rt: &R,
        alloc: Global,
        solver: &S,
        commands: &[BoardCommand],
    ) -> Result<Vec<Result<Answer, BoardError>>, AllocError>
        requires fit { All (λ c. is_fit c ≡ true) commands.now }
        ensures answers { IfOk result (λ answers. AreCarriedOut S.also self.old commands.now answers.items self.new) }
        ensures unchanged { OnErr result (self.new ≡ self.old) }
    {
        let mut answers = Vec::with_capacity(alloc, commands.len())?;
        for command in commands {
            answers.push_reserved(self.carry_out(rt, alloc, solver, command));
        }
        Ok(answers)
    }

    /// Carries out one command.
    fn carry_out<S: Solver, R: Threads + Sync>(
        &mut self,
        rt: &R,
        alloc: Global,
        solver: &S,
        command: &BoardCommand,
    ) -> Result<Answer, BoardError>
        requires fit { is_fit command.now ≡ true }
        ensures { IsCarriedOut S.also self.old command.now result self.new }
    {
        match command {
            BoardCommand::Make(parent, name, inodes) => {
                let dir = self.make(alloc, *parent, name.as_str(), *inodes)?;
                Ok(Answer::Dir(dir))
            }
            BoardCommand::Remove(dir) => {
                self.remove(*dir)?;
                Ok(Answer::Done)
            }
            BoardCommand::Pin(dir, pin) => {
                self.set_pin(*dir, *pin)?;
                Ok(Answer::Done)
            }
            BoardCommand::Mask(mask) => {
                self.set_mask(*mask)?;
                Ok(Answer::Done)
            }
            BoardCommand::Weights(read, write) => {
                self.set_weights(*read, *write)?;
                Ok(Answer::Done)
            }
            BoardCommand::Tick => {
                self.tick()?;
                Ok(Answer::Done)
            }
            BoardCommand::Step(event) => Ok(Answer::Reply(self.step_copy(alloc, event)?)),
            BoardCommand::Balance => Ok(Answer::Orders(self.balance_at(rt, alloc, solver)?)),
        }
    }

    /// Balances, and answers the orders at a place of their own, for which memory is asked first.
    fn balance_at<S: Solver, R: Threads + Sync>(
        &mut self,
        rt: &R,
        alloc: Global,
        solver: &S,
    ) -> Result<Orders, BoardError>
        ensures { IsCarriedOut S.also self.old BoardCommand.Balance (spelled Answer.Orders result) self.new }
    {
        let Ok(mut place) = Orders::new(alloc, Vec::new(alloc)) else {
            return Err(or_memory(self.state.balance_refusal()));
        };
        place.set(self.balance(rt, alloc, solver)?);
        Ok(place)
    }

    /// An event of the cluster, of which a copy is made.
    fn step_copy(&mut self, alloc: Global, event: &Event) -> Result<Reply, BoardError>
        requires inner { is_inner event.now ≡ true }
        ensures { IsAnswer self.old (Change.Step event.now) (spelled Answer.Reply result) self.new }
    {
        let Ok(copy) = event.copied(alloc) else {
            return Err(or_memory(self.state.step_refusal(event)));
        };
        self.step(alloc, copy)
    }
}
