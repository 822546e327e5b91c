//! A setter or a restorer of pins, by one name.
ghost use Rattle.std.specs.Prelude.{◌≡◌, ◌++◌, ◌∷◌, Bool, List, [], length};
ghost use Rattle.pin_driver.specs.Driven.{IsMark};
ghost use Rattle.pin_driver.specs.declared.answer.HostAnswer.{HostAnswer as HostAnswers};
ghost use Rattle.pin_driver.specs.declared.task.Task.{Task as Tasks};
ghost use Rattle.drive_lines.specs.Machines.{IsAfter, machine_task, run_asks, run_note};

use pin_driver::{HostAnswer, Note, PinRestorer, PinSetter, Question, Task};

/// What asks the questions of a run.
#[derive(Drop)]
pub(crate) enum PinMachine {
    /// It sets the pins of a plan.
    Setter(PinSetter),
    /// It restores those of before.
    Restorer(PinRestorer),
}

impl PinMachine {
    /// A machine at its begin. On the way back it restores.
    pub(crate) fn new(is_back: bool, task: Task) -> PinMachine
        requires mark { IsMark task.first (length task.plan.changes) }
        ensures { IsAfter is_back task [] result }
    {
        if is_back {
            PinMachine::Restorer(PinRestorer::new(task))
        } else {
            PinMachine::Setter(PinSetter::new(task))
        }
    }

    /// What it is to do.
    pub(crate) fn task(&self) -> &Task
        ensures { result.now ≡ machine_task self.entry.now }
    {
        match self {
            PinMachine::Setter(setter) => setter.task(),
            PinMachine::Restorer(restorer) => restorer.task(),
        }
    }

    /// What it asks.
    pub(crate) fn question(&self) -> Question
        ensures { (is_back : Bool) (x : Tasks) (more : List HostAnswers) → IsAfter is_back x more self.now →
            result ≡ run_asks is_back x more }
    {
        match self {
            PinMachine::Setter(setter) => setter.question(),
            PinMachine::Restorer(restorer) => restorer.question(),
        }
    }

    /// Takes the answer to what it asks, and says what became of a change by it.
    pub(crate) fn answer(&mut self, answer: HostAnswer) -> Note
        ensures note { (is_back : Bool) (x : Tasks) (more : List HostAnswers) → IsAfter is_back x more self.old →
            result ≡ run_note is_back x (run_asks is_back x more) answer }
        ensures after { (is_back : Bool) (x : Tasks) (more : List HostAnswers) → IsAfter is_back x more self.old →
            IsAfter is_back x (more ++ answer ∷ []) self.new }
    {
        match self {
            PinMachine::Setter(setter) => setter.answer(answer),
            PinMachine::Restorer(restorer) => restorer.answer(answer),
        }
    }
}
