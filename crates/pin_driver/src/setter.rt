//! Sets the pins of a plan.
ghost use Rattle.std.specs.Prelude.{◌≡◌, length};
ghost use Rattle.pin_driver.specs.Driven.{IsMark};
ghost use Rattle.pin_driver.specs.Notes.{setter_note as note_of};
ghost use Rattle.pin_driver.specs.Setting.{setter_after, setter_question, setter_start};

use crate::answer::HostAnswer;
use crate::note::{Note, setter_note};
use crate::question::Question;
use crate::setter_state::SetterState;
use crate::task::Task;
use std::marker::Model;

/// Sets the pins of a plan, from where the plan is. Its host asks for the question, and gives the answer.
#[derive(Drop)]
pub struct PinSetter {
    task: Task,
    state: SetterState,
}

impl Model for PinSetter {
    ghost use Rattle.pin_driver.specs.SetterParts.{SetterParts, setter_parts};

    ghost Value = { SetterParts };

    ghost view = { λ setter. setter_parts setter.task setter.state };
}

impl PinSetter {
    /// A setter at its begin.
    pub fn new(task: Task) -> PinSetter
        requires mark { IsMark task.first (length task.plan.changes) }
        ensures task { result.task ≡ task }
        ensures state { result.state ≡ setter_start task }
    {
        let state = SetterState::new(&task);
        PinSetter { task, state }
    }

    /// What it is to do.
    pub fn task(&self) -> &Task
        ensures { result.now ≡ self.entry.now.task }
    {
        &self.task
    }

    /// What it asks.
    pub fn question(&self) -> Question
        ensures { result ≡ setter_question self.now.task self.now.state }
    {
        self.state.question(&self.task)
    }

    /// Takes the answer to what it asks, and says what became of a change by it.
    pub fn answer(&mut self, answer: HostAnswer) -> Note
        ensures note { result ≡ note_of (setter_question self.old.task self.old.state) answer }
        ensures task { self.new.task ≡ self.old.task }
        ensures state { self.new.state ≡ setter_after self.old.task self.old.state answer }
    {
        let note = setter_note(self.state.question(&self.task), &answer);
        self.state.answer(&self.task, answer);
        note
    }
}
