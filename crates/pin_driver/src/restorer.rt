//! Restores the pins of before a plan.
ghost use Rattle.std.specs.Prelude.{◌≡◌};
ghost use Rattle.pin_driver.specs.Notes.{restorer_note};
ghost use Rattle.pin_driver.specs.Restoring.{restorer_after, restorer_question, restorer_start};

use crate::answer::HostAnswer;
use crate::note::Note;
use crate::question::Question;
use crate::restorer_state::RestorerState;
use crate::task::Task;
use std::marker::Model;

/// Restores the pins that directories had before a plan, from where the plan is. Its host asks for the question, and
/// gives the answer.
#[derive(Drop)]
pub struct PinRestorer {
    task: Task,
    state: RestorerState,
}

impl Model for PinRestorer {
    ghost use Rattle.pin_driver.specs.RestorerParts.{RestorerParts, restorer_parts};

    ghost Value = { RestorerParts };

    ghost view = { λ restorer. restorer_parts restorer.task restorer.state };
}

impl PinRestorer {
    /// A restorer at its begin.
    pub fn new(task: Task) -> PinRestorer
        ensures task { result.task ≡ task }
        ensures state { result.state ≡ restorer_start task }
    {
        let state = RestorerState::new(&task);
        PinRestorer { task, state }
    }

    /// What it is to do.
    pub fn task(&self) -> &Task
        ensures { result.now ≡ self.entry.now.task }
    {
        &self.task
    }

    /// What it asks.
    pub fn question(&self) -> Question
        ensures { result ≡ restorer_question self.now.task self.now.state }
    {
        self.state.question(&self.task)
    }

    /// Takes the answer to what it asks, and says what became of a change by it.
    pub fn answer(&mut self, answer: HostAnswer) -> Note
        ensures note { result
            ≡ restorer_note self.old.task (restorer_question self.old.task self.old.state) answer }
        ensures task { self.new.task ≡ self.old.task }
        ensures state { self.new.state ≡ restorer_after self.old.task self.old.state answer }
    {
        let note = self.state.note(&self.task, &answer);
        self.state.answer(&self.task, answer);
        note
    }
}
