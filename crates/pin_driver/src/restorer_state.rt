//! How far a restorer of pins is, and what it does next.
//!
//! ```text
//! resting -> opening -> noting -> checking -> getting -> restoring
//!                                  |  ^--------+------------+      until all begun changes are put right
//!                                  v
//!                                closing -> ended
//! ```

ghost use Rattle.std.specs.Prelude.{◌≡◌, ◌-◌, ◌==◌, slice_get};
ghost use Rattle.pin_driver.specs.Restoring.{is_given, is_restorable, is_to_restore, former_pin, restorable_at};
ghost use Rattle.pin_driver.specs.Restoring.{restored_one, restorer_advanced, restorer_after, restorer_question};
ghost use Rattle.pin_driver.specs.Restoring.{restorer_start, restorer_trouble, any_directory};
ghost use Rattle.pin_driver.specs.Notes.{restorer_note};
ghost use Rattle.pin_driver.specs.Troubles.{get_trouble};

use crate::answer::{ClusterState, FoundPin, HostAnswer, named_cluster};
use crate::note::{Note, setter_note};
use crate::plan::PlannedChange;
use crate::question::{Ending, Mark, Question, Trouble};
use crate::task::{REST_SECONDS, Task};
use crate::trouble::{
    is_inode, is_same_pin, misfit, set_trouble, state_trouble, store_trouble, wait_trouble,
};
use mds_types::Rank;

/// What a restorer asks next.
#[derive(Clone, Copy, Debug)]
pub enum RestorerPhase {
    /// To wait until no pin is read as its old value.
    Resting,
    /// For the first state of the cluster.
    Opening,
    /// To store that nothing is certain.
    Noting,
    /// Whether the cluster is as it was.
    Checking,
    /// For the directory of the next change.
    Getting,
    /// To set its pin of before.
    Restoring,
    /// To store that nothing is begun.
    Closing,
    /// Nothing more.
    Ended(Ending),
}

/// How far a restorer is.
#[derive(Drop)]
pub struct RestorerState {
    /// The changes before this place are to be put right; the last of them is the next.
    pub left: usize,
    /// The first state of the cluster.
    pub cluster: Option<ClusterState>,
    /// What is asked next.
    pub phase: RestorerPhase,
}

impl RestorerState {
    /// A restorer at its begin.
    pub(crate) fn new(task: &Task) -> RestorerState
        ensures { result ≡ restorer_start task.now }
    {
        RestorerState {
            left: task.first.begun,
            cluster: None,
            phase: RestorerPhase::Resting,
        }
    }

    /// The place of the next change.
    fn next_place(&self) -> usize
        ensures { result ≡ self.now.left - 1 }
    {
        self.left.saturating_sub(1)
    }

    /// What it asks.
    pub(crate) fn question(&self, task: &Task) -> Question
        ensures { result ≡ restorer_question task.now self.now }
    {
        match self.phase {
            RestorerPhase::Resting => Question::Wait(REST_SECONDS),
            RestorerPhase::Opening => Question::Cluster,
            RestorerPhase::Noting => Question::Store(Mark {
                begun: task.first.begun,
                certain: 0,
            }),
            RestorerPhase::Checking => Question::Cluster,
            RestorerPhase::Getting => Question::Get(self.next_place()),
            RestorerPhase::Restoring => self.set_question(task),
            RestorerPhase::Closing => Question::Store(Mark {
                begun: 0,
                certain: 0,
            }),
            RestorerPhase::Ended(ending) => Question::End(ending),
        }
    }

    fn set_question(&self, task: &Task) -> Question
        ensures { result
            ≡ Question.Set (self.now.left - 1) (former_pin (slice_get task.now.plan.changes (self.now.left - 1))) }
    {
        let at = self.next_place();
        let pin = match task.plan.changes().get(at) {
            Some(change) => change.before,
            None => None,
        };
        Question::Set(at, pin)
    }

    /// What an answer says became of a change.
    pub(crate) fn note(&self, task: &Task, answer: &HostAnswer) -> Note
        ensures { result ≡ restorer_note task.now (restorer_question task.now self.now) answer.now }
    {
        match self.question(task) {
            Question::Get(place) => get_note(task, place, answer),
            question => setter_note(question, answer),
        }
    }

    /// What is wrong with an answer, if anything is.
    fn trouble(&self, task: &Task, answer: &HostAnswer) -> Option<Trouble>
        ensures { result ≡ restorer_trouble task.now self.now answer.now }
    {
        match self.phase {
            RestorerPhase::Resting => wait_trouble(answer),
            RestorerPhase::Opening => state_trouble(&self.cluster, answer),
            RestorerPhase::Noting => store_trouble(answer),
            RestorerPhase::Checking => state_trouble(&self.cluster, answer),
            RestorerPhase::Getting => back_trouble(self.next_place(), answer),
            RestorerPhase::Restoring => set_trouble(answer),
            RestorerPhase::Closing => store_trouble(answer),
            RestorerPhase::Ended(_) => None,
        }
    }

    /// Takes the answer to what it asks.
    pub(crate) fn answer(&mut self, task: &Task, answer: HostAnswer)
        ensures { self.new ≡ restorer_after task.now self.old answer }
    {
        match self.trouble(task, &answer) {
            Some(trouble) => self.phase = RestorerPhase::Ended(Ending::Stopped(trouble)),
            None => self.advance(task, answer),
        }
    }

    fn advance(&mut self, task: &Task, answer: HostAnswer)
        ensures { self.new ≡ restorer_advanced self.old.phase task.now self.old answer }
    {
        match self.phase {
            RestorerPhase::Resting => self.phase = RestorerPhase::Opening,
            RestorerPhase::Opening => {
                self.cluster = named_cluster(answer);
                self.phase = RestorerPhase::Noting;
            }
            RestorerPhase::Noting => self.phase = RestorerPhase::Checking,
            RestorerPhase::Checking => {
                self.phase = if self.left == 0 {
                    RestorerPhase::Closing
                } else {
                    RestorerPhase::Getting
                }
            }
            RestorerPhase::Getting => self.found(task, &answer),
            RestorerPhase::Restoring => self.pass(),
            RestorerPhase::Closing => self.phase = RestorerPhase::Ended(Ending::Done),
            RestorerPhase::Ended(_) => {}
        }
    }

    fn found(&mut self, task: &Task, answer: &HostAnswer)
        ensures { self.new ≡ restorer_advanced RestorerPhase.Getting task.now self.old answer.now }
    {
        if is_to_restore(task, self.next_place(), answer) {
            self.phase = RestorerPhase::Restoring;
        } else {
            self.pass();
        }
    }

    /// The change is behind.
    fn pass(&mut self)
        ensures { self.new ≡ restored_one self.old }
    {
        self.left = self.next_place();
        self.phase = RestorerPhase::Checking;
    }
}

/// What the answer for a directory says became of its change.
fn get_note(task: &Task, place: usize, answer: &HostAnswer) -> Note
    ensures { result ≡ restorer_note task.now (Question.Get place) answer.now }
{
    match answer {
        HostAnswer::Gone => Note::Gone(place),
        HostAnswer::Found(found) => {
            if is_restorable(task, place, *found) {
                Note::Nothing
            } else {
                Note::LeftAlone(place)
            }
        }
        _ => Note::Nothing,
    }
}

/// What is wrong with the answer for a directory on the way back.
fn back_trouble(at: usize, answer: &HostAnswer) -> Option<Trouble>
    ensures { result ≡ get_trouble (any_directory at) answer.now }
{
    match answer {
        HostAnswer::Found(_) => None,
        HostAnswer::Gone => None,
        other => Some(misfit(other)),
    }
}

fn is_given(is_certain: bool, change: &PlannedChange, pin: &Option<Rank>) -> bool
    ensures { result ≡ is_given is_certain change.now pin.now }
{
    is_same_pin(pin, &change.after) || (!is_certain && is_same_pin(pin, &change.before))
}

fn is_restorable(task: &Task, at: usize, found: FoundPin) -> bool
    ensures { result ≡ restorable_at task.now at found }
{
    match task.plan.changes().get(at) {
        None => false,
        Some(change) => {
            is_inode(change.inode, found.inode)
                && is_given(at < task.first.certain, change, &found.pin)
        }
    }
}

/// Whether the directory of an answer has a pin that is restored.
fn is_to_restore(task: &Task, at: usize, answer: &HostAnswer) -> bool
    ensures { result ≡ is_to_restore task.now at answer.now }
{
    match answer {
        HostAnswer::Found(found) => is_restorable(task, at, *found),
        _ => false,
    }
}
