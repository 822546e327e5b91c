//! The machine that sets the pins of a plan.
//!
//! ```text
//! resting -> opening -> noting -> checking -> getting -> setting
//!                         ^        ^  |  ^--------+---------+   until the batch is set
//!                         |        |  v
//!                         |        | looking <-> pausing         until all is in place
//!                         |           v
//!                         +-------- closing -> ended             until all batches are
//! ```

ghost use Rattle.std.specs.Prelude.{◌≡◌, ◌-◌, nat_lt, slice_get, if◌then◌else◌};
ghost use Rattle.pin_driver.specs.Exchanges.{named_cluster};
ghost use Rattle.pin_driver.specs.Setting.{advanced, batch_end, begin_batch, closed, closed_mark, looked, passed};
ghost use Rattle.pin_driver.specs.Setting.{given_pin};
ghost use Rattle.pin_driver.specs.Setting.{after_store, setter_after, setter_question, setter_start, setter_trouble};

use crate::answer::{ClusterState, HostAnswer, is_gone, is_in_place, named_cluster};
use crate::question::{Ending, Mark, Question, Trouble};
use crate::task::{LOOKS, REST_SECONDS, Task};
use crate::trouble::{
    get_trouble, roots_trouble, set_trouble, state_trouble, store_trouble, wait_trouble,
};

/// What a setter asks next.
#[derive(Clone, Copy, Debug)]
pub enum SetterPhase {
    /// To wait until no pin is read as its old value.
    Resting,
    /// For the first state of the cluster.
    Opening,
    /// To store which changes may be set from now on.
    Noting,
    /// Whether the cluster is as it was.
    Checking,
    /// For the directory of the next change.
    Getting,
    /// To set its pin.
    Setting,
    /// Whether all is in place.
    Looking,
    /// To wait until the next look.
    Pausing,
    /// To store that the batch is set and in place.
    Closing,
    /// Nothing more.
    Ended(Ending),
}

/// How far a setter is.
#[derive(Drop)]
pub struct SetterState {
    /// What was stored last, or is to be stored now.
    pub mark: Mark,
    /// The place of the next change.
    pub at: usize,
    /// The first state of the cluster.
    pub cluster: Option<ClusterState>,
    /// How many seconds of the longest wait are left.
    pub left: u64,
    /// How many looks still have to find all in place.
    pub still: u8,
    /// What is asked next.
    pub phase: SetterPhase,
}

impl SetterState {
    /// A setter at its begin.
    pub(crate) fn new(task: &Task) -> SetterState
        ensures { result ≡ setter_start task.now }
    {
        SetterState {
            mark: task.first,
            at: task.first.certain,
            cluster: None,
            left: task.pace.longest_wait,
            still: LOOKS,
            phase: SetterPhase::Resting,
        }
    }

    /// What it asks.
    pub(crate) fn question(&self, task: &Task) -> Question
        ensures { result ≡ setter_question task.now self.now }
    {
        match self.phase {
            SetterPhase::Resting => Question::Wait(REST_SECONDS),
            SetterPhase::Opening => Question::Cluster,
            SetterPhase::Noting => Question::Store(self.mark),
            SetterPhase::Checking => Question::Cluster,
            SetterPhase::Getting => Question::Get(self.at),
            SetterPhase::Setting => self.set_question(task),
            SetterPhase::Looking => Question::Roots,
            SetterPhase::Pausing => Question::Wait(task.pace.poll_seconds),
            SetterPhase::Closing => Question::Store(self.closed_mark()),
            SetterPhase::Ended(ending) => Question::End(ending),
        }
    }

    fn set_question(&self, task: &Task) -> Question
        ensures { result ≡ Question.Set self.now.at (given_pin (slice_get task.now.plan.changes self.now.at)) }
    {
        let pin = match task.plan.changes().get(self.at) {
            Some(change) => change.after,
            None => None,
        };
        Question::Set(self.at, pin)
    }

    fn closed_mark(&self) -> Mark
        ensures { result ≡ closed_mark self.now.mark }
    {
        let begun = self.mark.begun;
        Mark {
            begun,
            certain: begun,
        }
    }

    /// What is wrong with an answer, if anything is.
    fn trouble(&self, task: &Task, answer: &HostAnswer) -> Option<Trouble>
        ensures { result ≡ setter_trouble task.now self.now answer.now }
    {
        match self.phase {
            SetterPhase::Resting => wait_trouble(answer),
            SetterPhase::Opening => state_trouble(&self.cluster, answer),
            SetterPhase::Noting => store_trouble(answer),
            SetterPhase::Checking => state_trouble(&self.cluster, answer),
            SetterPhase::Getting => get_trouble(task, self.at, answer),
            SetterPhase::Setting => set_trouble(answer),
            SetterPhase::Looking => roots_trouble(self.left, answer),
            SetterPhase::Pausing => wait_trouble(answer),
            SetterPhase::Closing => store_trouble(answer),
            SetterPhase::Ended(_) => None,
        }
    }

    /// Takes the answer to what it asks.
    pub(crate) fn answer(&mut self, task: &Task, answer: HostAnswer)
        ensures { self.new ≡ setter_after task.now self.old answer }
    {
        match self.trouble(task, &answer) {
            Some(trouble) => self.phase = SetterPhase::Ended(Ending::Stopped(trouble)),
            None => self.advance(task, answer),
        }
    }

    fn advance(&mut self, task: &Task, answer: HostAnswer)
        ensures { self.new ≡ advanced self.old.phase task.now self.old answer }
    {
        match self.phase {
            SetterPhase::Resting => self.rested(),
            SetterPhase::Opening => self.opened(task, answer),
            SetterPhase::Noting => self.stored(task, self.mark),
            SetterPhase::Checking => self.checked(),
            SetterPhase::Getting => self.found(task, &answer),
            SetterPhase::Setting => self.pass(),
            SetterPhase::Looking => self.looked(is_in_place(&answer)),
            SetterPhase::Pausing => self.paused(task),
            SetterPhase::Closing => self.closed(task),
            SetterPhase::Ended(_) => {}
        }
    }

    fn rested(&mut self)
        ensures { self.new ≡ record self.old {
          left = self.old.left - REST_SECONDS;
          phase = SetterPhase.Opening;
        } }
    {
        self.left = self.left.saturating_sub(REST_SECONDS);
        self.phase = SetterPhase::Opening;
    }

    fn opened(&mut self, task: &Task, answer: HostAnswer)
        ensures { self.new
            ≡ begin_batch task.now (record self.old { cluster = named_cluster answer }) }
    {
        self.cluster = named_cluster(answer);
        self.begin_batch(task);
    }

    /// After a text with this mark is stored.
    fn stored(&mut self, task: &Task, mark: Mark)
        ensures { self.new ≡ after_store task.now mark self.old }
    {
        self.mark = mark;
        self.left = task.pace.longest_wait;
        self.still = LOOKS;
        self.phase = SetterPhase::Checking;
    }

    fn checked(&mut self)
        ensures { self.new ≡ record self.old {
          phase = if nat_lt self.old.at self.old.mark.begun then SetterPhase.Getting else SetterPhase.Looking;
        } }
    {
        self.phase = if self.at < self.mark.begun {
            SetterPhase::Getting
        } else {
            SetterPhase::Looking
        };
    }

    fn found(&mut self, task: &Task, answer: &HostAnswer)
        ensures { self.new ≡ advanced SetterPhase.Getting task.now self.old answer.now }
    {
        if is_gone(answer) {
            self.pass();
        } else {
            self.phase = SetterPhase::Setting;
        }
    }

    /// The change is behind.
    fn pass(&mut self)
        ensures { self.new ≡ passed self.old }
    {
        self.at = if self.at < self.mark.begun {
            self.at + 1
        } else {
            self.mark.begun
        };
        self.phase = SetterPhase::Checking;
    }

    /// After a look.
    fn looked(&mut self, is_in_place: bool)
        ensures { self.new ≡ looked is_in_place self.old }
    {
        if !is_in_place {
            self.still = LOOKS;
            self.phase = SetterPhase::Pausing;
        } else {
            self.phase = if self.still <= 1 {
                SetterPhase::Closing
            } else {
                SetterPhase::Pausing
            };
            self.still = self.still.saturating_sub(1);
        }
    }

    fn paused(&mut self, task: &Task)
        ensures { self.new ≡ record self.old {
          left = self.old.left - task.now.pace.poll_seconds;
          phase = SetterPhase.Checking;
        } }
    {
        self.left = self.left.saturating_sub(task.pace.poll_seconds);
        self.phase = SetterPhase::Checking;
    }

    /// After a batch is stored as certain.
    fn closed(&mut self, task: &Task)
        ensures { self.new ≡ closed task.now self.old }
    {
        if self.mark.begun == task.plan.changes().len() {
            self.phase = SetterPhase::Ended(Ending::Done);
        } else {
            self.stored(task, self.closed_mark());
            self.begin_batch(task);
        }
    }

    /// The next batch begins.
    fn begin_batch(&mut self, task: &Task)
        ensures { self.new ≡ begin_batch task.now self.old }
    {
        let end = batch_end(task, self.mark.certain);
        if end > self.mark.begun {
            self.mark.begun = end;
        }
        self.phase = SetterPhase::Noting;
    }
}

/// Where a batch ends that begins at this place.
fn batch_end(task: &Task, at: usize) -> usize
    ensures { result ≡ batch_end task.now at }
{
    let changes = task.plan.changes();
    let mut end = at;
    let mut inodes = task.pace.batch_inodes;
    while end < changes.len() {
        let moved = changes[end].inodes;
        end += 1;
        if inodes <= moved {
            return end;
        }
        inodes -= moved;
    }
    changes.len()
}
