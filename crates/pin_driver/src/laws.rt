//! What holds whatever is answered, and wherever a run ends.
ghost use Rattle.std.specs.Prelude.{◌≡◌, List, length, true};
ghost use Rattle.pin_driver.specs.Driven.{IsDriven, IsMark};
ghost use Rattle.pin_driver.specs.Restored.{IsRestored};
ghost use Rattle.pin_driver.specs.Restoring.{restorer_after, restorer_ended};
ghost use Rattle.pin_driver.specs.Sessions.{AreAccounted, AreSessions, MayBeLeft, Session, restorer_asks};
ghost use Rattle.pin_driver.specs.Sessions.{restorer_exchanges, setter_asks, setter_exchanges};
ghost use Rattle.pin_driver.specs.Setting.{has_ended, setter_after};
ghost use Rattle.pin_driver.specs.declared.answer.HostAnswer.{HostAnswer};
ghost use Rattle.pin_driver.specs.declared.plan.PinPlan.{PinPlan};
ghost use Rattle.pin_driver.specs.declared.question.Mark.{Mark};
ghost use Rattle.pin_driver.specs.declared.restorer_state.RestorerState.{RestorerState};
ghost use Rattle.pin_driver.specs.declared.setter_state.SetterState.{SetterState};
ghost use Rattle.pin_driver.specs.declared.task.Task.{Task};

/// What a setter asks, after whatever answers.
pub fn setter()
    ensures driven { (x : Task) (more : List HostAnswer) → IsMark x.first (length x.plan.changes) →
        IsDriven x (setter_exchanges x more) (setter_asks x more) }
    // An end stays.
    ensures ended { (x : Task) (s : SetterState) (a : HostAnswer) → has_ended s.phase ≡ true → setter_after x s a ≡ s }
{}

/// What a restorer asks, after whatever answers.
pub fn restorer()
    ensures restored { (x : Task) (more : List HostAnswer) →
        IsRestored x (restorer_exchanges x more) (restorer_asks x more) }
    // An end stays.
    ensures ended { (x : Task) (s : RestorerState) (a : HostAnswer) → restorer_ended s.phase ≡ true →
        restorer_after x s a ≡ s }
{}

/// Runs of one plan, each begun from a text that the one before it may have left.
pub fn sessions()
    ensures { (plan : PinPlan) (start : Mark) (sessions : List Session) (mark : Mark) →
        IsMark start (length plan.changes) → AreSessions plan start sessions → MayBeLeft plan start sessions mark →
        AreAccounted plan start sessions mark }
{}
