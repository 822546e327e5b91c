//! What became of a change.
ghost use Rattle.std.specs.Prelude.{◌≡◌};
ghost use Rattle.pin_driver.specs.Notes.{setter_note as note_of};

use crate::answer::HostAnswer;
use crate::question::Question;

/// What became of a change, by the answer that says so. A change is named by its place in the plan.
#[derive(Clone, Copy, Debug, PartialEq, Eq)]
pub enum Note {
    /// The answer settles no change.
    Nothing,
    /// Its pin is set.
    Set(usize),
    /// Its directory is gone.
    Gone(usize),
    /// On a way back: its directory has another inode number, or a pin that is not ours, and stays as it is.
    LeftAlone(usize),
}

/// What an answer says that a setter was given to a question.
pub(crate) fn setter_note(question: Question, answer: &HostAnswer) -> Note
    ensures { result ≡ note_of question answer.now }
{
    match question {
        Question::Set(place, _) => match answer {
            HostAnswer::Done => Note::Set(place),
            HostAnswer::Gone => Note::Gone(place),
            _ => Note::Nothing,
        },
        Question::Get(place) => match answer {
            HostAnswer::Gone => Note::Gone(place),
            _ => Note::Nothing,
        },
        _ => Note::Nothing,
    }
}
