//! All answers to all questions, with a plain judge of what is asked.

use crate::given::{Say, answer, mark, plan, rank};
use crate::same::{Sure, holds_in};
use mds_types::Rank;
use pin_driver::{Ending, HostAnswer, Mark, Pace, PinSetter, Question, Task};
use std::alloc::Global;
use std::process::Abort;

/// Each answer that is tried to each question.
pub(crate) const SAYINGS: &[Say] = &[
    Say::Waited,
    Say::Same,
    Say::NewWarning,
    Say::OtherRanks,
    Say::Stored,
    Say::Found(100, None),
    Say::Found(100, Some(1)),
    Say::Found(100, Some(2)),
    Say::Found(7, Some(2)),
    Say::Found(7, None),
    Say::Done,
    Say::InPlace(true),
    Say::InPlace(false),
    Say::Gone,
    Say::Refused,
    Say::NoAnswer,
    Say::Nonsense,
];

/// A question, and the answer to it.
#[derive(Clone, Copy, Debug)]
pub(crate) struct Exchange {
    pub(crate) asked: Question,
    pub(crate) said: Say,
}

/// What a judge knows of the exchanges so far.
#[derive(Clone, Copy)]
struct Known {
    first: Mark,
    stored: Option<Mark>,
    last: Option<Exchange>,
    next: usize,
    looks: u32,
    waited: u64,
    is_troubled: bool,
}

/// The directory of the plan's change at a place, as it is before and after it.
fn pins(place: usize) -> (Say, Say, Option<Rank>) {
    if place == 0 {
        (
            Say::Found(100, None),
            Say::Found(100, Some(1)),
            rank(Some(1)),
        )
    } else {
        (Say::Found(7, Some(2)), Say::Found(7, None), None)
    }
}

impl Known {
    /// Whether the directory was found as the plan has it. The second change's inode number is not known.
    fn is_found(&self, place: usize, said: Say) -> bool {
        let (before, after, _) = pins(place);
        let said = match said {
            Say::Found(_, pin) if place == 1 => Say::Found(7, pin),
            other => other,
        };
        said == before || (said == after && place < self.first.begun)
    }

    /// Whether the answer is the one that lets the driver go on.
    fn is_good(&self, exchange: &Exchange) -> bool {
        let said = exchange.said;
        match &exchange.asked {
            Question::Wait(_) => said == Say::Waited,
            Question::Cluster => said == Say::Same,
            Question::Store(_) => said == Say::Stored,
            Question::Get(place) => said == Say::Gone || self.is_found(*place, said),
            Question::Set(_, _) => said == Say::Done || said == Say::Gone,
            Question::Roots => {
                said == Say::InPlace(true) || (said == Say::InPlace(false) && self.waited < 10)
            }
            Question::End(_) => false,
        }
    }

    fn may_set(&self, place: usize, pin: Option<Rank>) -> bool {
        let (_, _, after) = pins(place);
        let is_stored = match self.stored {
            Some(mark) => place < mark.begun,
            None => false,
        };
        let is_found = match self.last {
            Some(last) => last.asked == Question::Get(place) && self.is_found(place, last.said),
            None => false,
        };
        place == self.next && pin == after && is_stored && is_found
    }

    fn may_store(&self, mark: Mark) -> bool {
        let before = self.stored.unwrap_or(self.first);
        let is_sure = self.looks >= 3 && mark.certain == self.next;
        before.begun <= mark.begun && mark.begun <= 2 && (mark.certain == before.certain || is_sure)
    }

    /// Whether this may be asked now.
    fn may_ask(&self, question: Question) -> bool {
        match question {
            Question::End(Ending::Stopped(_)) => self.is_troubled,
            _ if self.is_troubled => false,
            Question::End(Ending::Done) => self.next == 2 && self.stored == Some(mark(2, 2)),
            Question::Set(place, pin) => self.may_set(place, pin),
            Question::Store(mark) => self.may_store(mark),
            _ => true,
        }
    }

    /// What the exchange adds to it.
    fn look(&mut self, exchange: &Exchange) {
        match &exchange.asked {
            Question::Store(mark) if exchange.said == Say::Stored => {
                self.stored = Some(*mark);
                self.looks = 0;
                self.waited = 0;
            }
            Question::Get(_) if exchange.said == Say::Gone => self.settle(),
            Question::Set(_, _) if exchange.said == Say::Done || exchange.said == Say::Gone => {
                self.settle();
            }
            Question::Roots if exchange.said == Say::InPlace(true) => {
                self.looks = self.looks.saturating_add(1);
            }
            Question::Roots => self.looks = 0,
            Question::Wait(seconds) => self.waited = self.waited.saturating_add(*seconds),
            _ => {}
        }
    }

    /// A change is settled.
    fn settle(&mut self) {
        self.next = self.next.saturating_add(1);
        self.looks = 0;
    }
}

/// One run, after the first wait and the first state of the cluster by these numbers of sayings, and further ones that
/// are the first. It ends, and the judge finds nothing wrong.
fn run<R: Abort>(rt: &R, alloc: Global, first: Mark, numbers: &mut Vec<usize>) {
    let pace = Pace {
        batch_inodes: 1000,
        poll_seconds: 5,
        longest_wait: 10,
    };
    let plan = plan(rt, alloc);
    assert!(rt; first.begun <= plan.changes().len() && first.certain <= first.begun);
    let mut setter = PinSetter::new(Task { plan, first, pace });
    let mut known = Known {
        first,
        stored: None,
        last: None,
        next: first.certain,
        looks: 0,
        waited: 0,
        is_troubled: false,
    };
    let _ = setter.answer(HostAnswer::Waited);
    let _ = setter.answer(answer(rt, alloc, Say::Same));
    for at in 0..60 {
        let asked = setter.question();
        holds_in(rt, known.may_ask(asked), &(asked, numbers.as_slice()));
        if let Question::End(_) = asked {
            numbers.truncate(at);
            return;
        }
        if numbers.len() <= at {
            numbers.push(0).sure(rt);
        }
        let number = numbers.get(at).copied().unwrap_or(0);
        let said = SAYINGS.get(number).copied().unwrap_or(Say::Nonsense);
        let exchange = Exchange { asked, said };
        known.is_troubled = !known.is_good(&exchange);
        known.look(&exchange);
        known.last = Some(exchange);
        let _ = setter.answer(answer(rt, alloc, said));
    }
    panic!(rt; "the run does not end: {numbers:?}");
}

/// The next numbers, in order. Whether there are some.
pub(crate) fn advance<R: Abort>(rt: &R, numbers: &mut Vec<usize>) -> bool {
    for _ in 0..numbers.len() {
        match numbers.pop() {
            Some(last) if last < SAYINGS.len() - 1 => {
                numbers.push(last + 1).sure(rt);
                return true;
            }
            _ => {}
        }
    }
    false
}

/// All runs from a mark.
fn runs<R: Abort>(rt: &R, alloc: Global, first: Mark) {
    let mut numbers = Vec::new(alloc);
    let mut count: u32 = 0;
    for _ in 0..1_000_000 {
        run(rt, alloc, first, &mut numbers);
        count = count.saturating_add(1);
        if !advance(rt, &mut numbers) {
            assert!(rt; count > 1000);
            return;
        }
    }
    panic!(rt; "more than a million runs");
}

#[test]
fn whatever_is_answered(rt: HostRuntime) {
    runs(&rt, rt.alloc(), mark(0, 0));
}

#[test]
fn whatever_is_answered_after_an_end(rt: HostRuntime) {
    runs(&rt, rt.alloc(), mark(2, 1));
}
