//! All answers to all questions of a way back, with a plain judge of what is asked.

use crate::given::{Say, answer, mark, rank, task};
use crate::judged::{Exchange, SAYINGS, advance};
use crate::same::{Sure, holds_in};
use mds_types::Rank;
use pin_driver::{Ending, HostAnswer, Mark, PinRestorer, Question};
use std::alloc::Global;
use std::process::Abort;

/// What a judge knows of the exchanges so far.
#[derive(Clone, Copy)]
struct Known {
    first: Mark,
    stored: Option<Mark>,
    last: Option<Exchange>,
    left: usize,
    is_troubled: bool,
}

impl Known {
    /// Whether the directory has a pin of ours. The first change is from no pin to rank 1, the second from rank 2 to
    /// no pin.
    fn is_ours(&self, place: usize, said: Say) -> bool {
        let may_be_unmade = place >= self.first.certain;
        match (place, said) {
            (0, Say::Found(100, Some(1))) => true,
            (0, Say::Found(100, None)) => may_be_unmade,
            (1, Say::Found(_, None)) => true,
            (1, Say::Found(_, Some(2))) => may_be_unmade,
            _ => false,
        }
    }

    /// Whether the answer is one that lets the driver go on.
    fn is_good(&self, exchange: &Exchange) -> bool {
        let said = exchange.said;
        match &exchange.asked {
            Question::Wait(_) => said == Say::Waited,
            Question::Cluster => said == Say::Same,
            Question::Store(_) => said == Say::Stored,
            Question::Get(_) => matches!(&said, Say::Gone | Say::Found(_, _)),
            Question::Set(_, _) => said == Say::Done || said == Say::Gone,
            Question::Roots => false,
            Question::End(_) => false,
        }
    }

    fn may_set(&self, place: usize, pin: &Option<Rank>) -> bool {
        let before = if place == 0 { None } else { rank(Some(2)) };
        let is_found = match self.last {
            Some(last) => last.asked == Question::Get(place) && self.is_ours(place, last.said),
            None => false,
        };
        let is_stored = self.stored == Some(mark(self.first.begun, 0));
        place < self.left && self.left - place == 1 && pin == &before && is_stored && is_found
    }

    /// Whether this may be asked now.
    fn may_ask(&self, question: &Question) -> bool {
        match question {
            Question::End(Ending::Stopped(_)) => self.is_troubled,
            _ if self.is_troubled => false,
            Question::End(Ending::Done) => self.left == 0 && self.stored == Some(mark(0, 0)),
            Question::Set(place, pin) => self.may_set(*place, pin),
            Question::Store(new) => {
                *new == mark(self.first.begun, 0) || (*new == mark(0, 0) && self.left == 0)
            }
            Question::Roots => false,
            _ => true,
        }
    }

    /// What the exchange adds to it.
    fn look(&mut self, exchange: &Exchange) {
        let said = exchange.said;
        match &exchange.asked {
            Question::Store(mark) if said == Say::Stored => self.stored = Some(*mark),
            Question::Get(place) if !self.is_ours(*place, said) => {
                self.left = self.left.saturating_sub(1);
            }
            Question::Set(_, _) => self.left = self.left.saturating_sub(1),
            _ => {}
        }
    }
}

/// One way back, after the first wait and the first state of the cluster by these numbers of sayings, and further ones
/// that are the first. It ends, and the judge finds nothing wrong.
fn run<R: Abort>(rt: &R, alloc: Global, first: Mark, numbers: &mut Vec<usize>) {
    let mut restorer = PinRestorer::new(task(rt, alloc, first));
    let mut known = Known {
        first,
        stored: None,
        last: None,
        left: first.begun,
        is_troubled: false,
    };
    let _ = restorer.answer(HostAnswer::Waited);
    let _ = restorer.answer(answer(rt, alloc, Say::Same));
    for at in 0..60 {
        let asked = restorer.question();
        let is_right = known.may_ask(&asked);
        holds_in(rt, is_right, &(&asked, numbers.as_slice()));
        if let Question::End(_) = &asked {
            numbers.truncate(at);
            return;
        }
        if numbers.len() <= at {
            numbers.push(0).sure(rt);
        }
        let number = numbers.get(at).copied().unwrap_or(0);
        let said = SAYINGS.get(number).copied().unwrap_or(Say::Nonsense);
        let exchange = Exchange { asked, said };
        known.is_troubled = !known.is_good(&exchange);
        known.look(&exchange);
        known.last = Some(exchange);
        let _ = restorer.answer(answer(rt, alloc, said));
    }
    panic!(rt; "the way back does not end: {numbers:?}");
}

/// All ways back from a mark.
fn runs<R: Abort>(rt: &R, alloc: Global, first: Mark) {
    let mut numbers = Vec::new(alloc);
    for _ in 0..1_000_000 {
        run(rt, alloc, first, &mut numbers);
        if !advance(rt, &mut numbers) {
            return;
        }
    }
    panic!(rt; "more than a million ways back");
}

#[test]
fn whatever_is_answered_on_a_way_back(rt: HostRuntime) {
    let alloc = rt.alloc();
    runs(&rt, alloc, mark(2, 1));
    runs(&rt, alloc, mark(2, 2));
    runs(&rt, alloc, mark(1, 0));
    runs(&rt, alloc, mark(0, 0));
}
