//! What is asked after each answer.

use crate::given::{Say, answer, mark, rank, task};
use crate::same::same_in;
use pin_driver::{Ending, Mark, PinRestorer, PinSetter, Question, Trouble};
use std::alloc::Global;
use std::process::Abort;

/// A question, as a table writes it, and the answer to it.
#[derive(Clone, Copy, Debug)]
enum Ask {
    Wait(u64),
    Cluster,
    Store(usize, usize),
    Get(usize),
    Set(usize, Option<u8>),
    Roots,
}

fn question(ask: Ask) -> Question {
    match ask {
        Ask::Wait(seconds) => Question::Wait(seconds),
        Ask::Cluster => Question::Cluster,
        Ask::Store(begun, certain) => Question::Store(Mark { begun, certain }),
        Ask::Get(place) => Question::Get(place),
        Ask::Set(place, number) => Question::Set(place, rank(number)),
        Ask::Roots => Question::Roots,
    }
}

/// The first batch of the plan, until all is in place at the third look.
const FIRST_BATCH: &[(Ask, Say)] = &[
    (Ask::Wait(10), Say::Waited),
    (Ask::Cluster, Say::Same),
    (Ask::Store(1, 0), Say::Stored),
    (Ask::Cluster, Say::Same),
    (Ask::Get(0), Say::Found(100, None)),
    (Ask::Set(0, Some(1)), Say::Done),
    (Ask::Cluster, Say::FewerWarnings),
    (Ask::Roots, Say::InPlace(true)),
    (Ask::Wait(5), Say::Waited),
    (Ask::Cluster, Say::Same),
    (Ask::Roots, Say::InPlace(true)),
    (Ask::Wait(5), Say::Waited),
    (Ask::Cluster, Say::Same),
    (Ask::Roots, Say::InPlace(true)),
    (Ask::Store(1, 1), Say::Stored),
];

/// The second batch: the directory of its change is gone.
const SECOND_BATCH: &[(Ask, Say)] = &[
    (Ask::Store(2, 1), Say::Stored),
    (Ask::Cluster, Say::Same),
    (Ask::Get(1), Say::Gone),
    (Ask::Cluster, Say::Same),
    (Ask::Roots, Say::InPlace(true)),
    (Ask::Wait(5), Say::Waited),
    (Ask::Cluster, Say::Same),
    (Ask::Roots, Say::InPlace(true)),
    (Ask::Wait(5), Say::Waited),
    (Ask::Cluster, Say::Same),
    (Ask::Roots, Say::InPlace(true)),
    (Ask::Store(2, 2), Say::Stored),
];

/// A run that ended after the pin of the first change was asked for, or set: the pin is set again.
const AGAIN: &[(Ask, Say)] = &[
    (Ask::Wait(10), Say::Waited),
    (Ask::Cluster, Say::Same),
    (Ask::Store(1, 0), Say::Stored),
    (Ask::Cluster, Say::Same),
    (Ask::Get(0), Say::Found(100, Some(1))),
    (Ask::Set(0, Some(1)), Say::Done),
];

/// A look finds that something moves, and the time is over.
const TOO_SLOW: &[(Ask, Say)] = &[
    (Ask::Cluster, Say::Same),
    (Ask::Roots, Say::InPlace(true)),
    (Ask::Wait(5), Say::Waited),
    (Ask::Cluster, Say::Same),
    (Ask::Roots, Say::InPlace(false)),
    (Ask::Wait(5), Say::Waited),
    (Ask::Cluster, Say::Same),
    (Ask::Roots, Say::InPlace(false)),
];

/// The way back of both changes, the first of which is certain: the second may not have been made.
const BACK: &[(Ask, Say)] = &[
    (Ask::Wait(10), Say::Waited),
    (Ask::Cluster, Say::Same),
    (Ask::Store(2, 0), Say::Stored),
    (Ask::Cluster, Say::Same),
    (Ask::Get(1), Say::Found(8, Some(2))),
    (Ask::Set(1, Some(2)), Say::Done),
    (Ask::Cluster, Say::Same),
    (Ask::Get(0), Say::Found(100, Some(1))),
    (Ask::Set(0, None), Say::Done),
    (Ask::Cluster, Say::Same),
    (Ask::Store(0, 0), Say::Stored),
];

/// The same, where somebody else took the first pin away, and pinned the second directory elsewhere.
const LEFT_ALONE: &[(Ask, Say)] = &[
    (Ask::Wait(10), Say::Waited),
    (Ask::Cluster, Say::Same),
    (Ask::Store(2, 0), Say::Stored),
    (Ask::Cluster, Say::Same),
    (Ask::Get(1), Say::Found(8, Some(3))),
    (Ask::Cluster, Say::Same),
    (Ask::Get(0), Say::Found(100, None)),
    (Ask::Cluster, Say::Same),
    (Ask::Store(0, 0), Say::Stored),
];

/// Answers each question of a table.
fn sets<R: Abort>(rt: &R, alloc: Global, setter: &mut PinSetter, table: &[(Ask, Say)]) {
    for row in table {
        same_in(rt, &setter.question(), &question(row.0), row);
        let _ = setter.answer(answer(rt, alloc, row.1));
    }
}

fn restores<R: Abort>(rt: &R, alloc: Global, restorer: &mut PinRestorer, table: &[(Ask, Say)]) {
    for row in table {
        same_in(rt, &restorer.question(), &question(row.0), row);
        let _ = restorer.answer(answer(rt, alloc, row.1));
    }
}

fn is_stopped(question: Question, trouble: Trouble) -> bool {
    question == Question::End(Ending::Stopped(trouble))
}

#[test]
fn a_plan_is_set_batch_by_batch(rt: HostRuntime) {
    let alloc = rt.alloc();
    let mut setter = PinSetter::new(task(&rt, alloc, mark(0, 0)));
    sets(&rt, alloc, &mut setter, FIRST_BATCH);
    sets(&rt, alloc, &mut setter, SECOND_BATCH);
    assert!(rt; setter.question() == Question::End(Ending::Done));
}

#[test]
fn a_run_that_ended_goes_on(rt: HostRuntime) {
    let alloc = rt.alloc();
    let mut setter = PinSetter::new(task(&rt, alloc, mark(1, 0)));
    sets(&rt, alloc, &mut setter, AGAIN);
    sets(&rt, alloc, &mut setter, TOO_SLOW);
    assert!(rt; is_stopped(setter.question(), Trouble::TooSlow));
}

#[test]
fn a_plan_is_taken_back(rt: HostRuntime) {
    let alloc = rt.alloc();
    let mut restorer = PinRestorer::new(task(&rt, alloc, mark(2, 1)));
    restores(&rt, alloc, &mut restorer, BACK);
    assert!(rt; restorer.question() == Question::End(Ending::Done));
}

#[test]
fn pins_of_others_are_left_alone(rt: HostRuntime) {
    let alloc = rt.alloc();
    let mut restorer = PinRestorer::new(task(&rt, alloc, mark(2, 1)));
    restores(&rt, alloc, &mut restorer, LEFT_ALONE);
    assert!(rt; restorer.question() == Question::End(Ending::Done));
}

/// A question of a setter, an answer, and the trouble that it is.
const TROUBLES: &[(usize, Say, Trouble)] = &[
    (0, Say::Refused, Trouble::Refused),
    (1, Say::NoAnswer, Trouble::NoAnswer),
    (2, Say::Refused, Trouble::Refused),
    (2, Say::Done, Trouble::Nonsense),
    (3, Say::OtherRanks, Trouble::RanksChanged),
    (3, Say::NewWarning, Trouble::NewWarning),
    (4, Say::Found(101, None), Trouble::OtherDirectory),
    (4, Say::Found(100, Some(1)), Trouble::PinChanged),
    (5, Say::Refused, Trouble::Refused),
    (5, Say::NoAnswer, Trouble::NoAnswer),
    (6, Say::Gone, Trouble::Nonsense),
];

#[test]
fn troubles_stop(rt: HostRuntime) {
    let alloc = rt.alloc();
    for row in TROUBLES {
        let mut setter = PinSetter::new(task(&rt, alloc, mark(0, 0)));
        let table = FIRST_BATCH;
        assert!(rt; row.0 <= table.len());
        sets(&rt, alloc, &mut setter, &table[..row.0]);
        let _ = setter.answer(answer(&rt, alloc, row.1));
        same_in(
            &rt,
            &setter.question(),
            &Question::End(Ending::Stopped(row.2)),
            row,
        );
        // the end stays
        let _ = setter.answer(answer(&rt, alloc, Say::Done));
        assert!(rt; is_stopped(setter.question(), row.2));
    }
}
