//! Runs over a cluster that is played, each ended anywhere and begun again from the stored text.

use crate::given::{Say, answer, mark, plan, rank};
use crate::same::{Sure, holds_in};
use mds_types::Rank;
use pin_driver::{
    Ending, HostAnswer, Pace, PinPlan, PinRestorer, PinSetter, Question, Task, read_stored,
    stored_text,
};
use std::alloc::Global;
use std::process::Abort;

/// Two directories with their pins, and the text that is stored. A pin that is set is read as its old value until
/// somebody waits.
#[derive(Drop)]
struct World {
    pins: (Option<u8>, Option<u8>),
    shown: (Option<u8>, Option<u8>),
    text: Vec<u8>,
}

fn number(pin: Option<Rank>) -> Option<u8> {
    match pin {
        Some(rank) => Some(rank.number()),
        None => None,
    }
}

/// The two pins before the plan.
const BEFORE: (Option<u8>, Option<u8>) = (None, Some(2));

/// The two pins after it.
const AFTER: (Option<u8>, Option<u8>) = (Some(1), None);

impl World {
    fn new<R: Abort>(rt: &R, alloc: Global) -> World {
        World {
            pins: BEFORE,
            shown: BEFORE,
            text: stored_text(alloc, &plan(rt, alloc), mark(0, 0)).sure(rt),
        }
    }

    fn set(&mut self, place: usize, pin: Option<u8>) {
        self.shown = self.pins;
        if place == 0 {
            self.pins.0 = pin;
        } else {
            self.pins.1 = pin;
        }
    }

    /// Does what is asked, and answers.
    fn reply<R: Abort>(
        &mut self,
        rt: &R,
        alloc: Global,
        plan: &PinPlan,
        question: Question,
    ) -> Option<HostAnswer> {
        let say = match question {
            Question::Wait(_) => {
                self.shown = self.pins;
                Say::Waited
            }
            Question::Cluster => Say::Same,
            Question::Store(mark) => {
                self.text = stored_text(alloc, plan, mark).sure(rt);
                Say::Stored
            }
            Question::Get(0) => Say::Found(100, self.shown.0),
            Question::Get(_) => Say::Found(7, self.shown.1),
            Question::Set(place, pin) => {
                self.set(place, number(pin));
                Say::Done
            }
            Question::Roots => Say::InPlace(true),
            Question::End(_) => return None,
        };
        Some(answer(rt, alloc, say))
    }
}

/// The task of the stored text.
fn task<R: Abort>(rt: &R, alloc: Global, world: &World) -> Task {
    let found = read_stored(alloc, world.text.as_slice()).sure(rt);
    let pace = Pace {
        batch_inodes: 50,
        poll_seconds: 5,
        longest_wait: 600,
    };
    Task {
        plan: found.plan,
        first: found.mark,
        pace,
    }
}

/// Sets pins for this many answers; the last one is lost, as what was asked is done. Whether all is done.
fn sets<R: Abort>(rt: &R, alloc: Global, world: &mut World, answers: u32) -> bool {
    let task = task(rt, alloc, world);
    let changes = task.plan.changes().len();
    assert!(rt; task.first.begun <= changes && task.first.certain <= task.first.begun);
    let mut setter = PinSetter::new(task);
    for _ in 0..answers {
        let question = setter.question();
        match world.reply(rt, alloc, &setter.task().plan, question) {
            Some(answer) => {
                let _ = setter.answer(answer);
            }
            None => return question == Question::End(Ending::Done),
        }
    }
    let _ = world.reply(rt, alloc, &setter.task().plan, setter.question());
    false
}

/// Takes pins back for this many answers. Whether all is done.
fn restores<R: Abort>(rt: &R, alloc: Global, world: &mut World, answers: u32) -> bool {
    let mut restorer = PinRestorer::new(task(rt, alloc, world));
    for _ in 0..answers {
        let question = restorer.question();
        match world.reply(rt, alloc, &restorer.task().plan, question) {
            Some(answer) => {
                let _ = restorer.answer(answer);
            }
            None => return question == Question::End(Ending::Done),
        }
    }
    let _ = world.reply(rt, alloc, &restorer.task().plan, restorer.question());
    false
}

/// Wherever a run ends, another one sets all pins.
#[test]
fn a_run_may_end_anywhere(rt: HostRuntime) {
    let alloc = rt.alloc();
    for answers in 0..36 {
        let mut world = World::new(&rt, alloc);
        let _ = sets(&rt, alloc, &mut world, answers);
        let done = sets(&rt, alloc, &mut world, 60);
        holds_in(&rt, done && world.pins == AFTER, &answers);
    }
}

/// Wherever a run ends, and wherever the way back ends, another way back restores all pins.
#[test]
fn a_way_back_may_end_anywhere(rt: HostRuntime) {
    let alloc = rt.alloc();
    for answers in 0..36 {
        for back in 0..13 {
            let mut world = World::new(&rt, alloc);
            let _ = sets(&rt, alloc, &mut world, answers);
            let _ = restores(&rt, alloc, &mut world, back);
            let done = restores(&rt, alloc, &mut world, 60);
            holds_in(&rt, done && world.pins == BEFORE, &(answers, back));
        }
    }
}

/// After a way back that ended anywhere, a run sets all pins.
#[test]
fn a_plan_may_be_set_after_a_way_back(rt: HostRuntime) {
    let alloc = rt.alloc();
    for back in 0..13 {
        let mut world = World::new(&rt, alloc);
        let _ = sets(&rt, alloc, &mut world, 60);
        let _ = restores(&rt, alloc, &mut world, back);
        let done = sets(&rt, alloc, &mut world, 60);
        holds_in(&rt, done && world.pins == AFTER, &back);
    }
}

/// A pin that somebody else sets in between stays.
#[test]
fn pins_of_others_stay(rt: HostRuntime) {
    let alloc = rt.alloc();
    let mut world = World::new(&rt, alloc);
    let _ = sets(&rt, alloc, &mut world, 60);
    world.set(1, Some(3));
    let done = restores(&rt, alloc, &mut world, 60);
    assert!(rt; done && world.pins == (None, Some(3)));
    assert!(rt; rank(world.pins.1).is_some());
}
