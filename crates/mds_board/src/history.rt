//! The accepted changes of a board, as memory holds them.
ghost use Rattle.std.specs.Prelude.{◌≡◌, ◌<◌, ◌++◌, ◌∷◌, [], IsTrue, OnOk, Some, length, slice_get};
ghost use Rattle.std.specs.Option.{option_map};
ghost use Rattle.mds_board.specs.Stored.{HasRoom, began, ended, shown_entry};

use crate::entry::Entry;
use crate::{Answer, Balanced, Change, KeptEvent};
use export_protocol::Reply;
use mds_types::{Dir, Order, Rank};
use std::alloc::{AllocError, Global};
use std::marker::Model;

/// Where an entry is.
#[derive(Drop)]
enum Slot {
    Began(Rank, Dir, u32),
    Ended(u32),
    Other(usize),
}

/// An entry, as it is read.
#[derive(Clone, Copy)]
pub enum Shown<'h> {
    /// A request began at a rank, on a directory, with this ticket.
    Began(Rank, Dir, u32),
    /// The request of this ticket ended, and there was nothing to name.
    Ended(u32),
    /// Any other entry.
    Other(&'h Entry),
}

/// The accepted changes of a board, each with its reply, in order. To a contract it is the list of them, and for how
/// many more there is room.
///
/// Requests come in great numbers, so that one begins or ends takes 16 bytes. So does a tick after another one.
#[derive(Drop)]
pub struct History {
    slots: Vec<Slot>,
    others: Vec<Entry>,
}

impl Model for History {
    ghost use Rattle.mds_board.specs.Stored.{AreSlots, HistoryData, stored};

    ghost Value = { HistoryData };

    ghost view = { λ h. stored h.slots h.others };

    ghost invariant = { λ h. AreSlots h.others.items h.slots.items };
}

// Whether an entry is a tick.
fn is_tick(entry: &Entry) -> bool
    ensures { IsTrue result → entry.now ≡ record { change = Change.Tick; reply = Answer.Done } }
{
    match (&entry.change, &entry.reply) {
        (Change::Tick, Answer::Done) => true,
        _ => false,
    }
}

impl History {
    /// No change.
    pub(crate) fn new(alloc: Global) -> History
        ensures { result.entries ≡ [] }
    {
        History {
            slots: Vec::new(alloc),
            others: Vec::new(alloc),
        }
    }

    /// How many entries there are.
    pub fn len(&self) -> usize
        ensures { result ≡ length self.now.entries }
    {
        self.slots.len()
    }

    /// The entry of this number.
    pub fn get(&self, number: usize) -> Option<Shown<'_>>
        ensures { option_map shown_entry result ≡ slice_get self.now.entries number }
    {
        match self.slots.get(number)? {
            Slot::Began(rank, dir, ticket) => Some(Shown::Began(*rank, *dir, *ticket)),
            Slot::Ended(ticket) => Some(Shown::Ended(*ticket)),
            Slot::Other(place) => match self.others.get(*place) {
                Some(entry) => Some(Shown::Other(entry)),
                None => unreachable!(),
            },
        }
    }

    /// The entry of a number that is there.
    pub fn at(&self, number: usize) -> Shown<'_>
        requires { number < length self.now.entries }
        ensures { slice_get self.now.entries number ≡ Some (shown_entry result) }
    {
        match self.get(number) {
            Some(entry) => entry,
            None => unreachable!(),
        }
    }

    /// Room for `more` more.
    pub(crate) fn reserve(&mut self, more: usize) -> Result<(), AllocError>
        ensures same { self.new.entries ≡ self.old.entries }
        ensures room { OnOk result (HasRoom more self.new) }
    {
        self.slots.reserve(more)?;
        self.others.reserve(more)?;
        Ok(())
    }

    /// Keeps a change with its reply.
    pub(crate) fn keep(&mut self, change: Change, reply: Answer)
        requires { HasRoom 1 self.old }
        ensures { self.new.entries ≡ self.old.entries ++ record { change = change; reply = reply } ∷ [] }
    {
        self.slots.push_reserved(Slot::Other(self.others.len()));
        self.others.push_reserved(Entry { change, reply });
    }

    /// Keeps a tick. Those that come one after the other have one entry.
    pub(crate) fn keep_tick(&mut self)
        requires { HasRoom 1 self.old }
        ensures { self.new.entries ≡ self.old.entries ++ record { change = Change.Tick; reply = Answer.Done } ∷ [] }
    {
        let count = self.others.len();
        if count > 0 && is_tick(&self.others[count - 1]) {
            self.slots.push_reserved(Slot::Other(count - 1));
        } else {
            self.keep(Change::Tick, Answer::Done);
        }
    }

    /// Keeps an event of the cluster with its reply, and answers the reply.
    pub(crate) fn keep_step(&mut self, event: KeptEvent, reply: Reply) -> Reply
        requires { HasRoom 1 self.old }
        ensures kept { self.new.entries ≡ self.old.entries ++ record {
          change = Change.Step event;
          reply = Answer.Reply
              reply;
        } ∷ [] }
        ensures reply { result ≡ reply }
    {
        let told = reply;
        self.keep(Change::Step(event), Answer::Reply(reply));
        told
    }

    /// Keeps that a request began.
    pub(crate) fn keep_begin(&mut self, rank: Rank, dir: Dir, ticket: u32)
        requires { HasRoom 1 self.old }
        ensures { self.new.entries ≡ self.old.entries ++ began rank dir ticket ∷ [] }
    {
        self.slots.push_reserved(Slot::Began(rank, dir, ticket));
    }

    /// Keeps that a request ended.
    pub(crate) fn keep_end(&mut self, ticket: u32)
        requires { HasRoom 1 self.old }
        ensures { self.new.entries ≡ self.old.entries ++ ended ticket ∷ [] }
    {
        self.slots.push_reserved(Slot::Ended(ticket));
    }

    /// Keeps that a problem was opened and its plan adopted, and answers the plan's orders.
    pub(crate) fn keep_both(&mut self, done: Balanced) -> Vec<Order>
        requires { HasRoom 2 self.old }
        ensures kept { self.new.entries ≡ self.old.entries ++ record {
          change = Change.Open;
          reply = Answer.Problem done.problem;
        } ∷ record { change = Change.Adopt done.plan; reply = Answer.Orders done.orders } ∷ [] }
        ensures orders { result ≡ done.given }
    {
        self.slots.push_reserved(Slot::Other(self.others.len()));
        self.others.push_reserved(Entry {
            change: Change::Open,
            reply: Answer::Problem(done.problem),
        });
        self.slots.push_reserved(Slot::Other(self.others.len()));
        self.others.push_reserved(Entry {
            change: Change::Adopt(done.plan),
            reply: Answer::Orders(done.orders),
        });
        done.given
    }
}
