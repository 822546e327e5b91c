//! The operations that a writer hasn't handed to its copies.
ghost use Rattle.std.specs.Prelude.{◌≡◌, ◌≤◌, ◌^◌, ◌↔◌, ◌++◌, ◌∷◌, [], None, IsTrue, IfSome, IfNone, length};
ghost use Rattle.left_right.specs.Handles.{published, pending};
ghost use Rattle.authority_map.specs.LogEntries.{operations_of, ready_operation};

use crate::history::{Count, LogPrefix};
use crate::map_error::MapError;
use crate::operation::{MapOperation, OperationKind};
use crate::table::Table;
use left_right::WriteHandle;
use proof_names::Naming;
use std::alloc::Global;
use std::collections::VecDeque;
use std::marker::Model;
use std::sync::Wait;

/// An operation, with the list before it and after it.
#[derive(Drop)]
pub struct Logged<J: Naming> {
    pub(crate) operation: MapOperation,
    pub(crate) before: LogPrefix<J>,
    pub(crate) after: LogPrefix<J>,
}

impl<J: Naming> Model for Logged<J> {
    ghost use Rattle.std.specs.Prelude.{◌≡◌, ◌++◌, ◌∷◌, []};
    ghost use Rattle.authority_map.specs.LogEntries.{LogEntry};

    ghost Value = { LogEntry };

    ghost view = { λ entry. record { operation = entry.operation; before = entry.before; after = entry.after } };

    ghost invariant = { λ entry. entry.after ≡ entry.before ++ entry.operation ∷ [] };
}

/// The operations that wait, in order. One of them may be in the list of all operations already:
/// it is kept `ready` where the copies had no memory for it, and comes right after `end`.
#[derive(Drop)]
pub struct Queue<J: Naming> {
    count: Count<J>,
    // The list as far as operations were handed to the copies.
    end: LogPrefix<J>,
    ready: Option<Logged<J>>,
    waiting: VecDeque<MapOperation>,
}

impl<J: Naming> Model for Queue<J> {
    ghost use Rattle.std.specs.Prelude.{◌≡◌, ◌-◌, ◌++◌, IfSome};
    ghost use Rattle.std.specs.VecDeque.{deque_len, deque_capacity};
    ghost use Rattle.authority_map.specs.LogEntries.{ready_operation};
    ghost use Rattle.authority_map.specs.Answer.{Queued};

    ghost Value = { Queued };

    ghost view = { λ queue. record {
      end = queue.end;
      waiting = ready_operation queue.ready ++ queue.waiting.items;
      room = deque_capacity queue.waiting - deque_len queue.waiting;
    } };

    ghost invariant = { λ queue. IfSome queue.ready (λ entry. entry.before ≡ queue.end) };
}

/// The greatest number of operations that a map can have.
const OPERATION_LIMIT: u64 = 1 << 60;

impl<J: Naming> Queue<J> {
    ghost use Rattle.std.specs.Prelude.{◌≡◌, ◌+◌, ◌-◌, ◌≤◌, ◌↔◌, ◌++◌, ◌∷◌, [], length, IsTrue, IfErr, OnOk};
    ghost use Rattle.left_right.specs.Handles.{published, pending};
    ghost use Rattle.authority_map.specs.LogEntries.{operations_of, operation_of};

    /// Nothing waits.
    pub(crate) fn new(alloc: Global, count: Count<J>, start: LogPrefix<J>) -> Queue<J>
        ensures { result.waiting ≡ [] }
    {
        Queue {
            count,
            end: start,
            ready: None,
            waiting: VecDeque::new(alloc),
        }
    }

    /// Makes room for one operation.
    pub(crate) fn reserve(&mut self) -> Result<(), MapError>
        ensures room { OnOk result (1 ≤ self.new.room) }
        ensures refused { IfErr result (λ e. e ≡ MapError.Memory) }
        ensures same { (self.new.waiting ≡ self.old.waiting) × (self.new.end ≡ self.old.end) }
    {
        self.waiting.reserve(1).map_err(|_| MapError::Memory)
    }

    /// One more operation waits.
    pub(crate) fn push(&mut self, kind: OperationKind)
        requires { 1 ≤ self.old.room }
        ensures { self.new ≡ record self.old
            { waiting = self.old.waiting ++ operation_of kind ∷ []; room = self.old.room - 1 } }
    {
        self.waiting.push_back_reserved(MapOperation { kind });
    }

    /// Whether nothing waits.
    pub(crate) fn is_empty(&self) -> bool
        ensures { IsTrue result ↔ (self.now.waiting ≡ []) }
    {
        self.ready.is_none() && self.waiting.is_empty()
    }

    /// Hands the next operation to the copies. Where it can't be, it still waits.
    pub(crate) fn hand_next<R: Wait + Drop>(
        &mut self,
        copies: &mut WriteHandle<Table<J>, Logged<J>, R>,
    ) -> bool
        ensures shown { published copies.new ≡ published copies.old }
        ensures order { operations_of (pending copies.new) ++ self.new.waiting
            ≡ operations_of (pending copies.old) ++ self.old.waiting }
        ensures fewer { IsTrue result → length self.new.waiting + 1 ≡ length self.old.waiting }
        ensures end { self.new.end ++ self.new.waiting ≡ self.old.end ++ self.old.waiting }
    {
        let Some(entry) = next_entry(&mut self.ready, &self.count, &self.end, &mut self.waiting)
        else {
            return false;
        };
        let after = entry.after.copied();
        match copies.append(entry) {
            Ok(()) => {
                self.end = after;
                true
            }
            Err(entry) => {
                self.ready = Some(entry);
                false
            }
        }
    }
}

// Whether the list of all operations takes no more.
fn is_full<J: Naming>(end: &LogPrefix<J>) -> bool
    ensures { IsTrue result ↔ (2 ^ 60 ≤ length end.now) }
{
    end.len() >= OPERATION_LIMIT
}

// The operation that is ready, or the first that waits, which is in the list from now on.
fn next_entry<J: Naming>(
    ready: &mut Option<Logged<J>>,
    count: &Count<J>,
    end: &LogPrefix<J>,
    waiting: &mut VecDeque<MapOperation>,
) -> Option<Logged<J>>
    requires { IfSome ready.old (λ entry. entry.before ≡ end.now) }
    ensures some { IfSome result (λ entry. (ready.new ≡ None)
        × (entry.operation ∷ waiting.new.items ≡ ready_operation ready.old ++ waiting.old.items)) }
    ensures before { IfSome result (λ entry. entry.before ≡ end.now) }
    ensures none { IfNone result ((ready.new ≡ ready.old) × (waiting.new.items ≡ waiting.old.items)) }
{
    if let Some(entry) = ready.take() {
        return Some(entry);
    }
    if is_full(end) {
        return None;
    }
    let operation = waiting.pop_front()?;
    match end.with(count, &operation) {
        Some(after) => Some(Logged {
            operation,
            before: end.copied(),
            after,
        }),
        None => {
            waiting.push_front_reserved(operation);
            None
        }
    }
}

/// Hands all that waits to the copies, as far as there is memory. It says whether that was all.
pub(crate) fn hand_all<J: Naming, R: Wait + Drop>(
    copies: &mut WriteHandle<Table<J>, Logged<J>, R>,
    queue: &mut Queue<J>,
) -> bool
    ensures shown { published copies.new ≡ published copies.old }
    ensures order { operations_of (pending copies.new) ++ queue.new.waiting
        ≡ operations_of (pending copies.old) ++ queue.old.waiting }
    ensures all { IsTrue result → queue.new.waiting ≡ [] }
{
    while !queue.is_empty() {
        if !queue.hand_next(copies) {
            return false;
        }
    }
    true
}
