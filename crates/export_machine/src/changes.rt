//! Changes of the lists that a cluster keeps. All growths come before the first change.

ghost use Rattle.std.specs.Prelude.{◌≡◌, ◌<◌, ◌∷◌, [], ◌++◌, length, map, true};
ghost use Rattle.std.specs.Prelude.{slice_index_or, slice_set, vec_len, vec_capacity};
ghost use Rattle.export_machine.specs.Kept.{has_place};
ghost use Rattle.export_protocol.specs.declared.event.Reply.TheVariants.{Sent};

use export_protocol::{Message, Reply};
use mds_types::Rank;

/// Appends a message, and answers its number.
pub(crate) fn send(sent: &mut Vec<Message>, message: Message) -> Reply
    requires room { vec_len sent.old < vec_capacity sent.old }
    requires few { length sent.old.items < 1048576 }
    ensures items { sent.new.items ≡ sent.old.items ++ message ∷ [] }
    ensures reply { result ≡ Sent (length sent.old.items) }
{
    let number = sent.len() as u32;
    sent.push_reserved(message);
    Reply::Sent(number)
}

/// Appends to a rank's list.
pub(crate) fn enter<T: Copy>(lists: &mut Vec<Vec<T>>, rank: Rank, entry: T)
    requires near { rank < length lists.old.items }
    requires room { has_place lists.old.items rank ≡ true }
    ensures entered { map (λ list. list.items) lists.new.items
        ≡ slice_set (map (λ list. list.items) lists.old.items) rank
        (slice_index_or (map (λ list. list.items) lists.old.items) rank [] ++ entry ∷ []) }
{
    lists[rank.number() as usize].push_reserved(entry);
}

/// Writes into the table at one place, if it is there.
pub(crate) fn put<T: Copy>(table: &mut Vec<T>, index: usize, value: T)
    ensures items { table.new.items ≡ slice_set table.old.items index value }
    ensures capacity { vec_capacity table.new ≡ vec_capacity table.old }
{
    if index < table.len() {
        table[index] = value;
    }
}
