//! The end of a line, written from its last byte to its first.
//!
//! The digits of a number come in this order. So each byte is written at once where it stays.
ghost use Rattle.std.specs.Prelude.{◌≡◌, ◌+◌, ◌≤◌, ◌++◌, [], length, IsAscii, decimal};
ghost use Rattle.script_session.specs.Stat.{rank_text};

use itoa::{Buffer, write_digits};
use mds_types::Rank;
use std::marker::Model;

/// How many bytes it has at most.
const ROOM: usize = 160;

/// To a contract it is its bytes.
#[derive(Drop)]
pub(crate) struct LineEnd {
    bytes: [u8; ROOM],
    start: usize,
}

impl Model for LineEnd {
    ghost use Rattle.std.specs.Prelude.{◌≤◌, List, ℕ, drop, IsAscii};

    ghost Value = { List ℕ };

    ghost view = { λ end. drop end.start end.bytes };

    ghost invariant = { λ end. (end.start ≤ 160) × IsAscii (drop end.start end.bytes) };
}

impl LineEnd {
    /// No byte.
    pub(crate) fn new() -> LineEnd
        ensures { result ≡ [] }
    {
        LineEnd {
            bytes: [0; ROOM],
            start: ROOM,
        }
    }

    /// What was written.
    pub(crate) fn text(&self) -> &str
        ensures { result.now ≡ self.now }
    {
        // what was written is ASCII, so this call's condition, that the bytes are UTF-8, is proved
        unsafe { str::from_utf8_unchecked(&self.bytes[self.start..]) }
    }

    /// Writes a word before what is there.
    pub(crate) fn put(&mut self, word: &str)
        requires ascii { IsAscii word.now }
        requires room { length word.now + length self.old ≤ 160 }
        ensures text { self.new ≡ word.now ++ self.old }
        ensures long { length self.new ≡ length word.now + length self.old }
    {
        let at = self.start - word.len();
        self.bytes[at..self.start].copy_from_slice(word.as_bytes());
        self.start = at;
    }

    /// Writes a number before what is there.
    pub(crate) fn put_number(&mut self, number: u64)
        requires room { 20 + length self.old ≤ 160 }
        ensures text { self.new ≡ decimal number ++ self.old }
        ensures long { length self.new ≤ 20 + length self.old }
    {
        self.start = write_digits(number, &mut self.bytes, self.start);
    }

    /// Writes a sum before what is there.
    pub(crate) fn put_sum(&mut self, first: u64, second: u64)
        requires room { 40 + length self.old ≤ 160 }
        ensures text { self.new ≡ decimal (first + second) ++ self.old }
        ensures long { length self.new ≤ 40 + length self.old }
    {
        match first.checked_add(second) {
            Some(sum) => self.put_number(sum),
            None => self.put_wide(first as u128 + second as u128),
        }
    }

    // Writes a number before what is there, that may have more than 64 bits.
    #[inline(never)]
    fn put_wide(&mut self, number: u128)
        requires room { 40 + length self.old ≤ 160 }
        ensures text { self.new ≡ decimal number ++ self.old }
        ensures long { length self.new ≤ 40 + length self.old }
    {
        let mut digits = Buffer::new();
        self.put(digits.format(number));
    }

    /// Writes a rank, or `-` where there is none, before what is there.
    pub(crate) fn put_rank(&mut self, rank: Option<Rank>)
        requires room { 20 + length self.old ≤ 160 }
        ensures text { self.new ≡ rank_text rank ++ self.old }
        ensures long { length self.new ≤ 20 + length self.old }
    {
        match rank {
            Some(rank) => self.put_number(rank.number() as u64),
            None => self.put("-"),
        }
    }
}
