//! Places for the entries that are counted, and their counts by place.
//!
//! All memory is asked for at the beginning, and written as it is needed: four bytes for each entry up to the last
//! one that was counted, and 28 bytes for each one that was.
ghost use Rattle.std.specs.Prelude.{◌≡◌, ℕ, ◌≤◌, length, vec_capacity};
ghost use Rattle.heat_ledger.specs.Rows.{at};
ghost use Rattle.heat_ledger.specs.Placed.{placed};

use std::alloc::{AllocError, Global};

/// What is counted of an entry.
#[derive(Clone, Copy)]
pub(crate) struct EntryCounts {
    pub hits: u64,
    pub pending: u64,
    pub begun: u64,
}

impl EntryCounts {
    ghost use Rattle.std.specs.Prelude.{◌≡◌};
    ghost use Rattle.heat_ledger.specs.Counts.{DoFit, both_counts};

    // With these more.
    fn with(self, more: EntryCounts) -> EntryCounts
        requires { DoFit self more }
        ensures { result ≡ both_counts self more }
    {
        EntryCounts {
            hits: self.hits + more.hits,
            pending: self.pending + more.pending,
            begun: self.begun + more.begun,
        }
    }
}

/// The counts of the entries below a limit, by place. Place 0 has none.
#[derive(Drop)]
pub(crate) struct KeptCounts {
    pub limit: u32,
    // The place of each entry's counts, up to the last entry that was counted, or not as far. 0 is none.
    places: Vec<u32>,
    // The entries that have a place, in the order of their places.
    pub entries: Vec<u32>,
    counts: Vec<EntryCounts>,
}

// Lets at least `count` entries have a place or the mark for none.
fn reach(places: &mut Vec<u32>, count: usize)
    requires { count ≤ vec_capacity places.old }
    ensures same { (e : ℕ) → at places.new.items e ≡ at places.old.items e }
    ensures placed { placed places.new.items ≡ placed places.old.items }
    ensures reached { count ≤ length places.new.items }
    ensures within { (limit : ℕ) → length places.old.items ≤ limit → count ≤ limit → length places.new.items ≤ limit }
    ensures capacity { vec_capacity places.new ≡ vec_capacity places.old }
{
    while places.len() < count {
        places.push_reserved(0);
    }
}

impl KeptCounts {
    ghost use Rattle.std.specs.Prelude.{◌≡◌, ℕ, ◌≤◌, ◌<◌, IfOk, length, slice_set};
    ghost use Rattle.heat_ledger.specs.Rows.{at};
    ghost use Rattle.heat_ledger.specs.Counts.{DoFit, counts_of, no_counts, with_more};
    ghost use Rattle.heat_ledger.specs.Placed.{AreKeptCounts, AreSameCounts, data_of};

    /// Nothing is counted, and there is room for the counts of `limit` entries.
    pub(crate) fn new(alloc: Global, limit: u32) -> Result<KeptCounts, AllocError>
        ensures kept { IfOk result (λ kept. AreKeptCounts kept) }
        ensures limit { IfOk result (λ kept. kept.limit ≡ limit) }
        ensures none { IfOk result (λ kept. data_of kept ≡ no_counts limit) }
    {
        let places = Vec::with_capacity(alloc, limit as usize)?;
        let entries = Vec::with_capacity(alloc, limit as usize)?;
        let mut counts = Vec::with_capacity(alloc, limit as usize + 1)?;
        counts.push_reserved(EntryCounts {
            hits: 0,
            pending: 0,
            begun: 0,
        });
        Ok(KeptCounts {
            limit,
            places,
            entries,
            counts,
        })
    }

    /// What is counted of an entry.
    pub(crate) fn of(&self, entry: usize) -> EntryCounts
        requires { AreKeptCounts self.now }
        ensures { result ≡ counts_of (data_of self.now) entry }
    {
        let place = self.places.get(entry).copied().unwrap_or(0);
        self.counts[place as usize]
    }

    /// Takes the pending hits of an entry, which has none then.
    pub(crate) fn take_pending(&mut self, entry: u32) -> u64
        requires { AreKeptCounts self.old }
        ensures kept { AreKeptCounts self.new }
        ensures limit { self.new.limit ≡ self.old.limit }
        ensures count { result ≡ at (data_of self.old).pending entry }
        ensures taken { data_of self.new
            ≡ record (data_of self.old) { pending = slice_set (data_of self.old).pending entry 0 } }
    {
        let place = self.places.get(entry as usize).copied().unwrap_or(0);
        let count = self.counts[place as usize].pending;
        if place > 0 {
            self.counts[place as usize].pending = 0;
        }
        count
    }

    // Gives an entry a place, where it has none.
    fn give_place(&mut self, entry: u32)
        requires kept { AreKeptCounts self.old }
        requires inside { entry < length self.old.places.items }
        ensures kept { AreKeptCounts self.new }
        ensures limit { self.new.limit ≡ self.old.limit }
        ensures some { 1 ≤ at self.new.places.items entry }
        ensures length { length self.new.places.items ≡ length self.old.places.items }
        ensures same { AreSameCounts self.old self.new }
    {
        if self.places[entry as usize] == 0 {
            self.places[entry as usize] = self.counts.len() as u32;
            self.entries.push_reserved(entry);
            self.counts.push_reserved(EntryCounts {
                hits: 0,
                pending: 0,
                begun: 0,
            });
        }
    }

    // An entry's place, which it gets if it has none.
    fn place_of(&mut self, entry: u32) -> usize
        requires kept { AreKeptCounts self.old }
        requires inside { entry < self.old.limit }
        ensures kept { AreKeptCounts self.new }
        ensures limit { self.new.limit ≡ self.old.limit }
        ensures place { (1 ≤ result) × (result ≡ at self.new.places.items entry) }
        ensures same { AreSameCounts self.old self.new }
    {
        reach(&mut self.places, entry as usize + 1);
        self.give_place(entry);
        self.places[entry as usize] as usize
    }

    /// Adds these counts of an entry, and returns those that it had.
    pub(crate) fn add(&mut self, entry: u32, more: EntryCounts) -> EntryCounts
        requires kept { AreKeptCounts self.old }
        requires inside { entry < self.old.limit }
        requires fits { DoFit (counts_of (data_of self.old) entry) more }
        ensures kept { AreKeptCounts self.new }
        ensures limit { self.new.limit ≡ self.old.limit }
        ensures had { result ≡ counts_of (data_of self.old) entry }
        ensures added { data_of self.new ≡ with_more (data_of self.old) entry more }
    {
        let place = self.place_of(entry);
        let had = self.counts[place];
        self.counts[place] = had.with(more);
        had
    }
}
