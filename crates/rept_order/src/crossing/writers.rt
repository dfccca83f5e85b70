//! Writers in the order of their begins, and whether one of another thread may write while a thread
//! rests.

ghost use Rattle.std.specs.Prelude.{◌≡◌, ◌≤◌, ◌<◌, ℕ, true, false, length, IfOk, OnOk, slice_index_or};
ghost use Rattle.std.specs.List.{list_any};
ghost use Rattle.std.specs.List.Sorted.{IsPermutation, IsNonDecreasingBy};
ghost use Rattle.rept_order.specs.Crossing.Writers.{crosses, not_past, no_writer};

use crate::crossing::latest::{Latest, latest_of_each};
use crate::crossing::writer::{Rest, TimedWriter};
use std::alloc::{AllocError as OutOfMemory, Global};
use std::marker::Model;

/// Writers in the order of their begins.
#[derive(Drop)]
pub struct Writers {
    list: Vec<TimedWriter>,
    /// of the first so many
    latest: Vec<Latest>,
}

impl Model for Writers {
    ghost use Rattle.std.specs.Prelude.{List};
    ghost use Rattle.std.specs.List.Sorted.{IsNonDecreasingBy};
    ghost use Rattle.rept_order.specs.declared.crossing.writer.TimedWriter.{TimedWriter};
    ghost use Rattle.rept_order.specs.Crossing.Latest.{AreLatest};

    ghost Value = { List TimedWriter };

    ghost view = { λ w. w.list.items };

    ghost invariant = { λ w. IsNonDecreasingBy (λ x. x.begin) w.list.items × AreLatest w.list.items w.latest.items };
}

/// Puts them into the order of their begins.
fn sort(list: &mut Vec<TimedWriter>) -> Result<(), OutOfMemory>
    ensures same { IsPermutation list.old.items list.new.items }
    ensures sorted { OnOk result (IsNonDecreasingBy (λ w. w.begin) list.new.items) }
{
    list.sort_by_key(|writer| writer.begin)?;
    Ok(())
}

impl Writers {
    /// These writers. It takes memory for one entry each.
    pub fn new(alloc: Global, mut list: Vec<TimedWriter>) -> Result<Writers, OutOfMemory>
        ensures { IfOk result (λ w. IsPermutation list.items w) }
    {
        sort(&mut list)?;
        let latest = latest_of_each(alloc, list.as_slice())?;
        Ok(Writers { list, latest })
    }

    /// How many begin at this time or before.
    fn begun_by(&self, time: u64) -> usize
        ensures few { result ≤ length self.now }
        ensures before { (k : ℕ) → k < result → (slice_index_or self.now k no_writer).begin ≤ time }
        ensures after { (k : ℕ) → result ≤ k → k < length self.now → time < (slice_index_or self.now k no_writer).begin }
    {
        let list = self.list.as_slice();
        list.partition_point(|writer| writer.begin <= time)
    }

    /// How many begin at this time or before; without a time, all of them.
    fn begun(&self, time: Option<u64>) -> usize
        ensures few { result ≤ length self.now }
        ensures before { (k : ℕ) → k < result → not_past time (slice_index_or self.now k no_writer).begin ≡ true }
        ensures after { (k : ℕ) → result ≤ k → k < length self.now → not_past time (slice_index_or self.now k no_writer).begin ≡ false }
    {
        match time {
            Some(time) => self.begun_by(time),
            None => self.list.len(),
        }
    }

    /// Whether one of another thread may write while a thread rests.
    pub fn is_crossed(&self, rest: Rest) -> bool
        ensures { result ≡ list_any (crosses rest) self.now }
    {
        let count = self.begun(rest.to);
        self.latest[count].reaches(rest.thread, rest.from)
    }
}
