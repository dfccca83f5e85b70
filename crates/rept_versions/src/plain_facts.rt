//! Byte facts as a plain list: the reference that other stores are compared with.

ghost use Rattle.std.specs.Prelude.{◌≡◌, ◌≢◌, ℕ, ◌+◌, ◌<◌, ◌≤◌, Option, Some, None, IsSome, MatchBool, length};
ghost use Rattle.rept_versions.specs.Listed.{BeginsAt, EndsAt, LeastOf, Leasts, Toward, fact_in};

use crate::facts::{ByteFacts, Carried, Learnt, ValueStretch};
use crate::keys::{key, point_of};
use crate::tracked::Tracked;
use indexmap::IndexMap;
use std::alloc::{AllocError as OutOfMemory, Global};
use std::marker::Model;

/// Byte facts as a list in the order in which they were learnt. Each new fact may take memory, so
/// `spare` is 0.
#[derive(Drop)]
pub struct PlainFacts {
    facts: IndexMap<u64, u8>,
    row: Tracked,
}

impl Model for PlainFacts {
    ghost use Rattle.rept_versions.specs.Listed.{Plain};

    ghost Value = { Plain };

    ghost view = { λ s. record { entries = s.facts.entries; row = s.row } };
}

impl PlainFacts {
    /// The least number of a fact in a range, from the least of those of the facts before an index.
    fn with_fact(&self, i: usize, least: Option<u64>, low: u64, high: u64) -> Option<u64>
        requires at { i < length self.now.entries }
        requires before { LeastOf self.now.entries i low high least }
        ensures { LeastOf self.now.entries (i + 1) low high result }
    {
        match self.facts.get_index(i) {
            None => least,
            Some((k, _)) => {
                let k = *k;
                if k < low || high < k {
                    return least;
                }
                match least {
                    None => Some(k),
                    Some(l) => {
                        if l <= k {
                            return Some(l);
                        }
                        Some(k)
                    }
                }
            }
        }
    }

    /// The least number of a fact in a range.
    fn least(&self, low: u64, high: u64) -> Option<u64>
        ensures { Leasts self.now.entries low high result }
    {
        let mut least = None;
        for i in 0..self.facts.len() {
            least = self.with_fact(i, least, low, high);
        }
        least
    }

    /// Whether a value is known at the point after one too.
    fn goes_on(&self, a: u32, last: u32, value: u8) -> bool
        ensures { MatchBool result ((last < 4294967295) × (fact_in self.now.entries (last + 1) a ≡ Some value)) (fact_in self.now.entries (last + 1) a ≢ Some value) }
    {
        if last == 4294967295 {
            return false;
        }
        match self.known(last + 1, a) {
            None => false,
            Some(w) => w == value,
        }
    }

    /// Whether a value is known at the point before one too.
    fn goes_back(&self, a: u32, first: u32, value: u8) -> bool
        ensures { MatchBool result ((0 < first) × ((q : ℕ) → q + 1 ≡ first → fact_in self.now.entries q a ≡ Some value)) ((q : ℕ) → q + 1 ≡ first → fact_in self.now.entries q a ≢ Some value) }
    {
        if first == 0 {
            return false;
        }
        match self.known(first - 1, a) {
            None => false,
            Some(w) => w == value,
        }
    }

    /// The last of the points from one on that have a value without a gap.
    fn last_of(&self, a: u32, point: u32, value: u8) -> u32
        requires { fact_in self.now.entries point a ≡ Some value }
        ensures { EndsAt (fact_in self.now.entries) a point result value }
    {
        let mut last = point;
        while self.goes_on(a, last, value) {
            last += 1;
        }
        last
    }

    /// The first of the points up to one that have a value without a gap.
    fn first_of(&self, a: u32, point: u32, value: u8) -> u32
        requires { fact_in self.now.entries point a ≡ Some value }
        ensures { BeginsAt (fact_in self.now.entries) a result point value }
    {
        let mut first = point;
        while self.goes_back(a, first, value) {
            first -= 1;
        }
        first
    }
}

/// The next point on the way to another one.
fn toward(point: u32, to: u32) -> u32
    requires { point ≢ to }
    ensures { Toward point to result }
{
    if point < to {
        return point + 1;
    }
    point - 1
}

impl ByteFacts for PlainFacts {
    ghost use Rattle.rept_versions.specs.Listed.{store};
    ghost use Rattle.std.specs.Prelude.{false};

    const JOINS: bool = false;

    ghost JOINS = { false };

    ghost store = { λ s. store s };

    fn make(alloc: Global, points: u32, access_bytes: u32) -> Result<Self, OutOfMemory> {
        let _sizes = (points, access_bytes);
        let row = Tracked::new(alloc, 0)?;
        Ok(PlainFacts {
            facts: IndexMap::new(alloc),
            row,
        })
    }

    fn known(&self, point: u32, a: u32) -> Option<u8> {
        self.facts.get(&key(point, a)).copied()
    }

    fn learn(&mut self, point: u32, a: u32, value: u8) -> Result<Learnt, OutOfMemory> {
        match self.known(point, a) {
            Some(w) => {
                if w == value {
                    return Ok(Learnt::Old);
                }
                Ok(Learnt::Clash(w, value))
            }
            None => {
                let _none = self.facts.insert(key(point, a), value)?;
                Ok(Learnt::New)
            }
        }
    }

    fn carry(&mut self, a: u32, from: u32, to: u32) -> Result<Carried, OutOfMemory> {
        let value = match self.known(from, a) {
            Some(value) => value,
            None => return Ok(Carried::Same),
        };
        let mut more = false;
        let mut point = from;
        while point != to {
            let next = toward(point, to);
            match self.learn(next, a, value)? {
                Learnt::Old => {}
                Learnt::New => more = true,
                Learnt::Clash(found, _) => return Ok(Carried::Stop(next, value, found)),
            }
            point = next;
        }
        if more {
            return Ok(Carried::More);
        }
        Ok(Carried::Same)
    }

    fn spare(&self) -> u32 {
        0
    }

    fn track(&mut self, a: u32) -> Result<(), OutOfMemory> {
        self.row.add(a)
    }

    fn count(&self) -> usize {
        self.row.count()
    }

    fn address(&self, k: usize) -> u32 {
        self.row.at(k)
    }

    fn next_stretch(&self, a: u32, point: u32) -> Option<ValueStretch> {
        let least = match self.least(key(point, a), key(4294967295, a)) {
            None => return None,
            Some(k) => point_of(k, a),
        };
        match self.known(least, a) {
            None => None,
            Some(value) => Some(ValueStretch {
                first: self.first_of(a, least, value),
                last: self.last_of(a, least, value),
                value,
            }),
        }
    }
}
