//! Spans of a line of numbers that have a value each: what is read, put in one place, and carried
//! on.

ghost use Rattle.std.specs.Prelude.{◌≡◌, ◌≢◌, ℕ, suc, ◌+◌, ◌-◌, ◌<◌, ◌≤◌, true, length, Some, None, Option, [], insert, IfOk, IfErr, IsSome, MatchBool, MatchOption, MatchResult};
ghost use Rattle.rept_versions.specs.Moves.{MovesOnLine};
ghost use Rattle.rept_versions.specs.Puts.{Puts, Ups, Downs, UpStep, DownStep};
ghost use Rattle.rept_versions.specs.Line.{IsRising, AreSpansJoined, IsJoinedBut, JoinedAt, IsFirst, FirstAt, LiesInSpan, Misses, FollowsAt, PrecedesAt, ReadsSame, Added, NextsOn, nth, value_at, raised, lowered, joined, filled, filled_down};

use crate::blocks::Blocks;
use crate::span::Span;
use std::alloc::{AllocError as OutOfMemory, Global};
use std::cell::Cell;
use std::marker::Model;

/// How many places to each side of the last one a search looks at first.
const NEAR: usize = 8;

/// How many places to each side a search looks at then.
const FAR: usize = 128;

/// How many last answers are kept: those of the bytes of a word, which are mostly looked at by
/// turns, apart.
const LANES: usize = 4;

/// What `put` did.
#[derive(Clone, Copy, PartialEq, Eq, Debug)]
pub enum Put {
    /// The value was there.
    Old,
    /// Nothing was there, and now the value is.
    New,
    /// Another value is there.
    Clash(u8),
    /// Nothing is there, and there is no room.
    Full,
}

/// A span and its place.
#[derive(Clone, Copy)]
struct PlacedSpan {
    place: usize,
    span: Span,
}

/// What `carry` did.
#[derive(Clone, Copy, PartialEq, Eq, Debug)]
pub enum Spread {
    /// The value was at each of the numbers.
    Same,
    /// It is now, and at one of them nothing was.
    More,
    /// The first number that has another value, the value that was carried as far as the one before
    /// it, and the other value.
    Stop(u64, u8, u8),
}

/// What one step of `up` or `down` did.
#[derive(Clone, Copy, PartialEq, Eq, Debug)]
pub enum SpanStep {
    /// The span goes as far as it should.
    Done,
    /// It goes up to a number that has another value.
    Stop(u64),
    /// It took in the next span, which has the same value.
    Joined,
}

/// The lane of a number: the last two bits of what stands above its lower 32 bits.
fn lane(k: u64) -> usize
    ensures { result < 4 }
{
    (k / 4_294_967_296 % 4) as usize
}

/// Spans in order, with room for more. No two of them have a number in common.
#[derive(Drop)]
pub struct SpanLine {
    spans: Blocks,
    // What the last search in each lane answered. The next one is mostly for a number close by, and
    // begins around that place. It only saves work: no clause says what it keeps.
    near: [Cell<usize>; LANES],
}

impl Model for SpanLine {
    ghost use Rattle.rept_versions.specs.Line.{Line, IsRising};

    ghost Value = { Line };

    ghost view = { λ s. s.spans };

    ghost invariant = { λ s. IsRising s.spans.spans };
}

impl SpanLine {
    /// No span, with room for so many.
    pub fn new(alloc: Global, room: usize) -> Result<Self, OutOfMemory>
        ensures { IfOk result (λ s. s ≡ record { spans = []; room = room }) }
    {
        Ok(SpanLine {
            spans: Blocks::new(alloc, room)?,
            near: [Cell::new(0), Cell::new(0), Cell::new(0), Cell::new(0)],
        })
    }

    /// The first span that ends at k or later.
    fn seek(&self, k: u64) -> Option<PlacedSpan>
        ensures first { MatchOption result (IsFirst self.now.spans k (length self.now.spans)) (λ f. FirstAt self.now.spans k f.place f.span) }
        ensures rising { IsRising self.now.spans }
    {
        let near = self.near[lane(k)].get();
        if near >= self.count() {
            return self.seek_between(0, self.count(), k);
        }
        let s = self.at(near);
        if s.high < k {
            return self.seek_up(near, k);
        }
        if s.low <= k || near == 0 {
            return Some(PlacedSpan {
                place: near,
                span: s,
            });
        }
        let t = self.at(near - 1);
        if t.high < k {
            return Some(PlacedSpan {
                place: near,
                span: s,
            });
        }
        self.seek_down(near - 1, t, k)
    }

    /// What `seek` answers where the span at a place ends below k.
    fn seek_up(&self, near: usize, k: u64) -> Option<PlacedSpan>
        requires within { near < length self.now.spans }
        requires below { (nth self.now.spans near).high < k }
        ensures first { MatchOption result (IsFirst self.now.spans k (length self.now.spans)) (λ f. FirstAt self.now.spans k f.place f.span) }
        ensures rising { IsRising self.now.spans }
    {
        if near == self.count() - 1 {
            return None;
        }
        let next = near + 1;
        let t = self.at(next);
        if k <= t.high {
            self.near[lane(k)].set(next);
            return Some(PlacedSpan {
                place: next,
                span: t,
            });
        }
        self.seek_between(next + 1, self.end_after(next, k), k)
    }

    /// All spans from this place on end at k or later. It is a little after a given place, or else
    /// the end.
    fn end_after(&self, place: usize, k: u64) -> usize
        requires { place < length self.now.spans }
        ensures after { place < result }
        ensures bound { result ≤ length self.now.spans }
        ensures above { (j : ℕ) → result ≤ j → j < length self.now.spans → k ≤ (nth self.now.spans j).high }
    {
        let last = place.saturating_add(NEAR);
        let count = self.count();
        if last < count && k <= self.at(last).high {
            return last;
        }
        let far = place.saturating_add(FAR);
        if far < count && k <= self.at(far).high {
            return far;
        }
        count
    }

    /// What `seek` answers where the span at a place ends at k or later.
    fn seek_down(&self, near: usize, s: Span, k: u64) -> Option<PlacedSpan>
        requires within { near < length self.now.spans }
        requires span { s ≡ nth self.now.spans near }
        requires reaches { k ≤ s.high }
        ensures first { MatchOption result (IsFirst self.now.spans k (length self.now.spans)) (λ f. FirstAt self.now.spans k f.place f.span) }
        ensures rising { IsRising self.now.spans }
    {
        if s.low <= k {
            self.near[lane(k)].set(near);
            return Some(PlacedSpan {
                place: near,
                span: s,
            });
        }
        self.seek_between(self.begin_before(near, k), near, k)
    }

    /// All spans before this place end below k. It is a little before a given place, or else the
    /// first one.
    fn begin_before(&self, place: usize, k: u64) -> usize
        requires within { place < length self.now.spans }
        requires reaches { k ≤ (nth self.now.spans place).high }
        ensures before { result ≤ place }
        ensures below { (j : ℕ) → j < result → (nth self.now.spans j).high < k }
    {
        let first = place.saturating_sub(NEAR);
        if self.at(first).high < k {
            return first + 1;
        }
        let far = place.saturating_sub(FAR);
        if self.at(far).high < k {
            return far + 1;
        }
        0
    }

    /// What `seek` answers where the place is one of a range, or the end: by halves.
    fn seek_between(&self, from: usize, to: usize, k: u64) -> Option<PlacedSpan>
        requires ordered { from ≤ to }
        requires bound { to ≤ length self.now.spans }
        requires below { (j : ℕ) → j < from → (nth self.now.spans j).high < k }
        requires above { (j : ℕ) → to ≤ j → j < length self.now.spans → k ≤ (nth self.now.spans j).high }
        ensures first { MatchOption result (IsFirst self.now.spans k (length self.now.spans)) (λ f. FirstAt self.now.spans k f.place f.span) }
        ensures rising { IsRising self.now.spans }
    {
        let mut low = from;
        let mut high = to;
        while low < high {
            let middle = low + (high - low) / 2;
            if self.at(middle).high < k {
                low = middle + 1;
            } else {
                high = middle;
            }
        }
        if low == self.count() {
            return None;
        }
        self.near[lane(k)].set(low);
        Some(PlacedSpan {
            place: low,
            span: self.at(low),
        })
    }

    /// The span at a place.
    fn at(&self, i: usize) -> Span
        requires { i < length self.now.spans }
        ensures span { result ≡ nth self.now.spans i }
        ensures rising { IsRising self.now.spans }
    {
        self.spans.at(i)
    }

    /// The span after the one at a place.
    fn next(&self, i: usize) -> Span
        requires { suc i < length self.now.spans }
        ensures { result ≡ nth self.now.spans (suc i) }
    {
        self.spans.after(i)
    }

    /// How many spans there are.
    fn count(&self) -> usize
        ensures len { result ≡ length self.now.spans }
        ensures rising { IsRising self.now.spans }
    {
        self.spans.len()
    }

    /// Whether there is no room for another span.
    fn is_full(&self) -> bool
        ensures { MatchBool result (self.now.room ≤ length self.now.spans) (length self.now.spans < self.now.room) }
    {
        self.spans.room() <= self.spans.len()
    }

    /// The span that has k, or the place where one would go.
    fn place(&self, k: u64) -> Result<usize, usize>
        ensures place { MatchResult result (LiesInSpan self.now.spans k) (Misses self.now.spans k) }
        ensures rising { IsRising self.now.spans }
    {
        match self.seek(k) {
            None => Err(self.count()),
            Some(f) => {
                if f.span.low <= k {
                    return Ok(f.place);
                }
                Err(f.place)
            }
        }
    }

    /// The value at k.
    pub fn value_at(&self, k: u64) -> Option<u8>
        ensures { result ≡ value_at self.now.spans k }
    {
        match self.seek(k) {
            None => None,
            Some(f) => {
                if f.span.low <= k {
                    return Some(f.span.value);
                }
                None
            }
        }
    }

    /// Lets span i end later.
    fn raise(&mut self, i: usize, high: u64)
        requires at { i < length self.old.spans }
        requires later { (nth self.old.spans i).high ≤ high }
        requires free { suc i < length self.old.spans → high < (nth self.old.spans (suc i)).low }
        ensures spans { self.new.spans ≡ raised self.old.spans i high }
        ensures len { length self.new.spans ≡ length self.old.spans }
        ensures room { self.new.room ≡ self.old.room }
        ensures rising { IsRising self.new.spans }
    {
        let s = self.spans.at(i);
        self.spans.put(
            i,
            Span {
                low: s.low,
                high,
                value: s.value,
            },
        );
    }

    /// Lets span i begin earlier.
    fn lower(&mut self, i: usize, low: u64)
        requires at { i < length self.old.spans }
        requires earlier { low ≤ (nth self.old.spans i).low }
        requires free { (j : ℕ) → j < i → (nth self.old.spans j).high < low }
        ensures spans { self.new.spans ≡ lowered self.old.spans i low }
        ensures len { length self.new.spans ≡ length self.old.spans }
        ensures room { self.new.room ≡ self.old.room }
        ensures rising { IsRising self.new.spans }
    {
        let s = self.spans.at(i);
        self.spans.put(
            i,
            Span {
                low,
                high: s.high,
                value: s.value,
            },
        );
    }

    /// Makes span i and the next one a single span.
    fn join(&mut self, i: usize)
        requires at { suc i < length self.old.spans }
        ensures spans { self.new.spans ≡ joined self.old.spans i }
        ensures len { length self.new.spans + 1 ≡ length self.old.spans }
        ensures room { self.new.room ≡ self.old.room }
        ensures rising { IsRising self.new.spans }
    {
        let t = self.spans.after(i);
        let s = self.spans.at(i);
        self.spans.put(
            i,
            Span {
                low: s.low,
                high: t.high,
                value: s.value,
            },
        );
        self.spans.remove_after(i);
    }

    /// Puts a span of one number at place i, into room that is there.
    fn add(&mut self, i: usize, k: u64, value: u8)
        requires room { length self.old.spans < self.old.room }
        requires at { Misses self.old.spans k i }
        ensures spans { self.new.spans ≡ insert self.old.spans i (record { low = k; high = k; value = value }) }
        ensures room { self.new.room ≡ self.old.room }
        ensures rising { IsRising self.new.spans }
    {
        let s = Span {
            low: k,
            high: k,
            value,
        };
        self.spans.insert(i, s);
    }

    /// Makes span i and the next one a single span if they meet and have one value.
    fn meet(&mut self, i: usize)
        requires at { i < length self.old.spans }
        requires rest { IsJoinedBut self.old.spans i }
        ensures reads { ReadsSame self.old.spans self.new.spans }
        ensures len { length self.new.spans ≤ length self.old.spans }
        ensures room { self.new.room ≡ self.old.room }
        ensures rising { IsRising self.new.spans }
        ensures joined { AreSpansJoined self.new.spans }
    {
        if !self.meets(i) {
            return;
        }
        self.join(i);
    }

    /// Whether span i and the next one meet and have one value.
    fn meets(&self, i: usize) -> bool
        requires { i < length self.now.spans }
        ensures meets { MatchBool result ((suc i < length self.now.spans) × ((nth self.now.spans i).high + 1 ≡ (nth self.now.spans (suc i)).low) × ((nth self.now.spans i).value ≡ (nth self.now.spans (suc i)).value)) (JoinedAt self.now.spans i) }
        ensures rising { IsRising self.now.spans }
    {
        let s = self.at(i);
        if i == self.count() - 1 {
            return false;
        }
        let t = self.at(i + 1);
        t.low - 1 == s.high && s.value == t.value
    }

    /// Whether the span before place i ends just below k and has the value.
    fn follows(&self, i: usize, k: u64, value: u8) -> bool
        requires at { Misses self.now.spans k i }
        ensures { MatchBool result (FollowsAt self.now.spans i k value) (FollowsAt self.now.spans i k value → ⊥) }
    {
        if i == 0 {
            return false;
        }
        let s = self.at(i - 1);
        k - 1 == s.high && s.value == value
    }

    /// Whether the span at place i begins just above k and has the value.
    fn precedes(&self, i: usize, k: u64, value: u8) -> bool
        requires at { Misses self.now.spans k i }
        ensures { MatchBool result (PrecedesAt self.now.spans i k value) (PrecedesAt self.now.spans i k value → ⊥) }
    {
        if i == self.count() {
            return false;
        }
        let t = self.at(i);
        t.low - 1 == k && t.value == value
    }

    /// Puts a value at k, where none is. False if there is no room.
    fn put_at(&mut self, i: usize, k: u64, value: u8) -> bool
        requires at { Misses self.old.spans k i }
        requires rising { IsRising self.old.spans }
        requires joined { AreSpansJoined self.old.spans }
        ensures added { MatchBool result (Added self.old self.new k value) ((self.new ≡ self.old) × (self.old.room ≤ length self.old.spans)) }
        ensures joined { AreSpansJoined self.new.spans }
    {
        if self.follows(i, k, value) {
            self.raise(i - 1, k);
            self.meet(i - 1);
            return true;
        }
        if self.precedes(i, k, value) {
            self.lower(i, k);
            return true;
        }
        if self.is_full() {
            return false;
        }
        self.add(i, k, value);
        true
    }

    /// Puts a value at k, if there is none.
    pub fn put(&mut self, k: u64, value: u8) -> Put
        requires joined { AreSpansJoined self.old.spans }
        ensures put { Puts self.old self.new k value result }
        ensures joined { AreSpansJoined self.new.spans }
    {
        match self.place(k) {
            Ok(i) => {
                let s = self.at(i);
                if s.value == value {
                    return Put::Old;
                }
                Put::Clash(s.value)
            }
            Err(i) => {
                if self.put_at(i, k, value) {
                    return Put::New;
                }
                Put::Full
            }
        }
    }

    /// Lets span i end at `to` or later, or up to the next span, and joins it with that one if it
    /// has the same value.
    fn up_step(&mut self, i: usize, to: u64) -> SpanStep
        requires at { i < length self.old.spans }
        requires joined { AreSpansJoined self.old.spans }
        ensures step { UpStep self.old self.new i to result }
        ensures joined { AreSpansJoined self.new.spans }
    {
        let s = self.at(i);
        if to <= s.high {
            return SpanStep::Done;
        }
        if i == self.count() - 1 {
            self.raise(i, to);
            return SpanStep::Done;
        }
        let t = self.next(i);
        if to < t.low {
            self.raise(i, to);
            self.meet(i);
            return SpanStep::Done;
        }
        self.raise(i, t.low - 1);
        if t.value != s.value {
            return SpanStep::Stop(t.low);
        }
        self.join(i);
        SpanStep::Joined
    }

    /// Lets span i end at `to` or later, over spans of the same value. It stops at another value,
    /// and answers where that is.
    fn up(&mut self, i: usize, to: u64) -> Option<u64>
        requires at { i < length self.old.spans }
        requires joined { AreSpansJoined self.old.spans }
        ensures up { Ups self.old self.new i to result }
        ensures joined { AreSpansJoined self.new.spans }
    {
        loop {
            match self.up_step(i, to) {
                SpanStep::Done => return None,
                SpanStep::Stop(stop) => return Some(stop),
                SpanStep::Joined => {}
            }
        }
    }

    /// Lets span i begin at `to` or earlier, or down to the span before, and joins it with that one
    /// if it has the same value.
    fn down_step(&mut self, i: usize, to: u64) -> SpanStep
        requires at { i < length self.old.spans }
        requires joined { AreSpansJoined self.old.spans }
        ensures step { DownStep self.old self.new i to result }
        ensures joined { AreSpansJoined self.new.spans }
    {
        let s = self.at(i);
        if s.low <= to {
            return SpanStep::Done;
        }
        if i == 0 {
            self.lower(i, to);
            return SpanStep::Done;
        }
        let t = self.at(i - 1);
        if t.high < to {
            self.lower(i, to);
            self.meet(i - 1);
            return SpanStep::Done;
        }
        self.lower(i, t.high + 1);
        if t.value != s.value {
            return SpanStep::Stop(t.high);
        }
        self.join(i - 1);
        SpanStep::Joined
    }

    /// Lets span i begin at `to` or earlier, likewise.
    fn down(&mut self, i: usize, to: u64) -> Option<u64>
        requires at { i < length self.old.spans }
        requires joined { AreSpansJoined self.old.spans }
        ensures down { Downs self.old self.new i to result }
        ensures joined { AreSpansJoined self.new.spans }
    {
        let mut at = i;
        loop {
            match self.down_step(at, to) {
                SpanStep::Done => return None,
                SpanStep::Stop(stop) => return Some(stop),
                SpanStep::Joined => at -= 1,
            }
        }
    }

    /// Carries the value of span i, which has `from`, up to `to`.
    fn upward(&mut self, i: usize, from: u64, to: u64) -> Spread
        requires at { LiesInSpan self.old.spans from i }
        requires order { from ≤ to }
        requires rising { IsRising self.old.spans }
        requires joined { AreSpansJoined self.old.spans }
        ensures moves { MovesOnLine self.old self.new from to (nth self.old.spans i).value result }
        ensures joined { AreSpansJoined self.new.spans }
    {
        let s = self.at(i);
        if to <= s.high {
            return Spread::Same;
        }
        match self.up(i, to) {
            None => Spread::More,
            Some(stop) => match self.value_at(stop) {
                None => Spread::More,
                Some(found) => Spread::Stop(stop, s.value, found),
            },
        }
    }

    /// Carries the value of span i, which has `from`, down to `to`.
    fn downward(&mut self, i: usize, from: u64, to: u64) -> Spread
        requires at { LiesInSpan self.old.spans from i }
        requires order { to ≤ from }
        requires rising { IsRising self.old.spans }
        requires joined { AreSpansJoined self.old.spans }
        ensures moves { MovesOnLine self.old self.new from to (nth self.old.spans i).value result }
        ensures joined { AreSpansJoined self.new.spans }
    {
        let s = self.at(i);
        if s.low <= to {
            return Spread::Same;
        }
        match self.down(i, to) {
            None => Spread::More,
            Some(stop) => match self.value_at(stop) {
                None => Spread::More,
                Some(found) => Spread::Stop(stop, s.value, found),
            },
        }
    }

    /// Puts the value at `from` at each number up or down to `to`. It stops at the first other
    /// value.
    pub fn carry(&mut self, from: u64, to: u64) -> Spread
        requires some { IsSome (value_at self.old.spans from) }
        requires joined { AreSpansJoined self.old.spans }
        ensures moves { (v : ℕ) → value_at self.old.spans from ≡ Some v → MovesOnLine self.old self.new from to v result }
        ensures joined { AreSpansJoined self.new.spans }
    {
        match self.place(from) {
            Ok(i) => {
                if from <= to {
                    return self.upward(i, from, to);
                }
                self.downward(i, from, to)
            }
            Err(_) => Spread::Same,
        }
    }

    /// How many spans can be added.
    pub fn spare(&self) -> usize
        ensures value { result ≡ self.now.room - length self.now.spans }
    {
        self.spans.room() - self.spans.len()
    }

    /// The first span that ends at k or later.
    pub fn next_from(&self, k: u64) -> Option<Span>
        requires joined { AreSpansJoined self.now.spans }
        ensures { NextsOn self.now.spans k result }
    {
        match self.seek(k) {
            None => None,
            Some(f) => Some(f.span),
        }
    }
}
