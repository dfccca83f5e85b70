//! Which numbers lead to which, and where rows may act.

ghost use Rattle.rept_timeline.specs.Paths.{timeline};
ghost use Rattle.std.specs.Prelude.{◌≡◌, ◌+◌, ◌<◌, ◌≤◌, true, Some, None, IfSome, IsSome};
ghost use Rattle.rept_report.specs.Timeline.{IsLine, IsNextFrom, IsStrip, IsLastFrom, IsActingFrom};
ghost use Rattle.rept_report.specs.Reach.Reaching.{IsBar, IsLeaving, IsReachedUp, IsReachedDown};

use super::CrashFacts;
use rept_reason::RowRules;
use rept_report::NumberWindow;
use rept_report::paths::{NumberChain, Strip};
use rept_span::Transfer;
use rept_versions::ByteFacts;

impl<'a, B: ByteFacts, W: Transfer, R: RowRules> CrashFacts<'a, B, W, R> {
    /// Whether writers that aren't told, if there are any, lie wholly before a moment.
    pub fn is_untraced_past(&self, moment: u32) -> bool
        ensures { result ≡ (timeline self.now.paths).moments.untraced_past moment }
    {
        self.paths.is_untraced_past(moment)
    }

    /// The numbers around one, one after the other, of which each but the last has the one after it
    /// next to it, and no other.
    pub fn line_of(&self, number: u32) -> NumberChain
        requires { number ≤ (timeline self.now.paths).moments.end }
        ensures { IsLine (timeline self.now.paths).moments number result }
    {
        self.paths.line_of(number)
    }

    /// Whether a row lies wholly before a moment.
    pub fn is_past(&self, row: u32, moment: u32) -> bool
        requires { IsSome ((timeline self.now.paths).legs.row row) }
        ensures { result ≡ (timeline self.now.paths).moments.past row moment }
    {
        self.paths.is_past(row, moment)
    }

    /// The numbers around one, one after the other, between which the same may act.
    pub fn strip(&self, number: u32) -> Strip
        requires { number ≤ (timeline self.now.paths).moments.end }
        ensures { IsStrip (timeline self.now.paths) number result }
    {
        self.paths.strip_of(number)
    }

    /// Whether writers that aren't told may act between a number and one that is next to it.
    pub fn is_untraced_between(&self, m: u32, w: u32) -> bool
        requires next { (timeline self.now.paths).moments.next m w ≡ true }
        ensures { result ≡ (timeline self.now.paths).moments.untraced m w }
    {
        self.paths.is_untraced_between(m, w)
    }

    /// The least number from one on that is next to a number.
    pub fn next_from(&self, m: u32, least: u32) -> Option<u32>
        requires inside { m ≤ (timeline self.now.paths).moments.end }
        ensures { IsNextFrom (timeline self.now.paths).moments m least result }
    {
        self.paths.next_from(m, least)
    }

    /// Whether a row may act between a number and one that is next to it.
    pub fn may_act(&self, row: u32, m: u32, w: u32) -> bool
        requires there { IsSome ((timeline self.now.paths).legs.row row) }
        requires next { (timeline self.now.paths).moments.next m w ≡ true }
        ensures { result ≡ (timeline self.now.paths).moments.may_act row m w }
    {
        self.paths.may_act(row, m, w)
    }

    /// Whether it is sure that a row may act between a number and each one that is next to it.
    pub fn surely_blocks(&self, row: u32, m: u32) -> bool
        requires there { IsSome ((timeline self.now.paths).legs.row row) }
        ensures { result ≡ true → IsBar (timeline self.now.paths).moments row m }
    {
        self.paths.surely_blocks(row, m)
    }

    /// A number from one on, before the end of a window, before which no number from there on has a
    /// next one outside the window.
    pub fn leaving_from(&self, least: u32, known: NumberWindow) -> u32
        requires since { known.from ≤ least }
        requires order { least < known.to }
        requires inside { known.to ≤ (timeline self.now.paths).moments.end + 1 }
        ensures { IsLeaving (timeline self.now.paths).moments known least result }
    {
        self.paths.leaving_from(least, known)
    }

    /// A number up to which, but no further than another one, each number after those of a window
    /// is next to an earlier one that isn't below the window.
    pub fn reached_up(&self, known: NumberWindow, most: u32) -> u32
        requires order { known.from < known.to }
        requires inside { known.to ≤ (timeline self.now.paths).moments.end + 1 }
        ensures { IsReachedUp (timeline self.now.paths).moments known most result }
    {
        self.paths.reached_up(known, most)
    }

    /// A number down to which, but no further than another one, each number before those of a
    /// window has a next one after it that isn't past the window.
    pub fn reached_down(&self, known: NumberWindow, least: u32) -> u32
        requires order { known.from < known.to }
        requires inside { known.to ≤ (timeline self.now.paths).moments.end + 1 }
        ensures { IsReachedDown (timeline self.now.paths).moments known least result }
    {
        self.paths.reached_down(known, least)
    }

    /// The least number to which one is next, or itself. Where writers that aren't told don't lie
    /// before the number, they may act before it on each way to it, and it answers the number.
    pub fn least_former(&self, number: u32) -> u32
        requires { number ≤ (timeline self.now.paths).moments.end }
    {
        if !self.paths.is_untraced_past(number) {
            return number;
        }
        match self.paths.former_from(number, 0) {
            None => number,
            Some(former) => former.min(number),
        }
    }

    /// The greatest number that is next to one, or itself. Where writers that aren't told don't lie
    /// before the number, it answers the number.
    pub fn greatest_next(&self, number: u32) -> u32
        requires { number ≤ (timeline self.now.paths).moments.end }
        ensures { result ≤ (timeline self.now.paths).moments.end }
    {
        let end = self.end();
        if !self.paths.is_untraced_past(number) {
            return number;
        }
        let mut found = number;
        let mut least = 0;
        while least <= end {
            let Some(next) = self.next_from(number, least) else {
                return found;
            };
            found = found.max(next);
            least = next + 1;
        }
        found
    }

    /// The first point from one on that is the last one of its thread, if there is one.
    pub fn next_last(&self, least: u32) -> Option<u32>
        ensures last { IsLastFrom (timeline self.now.paths).legs least result }
        ensures few { IfSome result (λ p. p ≤ 66560) }
    {
        // for the proof alone
        let _count = self.count();
        self.paths.next_last(least)
    }

    /// The least row that may act between a number and one that is next to it.
    pub fn first_acting(&self, m: u32, w: u32) -> Option<u32>
        requires next { (timeline self.now.paths).moments.next m w ≡ true }
        ensures { IsActingFrom (timeline self.now.paths) m w 0 result }
    {
        self.paths.acting_from(m, w, 0)
    }
}
