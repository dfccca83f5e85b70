//! What facts and sets answer.

ghost use Rattle.rept_timeline.specs.Paths.{timeline};
ghost use Rattle.std.specs.Prelude.{◌≡◌, ◌+◌, ◌<◌, ◌≤◌, ◌==◌, ◌&&◌, length, true, false, Some, None, IfSome, is_some, ◌*◌, ◌-◌, ◌↔◌, IsTrue};
ghost use Rattle.rept_reason.specs.declared.fact.Cell.TheVariants.{Byte, Register};
ghost use Rattle.rept_reason.specs.Facts.{told, register_fact, register_known};
ghost use Rattle.rept_span.specs.Filled.{entry_at};
ghost use Rattle.rept_report.specs.Spots.{spot};
ghost use Rattle.rept_report.specs.Timeline.{HasEqualNumbers, IsBegun, IsGreatestTo};
ghost use Rattle.rept_report.specs.Writers.{IsWriter};
ghost use Rattle.rept_report.specs.Log.{oldest, entry, place_of};
ghost use Rattle.rept_facts.specs.State.{setting_of, state_of};
ghost use Rattle.rept_facts.specs.Inferring.{IsFitted, IsSettled};
ghost use Rattle.rept_facts.specs.Kept.{answers};
ghost use Rattle.rept_report.specs.Last.Latest.{IsMaybe, IsNoneFrom, IsPossibleWriter};
ghost use Rattle.rept_facts.specs.Latest.{ArePassed, writes_by};

use super::CrashFacts;
use rept_isa::Reg;
use rept_partial::Flat;
use rept_reason::{Fact, RowRules};
use rept_report::{SoughtByte, SoughtRows, Writer};
use rept_span::Transfer;
use rept_timeline::{last_writer, possible_writer};
use rept_versions::ByteFacts;

impl<'a, B: ByteFacts, W: Transfer, R: RowRules> CrashFacts<'a, B, W, R> {
    /// The set of a register at a point, as it was filled last.
    pub fn filled(&self, point: u32, r: Reg) -> W
        requires point { point ≤ (timeline self.now.paths).legs.count }
        ensures entry { entry_at self.now.spans point r ≡ Some result }
        ensures in_file { r < 32 }
    {
        // for the proof alone
        let _paths = self.paths;
        let _number = r.number();
        self.spans.at(point, r)
    }

    /// What is said of the row that last wrote a byte before a moment, by these facts.
    fn last_writer(&self, byte: SoughtByte) -> Writer
        requires fitted { IsFitted (state_of W.sets W.moves R.rules B.store self.now) }
        requires none { IsNoneFrom (IsMaybe (timeline self.now.paths) (writes_by (setting_of W.sets W.moves R.rules self.now) (told (oldest self.now.filled self.now.known.log))) (spot byte.moment byte.address)) byte.end }
        ensures { IsWriter (setting_of W.sets W.moves R.rules self.now) (told (oldest self.now.filled self.now.known.log)) (spot byte.moment byte.address) result }
    {
        last_writer(self.paths, self, byte)
    }

    /// The number after the greatest one below a given one of a row that may write a byte, or 0,
    /// where all is learnt and rows have the numbers of moments.
    fn past_writer(&self, number: u32, a: u32) -> u32
        requires settled { IsSettled (state_of W.sets W.moves R.rules B.store self.now) }
        requires equal { HasEqualNumbers (timeline self.now.paths) }
        ensures { ArePassed (setting_of W.sets W.moves R.rules self.now) (told (oldest self.now.filled self.now.known.log)) number a result }
    {
        let past = self.past_hit(0, number, a);
        self.number_past(past)
    }

    /// The greatest row that doesn't lie wholly after a moment, if there is one.
    fn last_begun(&self, moment: u32) -> Option<u32>
        ensures row { IsGreatestTo (IsBegun (timeline self.now.paths) moment) (timeline self.now.paths).legs.count result }
        ensures inside { IfSome result (λ i. i < (timeline self.now.paths).legs.count) }
    {
        self.paths.begun_to(moment, self.count())
    }

    /// The number after the greatest one of a row that may have written a byte before a moment,
    /// where all is learnt and rows have the numbers of moments.
    fn past_begun(&self, moment: u32, a: u32) -> u32
        requires settled { IsSettled (state_of W.sets W.moves R.rules B.store self.now) }
        requires equal { HasEqualNumbers (timeline self.now.paths) }
        ensures { IsNoneFrom (IsMaybe (timeline self.now.paths) (writes_by (setting_of W.sets W.moves R.rules self.now) (told (oldest self.now.filled self.now.known.log))) (spot moment a)) result }
    {
        // for the proof alone
        let _count = self.count();
        match self.last_begun(moment) {
            None => 0,
            Some(row) => self.past_writer(row + 1, a),
        }
    }

    /// What is said of the row that last wrote a byte before a moment, where all is learnt.
    fn settled_writer(&self, moment: u32, a: u32) -> Writer
        requires settled { IsSettled (state_of W.sets W.moves R.rules B.store self.now) }
        ensures { IsWriter (setting_of W.sets W.moves R.rules self.now) (told (oldest self.now.filled self.now.known.log)) (spot moment a) result }
    {
        if !self.paths.has_equal_numbers() {
            return self.listed_writer(moment, a);
        }
        let end = self.past_begun(moment, a);
        self.last_writer(SoughtByte {
            moment,
            address: a,
            end,
        })
    }

    /// The byte that a fact tells, of those that are answered.
    pub fn logged_byte(&self, point: u32, a: u32) -> Option<u8>
        ensures { result ≡ told (oldest self.now.shown self.now.known.log) point (Byte a) }
    {
        self.held();
        let fact = self.known.first_from(self.shown, point, a)?;
        if fact.point == point {
            Some(self.known.byte_below(self.shown, point, a))
        } else {
            None
        }
    }

    /// Whether a conflict was found that needs no fact.
    pub fn is_bare_conflict(&self) -> bool
        ensures { result ≡ (is_some self.now.conflict && self.now.shown == 0) }
    {
        self.conflict.is_some() && self.shown == 0
    }

    /// What is said of the row that last wrote a byte before a moment. Unless all is learnt, each
    /// row may have written it.
    pub fn writer(&self, moment: u32, a: u32) -> Writer
        requires { moment ≤ (timeline self.now.paths).moments.end }
        ensures ended { self.now.complete ≡ true → IsWriter (setting_of W.sets W.moves R.rules self.now) (answers (state_of W.sets W.moves R.rules B.store self.now)) (spot moment a) result }
        ensures open { self.now.complete ≡ false → IsPossibleWriter (timeline self.now.paths).moments (IsBegun (timeline self.now.paths) moment) result }
    {
        if self.ended() {
            return self.settled_writer(moment, a);
        }
        let end = self.count();
        let rows = SoughtRows {
            moment,
            address: None,
            end,
        };
        possible_writer(self.paths, self, rows)
    }

    /// Whether the value of a register other than x0 is answered.
    pub fn is_told(&self, point: u32, r: Reg) -> bool
        requires { point ≤ (timeline self.now.paths).legs.count }
        ensures { result ≡ is_some (register_fact (told (oldest self.now.shown self.now.known.log)) point r) }
    {
        // for the proof alone
        let _paths = self.paths;
        r.number() != 0 && self.known.is_known_below(self.shown, point, r)
    }

    /// Whether the value of a register before row i is answered.
    pub fn is_base_known(&self, i: u32, r: Reg) -> bool
        requires { i ≤ (timeline self.now.paths).legs.count }
        ensures { result ≡ is_some (register_known (told (oldest self.now.shown self.now.known.log)) i r) }
    {
        // for the proof alone
        let _paths = self.paths;
        match self.known.known_below(self.shown, i, r) {
            Flat::Known(_) => true,
            Flat::Unknown => false,
        }
    }

    /// The place in the log of the fact on a register at a point.
    pub fn place_at(&self, point: u32, r: Reg) -> Option<u32>
        requires point { point ≤ (timeline self.now.paths).legs.count }
        requires named { 0 < r }
        ensures place { result ≡ place_of self.now.known.log point (Register r) }
        ensures within { IfSome result (λ t. t < length self.now.known.log) }
    {
        // for the proof alone
        let _paths = self.paths;
        self.known.place(point, r)
    }

    /// Whether the log has a fact at a place.
    pub fn is_entry(&self, place: u32, fact: &Fact) -> bool
        requires { place < length self.now.known.log }
        ensures { IsTrue result ↔ (entry self.now.known.log place ≡ Some fact.now) }
    {
        self.known.entry(place) == *fact
    }
}
