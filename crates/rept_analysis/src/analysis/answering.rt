//! What an analysis answers of ranges, bytes, writers and numbers.
#![tactic(auto, using(rept_timeline::specs::Paths::lawful))]

ghost use Rattle.rept_timeline.specs.Paths.{timeline};
ghost use Rattle.std.specs.Prelude.{◌≡◌, ◌+◌, ◌<◌, ◌≤◌, ◌==◌, ◌&&◌, if◌then◌else◌, ℕ, length, true, false, Some, None};
ghost use Rattle.rept_dump.specs.Memory.{crash_byte};
ghost use Rattle.rept_dump.specs.Program.{contents};
ghost use Rattle.rept_reason.specs.declared.fact.Cell.TheVariants.{Byte};
ghost use Rattle.rept_reason.specs.Facts.{told};
ghost use Rattle.rept_span.specs.Ranges.{range};
ghost use Rattle.rept_report.specs.Setting.{way_of};
ghost use Rattle.rept_report.specs.Closure.{InClosure};
ghost use Rattle.rept_report.specs.Soundness.{AlwaysHolds};
ghost use Rattle.rept_report.specs.Implied.{is_settled, implied};
ghost use Rattle.rept_report.specs.Spots.{spot};
ghost use Rattle.rept_report.specs.Log.{oldest};
ghost use Rattle.rept_report.specs.Origin.Logs.{source};
ghost use Rattle.rept_facts.specs.State.{setting_of, state_of};
ghost use Rattle.rept_report.specs.Why.{fact_of};
ghost use Rattle.rept_facts.specs.Inferring.{IsSettled, AreWritings, AreHitsPast, AreFormerPast, AreLaterPast, IsLateHit};
ghost use Rattle.rept_facts.specs.Kept.{answers};
ghost use Rattle.rept_facts.specs.Answers.{HasClosure, byte_answer};

use super::Analysis;
use rept_isa::Reg;
use rept_reason::RowRules;
use rept_span::Transfer;
use rept_versions::ByteFacts;

impl<'a, B: ByteFacts, W: Transfer, R: RowRules> Analysis<'a, B, W, R> {
    /// Whether the rows from index k to before another one of the list of those that may write lie
    /// wholly before a moment, as far as they may write a byte.
    fn are_hits_past(&self, k: usize, end: usize, moment: u32, a: u32) -> bool
        requires writings { AreWritings (state_of W.sets W.moves R.rules B.store self.now.propagation.facts) }
        requires within { end ≤ length self.now.propagation.facts.work.writing }
        ensures yes { result ≡ true → AreHitsPast k end (spot moment a) (state_of W.sets W.moves R.rules B.store self.now.propagation.facts) }
        ensures no { result ≡ false → IsLateHit (spot moment a) (state_of W.sets W.moves R.rules B.store self.now.propagation.facts) }
    {
        let mut low = k;
        loop {
            let Some(hit) = self.propagation.facts.next_hit(low, end, a) else {
                return true;
            };
            let row = self.propagation.facts.entry(hit).row;
            if !self.propagation.facts.is_past(row, moment) {
                return false;
            }
            low = hit + 1;
        }
    }

    /// Whether numbers lead one by one from a moment to the end, and no row of the list that stands
    /// at a lower number and may write a byte may act at this number or a later one. Then all these
    /// rows lie wholly before the moment. It is so at each moment of one thread.
    fn is_over(&self, moment: u32, a: u32) -> bool
        requires moment { moment ≤ (timeline self.now.propagation.facts.paths).moments.end }
        requires writings { AreWritings (state_of W.sets W.moves R.rules B.store self.now.propagation.facts) }
        ensures { result ≡ true → AreFormerPast (spot moment a) (state_of W.sets W.moves R.rules B.store self.now.propagation.facts) }
    {
        self.propagation.facts.line_of(moment).last == self.propagation.facts.end()
            && self.propagation.facts.free_since(moment, a) <= moment
    }

    /// Whether the rows of the list that stand at lower numbers lie wholly before a moment, as far
    /// as they may write a byte.
    fn are_former_past(&self, moment: u32, a: u32) -> bool
        requires moment { moment ≤ (timeline self.now.propagation.facts.paths).moments.end }
        requires writings { AreWritings (state_of W.sets W.moves R.rules B.store self.now.propagation.facts) }
        ensures yes { result ≡ true → AreFormerPast (spot moment a) (state_of W.sets W.moves R.rules B.store self.now.propagation.facts) }
        ensures no { result ≡ false → IsLateHit (spot moment a) (state_of W.sets W.moves R.rules B.store self.now.propagation.facts) }
    {
        if self.is_over(moment, a) {
            return true;
        }
        let split = self.propagation.facts.listed_before(moment);
        self.are_hits_past(0, split, moment, a)
    }

    /// Whether those that stand at this number or higher ones lie wholly before the moment, as far
    /// as they may write the byte.
    fn are_later_past(&self, moment: u32, a: u32) -> bool
        requires writings { AreWritings (state_of W.sets W.moves R.rules B.store self.now.propagation.facts) }
        ensures yes { result ≡ true → AreLaterPast (spot moment a) (state_of W.sets W.moves R.rules B.store self.now.propagation.facts) }
        ensures no { result ≡ false → IsLateHit (spot moment a) (state_of W.sets W.moves R.rules B.store self.now.propagation.facts) }
    {
        let split = self.propagation.facts.listed_before(moment);
        let count = self.propagation.facts.writing_count();
        self.are_hits_past(split, count, moment, a)
    }

    /// Whether all that may write a byte lies wholly before a moment, where all is learnt. The rows
    /// that may write it are those of the list; the ones at this number and higher ones are looked
    /// at first, since they seldom lie before the moment.
    fn is_untouched(&self, moment: u32, a: u32) -> bool
        requires moment { moment ≤ (timeline self.now.propagation.facts.paths).moments.end }
        requires settled { IsSettled (state_of W.sets W.moves R.rules B.store self.now.propagation.facts) }
        ensures { result ≡ is_settled (setting_of W.sets W.moves R.rules self.now.propagation.facts) (told (oldest self.now.propagation.facts.filled self.now.propagation.facts.known.log)) (spot moment a) }
    {
        if !self.are_later_past(moment, a) {
            return false;
        }
        if !self.are_former_past(moment, a) {
            return false;
        }
        self.propagation.facts.is_untraced_past(moment)
    }

    /// The byte of the dump, where it is carried back to a moment, where all is learnt.
    fn implied(&self, moment: u32, a: u32) -> Option<u8>
        requires moment { moment ≤ (timeline self.now.propagation.facts.paths).moments.end }
        requires settled { IsSettled (state_of W.sets W.moves R.rules B.store self.now.propagation.facts) }
        ensures { result ≡ implied (setting_of W.sets W.moves R.rules self.now.propagation.facts) (told (oldest self.now.propagation.facts.filled self.now.propagation.facts.known.log)) moment a }
    {
        let byte = self.propagation.facts.dump_byte(a)?;
        if self.is_untouched(moment, a) {
            Some(byte)
        } else {
            None
        }
    }

    /// The set of values of a register at a point: all words, unless all is learnt.
    pub fn range(&self, point: u32, r: Reg) -> W
        requires { point ≤ (timeline self.now.propagation.facts.paths).legs.count }
        ensures ended { self.now.propagation.facts.complete ≡ true → range (way_of (setting_of W.sets W.moves R.rules self.now.propagation.facts)) (answers (state_of W.sets W.moves R.rules B.store self.now.propagation.facts)) point r ≡ Some result }
        ensures open { self.now.propagation.facts.complete ≡ false → result ≡ W.sets.unknown }
    {
        if self.propagation.facts.ended() {
            self.propagation.facts.filled(point, r)
        } else {
            W::unknown()
        }
    }

    /// The byte of the dump at the end.
    fn end_byte(&self, point: u32, a: u32) -> Option<u8>
        ensures { result ≡ (if point == (timeline self.now.propagation.facts.paths).moments.end then crash_byte (contents self.now.propagation.facts.exe) self.now.propagation.facts.core a else None) }
    {
        if point == self.propagation.facts.end() {
            self.propagation.facts.dump_byte(a)
        } else {
            None
        }
    }

    /// The byte that a fact tells, of those that are answered, or the one of the dump at the end.
    fn source_byte(&self, point: u32, a: u32) -> Option<u8>
        ensures { result ≡ source (setting_of W.sets W.moves R.rules self.now.propagation.facts) (oldest self.now.propagation.facts.shown self.now.propagation.facts.known.log) a point }
    {
        match self.propagation.facts.logged_byte(point, a) {
            Some(byte) => Some(byte),
            None => self.end_byte(point, a),
        }
    }

    /// The byte that is answered while not all is learnt.
    fn shown_byte(&self, point: u32, a: u32) -> Option<u8>
        ensures { result ≡ byte_answer (state_of W.sets W.moves R.rules B.store self.now.propagation.facts) point a }
    {
        if self.propagation.facts.is_bare_conflict() {
            return None;
        }
        self.source_byte(point, a)
    }

    /// The value of the byte at an address, at a point, where it follows. While not all is learnt,
    /// as after a stop, it is that of the facts that are answered, and at the last point the dump's
    /// too. It stands in the closure. Where the rows alone show a conflict the closure has no fact,
    /// and no byte is answered.
    pub fn byte(&self, point: u32, a: u32) -> Option<u8>
        requires { point ≤ (timeline self.now.propagation.facts.paths).moments.end }
        ensures ended { self.now.propagation.facts.complete ≡ true → result ≡ answers (state_of W.sets W.moves R.rules B.store self.now.propagation.facts) point (Byte a) }
        ensures open { self.now.propagation.facts.complete ≡ false → result ≡ byte_answer (state_of W.sets W.moves R.rules B.store self.now.propagation.facts) point a }
        ensures derived { HasClosure (state_of W.sets W.moves R.rules B.store self.now.propagation.facts) → (v : ℕ) → result ≡ Some v → InClosure (setting_of W.sets W.moves R.rules self.now.propagation.facts) (fact_of point (Byte a) v) }
        ensures sound { (v : ℕ) → result ≡ Some v → AlwaysHolds (setting_of W.sets W.moves R.rules self.now.propagation.facts) point (Byte a) v }
    {
        if !self.propagation.facts.ended() {
            return self.shown_byte(point, a);
        }
        match self.propagation.facts.known_byte(point, a) {
            Some(v) => Some(v),
            None => self.implied(point, a),
        }
    }
}
