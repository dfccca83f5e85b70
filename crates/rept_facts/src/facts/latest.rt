//! The row that last wrote a byte, of those of the list that may have written it.

ghost use Rattle.rept_timeline.specs.Paths.{timeline};
ghost use Rattle.std.specs.Prelude.{◌≡◌, ◌≢◌, ◌+◌, ◌<◌, ◌^◌, ◌↔◌, if◌then◌else◌, ℕ, length, true, false, Some, IfSome, IsSome};
ghost use Rattle.rept_reason.specs.Facts.{told};
ghost use Rattle.rept_report.specs.Latest.{IsEarlierRow, IsLatest};
ghost use Rattle.rept_report.specs.Last.Latest.{IsLastWriter, IsMaybe, is_certain};
ghost use Rattle.rept_report.specs.Log.{oldest};
ghost use Rattle.rept_report.specs.Spots.{spot};
ghost use Rattle.rept_report.specs.Timeline.{IsLeastFrom};
ghost use Rattle.rept_report.specs.Writers.{IsWriter};
ghost use Rattle.rept_facts.specs.State.{setting_of, state_of};
ghost use Rattle.rept_facts.specs.Inferring.{AreWritings, IsFitted, IsSettled};
ghost use Rattle.rept_facts.specs.Latest.{IsBegunEntry, writes_by};

use super::CrashFacts;
use rept_reason::RowRules;
use rept_report::{RowWrites, Writer};
use rept_span::Transfer;
use rept_versions::ByteFacts;

impl<'a, B: ByteFacts, W: Transfer, R: RowRules> CrashFacts<'a, B, W, R> {
    /// Whether a row lies wholly after a moment.
    fn is_ahead(&self, row: u32, moment: u32) -> bool
        requires { IsSome ((timeline self.now.paths).legs.row row) }
        ensures { result ≡ (timeline self.now.paths).moments.ahead row moment }
    {
        self.paths.is_ahead(row, moment)
    }

    /// The one of two rows that lies wholly after the other, if it is the first one, and else the
    /// second one.
    fn later_of(&self, row: u32, best: u32) -> u32
        requires first { IsSome ((timeline self.now.paths).legs.row row) }
        requires second { IsSome ((timeline self.now.paths).legs.row best) }
        ensures { result ≡ (if (timeline self.now.paths).moments.later row best then row else best) }
    {
        if self.paths.is_later(row, best) {
            row
        } else {
            best
        }
    }

    /// Whether a row isn't another one, and doesn't lie wholly before it.
    fn is_rival(&self, row: u32, best: u32) -> bool
        requires first { IsSome ((timeline self.now.paths).legs.row row) }
        requires second { IsSome ((timeline self.now.paths).legs.row best) }
        ensures yes { result ≡ true → (row ≢ best) × ((timeline self.now.paths).moments.later best row ≡ false) }
        ensures no { result ≡ false → row ≢ best → (timeline self.now.paths).moments.later best row ≡ true }
    {
        if row == best {
            return false;
        }
        !self.paths.is_later(best, row)
    }

    /// Whether writers that aren't told, if there are any, lie wholly before a row.
    fn is_clear(&self, row: u32) -> bool
        requires { IsSome ((timeline self.now.paths).legs.row row) }
        ensures { result ≡ (if (timeline self.now.paths).moments.is_untraced then (timeline self.now.paths).moments.untraced_before row else true) }
    {
        if self.paths.is_untraced() {
            self.paths.is_untraced_before(row)
        } else {
            true
        }
    }

    /// What is said of the row that last wrote a byte, where no row may have.
    fn no_writer(&self, moment: u32, a: u32) -> Writer
        requires none { (k : ℕ) → IsMaybe (timeline self.now.paths) (writes_by (setting_of W.sets W.moves R.rules self.now) (told (oldest self.now.filled self.now.known.log))) (spot moment a) k → ⊥ }
        ensures { IsLastWriter (timeline self.now.paths) (writes_by (setting_of W.sets W.moves R.rules self.now) (told (oldest self.now.filled self.now.known.log))) (spot moment a) result }
    {
        if self.paths.is_untraced() {
            Writer::Several
        } else {
            Writer::None
        }
    }

    /// Whether a row writes each byte that it may write, and lies wholly before a moment.
    fn is_certain(&self, row: u32, moment: u32) -> bool
        requires fitted { IsFitted (state_of W.sets W.moves R.rules B.store self.now) }
        requires row { IsSome ((timeline self.now.paths).legs.row row) }
        ensures { result ≡ is_certain (timeline self.now.paths).moments (writes_by (setting_of W.sets W.moves R.rules self.now) (told (oldest self.now.filled self.now.known.log))) moment row }
    {
        self.is_sure(row) && self.is_past(row, moment)
    }

    /// The index of the first row from an index on, in the list of the rows that may write, that
    /// may have written a byte before a moment.
    fn next_begun(&self, k: usize, moment: u32, a: u32) -> Option<usize>
        requires writings { AreWritings (state_of W.sets W.moves R.rules B.store self.now) }
        ensures next { IsLeastFrom (IsBegunEntry (spot moment a) (state_of W.sets W.moves R.rules B.store self.now)) k result }
        ensures inside { IfSome result (λ j. j < length self.now.work.writing) }
        ensures few { IfSome result (λ j. j + 1 < 2 ^ 64) }
    {
        let end = self.writing_count();
        let mut from = k;
        while from < end {
            let Some(hit) = self.next_hit(from, end, a) else {
                return None;
            };
            let row = self.entry(hit).row;
            if !self.is_ahead(row, moment) {
                return Some(hit);
            }
            from = hit + 1;
        }
        None
    }

    /// A row that may have written a byte before a moment, and the one that lies wholly after all
    /// others, if one does: it takes the place of any that was found before it, and none takes its
    /// place.
    fn newest_writer(&self, first: usize, moment: u32, a: u32) -> u32
        requires settled { IsSettled (state_of W.sets W.moves R.rules B.store self.now) }
        requires first { IsLeastFrom (IsBegunEntry (spot moment a) (state_of W.sets W.moves R.rules B.store self.now)) 0 (Some first) }
        ensures one { IsMaybe (timeline self.now.paths) (writes_by (setting_of W.sets W.moves R.rules self.now) (told (oldest self.now.filled self.now.known.log))) (spot moment a) result }
        ensures only { (j : ℕ) → IsLatest (timeline self.now.paths).moments (IsMaybe (timeline self.now.paths) (writes_by (setting_of W.sets W.moves R.rules self.now) (told (oldest self.now.filled self.now.known.log))) (spot moment a)) j → result ≡ j }
    {
        let mut best = self.entry(first).row;
        let mut k = first;
        loop {
            let Some(j) = self.next_begun(k, moment, a) else {
                return best;
            };
            let row = self.entry(j).row;
            best = self.later_of(row, best);
            k = j + 1;
        }
    }

    /// Whether another row than this one, which may have written a byte before a moment, doesn't
    /// lie wholly before it.
    fn has_rival(&self, best: u32, moment: u32, a: u32) -> bool
        requires settled { IsSettled (state_of W.sets W.moves R.rules B.store self.now) }
        requires best { IsSome ((timeline self.now.paths).legs.row best) }
        ensures some { result ≡ true → IsLatest (timeline self.now.paths).moments (IsMaybe (timeline self.now.paths) (writes_by (setting_of W.sets W.moves R.rules self.now) (told (oldest self.now.filled self.now.known.log))) (spot moment a)) best → ⊥ }
        ensures none { result ≡ false → (k : ℕ) → IsMaybe (timeline self.now.paths) (writes_by (setting_of W.sets W.moves R.rules self.now) (told (oldest self.now.filled self.now.known.log))) (spot moment a) k → k ≢ best → IsEarlierRow (timeline self.now.paths).moments k best }
    {
        let mut from = 0;
        loop {
            let Some(k) = self.next_begun(from, moment, a) else {
                return false;
            };
            let row = self.entry(k).row;
            if self.is_rival(row, best) {
                return true;
            }
            from = k + 1;
        }
    }

    /// Whether a row that may have written a byte before a moment lies wholly after all others that
    /// may have, and after writers that aren't told.
    fn is_latest(&self, best: u32, moment: u32, a: u32) -> bool
        requires settled { IsSettled (state_of W.sets W.moves R.rules B.store self.now) }
        requires best { IsMaybe (timeline self.now.paths) (writes_by (setting_of W.sets W.moves R.rules self.now) (told (oldest self.now.filled self.now.known.log))) (spot moment a) best }
        ensures { (result ≡ true) ↔ IsLatest (timeline self.now.paths).moments (IsMaybe (timeline self.now.paths) (writes_by (setting_of W.sets W.moves R.rules self.now) (told (oldest self.now.filled self.now.known.log))) (spot moment a)) best }
    {
        !self.has_rival(best, moment, a) && self.is_clear(best)
    }

    /// Which row last wrote a byte before a moment, where all is learnt: the rows of the list that
    /// may write the byte are gone over, and no others.
    fn latest_writer(&self, moment: u32, a: u32) -> Writer
        requires settled { IsSettled (state_of W.sets W.moves R.rules B.store self.now) }
        ensures { IsLastWriter (timeline self.now.paths) (writes_by (setting_of W.sets W.moves R.rules self.now) (told (oldest self.now.filled self.now.known.log))) (spot moment a) result }
    {
        let Some(first) = self.next_begun(0, moment, a) else {
            return self.no_writer(moment, a);
        };
        let best = self.newest_writer(first, moment, a);
        if !self.is_latest(best, moment, a) {
            return Writer::Several;
        }
        if self.is_certain(best, moment) {
            Writer::Writes(best)
        } else {
            Writer::MayWrite(best)
        }
    }

    /// What is said of the row that last wrote a byte before a moment, where all is learnt, in a
    /// run of any number of threads.
    pub(super) fn listed_writer(&self, moment: u32, a: u32) -> Writer
        requires settled { IsSettled (state_of W.sets W.moves R.rules B.store self.now) }
        ensures { IsWriter (setting_of W.sets W.moves R.rules self.now) (told (oldest self.now.filled self.now.known.log)) (spot moment a) result }
    {
        self.latest_writer(moment, a)
    }
}
