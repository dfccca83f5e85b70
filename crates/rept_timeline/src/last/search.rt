//! The last of some rows, found by comparing each that isn't surely earlier with the best one so
//! far.

ghost use Rattle.rept_timeline.specs.Paths.{timeline};
ghost use Rattle.std.specs.Prelude.{◌≡◌, ◌≢◌, ◌<◌, ◌≤◌, ◌↔◌, if◌then◌else◌, ℕ, true, false, IfSome, IsSome};
ghost use Rattle.rept_report.specs.Latest.{IsEarlierRow, IsLatest};
ghost use Rattle.rept_report.specs.Timeline.{IsLeastFrom, IsGreatestTo, IsBegun, IsClose};
ghost use Rattle.rept_report.specs.Last.Latest.{CanAsk, IsGreatest, IsNoneFrom, IsPossibleWriter, IsSought};

use crate::RunPaths;
use rept_report::{RowWrites, SoughtRows, Writer};

/// The greatest row up to one that doesn't lie wholly after a moment, if there is one.
fn begun_to(paths: &RunPaths<'_>, moment: u32, most: u32) -> Option<u32>
    ensures row { IsGreatestTo (IsBegun (timeline paths.now) moment) most result }
    ensures order { IfSome result (λ i. i ≤ most) }
    ensures inside { IfSome result (λ i. i < (timeline paths.now).legs.count) }
{
    paths.begun_to(moment, most)
}

/// The least row from one on than which this one isn't later, if there is one.
fn close_from(paths: &RunPaths<'_>, row: u32, least: u32) -> Option<u32>
    requires { IsSome ((timeline paths.now).legs.row row) }
    ensures row { IsLeastFrom (IsClose (timeline paths.now) row) least result }
    ensures order { IfSome result (λ i. least ≤ i) }
    ensures inside { IfSome result (λ i. i < (timeline paths.now).legs.count) }
    ensures few { (timeline paths.now).legs.count ≤ 66560 }
{
    paths.close_from(row, least)
}

/// Whether writers that aren't told, if there are any, lie wholly before a row.
fn is_clear(paths: &RunPaths<'_>, row: u32) -> bool
    requires { IsSome ((timeline paths.now).legs.row row) }
    ensures { result ≡ (if (timeline paths.now).moments.is_untraced then (timeline paths.now).moments.untraced_before row else true) }
{
    if paths.is_untraced() {
        paths.is_untraced_before(row)
    } else {
        true
    }
}

/// Rows among which the last one is sought.
#[derive(Drop)]
pub struct LastRowSearch<'k, M: RowWrites> {
    /// their moments
    pub paths: &'k RunPaths<'k>,
    /// which bytes they write
    pub rows: &'k M,
    /// which of them are meant
    pub sought: SoughtRows,
}

impl<'k, M: RowWrites> LastRowSearch<'k, M> {
    /// Whether a row that doesn't lie wholly after the moment is one of those that are sought.
    fn is_possible(&self, i: u32) -> bool
        requires inside { i < (timeline self.now.paths.now).legs.count }
        requires begun { IsBegun (timeline self.now.paths.now) self.now.sought.moment i }
        requires ready { CanAsk (timeline self.now.paths.now) (M.ready self.now.rows.now) self.now.sought }
        ensures { (result ≡ true) ↔ IsSought (timeline self.now.paths.now) (M.writes self.now.rows.now) self.now.sought i }
    {
        match self.sought.address {
            None => true,
            Some(a) => self.rows.may_write(i, a),
        }
    }

    /// Whether a row is one of those that are sought.
    fn is_sought(&self, i: u32) -> bool
        requires inside { i < (timeline self.now.paths.now).legs.count }
        requires row { IsSome ((timeline self.now.paths.now).legs.row i) }
        requires ready { CanAsk (timeline self.now.paths.now) (M.ready self.now.rows.now) self.now.sought }
        ensures { (result ≡ true) ↔ IsSought (timeline self.now.paths.now) (M.writes self.now.rows.now) self.now.sought i }
    {
        !self.paths.is_ahead(i, self.sought.moment) && self.is_possible(i)
    }

    /// The last of these rows by number: the first one back from the moment.
    fn greatest(&self) -> Option<u32>
        requires ready { CanAsk (timeline self.now.paths.now) (M.ready self.now.rows.now) self.now.sought }
        requires none { IsNoneFrom (IsSought (timeline self.now.paths.now) (M.writes self.now.rows.now) self.now.sought) self.now.sought.end }
        ensures row { IsGreatest (IsSought (timeline self.now.paths.now) (M.writes self.now.rows.now) self.now.sought) result }
        ensures inside { IfSome result (λ i. i < (timeline self.now.paths.now).legs.count) }
    {
        let mut high = self.sought.end;
        while high > 0 {
            let Some(i) = begun_to(self.paths, self.sought.moment, high - 1) else {
                return None;
            };
            if self.is_possible(i) {
                return Some(i);
            }
            high = i;
        }
        None
    }

    /// One of these rows, and the one up to a number that lies wholly after all others, if one
    /// does: it takes the place of any that was found before it, and none takes its place. The rows
    /// than which the one that was found is later needn't be looked at.
    fn newest(&self, top: u32) -> u32
        requires inside { top < (timeline self.now.paths.now).legs.count }
        requires top { IsSought (timeline self.now.paths.now) (M.writes self.now.rows.now) self.now.sought top }
        requires ready { CanAsk (timeline self.now.paths.now) (M.ready self.now.rows.now) self.now.sought }
        ensures one { IsSought (timeline self.now.paths.now) (M.writes self.now.rows.now) self.now.sought result }
        ensures only { (j : ℕ) → IsLatest (timeline self.now.paths.now).moments (IsSought (timeline self.now.paths.now) (M.writes self.now.rows.now) self.now.sought) j → j ≤ top → result ≡ j }
    {
        let mut best = top;
        let mut least = 0;
        while least <= top {
            let Some(i) = close_from(self.paths, best, least) else {
                return best;
            };
            least = i + 1;
            if self.paths.is_later(i, best) && self.is_sought(i) {
                best = i;
            }
        }
        best
    }

    /// Whether one of these rows, other than this one, doesn't lie wholly before it: none up to a
    /// number, or some.
    fn has_rival(&self, best: u32, top: u32) -> bool
        requires best { IsSome ((timeline self.now.paths.now).legs.row best) }
        requires ready { CanAsk (timeline self.now.paths.now) (M.ready self.now.rows.now) self.now.sought }
        ensures some { result ≡ true → IsLatest (timeline self.now.paths.now).moments (IsSought (timeline self.now.paths.now) (M.writes self.now.rows.now) self.now.sought) best → ⊥ }
        ensures none { result ≡ false → (k : ℕ) → k ≤ top → IsSought (timeline self.now.paths.now) (M.writes self.now.rows.now) self.now.sought k → k ≢ best → IsEarlierRow (timeline self.now.paths.now).moments k best }
    {
        let mut least = 0;
        while least <= top {
            let Some(i) = close_from(self.paths, best, least) else {
                return false;
            };
            if i != best && self.is_sought(i) {
                return true;
            }
            least = i + 1;
        }
        false
    }

    /// Whether this one lies wholly after all others, of which none is past a number, and after
    /// writers that aren't told.
    fn is_latest(&self, best: u32, top: u32) -> bool
        requires best { IsSought (timeline self.now.paths.now) (M.writes self.now.rows.now) self.now.sought best }
        requires top { (k : ℕ) → top < k → IsSought (timeline self.now.paths.now) (M.writes self.now.rows.now) self.now.sought k → ⊥ }
        requires ready { CanAsk (timeline self.now.paths.now) (M.ready self.now.rows.now) self.now.sought }
        ensures { (result ≡ true) ↔ IsLatest (timeline self.now.paths.now).moments (IsSought (timeline self.now.paths.now) (M.writes self.now.rows.now) self.now.sought) best }
    {
        !self.has_rival(best, top) && is_clear(self.paths, best)
    }

    /// What is said of the row that last wrote, where each of these rows may have written and no
    /// other did.
    pub fn writer(&self) -> Writer
        requires ready { CanAsk (timeline self.now.paths.now) (M.ready self.now.rows.now) self.now.sought }
        requires none { IsNoneFrom (IsSought (timeline self.now.paths.now) (M.writes self.now.rows.now) self.now.sought) self.now.sought.end }
        ensures { IsPossibleWriter (timeline self.now.paths.now).moments (IsSought (timeline self.now.paths.now) (M.writes self.now.rows.now) self.now.sought) result }
    {
        let Some(top) = self.greatest() else {
            return if self.paths.is_untraced() {
                Writer::Several
            } else {
                Writer::None
            };
        };
        let best = self.newest(top);
        if self.is_latest(best, top) {
            Writer::MayWrite(best)
        } else {
            Writer::Several
        }
    }
}
