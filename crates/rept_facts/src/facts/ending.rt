//! How learning ends.

ghost use Rattle.std.specs.Prelude.{◌≡◌, ◌<◌, ◌+◌, ◌≤◌, length, true, false, Some, None};
ghost use Rattle.rept_report.specs.declared.conflict.ConflictKind.{ConflictKind};
ghost use Rattle.rept_facts.specs.State.{setting_of, state_of};
ghost use Rattle.rept_facts.specs.Inferring.{IsSettled};
ghost use Rattle.rept_facts.specs.Refined.{IsEnded, QuietBelow, ShowsTo, IsStopped, IsPaused};
ghost use Rattle.rept_report.specs.Closure.{ClosureHas};

use super::CrashFacts;
use rept_reason::RowRules;
use rept_report::ConflictKind;
use rept_span::Transfer;
use rept_versions::ByteFacts;

impl<'a, B: ByteFacts, W: Transfer, R: RowRules> CrashFacts<'a, B, W, R> {
    /// All facts are answered from now on.
    pub fn finish(&mut self)
        requires settled { IsSettled (state_of W.sets W.moves R.rules B.store self.old) }
        requires open { self.old.conflict ≡ None }
        ensures ended { IsEnded (state_of W.sets W.moves R.rules B.store self.old) (state_of W.sets W.moves R.rules B.store self.new) }
        ensures still { self.new.work.infers ≡ self.old.work.infers }
        ensures log { self.new.known.log ≡ self.old.known.log }
    {
        self.held();
        let len = self.known.len();
        self.shown = len;
        self.complete = true;
    }

    /// Keeps a conflict, and answers the facts at places below the limit alone from now on, which
    /// show it.
    pub fn stop_at(&mut self, limit: u32, kind: ConflictKind)
        requires open { self.old.complete ≡ false }
        requires within { limit ≤ length self.old.known.log }
        requires later { self.old.shown ≤ limit }
        requires shows { ShowsTo (state_of W.sets W.moves R.rules B.store self.old) limit kind }
        requires kind { ClosureHas (setting_of W.sets W.moves R.rules self.old) kind }
        ensures ended { IsStopped (state_of W.sets W.moves R.rules B.store self.old) (state_of W.sets W.moves R.rules B.store self.new) kind }
        ensures still { self.new.work.infers ≡ self.old.work.infers }
        ensures log { self.new.known.log ≡ self.old.known.log }
        ensures limit { self.new.shown ≡ limit }
    {
        self.shown = limit;
        self.conflict = Some(kind);
    }

    /// Answers all facts from now on, of which there are so many.
    pub fn show(&mut self, limit: u32)
        requires open { self.old.complete ≡ false }
        requires whole { limit ≡ length self.old.known.log }
        requires later { self.old.shown ≤ limit }
        requires quiet { QuietBelow (state_of W.sets W.moves R.rules B.store self.old) limit }
        ensures ended { IsPaused (state_of W.sets W.moves R.rules B.store self.old) (state_of W.sets W.moves R.rules B.store self.new) }
        ensures still { self.new.work.infers ≡ self.old.work.infers }
        ensures log { self.new.known.log ≡ self.old.known.log }
    {
        self.shown = limit;
    }
}
