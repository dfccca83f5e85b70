//! Which rows write which bytes, by the facts of which the sets are.

ghost use Rattle.rept_timeline.specs.Paths.{timeline};
ghost use Rattle.std.specs.Prelude.{◌<◌};

use super::CrashFacts;
use crate::moment::RegisterView;
use rept_reason::RowRules;
use rept_report::RowWrites;
use rept_span::Transfer;
use rept_versions::ByteFacts;

impl<'a, B: ByteFacts, W: Transfer, R: RowRules> RowWrites for CrashFacts<'a, B, W, R> {
    ghost use Rattle.rept_timeline.specs.Paths.{timeline};
    ghost use Rattle.rept_reason.specs.Facts.{told};
    ghost use Rattle.rept_report.specs.Log.{oldest};
    ghost use Rattle.rept_facts.specs.State.{setting_of, state_of};
    ghost use Rattle.rept_facts.specs.Inferring.{IsFitted};
    ghost use Rattle.rept_facts.specs.Latest.{writes_by};

    ghost writes = { λ a. writes_by (setting_of W.sets W.moves R.rules a) (told (oldest a.filled a.known.log)) };

    ghost ready = { λ a i. (i < (timeline a.paths).legs.count) × IsFitted (state_of W.sets W.moves R.rules B.store a) };

    fn may_write(&self, row: u32, a: u32) -> bool {
        match self.row(row) {
            None => false,
            Some(found) => {
                let access = self.access(row, &found);
                access.may_hit(a)
            }
        }
    }

    fn is_sure(&self, row: u32) -> bool {
        match self.row(row) {
            None => false,
            Some(found) => {
                // for the proof alone
                let _len = self.known.len();
                let view = RegisterView {
                    facts: &self.known,
                    spans: &self.spans,
                    limit: self.filled,
                    row,
                };
                R::sure(&found, &view)
            }
        }
    }
}
