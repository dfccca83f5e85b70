//! What the facts at places below a limit show: sets that are empty, and wrong turns.

ghost use Rattle.rept_timeline.specs.Paths.{timeline};
ghost use Rattle.std.specs.Prelude.{◌≡◌, ◌+◌, ◌<◌, ◌≤◌, ◌^◌, ℕ, length, true, false, IfErr, OnOk, Some, None, Ok, Err};
ghost use Rattle.rept_dump.specs.Program.{contents};
ghost use Rattle.rept_isa.specs.declared.row.StepRow.{StepRow};
ghost use Rattle.rept_reason.specs.Facts.{told, operand};
ghost use Rattle.rept_span.specs.Ranges.{IsEmptyFirst};
ghost use Rattle.rept_span.specs.Filled.{AllReadBelow, IsFilled, NoneIsEmpty};
ghost use Rattle.rept_report.specs.Setting.{way_of};
ghost use Rattle.rept_report.specs.Conflicts.{IsQuiet, IsWrongTurn, Shows};
ghost use Rattle.rept_report.specs.declared.conflict.ConflictKind.{ConflictKind};
ghost use Rattle.rept_report.specs.Log.{oldest};
ghost use Rattle.rept_alias.specs.Accesses.{call_hits};
ghost use Rattle.rept_facts.specs.Moments.{moment};
ghost use Rattle.rept_facts.specs.State.{setting_of, state_of};
ghost use Rattle.rept_facts.specs.Inferring.{IsFitted, SameFacts, IsAccess, IsSparedNow};

use super::CrashFacts;
use crate::moment::RegisterView;
use crate::trail::PathTrail;
use crate::turns::is_wrong_turn;
use rept_alias::CallAccess;
use rept_isa::{Reg, StepRow, reads};
use rept_log::Below;
use rept_partial::Flat;
use rept_reason::RowRules;
use rept_report::ConflictKind;
use rept_span::{EmptyAt, Transfer};
use rept_versions::ByteFacts;

impl<'a, B: ByteFacts, W: Transfer, R: RowRules> CrashFacts<'a, B, W, R> {
    /// The bytes that row i may write, by the facts at places below the limit and the sets as they
    /// were filled.
    fn access_below(&self, limit: u32, i: u32, row: &StepRow) -> CallAccess
        requires { i < (timeline self.now.paths).legs.count }
        ensures { (a : ℕ) → a < 2 ^ 32 → call_hits result a ≡ R.rules.touched row.now (moment W.sets (oldest limit self.now.known.log) self.now.spans i) (contents self.now.exe).end a }
    {
        // for the proof alone
        let _len = self.known.len();
        let image_end = self.dump.image_end();
        let view = RegisterView {
            facts: &self.known,
            spans: &self.spans,
            limit,
            row: i,
        };
        R::touched(row, &view, image_end)
    }

    /// The bytes that row i may write, by the facts of which the sets are.
    pub(super) fn access(&self, i: u32, row: &StepRow) -> CallAccess
        requires inside { i < (timeline self.now.paths).legs.count }
        requires row { (timeline self.now.paths).legs.row i ≡ Some row.now }
        requires fitted { IsFitted (state_of W.sets W.moves R.rules B.store self.now) }
        ensures { IsAccess i result (state_of W.sets W.moves R.rules B.store self.now) }
    {
        self.access_below(self.filled, i, row)
    }

    /// The bytes that row i may write, by all facts that are known by now and the sets as they were
    /// filled.
    pub(super) fn access_now(&self, i: u32, row: &StepRow) -> CallAccess
        requires inside { i < (timeline self.now.paths).legs.count }
        requires row { (timeline self.now.paths).legs.row i ≡ Some row.now }
        requires fitted { IsFitted (state_of W.sets W.moves R.rules B.store self.now) }
        ensures { (a : ℕ) → a < 2 ^ 32 → call_hits result a ≡ false → IsSparedNow i a (state_of W.sets W.moves R.rules B.store self.now) }
    {
        self.held();
        let access = self.access_below(self.len(), i, row);
        access
    }

    /// What is known of the register in an operand's place by the facts at places below the limit.
    fn operand_below(&self, limit: u32, point: u32, r: Option<Reg>) -> Flat
        requires point { point ≤ (timeline self.now.paths).legs.count }
        ensures { result ≡ operand (told (oldest limit self.now.known.log)) point r }
    {
        // for the proof alone
        let _paths = self.paths;
        match r {
            None => Flat::Unknown,
            Some(r) => self.known.known_below(limit, point, r),
        }
    }

    /// Whether row i, if there is one, went another way than the facts at places below the limit
    /// say.
    pub(super) fn is_wrong(&self, limit: u32, i: u32) -> bool
        requires inside { i < (timeline self.now.paths).legs.count }
        ensures wrong { result ≡ true → IsWrongTurn (setting_of W.sets W.moves R.rules self.now) (told (oldest limit self.now.known.log)) i }
        ensures right { result ≡ false → IsWrongTurn (setting_of W.sets W.moves R.rules self.now) (told (oldest limit self.now.known.log)) i → ⊥ }
    {
        match self.row(i) {
            None => false,
            Some(row) => {
                let (first, second) = reads(&row.instr);
                let a = self.operand_below(limit, i, first);
                let b = self.operand_below(limit, i, second);
                is_wrong_turn(&row, a, b)
            }
        }
    }

    /// The first row that went another way than the facts at places below the limit say.
    fn wrong_turn(&self, limit: u32) -> Option<ConflictKind>
        ensures none { result ≡ None → (i : ℕ) → IsWrongTurn (setting_of W.sets W.moves R.rules self.now) (told (oldest limit self.now.known.log)) i → ⊥ }
        ensures some { (kind : ConflictKind) → result ≡ Some kind → Shows (setting_of W.sets W.moves R.rules self.now) (told (oldest limit self.now.known.log)) kind }
    {
        let count = self.count();
        for step in 0..count {
            let wrong = self.is_wrong(limit, step);
            if wrong {
                return Some(ConflictKind::WrongTurn { step });
            }
        }
        None
    }

    /// All sets, from the facts at places below the limit.
    fn fill(&mut self, limit: u32) -> Result<(), EmptyAt>
        requires open { self.old.complete ≡ false }
        requires within { limit ≤ length self.old.known.log }
        ensures same { SameFacts (state_of W.sets W.moves R.rules B.store self.old) (state_of W.sets W.moves R.rules B.store self.new) }
        ensures limit { self.new.filled ≡ limit }
        ensures filled { OnOk result (IsFilled (way_of (setting_of W.sets W.moves R.rules self.old)) self.new.spans (told (oldest limit self.old.known.log))) }
        ensures some { OnOk result (NoneIsEmpty (way_of (setting_of W.sets W.moves R.rules self.old)) (told (oldest limit self.old.known.log))) }
        ensures empty { IfErr result (λ e. IsEmptyFirst (way_of (setting_of W.sets W.moves R.rules self.old)) (told (oldest limit self.old.known.log)) e.point e.reg) }
        ensures reads { OnOk result (AllReadBelow (timeline self.old.paths).legs ((timeline self.old.paths).legs.count + 1)) }
    {
        let trail = PathTrail { paths: self.paths };
        let view = Below {
            facts: &self.known,
            limit,
        };
        let filled = self.spans.fill_along(&trail, &view);
        self.filled = limit;
        filled
    }

    /// The sets and turns by the facts at places below the limit: a conflict that these show, if
    /// there is one.
    pub fn look(&mut self, limit: u32) -> Option<ConflictKind>
        requires open { self.old.complete ≡ false }
        requires within { limit ≤ length self.old.known.log }
        ensures same { SameFacts (state_of W.sets W.moves R.rules B.store self.old) (state_of W.sets W.moves R.rules B.store self.new) }
        ensures limit { self.new.filled ≡ limit }
        ensures fitted { result ≡ None → IsFitted (state_of W.sets W.moves R.rules B.store self.new) }
        ensures quiet { result ≡ None → IsQuiet (setting_of W.sets W.moves R.rules self.old) (told (oldest limit self.old.known.log)) }
        ensures conflict { (kind : ConflictKind) → result ≡ Some kind → Shows (setting_of W.sets W.moves R.rules self.old) (told (oldest limit self.old.known.log)) kind }
        ensures reads { result ≡ None → AllReadBelow (timeline self.old.paths).legs ((timeline self.old.paths).legs.count + 1) }
    {
        match self.fill(limit) {
            Err(empty) => {
                let point = empty.point;
                let reg = empty.reg;
                Some(ConflictKind::EmptyRange { point, reg })
            }
            Ok(()) => self.wrong_turn(limit),
        }
    }

    /// Whether the facts at places below the limit leave no set empty and no turn wrong. The sets
    /// are then theirs.
    pub fn is_quiet(&mut self, limit: u32) -> bool
        requires open { self.old.complete ≡ false }
        requires within { limit ≤ length self.old.known.log }
        ensures same { SameFacts (state_of W.sets W.moves R.rules B.store self.old) (state_of W.sets W.moves R.rules B.store self.new) }
        ensures limit { self.new.filled ≡ limit }
        ensures fitted { result ≡ true → IsFitted (state_of W.sets W.moves R.rules B.store self.new) }
        ensures quiet { result ≡ true → IsQuiet (setting_of W.sets W.moves R.rules self.old) (told (oldest limit self.old.known.log)) }
        ensures loud { result ≡ false → IsQuiet (setting_of W.sets W.moves R.rules self.old) (told (oldest limit self.old.known.log)) → ⊥ }
        ensures reads { result ≡ true → AllReadBelow (timeline self.old.paths).legs ((timeline self.old.paths).legs.count + 1) }
    {
        match self.look(limit) {
            None => true,
            Some(_) => false,
        }
    }
}
