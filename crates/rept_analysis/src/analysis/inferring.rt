//! What a row lets one conclude.
#![tactic(auto, using(rept_timeline::specs::Paths::lawful))]

ghost use Rattle.rept_timeline.specs.Paths.{timeline};
ghost use Rattle.std.specs.Prelude.{◌≡◌, ◌≤◌, false, IfOk, IfErr, ⊤, ◌≢◌, ◌+◌, ◌<◌, ◌↔◌, length, true, IsTrue, Some, None, Ok, Err, slice_get};
ghost use Rattle.rept_facts.specs.State.{state_of};
ghost use Rattle.rept_facts.specs.Inferring.{IsTracked, Grows, HasInferred, IsHalt, AreWritings, KeptBelow, IsKeptAt, AreTrackedFrom, IsConclusion, AreConclusions, InferredBelow, IsRowClosed, IsRowInferred, KnowsInferred, InferredKnown, IsRowTracked, IsUncut, IsRowAddress, AreRowAddresses};
ghost use Rattle.rept_isa.specs.declared.row.StepRow.{StepRow};
ghost use Rattle.rept_isa.specs.Operands.{written_by};
ghost use Rattle.rept_reason.specs.declared.fact.Cell.{Cell};
ghost use Rattle.rept_reason.specs.declared.fact.Cell.TheVariants.{Register, Byte};
ghost use Rattle.rept_reason.specs.declared.view.inferred.Conclusion.{Conclusion};
ghost use Rattle.rept_log.specs.Around.{around};
ghost use Rattle.rept_writing.specs.declared.passes.pass.Pass.{Pass};
ghost use Rattle.rept_facts.specs.Cells.{cells_known};
ghost use Rattle.rept_log.specs.Known.{known_of};

use super::Analysis;
use rept_facts::{LearnError, address, is_store};
use rept_isa::{Instr, Reg, StepRow, reads, writes};
use rept_log::views::point_at;
use rept_propagate::WORD;
use rept_reason::{Cell, Conclusion, RowRules, When};
use rept_span::Transfer;
use rept_versions::ByteFacts;
use rept_writing::{Pass, is_with};

/// Whether the instruction leaves the register as it is.
fn keeps(instr: &Instr, r: Reg) -> bool
    ensures { IsTrue result ↔ (written_by instr.now ≢ Some r) }
{
    writes(instr) != Some(r)
}

/// 1 where there is a register.
fn one_if(r: Option<Reg>) -> u32
    ensures { result ≤ 1 }
{
    match r {
        Some(_) => 1,
        None => 0,
    }
}

/// On which side of a row its bytes are carried: after it where it stores or is an atomic
/// instruction, and else before it.
fn side(instr: &Instr) -> When {
    if is_store(instr) {
        When::After
    } else {
        When::Before
    }
}

impl<'a, B: ByteFacts, W: Transfer, R: RowRules> Analysis<'a, B, W, R> {
    /// The byte of the dump at a tracked address, over the last rows that may not write it; nothing
    /// in the first round.
    fn infer_dump(&mut self, a: u32) -> Result<bool, LearnError>
        requires tracked { IsTracked a (state_of W.sets W.moves R.rules B.store self.old.propagation.facts) }
        requires writings { AreWritings (state_of W.sets W.moves R.rules B.store self.old.propagation.facts) }
        requires open { self.old.propagation.facts.complete ≡ false }
        ensures grows { Grows (state_of W.sets W.moves R.rules B.store self.old.propagation.facts) (state_of W.sets W.moves R.rules B.store self.new.propagation.facts) }
        ensures inferred { IfOk result (λ learnt. HasInferred (state_of W.sets W.moves R.rules B.store self.old.propagation.facts) (state_of W.sets W.moves R.rules B.store self.new.propagation.facts) learnt (λ _. ⊤)) }
        ensures halt { IfErr result (λ h. IsHalt (state_of W.sets W.moves R.rules B.store self.new.propagation.facts) h) }
    {
        if self.propagation.facts.is_first_round() {
            return Ok(false);
        }
        let point = self.propagation.facts.end();
        let told = self.infer_last_byte(a)?;
        let carried = self.propagation.carry_around(a, point)?;
        if !carried {
            return Ok(told);
        }
        let away = self.propagation.carry_away(a, point)?;
        Ok(told | carried | away)
    }

    /// The value of a register that row i keeps, onward and back.
    fn carry(&mut self, i: u32, row: &StepRow, r: Reg) -> Result<bool, LearnError>
        requires inside { i < (timeline self.old.propagation.facts.paths).legs.count }
        requires row { (timeline self.old.propagation.facts.paths).legs.row i ≡ Some row.now }
        requires open { self.old.propagation.facts.complete ≡ false }
        ensures grows { Grows (state_of W.sets W.moves R.rules B.store self.old.propagation.facts) (state_of W.sets W.moves R.rules B.store self.new.propagation.facts) }
        ensures inferred { IfOk result (λ learnt. HasInferred (state_of W.sets W.moves R.rules B.store self.old.propagation.facts) (state_of W.sets W.moves R.rules B.store self.new.propagation.facts) learnt (λ s. 0 < r → written_by row.now.instr ≢ Some r → IsKeptAt i r s)) }
        ensures halt { IfErr result (λ h. IsHalt (state_of W.sets W.moves R.rules B.store self.new.propagation.facts) h) }
    {
        if !keeps(&row.instr, r) {
            return Ok(false);
        }
        // for the proof alone
        let _count = self.propagation.facts.count();
        let before = self.propagation.facts.known(i, r);
        let onward = self.propagation.facts.learn_if(i + 1, r, before)?;
        let after = self.propagation.facts.known(i + 1, r);
        let back = self.propagation.facts.learn_if(i, r, after)?;
        Ok(onward | back)
    }

    /// The values of all registers that row i keeps.
    fn carry_all(&mut self, i: u32, row: &StepRow) -> Result<bool, LearnError>
        requires inside { i < (timeline self.old.propagation.facts.paths).legs.count }
        requires row { (timeline self.old.propagation.facts.paths).legs.row i ≡ Some row.now }
        requires open { self.old.propagation.facts.complete ≡ false }
        ensures grows { Grows (state_of W.sets W.moves R.rules B.store self.old.propagation.facts) (state_of W.sets W.moves R.rules B.store self.new.propagation.facts) }
        ensures inferred { IfOk result (λ learnt. HasInferred (state_of W.sets W.moves R.rules B.store self.old.propagation.facts) (state_of W.sets W.moves R.rules B.store self.new.propagation.facts) learnt (KeptBelow 32 row.now i)) }
        ensures halt { IfErr result (λ h. IsHalt (state_of W.sets W.moves R.rules B.store self.new.propagation.facts) h) }
    {
        let mut learnt = false;
        let mut least = 1;
        while least < 32 {
            let Some(r) = self.propagation.facts.next_differing(i, least) else {
                return Ok(learnt);
            };
            let new = self.carry(i, row, r)?;
            learnt = learnt | new;
            least = r.number() + 1;
        }
        Ok(learnt)
    }

    /// Tracks an address. Where it wasn't tracked, its byte of the dump is learnt and carried at
    /// once.
    fn track_one(&mut self, a: u32) -> Result<bool, LearnError>
        requires row { IsRowAddress a (state_of W.sets W.moves R.rules B.store self.old.propagation.facts) }
        requires writings { AreWritings (state_of W.sets W.moves R.rules B.store self.old.propagation.facts) }
        requires open { self.old.propagation.facts.complete ≡ false }
        ensures grows { Grows (state_of W.sets W.moves R.rules B.store self.old.propagation.facts) (state_of W.sets W.moves R.rules B.store self.new.propagation.facts) }
        ensures inferred { IfOk result (λ learnt. HasInferred (state_of W.sets W.moves R.rules B.store self.old.propagation.facts) (state_of W.sets W.moves R.rules B.store self.new.propagation.facts) learnt (IsTracked a)) }
        ensures halt { IfErr result (λ h. IsHalt (state_of W.sets W.moves R.rules B.store self.new.propagation.facts) h) }
        ensures tracked { IfOk result (λ _. IsTracked a (state_of W.sets W.moves R.rules B.store self.new.propagation.facts)) }
    {
        match self.propagation.facts.track(a) {
            Ok(true) => {
                let _told = self.infer_dump(a)?;
                Ok(true)
            }
            Ok(false) => Ok(false),
            Err(_) => Err(LearnError::OutOfMemory),
        }
    }

    /// Tracks so many addresses from one on.
    fn track_from(&mut self, start: u32, count: u32) -> Result<bool, LearnError>
        requires row { AreRowAddresses start count (state_of W.sets W.moves R.rules B.store self.old.propagation.facts) }
        requires writings { AreWritings (state_of W.sets W.moves R.rules B.store self.old.propagation.facts) }
        requires open { self.old.propagation.facts.complete ≡ false }
        ensures grows { Grows (state_of W.sets W.moves R.rules B.store self.old.propagation.facts) (state_of W.sets W.moves R.rules B.store self.new.propagation.facts) }
        ensures inferred { IfOk result (λ learnt. HasInferred (state_of W.sets W.moves R.rules B.store self.old.propagation.facts) (state_of W.sets W.moves R.rules B.store self.new.propagation.facts) learnt (AreTrackedFrom start count)) }
        ensures halt { IfErr result (λ h. IsHalt (state_of W.sets W.moves R.rules B.store self.new.propagation.facts) h) }
        ensures tracked { IfOk result (λ _. AreTrackedFrom start count (state_of W.sets W.moves R.rules B.store self.new.propagation.facts)) }
    {
        let mut learnt = false;
        for k in 0..count {
            let a = start.wrapping_add(k);
            let new = self.track_one(a)?;
            learnt = learnt | new;
        }
        Ok(learnt)
    }

    /// Tracks the bytes that row i's rules look at.
    fn track_row(&mut self, i: u32, row: &StepRow) -> Result<bool, LearnError>
        requires inside { i < (timeline self.old.propagation.facts.paths).legs.count }
        requires row { (timeline self.old.propagation.facts.paths).legs.row i ≡ Some row.now }
        requires writings { AreWritings (state_of W.sets W.moves R.rules B.store self.old.propagation.facts) }
        requires open { self.old.propagation.facts.complete ≡ false }
        ensures grows { Grows (state_of W.sets W.moves R.rules B.store self.old.propagation.facts) (state_of W.sets W.moves R.rules B.store self.new.propagation.facts) }
        ensures inferred { IfOk result (λ learnt. HasInferred (state_of W.sets W.moves R.rules B.store self.old.propagation.facts) (state_of W.sets W.moves R.rules B.store self.new.propagation.facts) learnt (IsRowTracked row.now i)) }
        ensures halt { IfErr result (λ h. IsHalt (state_of W.sets W.moves R.rules B.store self.new.propagation.facts) h) }
        ensures tracked { IfOk result (λ _. IsRowTracked row.now i (state_of W.sets W.moves R.rules B.store self.new.propagation.facts)) }
    {
        match self.propagation.facts.row_base(i, row) {
            None => Ok(false),
            Some(base) => {
                let count = R::places(row).min(4);
                let start = address(base, &row.instr);
                let learnt = self.track_from(start, count)?;
                Ok(learnt)
            }
        }
    }

    /// Adds a conclusion of row i.
    fn conclude(&mut self, i: u32, inferred: &Conclusion) -> Result<bool, LearnError>
        requires inside { i < (timeline self.old.propagation.facts.paths).legs.count }
        requires conclusion { IsConclusion i inferred.now (state_of W.sets W.moves R.rules B.store self.old.propagation.facts) }
        requires open { self.old.propagation.facts.complete ≡ false }
        ensures grows { Grows (state_of W.sets W.moves R.rules B.store self.old.propagation.facts) (state_of W.sets W.moves R.rules B.store self.new.propagation.facts) }
        ensures inferred { IfOk result (λ learnt. HasInferred (state_of W.sets W.moves R.rules B.store self.old.propagation.facts) (state_of W.sets W.moves R.rules B.store self.new.propagation.facts) learnt (KnowsInferred i inferred.now)) }
        ensures known { IfOk result (λ _. KnowsInferred i inferred.now (state_of W.sets W.moves R.rules B.store self.new.propagation.facts)) }
        ensures still { self.new.propagation.facts.work ≡ self.old.propagation.facts.work }
        ensures halt { IfErr result (λ h. IsHalt (state_of W.sets W.moves R.rules B.store self.new.propagation.facts) h) }
    {
        // for the proof alone
        let _count = self.propagation.facts.count();
        match &inferred.cell {
            Cell::Register(r) => {
                let point = point_at(i, inferred.when);
                let learnt = self.propagation.facts.learn(point, *r, inferred.value)?;
                Ok(learnt)
            }
            Cell::Byte(a) => {
                let moment = self.propagation.facts.moment_at(i, inferred.when);
                let learnt = self
                    .propagation
                    .learn_byte(moment, *a, inferred.value as u8, true)?;
                Ok(learnt)
            }
        }
    }

    /// Adds conclusions of row i.
    fn conclude_all(&mut self, i: u32, list: &[Conclusion]) -> Result<bool, LearnError>
        requires inside { i < (timeline self.old.propagation.facts.paths).legs.count }
        requires conclusions { AreConclusions i list.now (state_of W.sets W.moves R.rules B.store self.old.propagation.facts) }
        requires open { self.old.propagation.facts.complete ≡ false }
        ensures grows { Grows (state_of W.sets W.moves R.rules B.store self.old.propagation.facts) (state_of W.sets W.moves R.rules B.store self.new.propagation.facts) }
        ensures inferred { IfOk result (λ learnt. HasInferred (state_of W.sets W.moves R.rules B.store self.old.propagation.facts) (state_of W.sets W.moves R.rules B.store self.new.propagation.facts) learnt (InferredBelow (length list.now) list.now i)) }
        ensures known { IfOk result (λ _. InferredBelow (length list.now) list.now i (state_of W.sets W.moves R.rules B.store self.new.propagation.facts)) }
        ensures still { self.new.propagation.facts.work ≡ self.old.propagation.facts.work }
        ensures halt { IfErr result (λ h. IsHalt (state_of W.sets W.moves R.rules B.store self.new.propagation.facts) h) }
    {
        self.propagation.facts.held();
        let mut learnt = false;
        for inferred in list {
            let new = self.conclude(i, inferred)?;
            learnt = learnt | new;
        }
        Ok(learnt)
    }

    /// All that row i lets one infer, where more of its cells are known than when its rules were
    /// applied last.
    fn infer_inferred(&mut self, i: u32, row: &StepRow) -> Result<bool, LearnError>
        requires inside { i < (timeline self.old.propagation.facts.paths).legs.count }
        requires row { (timeline self.old.propagation.facts.paths).legs.row i ≡ Some row.now }
        requires tracked { IsRowTracked row.now i (state_of W.sets W.moves R.rules B.store self.old.propagation.facts) }
        requires open { self.old.propagation.facts.complete ≡ false }
        requires uncut { IsUncut (state_of W.sets W.moves R.rules B.store self.old.propagation.facts) }
        ensures grows { Grows (state_of W.sets W.moves R.rules B.store self.old.propagation.facts) (state_of W.sets W.moves R.rules B.store self.new.propagation.facts) }
        ensures inferred { IfOk result (λ learnt. HasInferred (state_of W.sets W.moves R.rules B.store self.old.propagation.facts) (state_of W.sets W.moves R.rules B.store self.new.propagation.facts) learnt (InferredKnown row.now i)) }
        ensures halt { IfErr result (λ h. IsHalt (state_of W.sets W.moves R.rules B.store self.new.propagation.facts) h) }
    {
        let cells = self.propagation.facts.cells(i, row);
        let pass = self.propagation.facts.pass(i);
        if is_with(pass, cells) {
            self.propagation.facts.held();
            return Ok(false);
        }
        self.infer_anew(i, row, cells)
    }

    /// All that it lets one infer, where so many of its cells are known, and more than then.
    fn infer_anew(&mut self, i: u32, row: &StepRow, cells: u32) -> Result<bool, LearnError>
        requires inside { i < (timeline self.old.propagation.facts.paths).legs.count }
        requires row { (timeline self.old.propagation.facts.paths).legs.row i ≡ Some row.now }
        requires tracked { IsRowTracked row.now i (state_of W.sets W.moves R.rules B.store self.old.propagation.facts) }
        requires open { self.old.propagation.facts.complete ≡ false }
        requires uncut { IsUncut (state_of W.sets W.moves R.rules B.store self.old.propagation.facts) }
        requires cells { cells ≡ cells_known R.rules row.now (around (timeline self.old.propagation.facts.paths).moments (known_of B.store self.old.propagation.facts.known) i) }
        requires few { cells ≤ 11 }
        requires more { slice_get self.old.propagation.facts.work.inferred i ≡ Some (Pass.With cells) → ⊥ }
        ensures grows { Grows (state_of W.sets W.moves R.rules B.store self.old.propagation.facts) (state_of W.sets W.moves R.rules B.store self.new.propagation.facts) }
        ensures inferred { IfOk result (λ learnt. HasInferred (state_of W.sets W.moves R.rules B.store self.old.propagation.facts) (state_of W.sets W.moves R.rules B.store self.new.propagation.facts) learnt (InferredKnown row.now i)) }
        ensures halt { IfErr result (λ h. IsHalt (state_of W.sets W.moves R.rules B.store self.new.propagation.facts) h) }
    {
        self.propagation.facts.held();
        let list = self.propagation.facts.list_inferred(i, row);
        self.propagation.facts.held();
        match self.conclude_all(i, list.as_slice()) {
            Ok(_) => {
                self.propagation.facts.keep_pass(i, Pass::With(cells));
                Ok(true)
            }
            Err(halt) => {
                self.propagation.facts.keep_pass(i, Pass::Cut);
                Err(halt)
            }
        }
    }

    /// The bytes that row i's rules look at, over the rows around it that may not write them.
    fn carry_row(&mut self, i: u32, row: &StepRow) -> Result<bool, LearnError>
        requires inside { i < (timeline self.old.propagation.facts.paths).legs.count }
        requires row { (timeline self.old.propagation.facts.paths).legs.row i ≡ Some row.now }
        requires writings { AreWritings (state_of W.sets W.moves R.rules B.store self.old.propagation.facts) }
        requires open { self.old.propagation.facts.complete ≡ false }
        ensures grows { Grows (state_of W.sets W.moves R.rules B.store self.old.propagation.facts) (state_of W.sets W.moves R.rules B.store self.new.propagation.facts) }
        ensures inferred { IfOk result (λ learnt. HasInferred (state_of W.sets W.moves R.rules B.store self.old.propagation.facts) (state_of W.sets W.moves R.rules B.store self.new.propagation.facts) learnt (λ _. ⊤)) }
        ensures halt { IfErr result (λ h. IsHalt (state_of W.sets W.moves R.rules B.store self.new.propagation.facts) h) }
    {
        match self.propagation.facts.row_base(i, row) {
            None => Ok(false),
            Some(base) => {
                let point = self.propagation.facts.moment_at(i, side(&row.instr));
                let start = address(base, &row.instr);
                self.propagation
                    .carry_bytes(point, start, R::places(row).min(WORD))
            }
        }
    }

    /// Whether the byte at an address, the first one of row i's, isn't known at its side of the
    /// row.
    fn lacks_first(&self, i: u32, row: &StepRow, a: u32) -> bool
        requires { (timeline self.now.propagation.facts.paths).legs.row i ≡ Some row.now }
    {
        let point = self.propagation.facts.moment_at(i, side(&row.instr));
        R::places(row) > 0 && self.propagation.facts.known_byte(point, a).is_none()
    }

    /// Whether row i's first byte isn't known, and may be carried to it: a row was put in the list
    /// anew since the last store of unknown address that was looked at.
    fn lacks_byte(&mut self, i: u32, row: &StepRow) -> bool
        requires inside { i < (timeline self.old.propagation.facts.paths).legs.count }
        requires row { (timeline self.old.propagation.facts.paths).legs.row i ≡ Some row.now }
        ensures { self.new.propagation.facts ≡ self.old.propagation.facts }
    {
        if !self.propagation.facts.is_freed() {
            return false;
        }
        match self.propagation.facts.row_base(i, row) {
            None => {
                if is_store(&row.instr) {
                    self.propagation.facts.note_store();
                }
                false
            }
            Some(base) => self.lacks_first(i, row, address(base, &row.instr)),
        }
    }

    /// The bytes that row i's rules look at, tracked and carried to it.
    fn fetch_bytes(&mut self, i: u32, row: &StepRow) -> Result<bool, LearnError>
        requires inside { i < (timeline self.old.propagation.facts.paths).legs.count }
        requires row { (timeline self.old.propagation.facts.paths).legs.row i ≡ Some row.now }
        requires writings { AreWritings (state_of W.sets W.moves R.rules B.store self.old.propagation.facts) }
        requires open { self.old.propagation.facts.complete ≡ false }
        ensures grows { Grows (state_of W.sets W.moves R.rules B.store self.old.propagation.facts) (state_of W.sets W.moves R.rules B.store self.new.propagation.facts) }
        ensures inferred { IfOk result (λ learnt. HasInferred (state_of W.sets W.moves R.rules B.store self.old.propagation.facts) (state_of W.sets W.moves R.rules B.store self.new.propagation.facts) learnt (λ _. ⊤)) }
        ensures halt { IfErr result (λ h. IsHalt (state_of W.sets W.moves R.rules B.store self.new.propagation.facts) h) }
    {
        let tracked = self.track_row(i, row)?;
        let carried = self.carry_row(i, row)?;
        Ok(tracked | carried)
    }

    /// Tracks the bytes that row i's rules look at, and carries them to it, where the first one
    /// isn't known: so its rules are applied with them.
    fn fetch(&mut self, i: u32, row: &StepRow) -> Result<bool, LearnError>
        requires inside { i < (timeline self.old.propagation.facts.paths).legs.count }
        requires row { (timeline self.old.propagation.facts.paths).legs.row i ≡ Some row.now }
        requires writings { AreWritings (state_of W.sets W.moves R.rules B.store self.old.propagation.facts) }
        requires open { self.old.propagation.facts.complete ≡ false }
        ensures grows { Grows (state_of W.sets W.moves R.rules B.store self.old.propagation.facts) (state_of W.sets W.moves R.rules B.store self.new.propagation.facts) }
        ensures inferred { IfOk result (λ learnt. HasInferred (state_of W.sets W.moves R.rules B.store self.old.propagation.facts) (state_of W.sets W.moves R.rules B.store self.new.propagation.facts) learnt (λ _. ⊤)) }
        ensures halt { IfErr result (λ h. IsHalt (state_of W.sets W.moves R.rules B.store self.new.propagation.facts) h) }
    {
        if !self.lacks_byte(i, row) {
            return Ok(false);
        }
        self.fetch_bytes(i, row)
    }

    /// All that row i lets one infer; where its rules were applied, the bytes that it may write are
    /// listed anew, and its bytes are carried at once.
    fn infer_around(&mut self, i: u32, row: &StepRow) -> Result<bool, LearnError>
        requires inside { i < (timeline self.old.propagation.facts.paths).legs.count }
        requires row { (timeline self.old.propagation.facts.paths).legs.row i ≡ Some row.now }
        requires tracked { IsRowTracked row.now i (state_of W.sets W.moves R.rules B.store self.old.propagation.facts) }
        requires writings { AreWritings (state_of W.sets W.moves R.rules B.store self.old.propagation.facts) }
        requires open { self.old.propagation.facts.complete ≡ false }
        requires uncut { IsUncut (state_of W.sets W.moves R.rules B.store self.old.propagation.facts) }
        ensures grows { Grows (state_of W.sets W.moves R.rules B.store self.old.propagation.facts) (state_of W.sets W.moves R.rules B.store self.new.propagation.facts) }
        ensures inferred { IfOk result (λ learnt. HasInferred (state_of W.sets W.moves R.rules B.store self.old.propagation.facts) (state_of W.sets W.moves R.rules B.store self.new.propagation.facts) learnt (InferredKnown row.now i)) }
        ensures halt { IfErr result (λ h. IsHalt (state_of W.sets W.moves R.rules B.store self.new.propagation.facts) h) }
    {
        let inferred = self.infer_inferred(i, row)?;
        if !inferred {
            return Ok(false);
        }
        self.propagation.facts.free(i, row);
        self.carry_row(i, row)?;
        Ok(true)
    }

    /// All that row i lets one conclude, if there is one.
    fn infer_row(&mut self, i: u32) -> Result<bool, LearnError>
        requires inside { i < (timeline self.old.propagation.facts.paths).legs.count }
        requires writings { AreWritings (state_of W.sets W.moves R.rules B.store self.old.propagation.facts) }
        requires open { self.old.propagation.facts.complete ≡ false }
        requires uncut { IsUncut (state_of W.sets W.moves R.rules B.store self.old.propagation.facts) }
        ensures grows { Grows (state_of W.sets W.moves R.rules B.store self.old.propagation.facts) (state_of W.sets W.moves R.rules B.store self.new.propagation.facts) }
        ensures inferred { IfOk result (λ learnt. HasInferred (state_of W.sets W.moves R.rules B.store self.old.propagation.facts) (state_of W.sets W.moves R.rules B.store self.new.propagation.facts) learnt (IsRowClosed i)) }
        ensures halt { IfErr result (λ h. IsHalt (state_of W.sets W.moves R.rules B.store self.new.propagation.facts) h) }
    {
        match self.propagation.facts.row(i) {
            None => Ok(false),
            Some(row) => self.infer_all(i, &row),
        }
    }

    /// All that this row lets one conclude.
    fn infer_all(&mut self, i: u32, row: &StepRow) -> Result<bool, LearnError>
        requires inside { i < (timeline self.old.propagation.facts.paths).legs.count }
        requires row { (timeline self.old.propagation.facts.paths).legs.row i ≡ Some row.now }
        requires writings { AreWritings (state_of W.sets W.moves R.rules B.store self.old.propagation.facts) }
        requires open { self.old.propagation.facts.complete ≡ false }
        requires uncut { IsUncut (state_of W.sets W.moves R.rules B.store self.old.propagation.facts) }
        ensures grows { Grows (state_of W.sets W.moves R.rules B.store self.old.propagation.facts) (state_of W.sets W.moves R.rules B.store self.new.propagation.facts) }
        ensures inferred { IfOk result (λ learnt. HasInferred (state_of W.sets W.moves R.rules B.store self.old.propagation.facts) (state_of W.sets W.moves R.rules B.store self.new.propagation.facts) learnt (IsRowInferred row.now i)) }
        ensures halt { IfErr result (λ h. IsHalt (state_of W.sets W.moves R.rules B.store self.new.propagation.facts) h) }
    {
        let registers = self.carry_all(i, row)?;
        let fetched = self.fetch(i, row)?;
        let tracked = self.track_row(i, row)?;
        let inferred = self.infer_around(i, row)?;
        Ok(registers | fetched | tracked | inferred)
    }

    /// Keeps that row i was looked at, since which the log may have grown, and how many times
    /// something had been learnt of bytes before.
    fn note_row(&mut self, i: u32, len: u32, time: u32)
        ensures { self.new.propagation.facts ≡ self.old.propagation.facts }
    {
        let has_news = self.propagation.facts.len() > len;
        if let Some(number) = self.number_of(i) {
            self.fresh.note(number, has_news, time);
        }
        if has_news {
            self.mark(i.wrapping_sub(1));
            self.mark(i.wrapping_add(1));
        }
    }

    /// Keeps that row i, if there is one, is to be looked at.
    fn mark(&mut self, i: u32)
        ensures { self.new.propagation.facts ≡ self.old.propagation.facts }
    {
        if let Some(number) = self.number_of(i) {
            self.fresh.mark(number);
        }
    }

    /// The number of the moment before row i, if there is one.
    pub(super) fn number_of(&self, i: u32) -> Option<u32> {
        match self.propagation.facts.row(i) {
            None => None,
            Some(_) => Some(self.propagation.facts.moment_at(i, When::Before)),
        }
    }

    /// All that row i lets one conclude, and that it was looked at.
    pub(super) fn infer_noted(&mut self, i: u32) -> Result<bool, LearnError>
        requires inside { i < (timeline self.old.propagation.facts.paths).legs.count }
        requires writings { AreWritings (state_of W.sets W.moves R.rules B.store self.old.propagation.facts) }
        requires open { self.old.propagation.facts.complete ≡ false }
        requires uncut { IsUncut (state_of W.sets W.moves R.rules B.store self.old.propagation.facts) }
        ensures grows { Grows (state_of W.sets W.moves R.rules B.store self.old.propagation.facts) (state_of W.sets W.moves R.rules B.store self.new.propagation.facts) }
        ensures inferred { IfOk result (λ learnt. HasInferred (state_of W.sets W.moves R.rules B.store self.old.propagation.facts) (state_of W.sets W.moves R.rules B.store self.new.propagation.facts) learnt (IsRowClosed i)) }
        ensures halt { IfErr result (λ h. IsHalt (state_of W.sets W.moves R.rules B.store self.new.propagation.facts) h) }
    {
        let len = self.propagation.facts.len();
        let time = self.propagation.recent.now();
        let learnt = self.infer_row(i)?;
        self.note_row(i, len, time);
        Ok(learnt)
    }

    /// Whether something may have been learnt, since the row before a moment was looked at, of the
    /// bytes that its rules look at: it is sure only where it is kept which these are.
    fn may_be_recent(&self, number: u32) -> bool {
        match self.fresh.start(number) {
            None => true,
            Some(start) => self
                .propagation
                .recent
                .has_any_since(start, WORD, self.fresh.time(number)),
        }
    }

    /// Whether something was learnt of one of the bytes that row i's rules look at since it was
    /// looked at; a number is that of the moment before it.
    fn has_recent(&mut self, number: u32, i: u32, row: &StepRow) -> bool
        requires { i < (timeline self.old.propagation.facts.paths).legs.count }
        ensures { self.new.propagation.facts ≡ self.old.propagation.facts }
    {
        let Some(base) = self.propagation.facts.row_base(i, row) else {
            return false;
        };
        let start = address(base, &row.instr);
        self.fresh.note_start(number, start);
        self.propagation
            .recent
            .has_any_since(start, R::places(row).min(4), self.fresh.time(number))
    }

    /// Whether row i looks at bytes of which not all are known, and of which something was learnt
    /// lately, along other rows.
    fn may_tell(&mut self, number: u32, i: u32, row: &StepRow) -> bool
        requires { i < (timeline self.old.propagation.facts.paths).legs.count }
        ensures { self.new.propagation.facts ≡ self.old.propagation.facts }
    {
        let places = R::places(row).min(4);
        let (first, second) = reads(&row.instr);
        let operands = one_if(first) + one_if(second) + one_if(writes(&row.instr));
        if places == 0 || is_with(self.propagation.facts.pass(i), operands + 2 * places) {
            self.fresh.note_plain(number);
            return false;
        }
        self.has_recent(number, i, row)
    }

    /// All that row i lets one infer with bytes of which something was learnt lately, and that it
    /// was looked at. What its registers keep was carried before.
    fn infer_bytes(&mut self, i: u32, row: &StepRow) -> Result<bool, LearnError>
        requires inside { i < (timeline self.old.propagation.facts.paths).legs.count }
        requires row { (timeline self.old.propagation.facts.paths).legs.row i ≡ Some row.now }
        requires writings { AreWritings (state_of W.sets W.moves R.rules B.store self.old.propagation.facts) }
        requires open { self.old.propagation.facts.complete ≡ false }
        requires uncut { IsUncut (state_of W.sets W.moves R.rules B.store self.old.propagation.facts) }
        ensures grows { Grows (state_of W.sets W.moves R.rules B.store self.old.propagation.facts) (state_of W.sets W.moves R.rules B.store self.new.propagation.facts) }
        ensures inferred { IfOk result (λ learnt. HasInferred (state_of W.sets W.moves R.rules B.store self.old.propagation.facts) (state_of W.sets W.moves R.rules B.store self.new.propagation.facts) learnt (λ _. ⊤)) }
        ensures halt { IfErr result (λ h. IsHalt (state_of W.sets W.moves R.rules B.store self.new.propagation.facts) h) }
    {
        let len = self.propagation.facts.len();
        let time = self.propagation.recent.now();
        let fetched = self.fetch(i, row)?;
        let tracked = self.track_row(i, row)?;
        let inferred = self.infer_around(i, row)?;
        self.note_row(i, len, time);
        Ok(fetched | tracked | inferred)
    }

    /// All that row i lets one conclude, where it may tell something new: something was learnt
    /// beside it since it was looked at, or of bytes that it looks at.
    pub(super) fn infer_fresh(&mut self, number: u32, i: u32) -> Result<bool, LearnError>
        requires inside { i < (timeline self.old.propagation.facts.paths).legs.count }
        requires writings { AreWritings (state_of W.sets W.moves R.rules B.store self.old.propagation.facts) }
        requires open { self.old.propagation.facts.complete ≡ false }
        requires uncut { IsUncut (state_of W.sets W.moves R.rules B.store self.old.propagation.facts) }
        ensures grows { Grows (state_of W.sets W.moves R.rules B.store self.old.propagation.facts) (state_of W.sets W.moves R.rules B.store self.new.propagation.facts) }
        ensures inferred { IfOk result (λ learnt. HasInferred (state_of W.sets W.moves R.rules B.store self.old.propagation.facts) (state_of W.sets W.moves R.rules B.store self.new.propagation.facts) learnt (λ _. ⊤)) }
        ensures halt { IfErr result (λ h. IsHalt (state_of W.sets W.moves R.rules B.store self.new.propagation.facts) h) }
    {
        if self.fresh.has(number) {
            return self.infer_noted(i);
        }
        if self.fresh.is_plain(number) || !self.may_be_recent(number) {
            return Ok(false);
        }
        let Some(row) = self.propagation.facts.row(i) else {
            return Ok(false);
        };
        if !self.may_tell(number, i, &row) {
            return Ok(false);
        }
        self.infer_bytes(i, &row)
    }
}
