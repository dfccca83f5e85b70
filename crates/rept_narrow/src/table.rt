//! The sets of values of registers along one path.

ghost use Rattle.std.specs.Prelude.{◌≡◌, ◌+◌, ◌*◌, ◌<◌, ◌≤◌, ◌/◌, ◌%◌, ◌^◌, ℕ, length, OnOk, OnErr, IfOk, Some, slice_get};
ghost use Rattle.rept_machine.specs.State.{State};
ghost use Rattle.rept_narrow.specs.Admitted.{Story};
ghost use Rattle.rept_narrow.specs.Rules.{set_at, HasSets, KeepsSets, IsSoundIn};

use crate::due::DueRows;
use crate::known::KnownPath;
use crate::rule::{KeptRules, NarrowRule};
use rept_isa::{Reg, register};
use rept_known::Both;
use rept_partial::Partial;
use std::alloc::{AllocError as OutOfMemory, Global};
use std::marker::Model;

/// No value is left for the register at this point: no admitted execution has what was told.
#[derive(Clone, Copy, Debug)]
pub struct Empty {
    /// the point, from 0 before the first row to the number of rows after the last one
    pub point: u32,
    /// the register
    pub reg: Reg,
}

/// A set of values for each of the 32 registers at each point.
#[derive(Drop)]
struct SetGrid {
    points: u32,
    items: Vec<Both>,
}

impl Model for SetGrid {
    ghost use Rattle.std.specs.Prelude.{◌≡◌, ◌*◌, length};
    ghost use Rattle.rept_known.specs.declared.both.Both.{Both};
    ghost use Rattle.rept_span.specs.Filled.{View};

    ghost Value = { View Both };

    ghost view = { λ t. record { points = t.points; items = t.items.items } };

    ghost invariant = { λ t. length t.items.items ≡ t.points * 32 };
}

/// A set of values for each of the 32 registers at each point, by which rule it was narrowed last,
/// and of which registers rows may tell something new.
#[derive(Drop)]
pub struct Table {
    grid: SetGrid,
    rules: KeptRules,
    due: DueRows,
}

impl Model for Table {
    ghost use Rattle.rept_known.specs.declared.both.Both.{Both};
    ghost use Rattle.rept_span.specs.Filled.{View};

    ghost Value = { View Both };

    ghost view = { λ t. t.grid };
}

/// Where the set of a register at a point stands.
fn place(point: u32, r: Reg) -> usize
    ensures place { result ≡ point * 32 + r }
    ensures in_file { r < 32 }
{
    point as usize * 32 + usize::from(r.number())
}

/// The sets that are known, point by point, in the order of the registers.
fn known_sets<K: KnownPath>(
    alloc: Global,
    known: &K,
    count: usize,
) -> Result<Vec<Both>, OutOfMemory>
    requires small { count < 2 ^ 32 * 32 }
    ensures length { IfOk result (λ v. length v.items ≡ count) }
    ensures known { IfOk result (λ v. (k : ℕ) → k < count → slice_get v.items k ≡ Some (K.set known.now (k / 32) (k % 32))) }
{
    let mut v = Vec::with_capacity(alloc, count)?;
    for k in 0..count {
        v.push(known.set((k / 32) as u32, register((k % 32) as u8)))?;
    }
    Ok(v)
}

impl SetGrid {
    /// So many points with the sets that are known.
    fn of_known<K: KnownPath>(alloc: Global, known: &K, points: u32) -> Result<SetGrid, OutOfMemory>
        ensures points { IfOk result (λ t. t.points ≡ points) }
        ensures known { IfOk result (λ t. (p r : ℕ) → p < points → r < 32 → set_at t p r ≡ Some (K.set known.now p r)) }
    {
        let items = known_sets(alloc, known, points as usize * 32)?;
        Ok(SetGrid { points, items })
    }

    /// How many points there are.
    fn points(&self) -> u32
        ensures points { result ≡ self.now.points }
        ensures long { length self.now.items ≡ self.now.points * 32 }
    {
        self.points
    }

    /// The set of a register at a point.
    fn at(&self, point: u32, r: Reg) -> Both
        requires point { point < self.now.points }
        ensures value { set_at self.now point r ≡ Some result }
    {
        // for the proof alone
        let _points = &self.points;
        self.items[place(point, r)]
    }

    /// Writes the set of a register at a point.
    fn set(&mut self, point: u32, r: Reg, w: Both)
        requires point { point < self.old.points }
        ensures points { self.new.points ≡ self.old.points }
        ensures here { set_at self.new point r ≡ Some w }
        ensures others { (q s : ℕ) → ((q ≡ point) × (s ≡ r) → ⊥) → set_at self.new q s ≡ set_at self.old q s }
    {
        // for the proof alone
        let _points = &self.points;
        let place = place(point, r);
        self.items[place] = w;
    }
}

impl Table {
    /// A table of so many points with the sets that are known.
    pub fn of_known<K: KnownPath>(
        alloc: Global,
        known: &K,
        points: u32,
    ) -> Result<Table, OutOfMemory>
        ensures points { IfOk result (λ t. t.points ≡ points) }
        ensures known { IfOk result (λ t. (p r : ℕ) → p < points → r < 32 → set_at t p r ≡ Some (K.set known.now p r)) }
    {
        let rules = KeptRules::of(alloc, points as usize * 32)?;
        let due = DueRows::of(alloc, points as usize)?;
        let grid = SetGrid::of_known(alloc, known, points)?;
        Ok(Table { grid, rules, due })
    }

    /// From here on sets are narrowed by this rule.
    pub fn begin(&mut self, rule: NarrowRule)
        ensures { self.new ≡ self.old }
    {
        self.rules.begin(rule);
    }

    /// By which rule the set of a register at a point was narrowed last.
    pub fn rule(&self, point: u32, r: Reg) -> NarrowRule {
        self.rules.at(place(point, r))
    }

    /// How many points there are.
    pub fn points(&self) -> u32
        ensures points { result ≡ self.now.points }
        ensures long { length self.now.items ≡ self.now.points * 32 }
    {
        self.grid.points()
    }

    /// The set of a register at a point.
    pub fn at(&self, point: u32, r: Reg) -> Both
        requires point { point < self.now.points }
        ensures value { set_at self.now point r ≡ Some result }
    {
        self.grid.at(point, r)
    }

    /// Writes the set of a register at a point, and by which rule.
    fn set(&mut self, point: u32, r: Reg, w: Both)
        requires point { point < self.old.points }
        ensures points { self.new.points ≡ self.old.points }
        ensures here { set_at self.new point r ≡ Some w }
        ensures others { (q s : ℕ) → ((q ≡ point) × (s ≡ r) → ⊥) → set_at self.new q s ≡ set_at self.old q s }
    {
        self.rules.keep(place(point, r));
        self.due.touch(point, r);
        self.grid.set(point, r, w);
    }

    /// The registers whose sets before or after a row changed since its rules were tried, by bits.
    pub(crate) fn due(&self, row: u32) -> u32 {
        self.due.at(row)
    }

    /// Of the registers that are due at a row only these are from here on, by bits.
    pub(crate) fn keep_due(&mut self, row: u32, due: u32)
        ensures { self.new ≡ self.old }
    {
        self.due.keep(row, due);
    }

    /// Cuts the set of a register at a point to the values that another set has, too; answers
    /// whether it changed. The rule that found the other set shows that it is sound. What held
    /// after holds before: no set gets wider.
    pub fn narrow(&mut self, point: u32, r: Reg, set: Both) -> Result<bool, Empty>
        requires point { point < self.old.points }
        ensures points { self.new.points ≡ self.old.points }
        ensures narrower { (story : Story) → KeepsSets story self.new self.old }
        ensures keeps { OnOk result ((story : Story) (run : ℕ → State) → HasSets story self.old run → IsSoundIn story run point r set → HasSets story self.new run) }
        ensures refuses { OnErr result ((story : Story) (run : ℕ → State) → HasSets story self.old run → IsSoundIn story run point r set → point ≤ length story.rows → ⊥) }
    {
        let old = self.at(point, r);
        if old == set {
            return Ok(false);
        }
        match old.meet(set) {
            None => Err(Empty { point, reg: r }),
            Some(met) => {
                if met == old {
                    return Ok(false);
                }
                self.set(point, r, met);
                Ok(true)
            }
        }
    }
}
