//! Steps that were executed one after another.

ghost use Rattle.std.specs.Prelude.{◌≡◌, ◌++◌, ◌∷◌, ◌≤◌, ◌<◌, ◌↔◌, [], length, OnOk, OnErr, Err};
ghost use Rattle.rept_steps.specs.Linked.{AreLinked, EndBefore};

use crate::fault::PushFault;
use rept_isa::StepRow;
use std::alloc::Global;
use std::marker::Model;

/// The most steps of a path.
pub const LIMIT: usize = 65536;

/// Steps that were executed one after another, at most 65,536: each leads to the address of the one
/// after it. Contracts see the list of the rows, the first one first.
#[derive(Drop)]
pub struct Steps {
    rows: Vec<StepRow>,
}

impl Model for Steps {
    ghost use Rattle.std.specs.Prelude.{List, ◌≤◌, length};
    ghost use Rattle.rept_isa.specs.declared.row.StepRow.{StepRow};
    ghost use Rattle.rept_steps.specs.Linked.{AreLinked};

    ghost Value = { List StepRow };

    ghost view = { λ s. s.rows.items };

    ghost invariant = { λ s. AreLinked s.rows.items × (length s.rows.items ≤ 65536) };
}

impl Steps {
    /// No steps. It takes no memory yet, and keeps the allocator to grow later.
    pub fn new(alloc: Global) -> Steps
        ensures { result ≡ [] }
    {
        Steps {
            rows: Vec::new(alloc),
        }
    }

    /// Adds a step, which must stand where the last one led. `Full` comes exactly at 65,536 steps.
    /// A refusal leaves the steps as they were.
    pub fn push(&mut self, row: StepRow) -> Result<(), PushFault>
        requires { EndBefore self.old row.at }
        ensures ok { OnOk result (self.new ≡ self.old ++ row ∷ []) }
        ensures ends { OnOk result (EndBefore self.new row.next) }
        ensures err { OnErr result (self.new ≡ self.old) }
        ensures full { (result ≡ Err PushFault.Full) ↔ (length self.old ≡ 65536) }
    {
        if self.rows.len() >= LIMIT {
            return Err(PushFault::Full);
        }
        let instr = row.instr;
        let row = StepRow {
            at: row.at,
            instr,
            next: row.next,
            call: row.call,
            short: row.short,
        };
        if let Err(_) = self.rows.push(row) {
            return Err(PushFault::OutOfMemory);
        }
        Ok(())
    }

    /// The steps, in the order in which they were executed.
    pub fn rows(&self) -> &[StepRow]
        ensures list { result.now ≡ self.now }
        ensures linked { AreLinked result.now }
        ensures few { length result.now ≤ 65536 }
    {
        self.rows.as_slice()
    }

    /// How many steps there are.
    pub fn len(&self) -> u32
        ensures value { result ≡ length self.now }
        ensures few { result ≤ 65536 }
    {
        self.rows.len() as u32
    }

    /// The address to which the last step led. There must be a step.
    pub fn end_pc(&self) -> u32
        requires { 0 < length self.now }
        ensures { EndBefore self.now result }
    {
        let row = self.rows[self.rows.len() - 1];
        row.next
    }
}
