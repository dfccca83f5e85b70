//! Which of the bytes that are held a row may write.

ghost use Rattle.std.specs.Prelude.{◌≡◌, ◌+◌, ◌<◌, ◌≤◌, ℕ, true, Some, IfOk, OnOk, slice_get};
ghost use Rattle.rept_isa.specs.Numbers.{beside};
ghost use Rattle.rept_machine.specs.State.{State};
ghost use Rattle.rept_narrow.specs.declared.lanes.held.Held.{Held};
ghost use Rattle.rept_alias.specs.Accesses.{call_hits};
ghost use Rattle.rept_narrow.specs.Lanes.{held_at, IsListed};
ghost use Rattle.rept_narrow.specs.Admitted.{Story};
ghost use Rattle.rept_narrow.specs.Rules.{HasSets, AreBytes, WritesNot};
ghost use Rattle.rept_narrow.specs.Sweeps.{ListsWritten, tells_in};

use rept_alias::CallAccess;
use rept_isa::{Instr, StepRow};
use rept_machine::store_width;
use rept_narrow::memory::place_of;
use rept_narrow::store::may_hit;
use rept_narrow::told::SweptBytes;
use rept_narrow::touched::{atomic_access, call_access, writes_none};
use rept_narrow::{HeldBytes, KnownPath, Table};
use std::alloc::{AllocError as OutOfMemory, Global};

/// A row, and what is told before and after it.
#[derive(Drop)]
pub struct ByteCrossing<'a, K: KnownPath> {
    /// the sets
    pub table: &'a Table,
    /// the bytes
    pub bytes: &'a SweptBytes<'a, K>,
    /// the row's number
    pub index: u32,
    /// the row
    pub row: StepRow,
    /// where the program's own memory ends
    pub image_end: u64,
    /// how many bytes are tried; any more count as written
    pub most: u32,
}

/// The addresses of so many bytes.
fn places(alloc: Global, place: u32, width: u32) -> Result<Vec<u32>, OutOfMemory>
    ensures { IfOk result (λ list. (k : ℕ) → k < width → IsListed list.items (beside place k)) }
{
    let mut list = Vec::new(alloc);
    for k in 0..width {
        list.push(place.wrapping_add(k))?;
    }
    Ok(list)
}

/// Lists the address of a byte that is held, by number, if an access has it.
fn add_touched(
    list: &mut Vec<u32>,
    held: &HeldBytes,
    access: &CallAccess,
    number: usize,
) -> Result<(), OutOfMemory>
    ensures more { OnOk result ((a : ℕ) → IsListed list.old.items a → IsListed list.new.items a) }
    ensures touched { OnOk result ((a : ℕ) (h : Held) → slice_get held.now number ≡ Some (a, h) → call_hits access.now a ≡ true → IsListed list.new.items a) }
{
    match held.entry(number) {
        None => Ok(()),
        Some((address, _)) => {
            if !access.may_hit(address) {
                return Ok(());
            }
            list.push(address)?;
            Ok(())
        }
    }
}

/// The addresses of the bytes that are held and that an access has.
fn touched(alloc: Global, held: &HeldBytes, access: &CallAccess) -> Result<Vec<u32>, OutOfMemory>
    ensures { IfOk result (λ list. (a : ℕ) (h : Held) → held_at held.now a ≡ Some h → call_hits access.now a ≡ true → IsListed list.items a) }
{
    let mut list = Vec::new(alloc);
    for number in 0..held.len() {
        add_touched(&mut list, held, access, number)?;
    }
    Ok(list)
}

impl<'a, K: KnownPath> ByteCrossing<'a, K> {
    /// Lists the address of a byte that is held, by number, if the row may write it.
    fn add_hit(&self, list: &mut Vec<u32>, number: usize) -> Result<(), OutOfMemory>
        requires inside { self.now.index + 1 < self.now.table.now.points }
        ensures more { OnOk result ((a : ℕ) → IsListed list.old.items a → IsListed list.new.items a) }
        ensures hits { OnOk result ((story : Story) (run : ℕ → State) → story.image_end ≡ self.now.image_end → slice_get story.rows self.now.index ≡ Some self.now.row → HasSets story self.now.table.now run → AreBytes story (tells_in (K.byte self.now.bytes.now.known.now) self.now.bytes.now.lanes.now self.now.bytes.now.sweep.now) run → (a : ℕ) (h : Held) → slice_get self.now.bytes.now.sweep.now.held number ≡ Some (a, h) → (IsListed list.new.items a → ⊥) → WritesNot story run self.now.index a) }
    {
        match self.bytes.sweep.held().entry(number) {
            None => Ok(()),
            Some((address, _)) => {
                if number < self.most as usize
                    && !may_hit(self.table, self.bytes, self.index, &self.row, address)
                {
                    return Ok(());
                }
                list.push(address)?;
                Ok(())
            }
        }
    }

    /// The addresses of the bytes that are held and that the row may write, by all that is told.
    fn hits(&self, alloc: Global) -> Result<Vec<u32>, OutOfMemory>
        requires inside { self.now.index + 1 < self.now.table.now.points }
        ensures { IfOk result (λ list. (story : Story) (run : ℕ → State) → story.image_end ≡ self.now.image_end → slice_get story.rows self.now.index ≡ Some self.now.row → HasSets story self.now.table.now run → AreBytes story (tells_in (K.byte self.now.bytes.now.known.now) self.now.bytes.now.lanes.now self.now.bytes.now.sweep.now) run → ListsWritten story run self.now.index self.now.bytes.now.sweep.now.held list.items) }
    {
        let mut list = Vec::new(alloc);
        for number in 0..self.bytes.sweep.held().len() {
            self.add_hit(&mut list, number)?;
        }
        Ok(list)
    }

    /// The addresses of the bytes that are held and that the row may write.
    pub fn written(&self, alloc: Global) -> Result<Vec<u32>, OutOfMemory>
        requires inside { self.now.index + 1 < self.now.table.now.points }
        ensures { IfOk result (λ list. (story : Story) (run : ℕ → State) → story.image_end ≡ self.now.image_end → slice_get story.rows self.now.index ≡ Some self.now.row → HasSets story self.now.table.now run → AreBytes story (tells_in (K.byte self.now.bytes.now.known.now) self.now.bytes.now.lanes.now self.now.bytes.now.sweep.now) run → ListsWritten story run self.now.index self.now.bytes.now.sweep.now.held list.items) }
    {
        // for the proof alone
        let _points = self.table.points();
        if writes_none(self.table, self.index, &self.row) {
            return Ok(Vec::new(alloc));
        }
        match self.row.instr {
            Instr::Store { op, rs1, imm, .. } => match place_of(self.table, self.index, rs1, imm) {
                None => self.hits(alloc),
                Some(place) => places(alloc, place, store_width(op)),
            },
            Instr::Amo { rs1, .. } => {
                let access = atomic_access(self.table, self.index, rs1);
                touched(alloc, self.bytes.sweep.held(), &access)
            }
            Instr::Ecall => {
                let access = call_access(self.table, self.index, self.image_end);
                touched(alloc, self.bytes.sweep.held(), &access)
            }
            _ => Ok(Vec::new(alloc)),
        }
    }
}
