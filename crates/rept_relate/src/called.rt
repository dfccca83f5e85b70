//! Which words of memory a call leaves.

ghost use Rattle.std.specs.Prelude.{◌≡◌, ℕ, ◌<◌, ◌≤◌, true, false, length, Some, slice_get, OnOk, OnErr};
ghost use Rattle.rept_isa.specs.Numbers.{beside};
ghost use Rattle.rept_alias.specs.Accesses.{hits, hits_part};
ghost use Rattle.rept_machine.specs.State.{State};
ghost use Rattle.rept_relate.specs.Classes.Valuations.{IsValued};
ghost use Rattle.rept_relate.specs.Relations.{IsRowOf};
ghost use Rattle.rept_relate.specs.declared.words.WordSlot.{WordSlot};
ghost use Rattle.rept_relate.specs.Holding.{AreHeld, AreNodesBelow, IsOutside, IsSlotLeft, AreLeft, IsCallWithin};

use crate::classes::{Classes, Impossible};
use crate::numbering::OperandNodes;
use crate::storing::relate_memory;
use crate::words::{WordPlace, WordSlot, WordTable};
use rept_alias::{Access, CallAccess};
use rept_isa::{Instr, StepRow};

/// A row, the nodes of its values, and the bytes that it may write if it is a call.
#[derive(Clone, Copy)]
pub struct CallWords {
    /// the row
    pub row: StepRow,
    /// the node of its result
    pub node: u32,
    /// the nodes of its operands
    pub nodes: OperandNodes,
    /// the bytes that it may write if it is a call
    pub access: CallAccess,
}

/// Whether no address of an access is one of the four that begin at an address of a place.
fn is_beyond(place: &WordPlace, access: Access) -> bool
    ensures { result ≡ true → (a k : ℕ) → place.now.lo ≤ a → a ≤ place.now.hi → k < 4 → hits access (beside a k) ≡ false }
{
    if access.all || access.hi < access.lo || place.hi > 0xffff_fffc {
        return false;
    }
    place.hi + 3 < access.lo || access.hi < place.lo
}

/// Whether a part of a call's bytes has none of a word.
fn is_beyond_part(place: &WordPlace, part: Option<Access>) -> bool
    ensures { result ≡ true → (a k : ℕ) → place.now.lo ≤ a → a ≤ place.now.hi → k < 4 → hits_part part (beside a k) ≡ false }
{
    match part {
        None => true,
        Some(access) => is_beyond(place, access),
    }
}

/// Whether a call writes no byte of a word.
fn is_outside(place: &WordPlace, access: &CallAccess) -> bool
    ensures { result ≡ true → IsOutside place.now access.now }
{
    is_beyond_part(place, access.first) && is_beyond_part(place, access.second)
}

/// Forgets a word that a call may write.
fn leave_slot(slots: &mut Vec<WordSlot>, k: usize, access: &CallAccess)
    requires inside { k < length slots.old.items }
    ensures len { length slots.new.items ≡ length slots.old.items }
    ensures here { (slot : WordSlot) → slice_get slots.new.items k ≡ Some slot → slot.live ≡ true → IsSlotLeft slots.old.items k slot access.now }
    ensures others { (m : ℕ) → (m ≡ k → ⊥) → slice_get slots.new.items m ≡ slice_get slots.old.items m }
    ensures below { (limit : ℕ) → AreNodesBelow slots.old.items limit → AreNodesBelow slots.new.items limit }
{
    let slot = slots[k];
    if slot.live && !is_outside(&slot.place, access) {
        slots[k] = WordSlot {
            live: false,
            place: slot.place,
            op: slot.op,
            node: slot.node,
        };
    }
}

/// Forgets the words that a call may write.
fn leave(slots: &mut Vec<WordSlot>, access: &CallAccess)
    ensures left { AreLeft slots.old.items slots.new.items access.now }
    ensures below { (limit : ℕ) → AreNodesBelow slots.old.items limit → AreNodesBelow slots.new.items limit }
{
    for k in 0..slots.len() {
        leave_slot(slots, k, access);
    }
}

/// The classes and the words of memory after a row. A call leaves the words that it can't write.
pub fn relate_words(
    classes: &mut Classes,
    words: &mut WordTable,
    step: &CallWords,
) -> Result<(), Impossible>
    requires node { step.now.node < length classes.old }
    requires first { step.now.nodes.first < length classes.old }
    requires below { AreNodesBelow words.old.slots.items (length classes.old) }
    ensures len { length classes.new ≡ length classes.old }
    ensures below { (limit : ℕ) → AreNodesBelow words.old.slots.items limit → step.now.node < limit → step.now.nodes.second < limit → AreNodesBelow words.new.slots.items limit }
    ensures keeps { OnOk result ((value : ℕ → ℕ) (image_end : ℕ) (s t : State) → IsRowOf step.now.row step.now.node step.now.nodes value image_end s t → IsCallWithin step.now.row step.now.access image_end s t → IsValued classes.old value → AreHeld words.old.slots.items value s → (IsValued classes.new value) × AreHeld words.new.slots.items value t) }
    ensures refuses { OnErr result ((value : ℕ → ℕ) (image_end : ℕ) (s t : State) → IsRowOf step.now.row step.now.node step.now.nodes value image_end s t → IsValued classes.old value → AreHeld words.old.slots.items value s → ⊥) }
{
    match step.row.instr {
        Instr::Ecall => {
            leave(&mut words.slots, &step.access);
            Ok(())
        }
        _ => relate_memory(classes, words, &step.row, step.node, step.nodes),
    }
}
