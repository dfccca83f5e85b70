//! What loads and stores tell of classes.

ghost use Rattle.std.specs.Prelude.{◌≡◌, ℕ, ◌<◌, ◌≤◌, ◌^◌, true, length, IfOk, OnOk, OnErr};
ghost use Rattle.rept_isa.specs.Numbers.{beside};
ghost use Rattle.rept_machine.specs.Arithmetic.{loaded, word_at};
ghost use Rattle.rept_machine.specs.State.{State};
ghost use Rattle.rept_relate.specs.Classes.Valuations.{IsValued};
ghost use Rattle.rept_relate.specs.Relations.{IsRowOf};
ghost use Rattle.rept_relate.specs.Holding.{IsPlaceOf, AreHeld, AreNodesBelow, KeepsOthers, is_quiet};

use crate::classes::{Classes, Impossible, Term};
use crate::numbering::OperandNodes;
use crate::rules::{join_sum, root_term};
use crate::words::{WordPlace, WordSlot, WordTable, clear, keep, like};
use rept_isa::number::word;
use rept_isa::{Instr, LoadOp, StepRow};
use rept_machine::store_width;
use rept_partial::Partial;

/// The place so many bytes after the address that a node stands for.
fn place_of(classes: &mut Classes, base: u32, offset: u32) -> Result<WordPlace, Impossible>
    requires { base < length classes.old }
    ensures len { length classes.new ≡ length classes.old }
    ensures keeps { IfOk result (λ p. (value : ℕ → ℕ) → value 0 ≡ 0 → value base < 2 ^ 32 → IsValued classes.old value → (IsValued classes.new value) × IsPlaceOf value p (beside (value base) offset)) }
    ensures refuses { OnErr result ((value : ℕ → ℕ) → value 0 ≡ 0 → value base < 2 ^ 32 → IsValued classes.old value → ⊥) }
{
    let root = root_term(classes, base)?;
    let address = Term {
        node: root.node,
        offset: root.offset.wrapping_add(offset),
    };
    let set = classes.set_of(address);
    Ok(WordPlace {
        address,
        lo: set.lo(),
        hi: set.hi(),
    })
}

/// A load: its kind, the node of its result, and that of its base with an offset.
#[derive(Clone, Copy)]
struct Loading {
    op: LoadOp,
    node: u32,
    base: u32,
    offset: u32,
}

/// A load: its result is what the place holds, which is kept from then on.
fn load_value(classes: &mut Classes, words: &mut WordTable, load: Loading) -> Result<(), Impossible>
    requires node { load.node < length classes.old }
    requires base { load.base < length classes.old }
    requires below { AreNodesBelow words.old.slots.items (length classes.old) }
    ensures len { length classes.new ≡ length classes.old }
    ensures below { (limit : ℕ) → AreNodesBelow words.old.slots.items limit → load.node < limit → AreNodesBelow words.new.slots.items limit }
    ensures keeps { OnOk result ((value : ℕ → ℕ) (s : State) → value 0 ≡ 0 → value load.base < 2 ^ 32 → value load.node ≡ loaded load.op s.memory (beside (value load.base) load.offset) → IsValued classes.old value → AreHeld words.old.slots.items value s → (IsValued classes.new value) × AreHeld words.new.slots.items value s) }
    ensures refuses { OnErr result ((value : ℕ → ℕ) (s : State) → value 0 ≡ 0 → value load.base < 2 ^ 32 → value load.node ≡ loaded load.op s.memory (beside (value load.base) load.offset) → IsValued classes.old value → AreHeld words.old.slots.items value s → ⊥) }
{
    let place = place_of(classes, load.base, load.offset)?;
    match like(&words.slots, load.op, place.address) {
        None => keep(
            words,
            WordSlot {
                live: true,
                place,
                op: load.op,
                node: load.node,
            },
        ),
        Some(known) => {
            join_sum(
                classes,
                load.node,
                Term {
                    node: known,
                    offset: 0,
                },
            )?;
        }
    }
    Ok(())
}

/// A write of so many bytes: words that may have one of them are forgotten.
fn write_bytes(
    classes: &mut Classes,
    words: &mut WordTable,
    base: u32,
    offset: u32,
    width: u32,
) -> Result<WordPlace, Impossible>
    requires base { base < length classes.old }
    requires width { width ≤ 4 }
    ensures len { length classes.new ≡ length classes.old }
    ensures below { (limit : ℕ) → AreNodesBelow words.old.slots.items limit → AreNodesBelow words.new.slots.items limit }
    ensures keeps { IfOk result (λ p. (value : ℕ → ℕ) (s t : State) → value 0 ≡ 0 → value base < 2 ^ 32 → KeepsOthers s t (beside (value base) offset) width → IsValued classes.old value → AreHeld words.old.slots.items value s → (IsValued classes.new value) × (AreHeld words.new.slots.items value t) × (IsPlaceOf value p (beside (value base) offset))) }
    ensures refuses { OnErr result ((value : ℕ → ℕ) → value 0 ≡ 0 → value base < 2 ^ 32 → IsValued classes.old value → ⊥) }
{
    let place = place_of(classes, base, offset)?;
    clear(&mut words.slots, &place, width);
    Ok(place)
}

/// A store: what it wrote is kept, where it is a word.
fn store(
    classes: &mut Classes,
    words: &mut WordTable,
    base: u32,
    offset: u32,
    width: u32,
    source: u32,
) -> Result<(), Impossible>
    requires base { base < length classes.old }
    requires width { width ≤ 4 }
    ensures len { length classes.new ≡ length classes.old }
    ensures below { (limit : ℕ) → AreNodesBelow words.old.slots.items limit → source < limit → AreNodesBelow words.new.slots.items limit }
    ensures keeps { OnOk result ((value : ℕ → ℕ) (s t : State) → value 0 ≡ 0 → value base < 2 ^ 32 → KeepsOthers s t (beside (value base) offset) width → (width ≡ 4 → word_at t.memory (beside (value base) offset) ≡ value source) → IsValued classes.old value → AreHeld words.old.slots.items value s → (IsValued classes.new value) × AreHeld words.new.slots.items value t) }
    ensures refuses { OnErr result ((value : ℕ → ℕ) → value 0 ≡ 0 → value base < 2 ^ 32 → IsValued classes.old value → ⊥) }
{
    let place = write_bytes(classes, words, base, offset, width)?;
    if width == 4 {
        keep(
            words,
            WordSlot {
                live: true,
                place,
                op: LoadOp::Lw,
                node: source,
            },
        );
    }
    Ok(())
}

/// An atomic instruction: words that may have one of the bytes at its address are forgotten.
fn store_atomic(classes: &mut Classes, words: &mut WordTable, base: u32) -> Result<(), Impossible>
    requires base { base < length classes.old }
    ensures len { length classes.new ≡ length classes.old }
    ensures below { (limit : ℕ) → AreNodesBelow words.old.slots.items limit → AreNodesBelow words.new.slots.items limit }
    ensures keeps { OnOk result ((value : ℕ → ℕ) (s t : State) → value 0 ≡ 0 → value base < 2 ^ 32 → KeepsOthers s t (beside (value base) 0) 4 → IsValued classes.old value → AreHeld words.old.slots.items value s → (IsValued classes.new value) × AreHeld words.new.slots.items value t) }
    ensures refuses { OnErr result ((value : ℕ → ℕ) → value 0 ≡ 0 → value base < 2 ^ 32 → IsValued classes.old value → ⊥) }
{
    let _place = write_bytes(classes, words, base, 0, 4)?;
    Ok(())
}

/// Whether the instruction writes no memory.
fn is_quiet(instr: &Instr) -> bool
    ensures { result ≡ is_quiet instr.now }
{
    !matches!(
        *instr,
        Instr::Store { .. } | Instr::Amo { .. } | Instr::Ecall
    )
}

/// The classes and what of memory is kept, after a row that may load.
fn relate_load(
    classes: &mut Classes,
    words: &mut WordTable,
    row: &StepRow,
    node: u32,
    nodes: OperandNodes,
) -> Result<(), Impossible>
    requires node { node < length classes.old }
    requires first { nodes.first < length classes.old }
    requires below { AreNodesBelow words.old.slots.items (length classes.old) }
    ensures len { length classes.new ≡ length classes.old }
    ensures below { (limit : ℕ) → AreNodesBelow words.old.slots.items limit → node < limit → AreNodesBelow words.new.slots.items limit }
    ensures keeps { OnOk result ((value : ℕ → ℕ) (image_end : ℕ) (s t : State) → IsRowOf row.now node nodes value image_end s t → IsValued classes.old value → AreHeld words.old.slots.items value s → (IsValued classes.new value) × AreHeld words.new.slots.items value s) }
    ensures refuses { OnErr result ((value : ℕ → ℕ) (image_end : ℕ) (s t : State) → IsRowOf row.now node nodes value image_end s t → IsValued classes.old value → AreHeld words.old.slots.items value s → ⊥) }
{
    match row.instr {
        Instr::Load { op, rd, imm, .. } => {
            if rd.number() == 0 {
                return Ok(());
            }
            load_value(
                classes,
                words,
                Loading {
                    op,
                    node,
                    base: nodes.first,
                    offset: word(imm),
                },
            )
        }
        _ => Ok(()),
    }
}

/// The classes and the words of memory after a row that may write memory. Calls may write anything,
/// so after them no word is kept.
fn relate_write(
    classes: &mut Classes,
    words: &mut WordTable,
    row: &StepRow,
    node: u32,
    nodes: OperandNodes,
) -> Result<(), Impossible>
    requires first { nodes.first < length classes.old }
    ensures len { length classes.new ≡ length classes.old }
    ensures below { (limit : ℕ) → AreNodesBelow words.old.slots.items limit → nodes.second < limit → AreNodesBelow words.new.slots.items limit }
    ensures keeps { OnOk result ((value : ℕ → ℕ) (image_end : ℕ) (s t : State) → IsRowOf row.now node nodes value image_end s t → IsValued classes.old value → AreHeld words.old.slots.items value s → (IsValued classes.new value) × AreHeld words.new.slots.items value t) }
    ensures refuses { OnErr result ((value : ℕ → ℕ) (image_end : ℕ) (s t : State) → IsRowOf row.now node nodes value image_end s t → IsValued classes.old value → AreHeld words.old.slots.items value s → ⊥) }
{
    match row.instr {
        Instr::Store { op, imm, .. } => {
            let width = store_width(op);
            store(classes, words, nodes.first, word(imm), width, nodes.second)
        }
        Instr::Amo { .. } => store_atomic(classes, words, nodes.first),
        _ => {
            words.slots.clear();
            Ok(())
        }
    }
}

/// The classes and the words of memory after a row.
pub fn relate_memory(
    classes: &mut Classes,
    words: &mut WordTable,
    row: &StepRow,
    node: u32,
    nodes: OperandNodes,
) -> Result<(), Impossible>
    requires node { node < length classes.old }
    requires first { nodes.first < length classes.old }
    requires below { AreNodesBelow words.old.slots.items (length classes.old) }
    ensures len { length classes.new ≡ length classes.old }
    ensures below { (limit : ℕ) → AreNodesBelow words.old.slots.items limit → node < limit → nodes.second < limit → AreNodesBelow words.new.slots.items limit }
    ensures keeps { OnOk result ((value : ℕ → ℕ) (image_end : ℕ) (s t : State) → IsRowOf row.now node nodes value image_end s t → IsValued classes.old value → AreHeld words.old.slots.items value s → (IsValued classes.new value) × AreHeld words.new.slots.items value t) }
    ensures refuses { OnErr result ((value : ℕ → ℕ) (image_end : ℕ) (s t : State) → IsRowOf row.now node nodes value image_end s t → IsValued classes.old value → AreHeld words.old.slots.items value s → ⊥) }
{
    if is_quiet(&row.instr) {
        relate_load(classes, words, row, node, nodes)
    } else {
        relate_write(classes, words, row, node, nodes)
    }
}
