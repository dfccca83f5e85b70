//! Words, halves and bytes of memory whose values are nodes, at addresses that are terms.

ghost use Rattle.std.specs.Prelude.{◌≡◌, ℕ, ◌<◌, ◌≤◌, ◌^◌, true, false, length, IfSome, Some, slice_get};
ghost use Rattle.rept_machine.specs.Arithmetic.{loaded};
ghost use Rattle.rept_machine.specs.State.{State};
ghost use Rattle.rept_isa.specs.Numbers.{beside};
ghost use Rattle.rept_relate.specs.Classes.Valuations.{word_of};
ghost use Rattle.rept_relate.specs.declared.words.WordSlot.{WordSlot};
ghost use Rattle.rept_relate.specs.Holding.{IsApart, IsWordHeld, AreHeld, AreNodesBelow, IsCleared, AreCleared};

use crate::classes::Term;
use rept_isa::LoadOp;

/// The most words that are kept at one time.
const MOST: usize = 512;

/// The address of four bytes, and bounds of it.
#[derive(Clone, Copy)]
pub struct WordPlace {
    /// the address
    pub address: Term,
    /// no address is below it
    pub lo: u32,
    /// no address is above it
    pub hi: u32,
}

/// What a load of some kind has at a place, and the node of that value.
#[derive(Clone, Copy)]
pub struct WordSlot {
    /// whether anything is said
    pub live: bool,
    /// where it stands
    pub place: WordPlace,
    /// by which kind of load it is had
    pub op: LoadOp,
    /// the node of its value
    pub node: u32,
}

/// Words of memory. Where there are too many, the oldest one is forgotten.
#[derive(Drop)]
pub struct WordTable {
    pub(crate) slots: Vec<WordSlot>,
    pub(crate) next: usize,
}

/// Whether a word and so many bytes have no byte in common, where both addresses are in one class.
fn is_apart_alike(held: Term, other: Term, width: u32) -> bool
    requires { width ≤ 4 }
    ensures { result ≡ true → held.node ≡ other.node → (value : ℕ → ℕ) (k j : ℕ) → k < 4 → j < width → beside (word_of value held) k ≡ beside (word_of value other) j → ⊥ }
{
    let up = held.offset.wrapping_sub(other.offset);
    let down = other.offset.wrapping_sub(held.offset);
    up >= width && down >= 4
}

/// Whether bytes from one of the addresses of a range on stand below all those of another range,
/// and within the words.
fn is_below(hi: u32, width: u32, lo: u32, other_hi: u32, other_width: u32) -> bool
    requires width { width ≤ 4 }
    requires other { other_width ≤ 4 }
    ensures { result ≡ true → (a b k j : ℕ) → a ≤ hi → lo ≤ b → b ≤ other_hi → k < width → j < other_width → beside a k ≡ beside b j → ⊥ }
{
    u64::from(hi) + u64::from(width) <= u64::from(lo)
        && u64::from(other_hi) + u64::from(other_width) <= 0x1_0000_0000
}

/// Whether a word and so many bytes have no byte in common.
fn is_apart(held: &WordPlace, other: &WordPlace, width: u32) -> bool
    requires { width ≤ 4 }
    ensures { result ≡ true → IsApart held.now other.now width }
{
    if held.address.node == other.address.node {
        return is_apart_alike(held.address, other.address, width);
    }
    is_below(held.hi, 4, other.lo, other.hi, width)
        || is_below(other.hi, width, held.lo, held.hi, 4)
}

/// Forgets a word that may have a byte of those at a place.
fn clear_slot(slots: &mut Vec<WordSlot>, k: usize, place: &WordPlace, width: u32)
    requires inside { k < length slots.old.items }
    requires width { width ≤ 4 }
    ensures len { length slots.new.items ≡ length slots.old.items }
    ensures here { (slot : WordSlot) → slice_get slots.new.items k ≡ Some slot → slot.live ≡ true → IsCleared slots.old.items k slot place.now width }
    ensures others { (m : ℕ) → (m ≡ k → ⊥) → slice_get slots.new.items m ≡ slice_get slots.old.items m }
    ensures below { (limit : ℕ) → AreNodesBelow slots.old.items limit → AreNodesBelow slots.new.items limit }
{
    let slot = slots[k];
    if slot.live && !is_apart(&slot.place, place, width) {
        slots[k] = WordSlot {
            live: false,
            place: slot.place,
            op: slot.op,
            node: slot.node,
        };
    }
}

/// Forgets the words that may have one of so many bytes at a place.
pub fn clear(slots: &mut Vec<WordSlot>, place: &WordPlace, width: u32)
    requires { width ≤ 4 }
    ensures cleared { AreCleared slots.old.items slots.new.items place.now width }
    ensures below { (limit : ℕ) → AreNodesBelow slots.old.items limit → AreNodesBelow slots.new.items limit }
{
    for k in 0..slots.len() {
        clear_slot(slots, k, place, width);
    }
}

/// Whether both are one kind of load.
fn is_same_load(a: LoadOp, b: LoadOp) -> bool
    ensures { result ≡ true → a ≡ b }
{
    matches!(
        (a, b),
        (LoadOp::Lb, LoadOp::Lb)
            | (LoadOp::Lh, LoadOp::Lh)
            | (LoadOp::Lw, LoadOp::Lw)
            | (LoadOp::Lbu, LoadOp::Lbu)
            | (LoadOp::Lhu, LoadOp::Lhu)
    )
}

/// The node of what a load of this kind has at an address.
pub fn like(slots: &[WordSlot], op: LoadOp, address: Term) -> Option<u32>
    ensures word { IfSome result (λ n. (value : ℕ → ℕ) (s : State) → AreHeld slots.now value s → loaded op s.memory (word_of value address) ≡ value n) }
    ensures below { IfSome result (λ n. (limit : ℕ) → AreNodesBelow slots.now limit → n < limit) }
{
    for slot in slots {
        if slot.live
            && slot.place.address.node == address.node
            && slot.place.address.offset == address.offset
            && is_same_load(slot.op, op)
        {
            return Some(slot.node);
        }
    }
    None
}

/// Puts a word into a slot.
fn put(slots: &mut Vec<WordSlot>, k: usize, slot: WordSlot)
    requires { k < length slots.old.items }
    ensures held { (value : ℕ → ℕ) (s : State) → AreHeld slots.old.items value s → IsWordHeld value s slot → AreHeld slots.new.items value s }
    ensures below { (limit : ℕ) → AreNodesBelow slots.old.items limit → slot.node < limit → AreNodesBelow slots.new.items limit }
{
    slots[k] = slot;
}

/// Takes in a word. Where there are many, or no memory for more, it takes the place of another one.
pub fn keep(table: &mut WordTable, slot: WordSlot)
    ensures held { (value : ℕ → ℕ) (s : State) → AreHeld table.old.slots.items value s → IsWordHeld value s slot → AreHeld table.new.slots.items value s }
    ensures below { (limit : ℕ) → AreNodesBelow table.old.slots.items limit → slot.node < limit → AreNodesBelow table.new.slots.items limit }
{
    if table.slots.len() < MOST {
        match table.slots.push(slot) {
            Err(_) => {}
            Ok(()) => {}
        }
        return;
    }
    let place = table.next % MOST;
    put(&mut table.slots, place, slot);
    table.next = place + 1;
}
