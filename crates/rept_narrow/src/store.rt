//! Which bytes a store may write.

ghost use Rattle.std.specs.Prelude.{◌≡◌, ◌+◌, ◌*◌, ◌<◌, ◌≤◌, ℕ, Bool, true, false, pos, Some, Option, slice_get};
ghost use Rattle.rept_machine.specs.Arithmetic.{byte_of};
ghost use Rattle.rept_isa.specs.Numbers.{beside};
ghost use Rattle.rept_known.specs.Bits.{bits_has};
ghost use Rattle.rept_known.specs.Both.{both_has};
ghost use Rattle.rept_machine.specs.State.{State};
ghost use Rattle.rept_narrow.specs.Admitted.{Story};
ghost use Rattle.rept_narrow.specs.Rules.{set_at, HasSets, AreBytes, WritesNot};
ghost use Rattle.rept_narrow.specs.Stores.{IsStorePlaced, Leaves, names_bytes};

use crate::bytes::ToldBytes;
use crate::table::Table;
use rept_isa::number::word;
use rept_isa::{ImmOp, Instr, StepRow, register};
use rept_known::{Bits, Both};
use rept_machine::store_width;
use rept_partial::Partial;
use rept_span::Transfer;

/// Whether a word agrees with known bits.
fn bits_have(bits: Bits, v: u32) -> bool
    ensures { result ≡ bits_has bits v }
{
    v & !bits.loose() == bits.value()
}

/// Whether a word is in a set.
fn set_has(set: Both, v: u32) -> bool
    ensures { result ≡ both_has set v }
{
    let range = set.range();
    range.lo() <= v && v <= range.hi() && bits_have(set.bits(), v)
}

/// By how many bits a byte is shifted down to the lowest place.
fn shift_of(k: u32) -> i32
    requires { k < 4 }
    ensures { result ≡ pos (8 * k) }
{
    match k {
        0 => 0,
        1 => 8,
        2 => 16,
        _ => 24,
    }
}

/// What is known of byte `k` of a word: the bits that SRLI and ANDI make of it.
pub fn byte_bits(value: Bits, k: u32) -> Bits
    requires { k < 4 }
    ensures { (v : ℕ) → bits_has value v ≡ true → bits_has result (byte_of v k) ≡ true }
{
    let zero = register(0);
    let shift = Instr::Imm {
        op: ImmOp::Srli,
        rd: zero,
        rs1: zero,
        imm: shift_of(k),
    };
    let mask = Instr::Imm {
        op: ImmOp::Andi,
        rd: zero,
        rs1: zero,
        imm: 255,
    };
    let shifted = Bits::apply(&shift, 0, value, Bits::unknown());
    Bits::apply(&mask, 0, shifted, Bits::unknown())
}

/// Whether a store of a value of these bits, whose first byte is at `first`, can leave the bytes that are told at a point.
fn leaves<B: ToldBytes>(bytes: &B, point: u32, first: u32, width: u32, source: Bits) -> bool
    requires { width ≤ 4 }
    ensures { result ≡ false → (v : ℕ) → bits_has source v ≡ true → Leaves (B.tells bytes.now point) first width v → ⊥ }
{
    for j in 0..width {
        if let Some(x) = bytes.byte(point, first.wrapping_add(j)) {
            if !bits_have(byte_bits(source, j), u32::from(x)) {
                return false;
            }
        }
    }
    true
}

/// Whether the byte at `a` can be byte `k` of a store.
fn is_placed<B: ToldBytes>(
    bytes: &B,
    point: u32,
    base: Both,
    source: Both,
    imm: i32,
    width: u32,
    a: u32,
    k: u32,
) -> bool
    requires width { width ≤ 4 }
    requires inside { k < width }
    ensures { result ≡ false → IsStorePlaced base source imm width (B.tells bytes.now point) a k → ⊥ }
{
    let first = a.wrapping_sub(k);
    set_has(base, first.wrapping_sub(word(imm)))
        && leaves(bytes, point, first, width, source.bits())
}

/// Whether the byte at `a` can be one of a store's.
fn hits<B: ToldBytes>(
    bytes: &B,
    point: u32,
    base: Both,
    source: Both,
    imm: i32,
    width: u32,
    a: u32,
) -> bool
    requires width { width ≤ 4 }
    ensures { result ≡ false → (k : ℕ) → k < width → IsStorePlaced base source imm width (B.tells bytes.now point) a k → ⊥ }
{
    for k in 0..width {
        if is_placed(bytes, point, base, source, imm, width, a, k) {
            return true;
        }
    }
    false
}

/// Whether the instruction writes memory, or calls the kernel, which may.
pub fn names_bytes(instr: &Instr) -> bool
    ensures { result ≡ names_bytes instr.now }
{
    matches!(
        *instr,
        Instr::Store { .. } | Instr::Amo { .. } | Instr::Ecall
    )
}

/// Whether a row may write the byte at `a`. Where it answers false, the row writes it in no admitted
/// execution in which the sets and the bytes hold: each place that a store could have needs a base
/// that isn't in its set, or would leave another byte than one that is told after the row.
pub fn may_hit<B: ToldBytes>(table: &Table, bytes: &B, index: u32, row: &StepRow, a: u32) -> bool
    requires inside { index + 1 < table.now.points }
    ensures { result ≡ false → (story : Story) (run : ℕ → State) → slice_get story.rows index ≡ Some row.now → HasSets story table.now run → AreBytes story (B.tells bytes.now) run → WritesNot story run index a }
{
    // for the proof alone
    let _points = table.points();
    match row.instr {
        Instr::Store { op, rs1, rs2, imm } => {
            let base = table.at(index, rs1);
            let source = table.at(index, rs2);
            hits(bytes, index + 1, base, source, imm, store_width(op), a)
        }
        _ => names_bytes(&row.instr),
    }
}
