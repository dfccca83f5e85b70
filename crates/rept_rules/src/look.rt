//! What is known around a row: its operands, its result, and the bytes that it reads or writes.

ghost use Rattle.std.specs.Prelude.{◌≡◌, ◌<◌, ◌^◌, ◌&&◌, ℕ, Option, is_some};
ghost use Rattle.rept_isa.specs.Operands.{written_by, unless_zero};
ghost use Rattle.rept_isa.specs.Numbers.{beside};
ghost use Rattle.rept_machine.specs.Arithmetic.{extended};
ghost use Rattle.rept_reason.specs.Facts.{flat};
ghost use Rattle.rept_rules.specs.Conclusions.{seen_operand};
ghost use Rattle.rept_rules.specs.MayWrite.{is_register};
ghost use Rattle.rept_rules.specs.Listing.{two_bytes, four_bytes, half_from, word_from, extended_from, loaded_from, at_known, known_after};
ghost use Rattle.rept_reason.specs.declared.view.inferred.When.TheVariants.{Before, After};

use rept_isa::number::plus;
use rept_isa::{Instr, LoadOp, Reg, writes};
use rept_partial::Flat;
use rept_reason::{RowView, When};

/// What is known before the row of the register in an operand's place. Unknown where there is none.
pub fn operand_before<V: RowView>(view: &V, r: Option<Reg>) -> Flat
    ensures { result ≡ seen_operand (V.seen view.now) r }
{
    match r {
        None => Flat::Unknown,
        Some(register) => view.reg(When::Before, register),
    }
}

/// Whether the value of a register before the row is known.
pub fn is_known<V: RowView>(view: &V, r: Reg) -> bool
    ensures { result ≡ is_register r && is_some ((V.seen view.now).register When.Before r) }
{
    // for the proof alone
    let _number = r.number();
    match view.reg(When::Before, r) {
        Flat::Unknown => false,
        Flat::Known(_) => true,
    }
}

/// What is known after the row of the register that the instruction writes. Unknown where there is
/// none.
pub fn result_after<V: RowView>(view: &V, instr: &Instr) -> Flat
    ensures { result ≡ known_after (V.seen view.now) (written_by instr.now) }
{
    match writes(instr) {
        None => Flat::Unknown,
        Some(rd) => view.reg(When::After, rd),
    }
}

/// What is known after the row of a destination. Nothing of x0, which takes no value.
pub fn destination_after<V: RowView>(view: &V, rd: Reg) -> Flat
    ensures { result ≡ known_after (V.seen view.now) (unless_zero rd) }
{
    if rd.number() == 0 {
        Flat::Unknown
    } else {
        view.reg(When::After, rd)
    }
}

/// What a load puts into its register, where its base and its bytes are known before the row.
pub fn loaded<V: RowView>(view: &V, op: LoadOp, base: Flat, imm: i32) -> Flat
    ensures { result ≡ at_known base imm (loaded_from op ((V.seen view.now).byte When.Before)) }
{
    match base {
        Flat::Unknown => Flat::Unknown,
        Flat::Known(b) => loaded_from(view, op, plus(b, imm)),
    }
}

fn loaded_from<V: RowView>(view: &V, op: LoadOp, base: u32) -> Flat
    ensures { result ≡ loaded_from op ((V.seen view.now).byte When.Before) base }
{
    match op {
        LoadOp::Lb => extended_byte(byte_beside(view, When::Before, base, 0)),
        LoadOp::Lh => extended_half(
            byte_beside(view, When::Before, base, 0),
            byte_beside(view, When::Before, base, 1),
        ),
        LoadOp::Lw => word_from(view, When::Before, base),
        LoadOp::Lbu => known_byte(byte_beside(view, When::Before, base, 0)),
        LoadOp::Lhu => half_from(view, When::Before, base),
    }
}

/// The word at a known base, where its four bytes are known.
pub fn word<V: RowView>(view: &V, when: When, base: Flat, imm: i32) -> Flat
    ensures { result ≡ at_known base imm (word_from ((V.seen view.now).byte when)) }
{
    match base {
        Flat::Unknown => Flat::Unknown,
        Flat::Known(b) => word_from(view, when, plus(b, imm)),
    }
}

fn byte_beside<V: RowView>(view: &V, when: When, base: u32, k: u32) -> Option<u8>
    ensures { result ≡ (V.seen view.now).byte when (beside base k) }
{
    view.byte(when, base.wrapping_add(k))
}

fn half_from<V: RowView>(view: &V, when: When, base: u32) -> Flat
    ensures { result ≡ half_from ((V.seen view.now).byte when) base }
{
    two_bytes(
        byte_beside(view, when, base, 0),
        byte_beside(view, when, base, 1),
    )
}

/// The word at this address, where its four bytes are known.
pub fn word_from<V: RowView>(view: &V, when: When, base: u32) -> Flat
    ensures { result ≡ word_from ((V.seen view.now).byte when) base }
{
    four_bytes(
        byte_beside(view, when, base, 0),
        byte_beside(view, when, base, 1),
        byte_beside(view, when, base, 2),
        byte_beside(view, when, base, 3),
    )
}

fn two_bytes(a: Option<u8>, b: Option<u8>) -> Flat
    ensures { result ≡ two_bytes a b }
{
    match (a, b) {
        (Some(first), Some(second)) => Flat::Known(u32::from(first) + 0x100 * u32::from(second)),
        _ => Flat::Unknown,
    }
}

fn four_bytes(a: Option<u8>, b: Option<u8>, c: Option<u8>, d: Option<u8>) -> Flat
    ensures { result ≡ four_bytes a b c d }
{
    match (a, b, c, d) {
        (Some(first), Some(second), Some(third), Some(fourth)) => Flat::Known(
            u32::from(first)
                + 0x100 * u32::from(second)
                + 0x1_0000 * u32::from(third)
                + 0x100_0000 * u32::from(fourth),
        ),
        _ => Flat::Unknown,
    }
}

fn known_byte(byte: Option<u8>) -> Flat
    ensures { result ≡ flat byte }
{
    Flat::of(byte.map(u32::from))
}

/// The highest of eight bits, repeated.
fn extended_byte(byte: Option<u8>) -> Flat
    ensures { result ≡ extended_from 8 (flat byte) }
{
    match byte {
        None => Flat::Unknown,
        Some(v) => {
            let n = u32::from(v);
            Flat::Known(if n < 0x80 { n } else { n + 0xffff_ff00 })
        }
    }
}

/// The highest of sixteen bits, repeated.
fn extended_half(a: Option<u8>, b: Option<u8>) -> Flat
    ensures { result ≡ extended_from 16 (two_bytes a b) }
{
    match (a, b) {
        (Some(first), Some(second)) => {
            let n = u32::from(first) + 0x100 * u32::from(second);
            Flat::Known(if n < 0x8000 { n } else { n + 0xffff_0000 })
        }
        _ => Flat::Unknown,
    }
}
