//! What the operations compute (RISC-V unprivileged manual 20191213, chapters 2.4, 2.5, 7 and 8).

ghost use Rattle.std.specs.Prelude.{◌≡◌, ◌*◌, ◌*ℤ◌, ◌+◌, ◌-◌, ◌/◌, ◌%◌, ◌^◌, ◌==◌, ◌<◌, pos, IsTrue, ◌↔◌, if◌then◌else◌, int_div, int_rem, FitsSigned};
ghost use mir.Syntax.{w32};
ghost use Rattle.std.specs.Int.{int_shr};
ghost use Rattle.rept_isa.specs.Numbers.{word};
ghost use Rattle.rept_machine.specs.Arithmetic.{computed, computed_imm, register_form, branch_holds, below_signed, signed_word, high_word, combined};

use rept_isa::number::word;
use rept_isa::{AmoOp, BranchOp, ImmOp, RegOp};

/// The result of an operation on two registers.
pub fn computed(op: RegOp, a: u32, b: u32) -> u32
    ensures { result ≡ computed op a b }
{
    match op {
        RegOp::Add => a.wrapping_add(b),
        RegOp::Sub => a.wrapping_sub(b),
        RegOp::Sll => a.wrapping_shl(b),
        RegOp::Slt => u32::from(below_signed(a, b)),
        RegOp::Sltu => u32::from(a < b),
        RegOp::Xor => a ^ b,
        RegOp::Srl => a.wrapping_shr(b),
        RegOp::Sra => with_sign(a, b),
        RegOp::Or => a | b,
        RegOp::And => a & b,
        RegOp::Mul => a.wrapping_mul(b),
        RegOp::Mulh => high_word(widened(a) * widened(b)),
        RegOp::Mulhsu => high_word(widened(a) * i64::from(b)),
        RegOp::Mulhu => ((u64::from(a) * u64::from(b)) >> 32) as u32,
        RegOp::Div => signed_quotient(a, b),
        RegOp::Divu => a.checked_div(b).unwrap_or(u32::MAX),
        RegOp::Rem => signed_remainder(a, b),
        RegOp::Remu => a.checked_rem(b).unwrap_or(a),
    }
}

/// The result of an operation on a register and an immediate, which is sign-extended.
pub fn computed_imm(op: ImmOp, a: u32, imm: i32) -> u32
    ensures { result ≡ computed_imm op a imm }
{
    computed(register_form(op), a, word(imm))
}

/// The operation on two registers that does the same with the immediate as its second operand.
pub fn register_form(op: ImmOp) -> RegOp
    ensures { result ≡ register_form op }
{
    match op {
        ImmOp::Addi => RegOp::Add,
        ImmOp::Slti => RegOp::Slt,
        ImmOp::Sltiu => RegOp::Sltu,
        ImmOp::Xori => RegOp::Xor,
        ImmOp::Ori => RegOp::Or,
        ImmOp::Andi => RegOp::And,
        ImmOp::Slli => RegOp::Sll,
        ImmOp::Srli => RegOp::Srl,
        ImmOp::Srai => RegOp::Sra,
    }
}

/// What an atomic instruction leaves in memory where it writes, by the word that was there and the
/// value of its source. An SC writes its source, and an LR leaves the word as it is.
pub fn combined(op: AmoOp, held: u32, source: u32) -> u32
    ensures { result ≡ combined op held source }
{
    match op {
        AmoOp::Lr => held,
        AmoOp::Sc | AmoOp::Swap => source,
        AmoOp::Add => held.wrapping_add(source),
        AmoOp::Xor => held ^ source,
        AmoOp::And => held & source,
        AmoOp::Or => held | source,
        AmoOp::Min => chosen(below_signed(held, source), held, source),
        AmoOp::Max => chosen(below_signed(held, source), source, held),
        AmoOp::Minu => chosen(held < source, held, source),
        AmoOp::Maxu => chosen(held < source, source, held),
    }
}

fn chosen(first: bool, a: u32, b: u32) -> u32
    ensures { result ≡ (if first then a else b) }
{
    if first { a } else { b }
}

/// The condition of a branch.
pub fn branch_holds(op: BranchOp, a: u32, b: u32) -> bool
    ensures { result ≡ branch_holds op a b }
{
    match op {
        BranchOp::Beq => a == b,
        BranchOp::Bne => a != b,
        BranchOp::Blt => below_signed(a, b),
        BranchOp::Bge => !below_signed(a, b),
        BranchOp::Bltu => a < b,
        BranchOp::Bgeu => a >= b,
    }
}

fn below_signed(a: u32, b: u32) -> bool
    ensures { result ≡ below_signed a b }
{
    a.cast_signed() < b.cast_signed()
}

/// Shifted to the right by the low five bits of `b`, with the sign repeated.
pub fn with_sign(a: u32, b: u32) -> u32
    ensures { result ≡ computed RegOp.Sra a b }
{
    word(a.cast_signed() >> (b % 32))
}

/// The signed number.
fn widened(a: u32) -> i64
    ensures value { result ≡ signed_word a }
    ensures small { FitsSigned w32 result }
{
    i64::from(a.cast_signed())
}

/// The upper word of the 64 bits.
fn high_word(z: i64) -> u32
    ensures { result ≡ high_word z }
{
    (z.cast_unsigned() >> 32) as u32
}

fn signed_quotient(a: u32, b: u32) -> u32
    ensures { result ≡ computed RegOp.Div a b }
{
    if b == 0 {
        u32::MAX
    } else {
        word(a.cast_signed().wrapping_div(b.cast_signed()))
    }
}

fn signed_remainder(a: u32, b: u32) -> u32
    ensures { result ≡ computed RegOp.Rem a b }
{
    if b == 0 {
        a
    } else {
        word(a.cast_signed().wrapping_rem(b.cast_signed()))
    }
}
