//! The operation that a word's function fields name.

ghost use Rattle.std.specs.Prelude.{◌≡◌, IfSome};
ghost use Rattle.rept_isa.specs.Words.{branch_funct3, load_funct3, store_funct3, op_funct3, op_funct7, amo_funct5, HasSource};
ghost use Rattle.rept_isa.specs.Reading.{branch_named, load_named, store_named, base_named, other_named, multiply_named, register_named, amo_named, wide_named, shift_named};

use crate::instr::{AmoOp, BranchOp, ImmOp, LoadOp, RegOp, StoreOp};

pub fn branch_named(funct3: u32) -> Option<BranchOp>
    ensures value { result ≡ branch_named funct3 }
    ensures some { IfSome result (λ op. funct3 ≡ branch_funct3 op) }
{
    match funct3 {
        0 => Some(BranchOp::Beq),
        1 => Some(BranchOp::Bne),
        4 => Some(BranchOp::Blt),
        5 => Some(BranchOp::Bge),
        6 => Some(BranchOp::Bltu),
        7 => Some(BranchOp::Bgeu),
        _ => None,
    }
}

pub fn load_named(funct3: u32) -> Option<LoadOp>
    ensures value { result ≡ load_named funct3 }
    ensures some { IfSome result (λ op. funct3 ≡ load_funct3 op) }
{
    match funct3 {
        0 => Some(LoadOp::Lb),
        1 => Some(LoadOp::Lh),
        2 => Some(LoadOp::Lw),
        4 => Some(LoadOp::Lbu),
        5 => Some(LoadOp::Lhu),
        _ => None,
    }
}

pub fn store_named(funct3: u32) -> Option<StoreOp>
    ensures value { result ≡ store_named funct3 }
    ensures some { IfSome result (λ op. funct3 ≡ store_funct3 op) }
{
    match funct3 {
        0 => Some(StoreOp::Sb),
        1 => Some(StoreOp::Sh),
        2 => Some(StoreOp::Sw),
        _ => None,
    }
}

/// An operation on a register and an immediate of 12 bits. The two numbers between are those of the
/// shifts.
pub fn wide_named(funct3: u32) -> Option<ImmOp>
    ensures { result ≡ wide_named funct3 }
{
    match funct3 {
        0 => Some(ImmOp::Addi),
        2 => Some(ImmOp::Slti),
        3 => Some(ImmOp::Sltiu),
        4 => Some(ImmOp::Xori),
        6 => Some(ImmOp::Ori),
        7 => Some(ImmOp::Andi),
        _ => None,
    }
}

pub fn shift_named(funct7: u32, funct3: u32) -> Option<ImmOp>
    ensures { result ≡ shift_named funct7 funct3 }
{
    match (funct3, funct7) {
        (1, 0) => Some(ImmOp::Slli),
        (5, 0) => Some(ImmOp::Srli),
        (5, 32) => Some(ImmOp::Srai),
        _ => None,
    }
}

pub fn register_named(funct7: u32, funct3: u32) -> Option<RegOp>
    ensures value { result ≡ register_named funct7 funct3 }
    ensures some { IfSome result (λ op. (funct3 ≡ op_funct3 op) × (funct7 ≡ op_funct7 op)) }
{
    match funct7 {
        0 => base_named(funct3),
        1 => multiply_named(funct3),
        32 => other_named(funct3),
        _ => None,
    }
}

fn base_named(funct3: u32) -> Option<RegOp>
    ensures value { result ≡ base_named funct3 }
    ensures some { IfSome result (λ op. (funct3 ≡ op_funct3 op) × (0 ≡ op_funct7 op)) }
{
    match funct3 {
        0 => Some(RegOp::Add),
        1 => Some(RegOp::Sll),
        2 => Some(RegOp::Slt),
        3 => Some(RegOp::Sltu),
        4 => Some(RegOp::Xor),
        5 => Some(RegOp::Srl),
        6 => Some(RegOp::Or),
        7 => Some(RegOp::And),
        _ => None,
    }
}

fn other_named(funct3: u32) -> Option<RegOp>
    ensures value { result ≡ other_named funct3 }
    ensures some { IfSome result (λ op. (funct3 ≡ op_funct3 op) × (32 ≡ op_funct7 op)) }
{
    match funct3 {
        0 => Some(RegOp::Sub),
        5 => Some(RegOp::Sra),
        _ => None,
    }
}

fn multiply_named(funct3: u32) -> Option<RegOp>
    ensures value { result ≡ multiply_named funct3 }
    ensures some { IfSome result (λ op. (funct3 ≡ op_funct3 op) × (1 ≡ op_funct7 op)) }
{
    match funct3 {
        0 => Some(RegOp::Mul),
        1 => Some(RegOp::Mulh),
        2 => Some(RegOp::Mulhsu),
        3 => Some(RegOp::Mulhu),
        4 => Some(RegOp::Div),
        5 => Some(RegOp::Divu),
        6 => Some(RegOp::Rem),
        7 => Some(RegOp::Remu),
        _ => None,
    }
}

/// The operation of bits 27 to 31. The number in the place of rs2 is `second`, which is 0 for an
/// LR.
pub fn amo_named(funct5: u32, second: u8) -> Option<AmoOp>
    ensures value { result ≡ amo_named funct5 second }
    ensures some { IfSome result (λ op. (funct5 ≡ amo_funct5 op) × HasSource op second) }
{
    match funct5 {
        0 => Some(AmoOp::Add),
        1 => Some(AmoOp::Swap),
        2 => load_reserved(second),
        3 => Some(AmoOp::Sc),
        4 => Some(AmoOp::Xor),
        8 => Some(AmoOp::Or),
        12 => Some(AmoOp::And),
        16 => Some(AmoOp::Min),
        20 => Some(AmoOp::Max),
        24 => Some(AmoOp::Minu),
        28 => Some(AmoOp::Maxu),
        _ => None,
    }
}

fn load_reserved(second: u8) -> Option<AmoOp>
    ensures value { result ≡ amo_named 2 second }
    ensures some { IfSome result (λ op. (2 ≡ amo_funct5 op) × HasSource op second) }
{
    if second == 0 { Some(AmoOp::Lr) } else { None }
}
