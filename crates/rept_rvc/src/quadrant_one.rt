//! Quadrant 1: immediates, operations on popular registers, jumps and branches (table 16.6).

ghost use Rattle.std.specs.Prelude.{◌≡◌};
ghost use Rattle.rept_isa.specs.declared.instr.Instr.TheVariants.{Imm, Jal, Branch};
ghost use Rattle.rept_isa.specs.declared.instr.ImmOp.TheVariants.{Addi};
ghost use Rattle.rept_rvc.specs.Halves.{rd_field, rs1_popular, six_bit_immediate, jump_offset, branch_offset};
ghost use Rattle.rept_rvc.specs.Reading.{read_one, read_upper, read_operation, read_shift, read_register, operation_named};

use crate::field::{field, rd, rs1_popular, rs2_popular};
use crate::immediate::{
    addi16sp_immediate, branch_offset, jump_offset, lui_immediate, six_bit_immediate, six_bits,
};
use rept_isa::{BranchOp, ImmOp, Instr, Reg, RegOp, register};

pub fn quadrant_one(half: u16, function: u16) -> Option<Instr>
    ensures { result ≡ read_one function half }
{
    match function {
        0 => Some(add_immediate(half, rd(half))),
        1 => Some(jump(half, register(1))),
        2 => Some(add_immediate(half, register(0))),
        3 => upper(half),
        4 => operation(half),
        5 => Some(jump(half, register(0))),
        6 => Some(branch(half, BranchOp::Beq)),
        7 => Some(branch(half, BranchOp::Bne)),
        _ => None,
    }
}

fn add_immediate(half: u16, rs1: Reg) -> Instr
    ensures { result ≡ Imm Addi (rd_field half) rs1 (six_bit_immediate half) }
{
    Instr::Imm {
        op: ImmOp::Addi,
        rd: rd(half),
        rs1,
        imm: six_bit_immediate(half),
    }
}

fn jump(half: u16, rd: Reg) -> Instr
    ensures { result ≡ Jal rd (jump_offset half) }
{
    Instr::Jal {
        rd,
        imm: jump_offset(half),
    }
}

fn branch(half: u16, op: BranchOp) -> Instr
    ensures { result ≡ Branch op (rs1_popular half) 0 (branch_offset half) }
{
    Instr::Branch {
        op,
        rs1: rs1_popular(half),
        rs2: register(0),
        imm: branch_offset(half),
    }
}

/// C.ADDI16SP and C.LUI, of which each is reserved where its immediate is 0.
fn upper(half: u16) -> Option<Instr>
    ensures { result ≡ read_upper half }
{
    if six_bits(half) == 0 {
        return None;
    }
    let rd = rd(half);
    if rd.number() == 2 {
        Some(Instr::Imm {
            op: ImmOp::Addi,
            rd,
            rs1: rd,
            imm: addi16sp_immediate(half),
        })
    } else {
        Some(Instr::Lui {
            rd,
            imm: lui_immediate(half),
        })
    }
}

fn operation(half: u16) -> Option<Instr>
    ensures { result ≡ read_operation half }
{
    match field(half, 10, 2) {
        0 => shift(half, ImmOp::Srli),
        1 => shift(half, ImmOp::Srai),
        2 => {
            let rd = rs1_popular(half);
            Some(Instr::Imm {
                op: ImmOp::Andi,
                rd,
                rs1: rd,
                imm: six_bit_immediate(half),
            })
        }
        _ => register_operation(half),
    }
}

/// A shift of a popular register: amounts over 31 are reserved.
fn shift(half: u16, op: ImmOp) -> Option<Instr>
    ensures { result ≡ read_shift op half }
{
    if field(half, 12, 1) != 0 {
        return None;
    }
    let rd = rs1_popular(half);
    Some(Instr::Imm {
        op,
        rd,
        rs1: rd,
        imm: i32::from(field(half, 2, 5)),
    })
}

fn register_operation(half: u16) -> Option<Instr>
    ensures { result ≡ read_register half }
{
    if field(half, 12, 1) != 0 {
        return None;
    }
    let rd = rs1_popular(half);
    Some(Instr::Op {
        op: operation_named(field(half, 5, 2)),
        rd,
        rs1: rd,
        rs2: rs2_popular(half),
    })
}

/// The operation that bits 5 and 6 name.
fn operation_named(bits: u16) -> RegOp
    ensures { result ≡ operation_named bits }
{
    match bits {
        0 => RegOp::Sub,
        1 => RegOp::Xor,
        2 => RegOp::Or,
        _ => RegOp::And,
    }
}
