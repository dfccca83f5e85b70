//! The instructions of one slot of made code.

ghost use Rattle.std.specs.Prelude.{◌≡◌, ◌<◌, ◌≤◌, pos};
ghost use Rattle.rept_isa.specs.Range.{InRange};
ghost use Rattle.rept_make.specs.Draws.{IsSlot};
ghost use Rattle.rept_make.specs.Code.{drawn_instr, straight, slot_instr, IsTame, IsStraight, IsPlaced};

use crate::draw::Slot;
use rept_isa::{BranchOp, ImmOp, Instr, LoadOp, RegOp, StoreOp, register};

/// An operation on two registers of the slot.
fn operation(op: RegOp, slot: &Slot) -> Instr
    requires { IsSlot slot.now }
    ensures { result ≡ Instr.Op op slot.now.target slot.now.first slot.now.second }
{
    Instr::Op {
        op,
        rd: register(slot.target),
        rs1: register(slot.first),
        rs2: register(slot.second),
    }
}

/// An operation on a register of the slot and a number.
fn immediate(op: ImmOp, target: u8, slot: &Slot, imm: i32) -> Instr
    requires slot { IsSlot slot.now }
    requires target { target < 32 }
    ensures { result ≡ Instr.Imm op target slot.now.first imm }
{
    Instr::Imm {
        op,
        rd: register(target),
        rs1: register(slot.first),
        imm,
    }
}

/// A store of a register of the slot after x22.
fn store(op: StoreOp, slot: &Slot, imm: i32) -> Instr
    requires { IsSlot slot.now }
    ensures { result ≡ Instr.Store op 22 slot.now.first imm }
{
    Instr::Store {
        op,
        rs1: register(22),
        rs2: register(slot.first),
        imm,
    }
}

/// A branch over one instruction.
fn branch(op: BranchOp, slot: &Slot) -> Instr
    requires { IsSlot slot.now }
    ensures { result ≡ Instr.Branch op slot.now.first slot.now.second (pos 8) }
{
    Instr::Branch {
        op,
        rs1: register(slot.first),
        rs2: register(slot.second),
        imm: 8,
    }
}

/// The instruction of a slot's draws.
fn drawn_instr(slot: &Slot) -> Instr
    requires { IsSlot slot.now }
    ensures value { result ≡ drawn_instr slot.now }
    ensures tame { IsTame result }
    ensures range { InRange result }
    ensures straight { slot.now.kind < 14 → IsStraight result }
{
    match slot.kind {
        0 | 1 => immediate(ImmOp::Addi, slot.target, slot, slot.number as i32 - 1024),
        2 => operation(RegOp::Add, slot),
        3 => operation(RegOp::Sub, slot),
        4 => operation(RegOp::Xor, slot),
        5 => operation(RegOp::Mul, slot),
        6 => immediate(ImmOp::Andi, slot.target, slot, slot.number as i32),
        7 => operation(RegOp::Sltu, slot),
        8 => immediate(ImmOp::Srli, slot.target, slot, (slot.number % 32) as i32),
        9 => immediate(ImmOp::Andi, 21, slot, 1020),
        10 => Instr::Op {
            op: RegOp::Add,
            rd: register(22),
            rs1: register(20),
            rs2: register(21),
        },
        11 => store(StoreOp::Sw, slot, 0),
        12 => Instr::Load {
            op: LoadOp::Lw,
            rd: register(slot.target),
            rs1: register(22),
            imm: 0,
        },
        13 => store(StoreOp::Sb, slot, 3),
        14 => branch(BranchOp::Bltu, slot),
        _ => branch(BranchOp::Beq, slot),
    }
}

/// The instruction of slot `i` of the code. Four slots have a fixed one, and the last but one never
/// branches past the end.
pub fn slot_instr(i: usize, slot: Slot) -> Instr
    requires { IsSlot slot }
    ensures value { result ≡ slot_instr i slot }
    ensures placed { IsPlaced i result }
    ensures range { InRange result }
{
    match i {
        64 => Instr::Jalr {
            rd: register(1),
            rs1: register(23),
            imm: 0,
        },
        191 => Instr::Imm {
            op: ImmOp::Addi,
            rd: register(17),
            rs1: register(0),
            imm: 172,
        },
        192 => Instr::Ecall,
        255 => Instr::Jal {
            rd: register(0),
            imm: -1020,
        },
        254 => drawn_instr(&straight(slot)),
        _ => drawn_instr(&slot),
    }
}

/// The draws of a slot, but not those of a branch.
fn straight(slot: Slot) -> Slot
    requires { IsSlot slot }
    ensures value { result ≡ straight slot }
    ensures fits { IsSlot result }
    ensures kind { result.kind < 14 }
{
    let kind = if slot.kind >= 14 { 0 } else { slot.kind };
    Slot {
        kind,
        target: slot.target,
        first: slot.first,
        second: slot.second,
        number: slot.number,
    }
}
