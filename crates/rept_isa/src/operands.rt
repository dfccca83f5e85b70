//! What an instruction reads and writes, and where it may lead.

ghost use Rattle.std.specs.Prelude.{◌≡◌};
ghost use Rattle.rept_isa.specs.Operands.{is_call, unless_zero, written_by, first_read, source_of, second_read, kind_of, way, turn_of};

use crate::class::{Kind, Turn};
use crate::instr::{AmoOp, Instr};
use crate::number::{following, plus};
use crate::reg::Reg;
use crate::row::StepRow;

/// Whether it is a call into the kernel (RISC-V unprivileged manual 20191213, chapter 2.8).
pub fn is_call(instr: &Instr) -> bool
    ensures { result ≡ is_call instr.now }
{
    matches!(*instr, Instr::Ecall)
}

/// The register that the instruction writes. None where it has no destination, or names x0. The
/// answer of an ECALL comes in x10 (a0).
pub fn writes(instr: &Instr) -> Option<Reg>
    ensures { result ≡ written_by instr.now }
{
    match *instr {
        Instr::Lui { rd, .. }
        | Instr::Auipc { rd, .. }
        | Instr::Jal { rd, .. }
        | Instr::Jalr { rd, .. }
        | Instr::Load { rd, .. }
        | Instr::Imm { rd, .. }
        | Instr::Op { rd, .. }
        | Instr::Amo { rd, .. }
        | Instr::Counter { rd, .. } => destination(rd),
        Instr::Ecall => Reg::new(10),
        Instr::Branch { .. } | Instr::Store { .. } | Instr::Fence | Instr::Ebreak => None,
    }
}

fn destination(rd: Reg) -> Option<Reg>
    ensures { result ≡ unless_zero rd }
{
    if rd.number() == 0 { None } else { Some(rd) }
}

/// The registers in the places of rs1 and rs2, x0 too. None where the instruction's form has no
/// such place, as that of an LR has none for rs2.
pub fn reads(instr: &Instr) -> (Option<Reg>, Option<Reg>)
    ensures first { result.0 ≡ first_read instr.now }
    ensures second { result.1 ≡ second_read instr.now }
{
    match *instr {
        Instr::Branch { rs1, rs2, .. }
        | Instr::Store { rs1, rs2, .. }
        | Instr::Op { rs1, rs2, .. } => { (Some(rs1), Some(rs2)) }
        Instr::Amo { op, rs1, rs2, .. } => (Some(rs1), source(op, rs2)),
        Instr::Jalr { rs1, .. } | Instr::Load { rs1, .. } | Instr::Imm { rs1, .. } => (
            Some(rs1),
            None,
        ),
        Instr::Lui { .. }
        | Instr::Auipc { .. }
        | Instr::Jal { .. }
        | Instr::Fence
        | Instr::Ecall
        | Instr::Ebreak
        | Instr::Counter { .. } => (None, None),
    }
}

fn source(op: AmoOp, rs2: Reg) -> Option<Reg>
    ensures { result ≡ source_of op rs2 }
{
    match op {
        AmoOp::Lr => None,
        _ => Some(rs2),
    }
}

/// What the instruction does to the path.
pub fn kind(instr: &Instr) -> Kind
    ensures { result ≡ kind_of instr.now }
{
    match *instr {
        Instr::Lui { .. }
        | Instr::Auipc { .. }
        | Instr::Imm { .. }
        | Instr::Op { .. }
        | Instr::Amo { .. }
        | Instr::Fence => Kind::Plain,
        Instr::Jal { .. } => Kind::Jump,
        Instr::Jalr { rs1, .. } => {
            if rs1.number() == 0 {
                Kind::Jump
            } else {
                Kind::FarJump
            }
        }
        Instr::Branch { .. } => Kind::Branch,
        Instr::Load { .. } => Kind::Load,
        Instr::Store { .. } => Kind::Store,
        Instr::Ecall => Kind::Call,
        Instr::Ebreak => Kind::Stop,
        Instr::Counter { .. } => Kind::Counter,
    }
}

/// Which way the row went: a branch whose target is the next instruction is `Either`; another one
/// is `Taken` where `next` is the target and `NotTaken` where it is the instruction that follows;
/// all else is `NoBranch`.
pub fn turn(row: &StepRow) -> Turn
    ensures { result ≡ turn_of row.now }
{
    match row.instr {
        Instr::Branch { imm, .. } => way(row.from(), plus(row.at, imm), row.next),
        _ => Turn::NoBranch,
    }
}

fn way(from: u32, target: u32, next: u32) -> Turn
    ensures { result ≡ way from target next }
{
    if target == following(from) {
        Turn::Either
    } else if next == target {
        Turn::Taken
    } else if next == following(from) {
        Turn::NotTaken
    } else {
        Turn::NoBranch
    }
}
