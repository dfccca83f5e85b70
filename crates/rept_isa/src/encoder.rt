//! From instructions to words.

ghost use Rattle.std.specs.Prelude.{◌≡◌, ◌<◌, ◌^◌, ℕ};
ghost use Rattle.rept_isa.specs.declared.instr.Instr.{Instr};
ghost use Rattle.rept_isa.specs.declared.instr.ImmOp.{ImmOp};
ghost use Rattle.rept_isa.specs.declared.instr.AmoOp.{AmoOp};
ghost use Rattle.rept_isa.specs.Words.{IsWord, IsUpper, IsJal, IsIForm, IsBranch, IsStore, IsRegister, IsAmo, IsUnordered, HasSource, IsImmediate, IsShift, IsCounterRead, IsCounter, full_fence, opcode, rd_field, funct3, rs1_field, rs2_field, funct7, field, branch_funct3, load_funct3, store_funct3, op_funct3, op_funct7, amo_funct5};
ghost use Rattle.rept_isa.specs.Written.{IsWritten};
ghost use Rattle.rept_isa.specs.Range.{InRange, InBits, IsEven, IsUpperPart, HoldsImmediate, IsAmount};

use crate::instr::{AmoOp, BranchOp, ImmOp, Instr, LoadOp, RegOp, StoreOp};
use crate::number::word;
use crate::reg::Reg;

/// The word that spells the instruction, and no other one. A fence is written as the full one,
/// `fence iorw, iorw`: 0x0ff0000f, and an atomic instruction without an order of memory accesses.
/// Each immediate must be one that the instruction's format holds.
pub fn encode(instr: &Instr) -> u32
    requires { InRange instr.now }
    ensures spelled { IsWord result instr.now }
    ensures only { (i : Instr) → IsWord result i → i ≡ instr.now }
    ensures unordered { (op : AmoOp) (rd rs1 rs2 : ℕ) → instr.now ≡ Instr.Amo op rd rs1 rs2 → IsUnordered result }
    ensures fence { instr.now ≡ Instr.Fence → result ≡ full_fence }
{
    spell(instr)
}

/// The word of an instruction, by what the encoder writes of each kind.
fn spell(instr: &Instr) -> u32
    requires { InRange instr.now }
    ensures { IsWritten result instr.now }
{
    match *instr {
        Instr::Lui { rd, imm } => upper(0x37, rd, imm),
        Instr::Auipc { rd, imm } => upper(0x17, rd, imm),
        Instr::Jal { rd, imm } => jump(rd, imm),
        Instr::Jalr { rd, rs1, imm } => with_immediate(0x67, 0, rd, rs1, imm),
        Instr::Branch { op, rs1, rs2, imm } => branch(branch_number(op), rs1, rs2, imm),
        Instr::Load { op, rd, rs1, imm } => with_immediate(0x03, load_number(op), rd, rs1, imm),
        Instr::Store { op, rs1, rs2, imm } => store(store_number(op), rs1, rs2, imm),
        Instr::Imm { op, rd, rs1, imm } => immediate(op, rd, rs1, imm),
        Instr::Op { op, rd, rs1, rs2 } => register(op, rd, rs1, rs2),
        Instr::Amo { op, rd, rs1, rs2 } => amo(op, rd, rs1, rs2),
        Instr::Fence => 0x0ff0_000f,
        Instr::Ecall => 0x0000_0073,
        Instr::Ebreak => 0x0010_0073,
        Instr::Counter { rd, csr } => counter(rd, csr),
    }
}

/// The word of these fields, from the lowest to the highest.
fn fields(code: u32, low: u32, function: u32, first: u32, second: u32, seven: u32) -> u32
    requires code { code < 2 ^ 7 }
    requires low { low < 2 ^ 5 }
    requires function { function < 2 ^ 3 }
    requires first { first < 2 ^ 5 }
    requires second { second < 2 ^ 5 }
    requires seven { seven < 2 ^ 7 }
    ensures form { opcode result ≡ code }
    ensures target { rd_field result ≡ low }
    ensures operation { funct3 result ≡ function }
    ensures source { rs1_field result ≡ first }
    ensures other { rs2_field result ≡ second }
    ensures high { funct7 result ≡ seven }
{
    code + (low << 7) + (function << 12) + (first << 15) + (second << 20) + (seven << 25)
}

fn upper(code: u32, rd: Reg, imm: u32) -> u32
    requires code { code < 2 ^ 7 }
    requires part { IsUpperPart imm }
    ensures { IsUpper code result rd imm }
{
    with_upper(code, rd, imm >> 12)
}

/// The word of a format with 20 upper bits.
fn with_upper(code: u32, rd: Reg, bits: u32) -> u32
    requires code { code < 2 ^ 7 }
    requires bits { bits < 2 ^ 20 }
    ensures form { opcode result ≡ code }
    ensures target { rd_field result ≡ rd }
    ensures high { field result 12 20 ≡ bits }
{
    code + (u32::from(rd.number()) << 7) + (bits << 12)
}

/// The upper bits of a jump hold those of its immediate in the order 20, 10 to 1, 11, 19 to 12.
fn jump(rd: Reg, imm: i32) -> u32
    requires fits { InBits 21 imm }
    requires even { IsEven imm }
    ensures { IsJal result rd imm }
{
    let bits = word(imm) % (1 << 21);
    let low = (bits >> 12) % 256 + 256 * ((bits >> 11) % 2);
    with_upper(
        0x6f,
        rd,
        low + 512 * ((bits >> 1) % 1024) + (1 << 19) * (bits >> 20),
    )
}

fn with_immediate(code: u32, function: u32, rd: Reg, rs1: Reg, imm: i32) -> u32
    requires code { code < 2 ^ 7 }
    requires function { function < 2 ^ 3 }
    requires fits { InBits 12 imm }
    ensures { IsIForm code function result rd rs1 imm }
{
    let bits = word(imm) % 4096;
    fields(
        code,
        u32::from(rd.number()),
        function,
        u32::from(rs1.number()),
        bits % 32,
        bits >> 5,
    )
}

fn branch(function: u32, rs1: Reg, rs2: Reg, imm: i32) -> u32
    requires function { function < 2 ^ 3 }
    requires fits { InBits 13 imm }
    requires even { IsEven imm }
    ensures { IsBranch function result rs1 rs2 imm }
{
    let bits = word(imm) % 8192;
    let low = 2 * ((bits >> 1) % 16) + (bits >> 11) % 2;
    let high = (bits >> 5) % 64 + 64 * (bits >> 12);
    fields(
        0x63,
        low,
        function,
        u32::from(rs1.number()),
        u32::from(rs2.number()),
        high,
    )
}

fn store(function: u32, rs1: Reg, rs2: Reg, imm: i32) -> u32
    requires function { function < 2 ^ 3 }
    requires fits { InBits 12 imm }
    ensures { IsStore function result rs1 rs2 imm }
{
    let bits = word(imm) % 4096;
    fields(
        0x23,
        bits % 32,
        function,
        u32::from(rs1.number()),
        u32::from(rs2.number()),
        bits >> 5,
    )
}

fn immediate(op: ImmOp, rd: Reg, rs1: Reg, imm: i32) -> u32
    requires { HoldsImmediate op imm }
    ensures { IsImmediate op result rd rs1 imm }
{
    match op {
        ImmOp::Addi => with_immediate(0x13, 0, rd, rs1, imm),
        ImmOp::Slti => with_immediate(0x13, 2, rd, rs1, imm),
        ImmOp::Sltiu => with_immediate(0x13, 3, rd, rs1, imm),
        ImmOp::Xori => with_immediate(0x13, 4, rd, rs1, imm),
        ImmOp::Ori => with_immediate(0x13, 6, rd, rs1, imm),
        ImmOp::Andi => with_immediate(0x13, 7, rd, rs1, imm),
        ImmOp::Slli => shift(1, 0, rd, rs1, imm),
        ImmOp::Srli => shift(5, 0, rd, rs1, imm),
        ImmOp::Srai => shift(5, 32, rd, rs1, imm),
    }
}

fn shift(function: u32, seven: u32, rd: Reg, rs1: Reg, imm: i32) -> u32
    requires function { function < 2 ^ 3 }
    requires seven { seven < 2 ^ 7 }
    requires amount { IsAmount imm }
    ensures { IsShift function seven result rd rs1 imm }
{
    fields(
        0x13,
        u32::from(rd.number()),
        function,
        u32::from(rs1.number()),
        imm as u32,
        seven,
    )
}

fn register(op: RegOp, rd: Reg, rs1: Reg, rs2: Reg) -> u32
    ensures { IsRegister (op_funct3 op) (op_funct7 op) result rd rs1 rs2 }
{
    let (function, seven) = register_numbers(op);
    fields(
        0x33,
        u32::from(rd.number()),
        function,
        u32::from(rs1.number()),
        u32::from(rs2.number()),
        seven,
    )
}

fn amo(op: AmoOp, rd: Reg, rs1: Reg, rs2: Reg) -> u32
    requires { HasSource op rs2 }
    ensures spelled { IsAmo op result rd rs1 rs2 }
    ensures unordered { IsUnordered result }
{
    fields(
        0x2f,
        u32::from(rd.number()),
        2,
        u32::from(rs1.number()),
        u32::from(rs2.number()),
        4 * amo_number(op),
    )
}

/// The CSRRS that reads the counter.
fn counter(rd: Reg, csr: u16) -> u32
    requires { IsCounter csr }
    ensures { IsCounterRead result rd csr }
{
    let number = u32::from(csr);
    fields(0x73, u32::from(rd.number()), 2, 0, number % 32, number >> 5)
}

fn branch_number(op: BranchOp) -> u32
    ensures value { result ≡ branch_funct3 op }
    ensures small { result < 2 ^ 3 }
{
    match op {
        BranchOp::Beq => 0,
        BranchOp::Bne => 1,
        BranchOp::Blt => 4,
        BranchOp::Bge => 5,
        BranchOp::Bltu => 6,
        BranchOp::Bgeu => 7,
    }
}

fn load_number(op: LoadOp) -> u32
    ensures value { result ≡ load_funct3 op }
    ensures small { result < 2 ^ 3 }
{
    match op {
        LoadOp::Lb => 0,
        LoadOp::Lh => 1,
        LoadOp::Lw => 2,
        LoadOp::Lbu => 4,
        LoadOp::Lhu => 5,
    }
}

fn store_number(op: StoreOp) -> u32
    ensures value { result ≡ store_funct3 op }
    ensures small { result < 2 ^ 3 }
{
    match op {
        StoreOp::Sb => 0,
        StoreOp::Sh => 1,
        StoreOp::Sw => 2,
    }
}

/// funct3 and funct7.
fn register_numbers(op: RegOp) -> (u32, u32)
    ensures three { result.0 ≡ op_funct3 op }
    ensures seven { result.1 ≡ op_funct7 op }
    ensures small { result.0 < 2 ^ 3 }
    ensures fits { result.1 < 2 ^ 7 }
{
    match op {
        RegOp::Add => (0, 0),
        RegOp::Sub => (0, 32),
        RegOp::Sll => (1, 0),
        RegOp::Slt => (2, 0),
        RegOp::Sltu => (3, 0),
        RegOp::Xor => (4, 0),
        RegOp::Srl => (5, 0),
        RegOp::Sra => (5, 32),
        RegOp::Or => (6, 0),
        RegOp::And => (7, 0),
        RegOp::Mul => (0, 1),
        RegOp::Mulh => (1, 1),
        RegOp::Mulhsu => (2, 1),
        RegOp::Mulhu => (3, 1),
        RegOp::Div => (4, 1),
        RegOp::Divu => (5, 1),
        RegOp::Rem => (6, 1),
        RegOp::Remu => (7, 1),
    }
}

/// Bits 27 to 31.
fn amo_number(op: AmoOp) -> u32
    ensures value { result ≡ amo_funct5 op }
    ensures small { result < 2 ^ 5 }
{
    match op {
        AmoOp::Lr => 2,
        AmoOp::Sc => 3,
        AmoOp::Swap => 1,
        AmoOp::Add => 0,
        AmoOp::Xor => 4,
        AmoOp::And => 12,
        AmoOp::Or => 8,
        AmoOp::Min => 16,
        AmoOp::Max => 20,
        AmoOp::Minu => 24,
        AmoOp::Maxu => 28,
    }
}
