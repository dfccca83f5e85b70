//! The printed text of an instruction.

ghost use Rattle.std.specs.Prelude.{◌≡◌, ◌+◌, ◌/◌, ◌%◌, ◌^◌, ◌<◌, ◌++◌, codes, Some};
ghost use Rattle.std.specs.Fmt.{digits, signed_decimal, DisplaysOnOk};
ghost use Rattle.rept_isa.specs.Numbers.{plus};
ghost use Rattle.rept_isa.specs.Texts.{offset_of, register_text, hex_digit, hex_text, place_text, address_text, branch_name, load_name, store_name, imm_name, op_name, amo_name, amo_text, instruction_text};

use crate::instr::{AmoOp, BranchOp, ImmOp, Instr, LoadOp, RegOp, StoreOp};
use crate::number::plus;
use crate::reg::Reg;
use std::fmt;

impl fmt::Display for Reg {
    ghost output = { λ r. Some (register_text r) };

    fn fmt<W: fmt::Write>(&self, f: &mut fmt::Formatter<W>) -> fmt::Result {
        let number = self.number();
        write!(f, "x{number}")
    }
}

/// An instruction at an address, written as assemblers write it: `addi x5,x6,-1`,
/// `beq x1,x2,0x00010008`.
#[derive(Clone, Copy)]
pub struct Shown {
    pub at: u32,
    pub instr: Instr,
}

impl Shown {
    /// Where a direct jump or a branch leads to.
    fn target(&self) -> Address
        ensures { result.0 ≡ plus self.now.at (offset_of self.now.instr) }
    {
        match self.instr {
            Instr::Jal { imm, .. } | Instr::Branch { imm, .. } => Address(plus(self.at, imm)),
            _ => Address(plus(self.at, 0)),
        }
    }
}

impl fmt::Display for Shown {
    ghost output = { λ s. Some (instruction_text s.at s.instr) };

    fn fmt<W: fmt::Write>(&self, f: &mut fmt::Formatter<W>) -> fmt::Result {
        match self.instr {
            Instr::Lui { rd, imm } => show_upper(f, "lui", rd, imm),
            Instr::Auipc { rd, imm } => show_upper(f, "auipc", rd, imm),
            Instr::Jal { rd, .. } => show_jump(f, rd, self.target()),
            Instr::Jalr { rd, rs1, imm } => show_place(f, "jalr", rd, (rs1, imm)),
            Instr::Branch { op, rs1, rs2, .. } => {
                show_branch(f, branch_name(op), (rs1, rs2), self.target())
            }
            Instr::Load { op, rd, rs1, imm } => show_place(f, load_name(op), rd, (rs1, imm)),
            Instr::Store { op, rs1, rs2, imm } => show_place(f, store_name(op), rs2, (rs1, imm)),
            Instr::Imm { op, rd, rs1, imm } => show_immediate(f, imm_name(op), (rd, rs1), imm),
            Instr::Op { op, rd, rs1, rs2 } => show_registers(f, op_name(op), (rd, rs1, rs2)),
            Instr::Amo { op, rd, rs1, rs2 } => show_amo(f, op, (rd, rs1, rs2)),
            Instr::Fence => f.write_str("fence"),
            Instr::Ecall => f.write_str("ecall"),
            Instr::Ebreak => f.write_str("ebreak"),
            Instr::Counter { rd, csr } => show_counter(f, rd, csr),
        }
    }
}

/// The name, a register and the upper 20 bits of an immediate.
fn show_upper<W: fmt::Write>(
    f: &mut fmt::Formatter<W>,
    name: &str,
    rd: Reg,
    imm: u32,
) -> fmt::Result
    ensures { DisplaysOnOk W.Write.write_str_gives f.old result (Some (name.now ++ codes " " ++ register_text rd ++ codes "," ++ hex_text (imm / 2 ^ 12))) f.new }
{
    write!(f, "{name} {rd},0x{:x}", imm >> 12)
}

/// A direct jump, with where it leads.
fn show_jump<W: fmt::Write>(f: &mut fmt::Formatter<W>, rd: Reg, target: Address) -> fmt::Result
    ensures { DisplaysOnOk W.Write.write_str_gives f.old result (Some (codes "jal " ++ register_text rd ++ codes "," ++ address_text target.0)) f.new }
{
    write!(f, "jal {rd},{target}")
}

/// The name, a register and an address that a base and an offset give.
fn show_place<W: fmt::Write>(
    f: &mut fmt::Formatter<W>,
    name: &str,
    register: Reg,
    place: (Reg, i32),
) -> fmt::Result
    ensures { DisplaysOnOk W.Write.write_str_gives f.old result (Some (name.now ++ codes " " ++ register_text register ++ codes "," ++ place_text place.1 place.0)) f.new }
{
    let (base, offset) = place;
    write!(f, "{name} {register},{offset}({base})")
}

/// A branch on two registers, with where it leads.
fn show_branch<W: fmt::Write>(
    f: &mut fmt::Formatter<W>,
    name: &str,
    operands: (Reg, Reg),
    target: Address,
) -> fmt::Result
    ensures { DisplaysOnOk W.Write.write_str_gives f.old result (Some (name.now ++ codes " " ++ register_text operands.0 ++ codes "," ++ register_text operands.1 ++ codes "," ++ address_text target.0)) f.new }
{
    let (rs1, rs2) = operands;
    write!(f, "{name} {rs1},{rs2},{target}")
}

/// The name, two registers and an immediate.
fn show_immediate<W: fmt::Write>(
    f: &mut fmt::Formatter<W>,
    name: &str,
    registers: (Reg, Reg),
    imm: i32,
) -> fmt::Result
    ensures { DisplaysOnOk W.Write.write_str_gives f.old result (Some (name.now ++ codes " " ++ register_text registers.0 ++ codes "," ++ register_text registers.1 ++ codes "," ++ signed_decimal imm)) f.new }
{
    let (rd, rs1) = registers;
    write!(f, "{name} {rd},{rs1},{imm}")
}

/// The name and three registers.
fn show_registers<W: fmt::Write>(
    f: &mut fmt::Formatter<W>,
    name: &str,
    registers: (Reg, Reg, Reg),
) -> fmt::Result
    ensures { DisplaysOnOk W.Write.write_str_gives f.old result (Some (name.now ++ codes " " ++ register_text registers.0 ++ codes "," ++ register_text registers.1 ++ codes "," ++ register_text registers.2)) f.new }
{
    let (rd, rs1, rs2) = registers;
    write!(f, "{name} {rd},{rs1},{rs2}")
}

/// An atomic instruction. LR has no source.
fn show_amo<W: fmt::Write>(
    f: &mut fmt::Formatter<W>,
    op: AmoOp,
    registers: (Reg, Reg, Reg),
) -> fmt::Result
    ensures { DisplaysOnOk W.Write.write_str_gives f.old result (Some (amo_text op registers.0 registers.1 registers.2)) f.new }
{
    let (rd, rs1, _) = registers;
    match op {
        AmoOp::Lr => write!(f, "lr.w {rd},({rs1})"),
        _ => show_with_source(f, amo_name(op), registers),
    }
}

/// The name, two registers and the one that has the address.
fn show_with_source<W: fmt::Write>(
    f: &mut fmt::Formatter<W>,
    name: &str,
    registers: (Reg, Reg, Reg),
) -> fmt::Result
    ensures { DisplaysOnOk W.Write.write_str_gives f.old result (Some (name.now ++ codes " " ++ register_text registers.0 ++ codes "," ++ register_text registers.2 ++ codes ",(" ++ register_text registers.1 ++ codes ")")) f.new }
{
    let (rd, rs1, rs2) = registers;
    write!(f, "{name} {rd},{rs2},({rs1})")
}

/// A read of a counter.
fn show_counter<W: fmt::Write>(f: &mut fmt::Formatter<W>, rd: Reg, csr: u16) -> fmt::Result
    ensures { DisplaysOnOk W.Write.write_str_gives f.old result (Some (codes "csrrs " ++ register_text rd ++ codes "," ++ hex_text csr ++ codes ",x0")) f.new }
{
    write!(f, "csrrs {rd},0x{csr:x},x0")
}

/// An address, printed as `0x` and eight digits.
#[derive(Clone, Copy, Drop)]
struct Address(u32);

impl fmt::Display for Address {
    ghost output = { λ a. Some (address_text a.0) };

    fn fmt<W: fmt::Write>(&self, f: &mut fmt::Formatter<W>) -> fmt::Result {
        let n = self.0;
        write!(
            f,
            "0x{}{}{}{}",
            digit(n, 28),
            digit(n, 24),
            digit(n, 20),
            digit(n, 16)
        )?;
        write!(
            f,
            "{}{}{}{}",
            digit(n, 12),
            digit(n, 8),
            digit(n, 4),
            digit(n, 0)
        )
    }
}

/// The hexadecimal digit of the four bits from this one on.
fn digit(n: u32, bit: u32) -> char
    requires { bit < 32 }
    ensures value { result ≡ hex_digit (n / 2 ^ bit % 16) }
    ensures ascii { result < 128 }
{
    let four = ((n >> bit) % 16) as u8;
    char::from(if four < 10 {
        b'0' + four
    } else {
        b'a' + (four - 10)
    })
}

fn branch_name(op: BranchOp) -> &'static str
    ensures { result.now ≡ branch_name op }
{
    match op {
        BranchOp::Beq => "beq",
        BranchOp::Bne => "bne",
        BranchOp::Blt => "blt",
        BranchOp::Bge => "bge",
        BranchOp::Bltu => "bltu",
        BranchOp::Bgeu => "bgeu",
    }
}

fn load_name(op: LoadOp) -> &'static str
    ensures { result.now ≡ load_name op }
{
    match op {
        LoadOp::Lb => "lb",
        LoadOp::Lh => "lh",
        LoadOp::Lw => "lw",
        LoadOp::Lbu => "lbu",
        LoadOp::Lhu => "lhu",
    }
}

fn store_name(op: StoreOp) -> &'static str
    ensures { result.now ≡ store_name op }
{
    match op {
        StoreOp::Sb => "sb",
        StoreOp::Sh => "sh",
        StoreOp::Sw => "sw",
    }
}

fn imm_name(op: ImmOp) -> &'static str
    ensures { result.now ≡ imm_name op }
{
    match op {
        ImmOp::Addi => "addi",
        ImmOp::Slti => "slti",
        ImmOp::Sltiu => "sltiu",
        ImmOp::Xori => "xori",
        ImmOp::Ori => "ori",
        ImmOp::Andi => "andi",
        ImmOp::Slli => "slli",
        ImmOp::Srli => "srli",
        ImmOp::Srai => "srai",
    }
}

fn op_name(op: RegOp) -> &'static str
    ensures { result.now ≡ op_name op }
{
    match op {
        RegOp::Add => "add",
        RegOp::Sub => "sub",
        RegOp::Sll => "sll",
        RegOp::Slt => "slt",
        RegOp::Sltu => "sltu",
        RegOp::Xor => "xor",
        RegOp::Srl => "srl",
        RegOp::Sra => "sra",
        RegOp::Or => "or",
        RegOp::And => "and",
        RegOp::Mul => "mul",
        RegOp::Mulh => "mulh",
        RegOp::Mulhsu => "mulhsu",
        RegOp::Mulhu => "mulhu",
        RegOp::Div => "div",
        RegOp::Divu => "divu",
        RegOp::Rem => "rem",
        RegOp::Remu => "remu",
    }
}

fn amo_name(op: AmoOp) -> &'static str
    ensures { result.now ≡ amo_name op }
{
    match op {
        AmoOp::Lr => "lr.w",
        AmoOp::Sc => "sc.w",
        AmoOp::Swap => "amoswap.w",
        AmoOp::Add => "amoadd.w",
        AmoOp::Xor => "amoxor.w",
        AmoOp::And => "amoand.w",
        AmoOp::Or => "amoor.w",
        AmoOp::Min => "amomin.w",
        AmoOp::Max => "amomax.w",
        AmoOp::Minu => "amominu.w",
        AmoOp::Maxu => "amomaxu.w",
    }
}
