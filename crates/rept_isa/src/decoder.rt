//! From words to instructions.

ghost use Rattle.std.specs.Prelude.{◌≡◌, IfSome, IfNone, IsTrue};
ghost use Rattle.rept_isa.specs.declared.instr.Instr.{Instr};
ghost use Rattle.rept_isa.specs.Words.{IsWord, IsCounter, opcode};
ghost use Rattle.rept_isa.specs.Range.{InRange};
ghost use Rattle.rept_isa.specs.Reading.{read_by, read_jalr, read_branch, read_load, read_store, read_wide, read_shift, read_immediate, read_register, read_amo, read_fence, read_counter, read_system, is_counter};

use crate::field::{
    b_immediate, csr, funct3, funct5, funct7, i_immediate, j_immediate, opcode, rd, rs1, rs2,
    s_immediate, u_immediate,
};
use crate::instr::Instr;
use crate::operation::{
    amo_named, branch_named, load_named, register_named, shift_named, store_named, wide_named,
};

/// The instruction that the word spells. None exactly where it spells none of RV32IMA, Zifencei and
/// the reads of counters.
pub fn decode(word: u32) -> Option<Instr>
    ensures some { IfSome result (λ i. IsWord word i) }
    ensures only { (i : Instr) → IsWord word i → result ≡ Some i }
    ensures none { IfNone result ((i : Instr) → IsWord word i → ⊥) }
    ensures in_range { IfSome result (λ i. InRange i) }
{
    by_opcode(word)
}

fn by_opcode(word: u32) -> Option<Instr>
    ensures value { result ≡ read_by (opcode word) word }
    ensures some { IfSome result (λ i. IsWord word i) }
{
    match opcode(word) {
        0x37 => Some(Instr::Lui {
            rd: rd(word),
            imm: u_immediate(word),
        }),
        0x17 => Some(Instr::Auipc {
            rd: rd(word),
            imm: u_immediate(word),
        }),
        0x6f => Some(Instr::Jal {
            rd: rd(word),
            imm: j_immediate(word),
        }),
        0x67 => jalr(word),
        0x63 => branch(word),
        0x03 => load(word),
        0x23 => store(word),
        0x13 => immediate(word),
        0x33 => register(word),
        0x2f => amo(word),
        0x0f => fence(word),
        0x73 => system(word),
        _ => None,
    }
}

fn jalr(word: u32) -> Option<Instr>
    requires { opcode word ≡ 103 }
    ensures value { result ≡ read_jalr word }
    ensures some { IfSome result (λ i. IsWord word i) }
{
    if funct3(word) != 0 {
        return None;
    }
    Some(Instr::Jalr {
        rd: rd(word),
        rs1: rs1(word),
        imm: i_immediate(word),
    })
}

fn branch(word: u32) -> Option<Instr>
    requires { opcode word ≡ 99 }
    ensures value { result ≡ read_branch word }
    ensures some { IfSome result (λ i. IsWord word i) }
{
    let op = branch_named(funct3(word))?;
    Some(Instr::Branch {
        op,
        rs1: rs1(word),
        rs2: rs2(word),
        imm: b_immediate(word),
    })
}

fn load(word: u32) -> Option<Instr>
    requires { opcode word ≡ 3 }
    ensures value { result ≡ read_load word }
    ensures some { IfSome result (λ i. IsWord word i) }
{
    let op = load_named(funct3(word))?;
    Some(Instr::Load {
        op,
        rd: rd(word),
        rs1: rs1(word),
        imm: i_immediate(word),
    })
}

fn store(word: u32) -> Option<Instr>
    requires { opcode word ≡ 35 }
    ensures value { result ≡ read_store word }
    ensures some { IfSome result (λ i. IsWord word i) }
{
    let op = store_named(funct3(word))?;
    Some(Instr::Store {
        op,
        rs1: rs1(word),
        rs2: rs2(word),
        imm: s_immediate(word),
    })
}

fn immediate(word: u32) -> Option<Instr>
    requires { opcode word ≡ 19 }
    ensures value { result ≡ read_immediate word }
    ensures some { IfSome result (λ i. IsWord word i) }
{
    if funct3(word) == 1 || funct3(word) == 5 {
        shift(word)
    } else {
        wide(word)
    }
}

fn shift(word: u32) -> Option<Instr>
    requires { opcode word ≡ 19 }
    ensures value { result ≡ read_shift word }
    ensures some { IfSome result (λ i. IsWord word i) }
{
    let op = shift_named(funct7(word), funct3(word))?;
    Some(Instr::Imm {
        op,
        rd: rd(word),
        rs1: rs1(word),
        imm: i32::from(rs2(word).number()),
    })
}

fn wide(word: u32) -> Option<Instr>
    requires { opcode word ≡ 19 }
    ensures value { result ≡ read_wide word }
    ensures some { IfSome result (λ i. IsWord word i) }
{
    let op = wide_named(funct3(word))?;
    Some(Instr::Imm {
        op,
        rd: rd(word),
        rs1: rs1(word),
        imm: i_immediate(word),
    })
}

fn register(word: u32) -> Option<Instr>
    requires { opcode word ≡ 51 }
    ensures value { result ≡ read_register word }
    ensures some { IfSome result (λ i. IsWord word i) }
{
    let op = register_named(funct7(word), funct3(word))?;
    Some(Instr::Op {
        op,
        rd: rd(word),
        rs1: rs1(word),
        rs2: rs2(word),
    })
}

fn amo(word: u32) -> Option<Instr>
    requires { opcode word ≡ 47 }
    ensures value { result ≡ read_amo word }
    ensures some { IfSome result (λ i. IsWord word i) }
{
    if funct3(word) != 2 {
        return None;
    }
    let op = amo_named(funct5(word), rs2(word).number())?;
    Some(Instr::Amo {
        op,
        rd: rd(word),
        rs1: rs1(word),
        rs2: rs2(word),
    })
}

fn fence(word: u32) -> Option<Instr>
    requires { opcode word ≡ 15 }
    ensures value { result ≡ read_fence word }
    ensures some { IfSome result (λ i. IsWord word i) }
{
    if funct3(word) < 2 {
        Some(Instr::Fence)
    } else {
        None
    }
}

fn system(word: u32) -> Option<Instr>
    requires { opcode word ≡ 115 }
    ensures value { result ≡ read_system word }
    ensures some { IfSome result (λ i. IsWord word i) }
{
    match word {
        0x0000_0073 => Some(Instr::Ecall),
        0x0010_0073 => Some(Instr::Ebreak),
        _ => counter(word),
    }
}

fn counter(word: u32) -> Option<Instr>
    requires { opcode word ≡ 115 }
    ensures value { result ≡ read_counter word }
    ensures some { IfSome result (λ i. IsWord word i) }
{
    let csr = csr(word);
    if funct3(word) == 2 && rs1(word).number() == 0 && is_counter(csr) {
        Some(Instr::Counter { rd: rd(word), csr })
    } else {
        None
    }
}

fn is_counter(csr: u16) -> bool
    ensures value { result ≡ is_counter csr }
    ensures counter { IsTrue result → IsCounter csr }
{
    matches!(csr, 0xc00..=0xc02 | 0xc80..=0xc82)
}
