//! The instructions.

use crate::reg::Reg;

/// The condition of a branch (unprivileged manual, chapter 2.5).
#[derive(Clone, Copy)]
pub enum BranchOp {
    Beq,
    Bne,
    Blt,
    Bge,
    Bltu,
    Bgeu,
}

/// Width and extension of a load (chapter 2.6).
#[derive(Clone, Copy)]
pub enum LoadOp {
    Lb,
    Lh,
    Lw,
    Lbu,
    Lhu,
}

/// Width of a store (chapter 2.6).
#[derive(Clone, Copy)]
pub enum StoreOp {
    Sb,
    Sh,
    Sw,
}

/// An operation on a register and an immediate (chapter 2.4).
#[derive(Clone, Copy)]
pub enum ImmOp {
    Addi,
    Slti,
    Sltiu,
    Xori,
    Ori,
    Andi,
    Slli,
    Srli,
    Srai,
}

/// An operation on two registers (chapters 2.4 and 7).
#[derive(Clone, Copy)]
pub enum RegOp {
    Add,
    Sub,
    Sll,
    Slt,
    Sltu,
    Xor,
    Srl,
    Sra,
    Or,
    And,
    Mul,
    Mulh,
    Mulhsu,
    Mulhu,
    Div,
    Divu,
    Rem,
    Remu,
}

/// An operation on a word of memory (chapter 8): a load that reserves and a store that is
/// conditional on the reservation, and the atomic memory operations, which read a word, write
/// another one and leave no step between.
#[derive(Clone, Copy)]
pub enum AmoOp {
    Lr,
    Sc,
    Swap,
    Add,
    Xor,
    And,
    Or,
    Min,
    Max,
    Minu,
    Maxu,
}

/// An instruction of RV32IMA. `imm` is the immediate as the instruction uses it: a signed number,
/// or for `Lui` and `Auipc` the upper 20 bits in place; for the three shifts it is the amount, 0 to
/// 31.
#[derive(Clone, Copy)]
pub enum Instr {
    Lui {
        rd: Reg,
        imm: u32,
    },
    Auipc {
        rd: Reg,
        imm: u32,
    },
    Jal {
        rd: Reg,
        imm: i32,
    },
    Jalr {
        rd: Reg,
        rs1: Reg,
        imm: i32,
    },
    Branch {
        op: BranchOp,
        rs1: Reg,
        rs2: Reg,
        imm: i32,
    },
    Load {
        op: LoadOp,
        rd: Reg,
        rs1: Reg,
        imm: i32,
    },
    Store {
        op: StoreOp,
        rs1: Reg,
        rs2: Reg,
        imm: i32,
    },
    Imm {
        op: ImmOp,
        rd: Reg,
        rs1: Reg,
        imm: i32,
    },
    Op {
        op: RegOp,
        rd: Reg,
        rs1: Reg,
        rs2: Reg,
    },
    /// On the word at the address in `rs1`. The source `rs2` of an LR is x0.
    Amo {
        op: AmoOp,
        rd: Reg,
        rs1: Reg,
        rs2: Reg,
    },
    /// FENCE or FENCE.I, whose other bits are not kept.
    Fence,
    Ecall,
    Ebreak,
    /// CSRRS from a counter with source x0 (chapters 9 and 10).
    Counter {
        rd: Reg,
        csr: u16,
    },
}
