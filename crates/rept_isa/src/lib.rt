//! The instructions of RV32IMA: their words, their registers and their texts.
#![tactic(auto)]

pub mod class;
pub mod decoder;
pub mod encoder;
mod field;
pub mod instr;
pub mod number;
pub mod operands;
mod operation;
pub mod reg;
pub mod row;
pub mod shown;

pub use class::{Kind, Turn};
pub use decoder::decode;
pub use encoder::encode;
pub use instr::{AmoOp, BranchOp, ImmOp, Instr, LoadOp, RegOp, StoreOp};
pub use operands::{is_call, kind, reads, turn, writes};
pub use reg::{Reg, register};
pub use row::{StepRow, from_address};
pub use shown::Shown;
