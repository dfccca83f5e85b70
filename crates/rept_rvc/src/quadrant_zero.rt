//! Quadrant 0: a sum with the stack pointer, and words at popular registers (table 16.5).

ghost use Rattle.std.specs.Prelude.{◌≡◌};
ghost use Rattle.rept_rvc.specs.Reading.{read_zero, read_addi4spn};

use crate::field::{rs1_popular, rs2_popular};
use crate::immediate::{addi4spn_immediate, word_offset};
use rept_isa::{ImmOp, Instr, LoadOp, StoreOp, register};

pub fn quadrant_zero(half: u16, function: u16) -> Option<Instr>
    ensures { result ≡ read_zero function half }
{
    match function {
        0 => addi4spn(half),
        2 => Some(Instr::Load {
            op: LoadOp::Lw,
            rd: rs2_popular(half),
            rs1: rs1_popular(half),
            imm: word_offset(half),
        }),
        6 => Some(Instr::Store {
            op: StoreOp::Sw,
            rs1: rs1_popular(half),
            rs2: rs2_popular(half),
            imm: word_offset(half),
        }),
        _ => None,
    }
}

fn addi4spn(half: u16) -> Option<Instr>
    ensures { result ≡ read_addi4spn half }
{
    let imm = addi4spn_immediate(half);
    if imm == 0 {
        return None;
    }
    Some(Instr::Imm {
        op: ImmOp::Addi,
        rd: rs2_popular(half),
        rs1: register(2),
        imm: i32::from(imm),
    })
}
