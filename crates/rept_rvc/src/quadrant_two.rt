//! Quadrant 2: the stack, jumps by a register, moves and sums (table 16.7).

ghost use Rattle.std.specs.Prelude.{◌≡◌, ◌<◌};
ghost use Rattle.rept_rvc.specs.Reading.{read_two, read_slli, read_lwsp, read_move, read_jump};

use crate::field::{field, rd, rs2};
use crate::immediate::{lwsp_offset, swsp_offset};
use rept_isa::{ImmOp, Instr, LoadOp, RegOp, StoreOp, register};

pub fn quadrant_two(half: u16, function: u16) -> Option<Instr>
    ensures { result ≡ read_two function half }
{
    match function {
        0 => slli(half),
        2 => lwsp(half),
        4 => move_or_jump(half),
        6 => Some(Instr::Store {
            op: StoreOp::Sw,
            rs1: register(2),
            rs2: rs2(half),
            imm: swsp_offset(half),
        }),
        _ => None,
    }
}

/// Amounts over 31 are reserved.
fn slli(half: u16) -> Option<Instr>
    ensures { result ≡ read_slli half }
{
    if field(half, 12, 1) != 0 {
        return None;
    }
    let rd = rd(half);
    Some(Instr::Imm {
        op: ImmOp::Slli,
        rd,
        rs1: rd,
        imm: i32::from(field(half, 2, 5)),
    })
}

/// Into x0 it is reserved.
fn lwsp(half: u16) -> Option<Instr>
    ensures { result ≡ read_lwsp half }
{
    let rd = rd(half);
    if rd.number() == 0 {
        return None;
    }
    Some(Instr::Load {
        op: LoadOp::Lw,
        rd,
        rs1: register(2),
        imm: lwsp_offset(half),
    })
}

fn move_or_jump(half: u16) -> Option<Instr>
    ensures { result ≡ read_move half }
{
    let rd = rd(half);
    let rs2 = rs2(half);
    let link = field(half, 12, 1);
    if rs2.number() == 0 {
        return jump(half, link as u8);
    }
    let rs1 = if link == 0 { register(0) } else { rd };
    Some(Instr::Op {
        op: RegOp::Add,
        rd,
        rs1,
        rs2,
    })
}

/// C.JR and C.JALR; by x0 the one is reserved, and the other is C.EBREAK.
fn jump(half: u16, link: u8) -> Option<Instr>
    requires { link < 2 }
    ensures { result ≡ read_jump link half }
{
    let rs1 = rd(half);
    if rs1.number() != 0 {
        return Some(Instr::Jalr {
            rd: register(link),
            rs1,
            imm: 0,
        });
    }
    if link == 0 { None } else { Some(Instr::Ebreak) }
}
