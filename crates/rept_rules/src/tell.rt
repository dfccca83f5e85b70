//! The registers that tell which bytes a row may write.

ghost use Rattle.std.specs.Prelude.{◌≡◌, ◌+◌, ◌≤◌, ◌++◌, ◌∷◌, [], length};
ghost use Rattle.smallvec.specs.SmallVec.{HasRoomFor};
ghost use Rattle.rept_rules.specs.MayWrite.{register_at, tells_atomic, tells_writes};

use rept_isa::{AmoOp, Instr, Reg, register};
use rept_reason::{RegisterAt, When};
use smallvec::SmallVec;

/// A list of such registers, which keeps within the room that it has in place.
pub type Tells = SmallVec<RegisterAt, 8>;

fn add(tells: &mut Tells, when: When, register: Reg)
    requires { HasRoomFor tells.old 1 }
    ensures items { tells.new.items ≡ tells.old.items ++ register_at when register ∷ [] }
    ensures capacity { tells.new.capacity ≡ tells.old.capacity }
    ensures few { length tells.new.items ≤ length tells.old.items + 1 }
{
    tells.push_reserved(RegisterAt { when, register });
}

/// The registers of a row of this instruction.
pub fn add_tells(tells: &mut Tells, instr: &Instr)
    requires { HasRoomFor tells.old 8 }
    ensures items { tells.new.items ≡ tells.old.items ++ tells_writes instr.now }
    ensures capacity { tells.new.capacity ≡ tells.old.capacity }
{
    match *instr {
        Instr::Store { rs1, .. } => add(tells, When::Before, rs1),
        Instr::Amo { op, rd, rs1, .. } => add_atomic(tells, op, rd, rs1),
        Instr::Ecall => add_call(tells),
        Instr::Lui { .. }
        | Instr::Auipc { .. }
        | Instr::Jal { .. }
        | Instr::Jalr { .. }
        | Instr::Branch { .. }
        | Instr::Load { .. }
        | Instr::Imm { .. }
        | Instr::Op { .. }
        | Instr::Fence
        | Instr::Ebreak
        | Instr::Counter { .. } => {}
    }
}

/// The address of an atomic instruction, and the answer of an SC.
fn add_atomic(tells: &mut Tells, op: AmoOp, rd: Reg, rs1: Reg)
    requires { HasRoomFor tells.old 2 }
    ensures items { tells.new.items ≡ tells.old.items ++ tells_atomic op rd rs1 }
    ensures capacity { tells.new.capacity ≡ tells.old.capacity }
{
    match op {
        AmoOp::Lr => {}
        AmoOp::Sc => add_try(tells, rd, rs1),
        _ => add(tells, When::Before, rs1),
    }
}

/// The address and the answer of an SC. x0 takes no answer.
fn add_try(tells: &mut Tells, rd: Reg, rs1: Reg)
    requires { HasRoomFor tells.old 2 }
    ensures items { tells.new.items ≡ tells.old.items ++ tells_atomic AmoOp.Sc rd rs1 }
    ensures capacity { tells.new.capacity ≡ tells.old.capacity }
{
    add(tells, When::Before, rs1);
    if rd.number() != 0 {
        add(tells, When::After, rd);
    }
}

/// The number of a call, its arguments and its answer.
fn add_call(tells: &mut Tells)
    requires { HasRoomFor tells.old 8 }
    ensures items { tells.new.items ≡ tells.old.items ++ tells_writes Instr.Ecall }
    ensures capacity { tells.new.capacity ≡ tells.old.capacity }
{
    add(tells, When::Before, register(17));
    add(tells, When::Before, register(10));
    add(tells, When::Before, register(11));
    add(tells, When::Before, register(12));
    add(tells, When::Before, register(13));
    add(tells, When::Before, register(14));
    add(tells, When::Before, register(15));
    add(tells, When::After, register(10));
}
