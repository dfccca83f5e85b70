//! The code of the threads.

ghost use Rattle.std.specs.Prelude.{◌≡◌, ◌<◌, ℕ, length};
ghost use Rattle.rept_isa.specs.declared.instr.Instr.{Instr};
ghost use Rattle.rept_isa.specs.Range.{InRange};
ghost use Rattle.rept_isa.specs.Words.{IsWord};
ghost use Rattle.rept_isa.specs.Operands.{is_call};
ghost use Rattle.test_kit.specs.Threads.Play.Code.{IsPlayCode, instr_in, played_in, row_in};

use rept_isa::{ImmOp, Instr, Reg, StepRow, encode, is_call};

/// The register x0.
fn zero() -> Reg
    ensures { result ≡ 0 }
{
    match Reg::new(0) {
        Some(register) => register,
        None => unreachable!(),
    }
}

/// The word that the machine runs in the place of a thread's slot: that of its instruction, and for
/// the jump one that does nothing.
pub fn word_in(code: &[Instr], thread: u32, slot: u32) -> u32
    requires code { IsPlayCode code.now }
    requires thread { thread < 4 }
    requires slot { slot < 16 }
    ensures { IsWord result (played_in code.now thread slot) }
{
    if slot == 15 {
        let nothing = Instr::Imm {
            op: ImmOp::Addi,
            rd: zero(),
            rs1: zero(),
            imm: 0,
        };
        return encode(&nothing);
    }
    let instr = code[(15 * thread + slot) as usize];
    encode(&instr)
}

/// The instruction of a thread's slot, and in the last one the jump back to the first.
pub fn instr_in(code: &[Instr], thread: u32, slot: u32) -> Instr
    requires code { IsPlayCode code.now }
    requires thread { thread < 4 }
    requires slot { slot < 16 }
    ensures value { result ≡ instr_in code.now thread slot }
    ensures range { InRange result }
{
    if slot == 15 {
        return Instr::Jal {
            rd: zero(),
            imm: -60,
        };
    }
    code[(15 * thread + slot) as usize]
}

/// Row `step` of a thread.
pub fn row_in(code: &[Instr], thread: u32, step: u32) -> StepRow
    requires code { IsPlayCode code.now }
    requires thread { thread < 4 }
    requires step { step < 65536 }
    ensures { result ≡ row_in code.now thread step }
{
    let slot = step % 16;
    let base = 0x1_0000 + 64 * thread;
    let instr = instr_in(code, thread, slot);
    StepRow {
        at: base + 4 * slot,
        instr,
        next: base + 4 * ((step + 1) % 16),
        call: is_call(&instr),
        short: false,
    }
}
