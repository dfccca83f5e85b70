//! What is drawn from a seed.

ghost use Rattle.std.specs.Prelude.{◌≡◌, ◌<◌, ◌≤◌, pos};
ghost use Rattle.rept_isa.specs.Range.{InRange};
ghost use Rattle.test_kit.specs.Threads.Play.Drawn.{draw, slot_of, instr_of, made_instr};
ghost use Rattle.test_kit.specs.Threads.Play.Shares.{UsesOwn, Owns};

use rept_isa::{ImmOp, Instr, LoadOp, RegOp, StoreOp, register};

/// A number below another one, by its place among all that are drawn from a seed.
pub fn draw(seed: u32, number: u32, below: u32) -> u32
    requires number { number < 1024 }
    requires below { 0 < below }
    ensures value { result ≡ draw seed number below }
    ensures below { result < below }
{
    let start = u64::from(seed) + u64::from(number) * 0x9e37_79b1;
    let state = ((start * 1_664_525 + 1_013_904_223) % 0x1_0000_0000) as u32;
    state / 0x1_0000 % below
}

/// What is drawn for one slot of a thread: which instruction it is, three of the thread's
/// registers, and a number below 2,048.
#[derive(Clone, Copy)]
pub struct Slot {
    pub kind: u32,
    pub base: u8,
    pub target: u8,
    pub source: u8,
    pub number: u32,
}

/// The draws of a slot.
fn draw_slot(seed: u32, thread: u32, slot: u32) -> Slot
    requires thread { thread < 4 }
    requires slot { slot < 15 }
    ensures value { result ≡ slot_of seed thread slot }
    ensures base { Owns thread result.base }
    ensures target { Owns thread result.target }
    ensures source { Owns thread result.source }
    ensures number { result.number < 2048 }
{
    let first = 4 * (15 * thread + slot);
    let base = 18 + 3 * thread;
    Slot {
        kind: draw(seed, first, 6),
        base: base as u8,
        target: (base + 1 + draw(seed, first + 1, 2)) as u8,
        source: (base + 1 + draw(seed, first + 2, 2)) as u8,
        number: draw(seed, first + 3, 2048),
    }
}

/// An operation of the slot's source and target.
fn operation(op: RegOp, slot: &Slot) -> Instr
    requires target { slot.now.target < 32 }
    requires source { slot.now.source < 32 }
    ensures { result ≡ Instr.Op op slot.now.target slot.now.source slot.now.target }
{
    Instr::Op {
        op,
        rd: register(slot.target),
        rs1: register(slot.source),
        rs2: register(slot.target),
    }
}

/// A store of the slot's source.
fn store(op: StoreOp, slot: &Slot, imm: i32) -> Instr
    requires base { slot.now.base < 32 }
    requires source { slot.now.source < 32 }
    ensures { result ≡ Instr.Store op slot.now.base slot.now.source imm }
{
    Instr::Store {
        op,
        rs1: register(slot.base),
        rs2: register(slot.source),
        imm,
    }
}

/// The instruction of a slot's draws.
fn instr_of(slot: &Slot) -> Instr
    requires base { slot.now.base < 32 }
    requires target { slot.now.target < 32 }
    requires source { slot.now.source < 32 }
    requires number { slot.now.number < 2048 }
    ensures value { result ≡ instr_of slot.now }
    ensures range { InRange result }
{
    match slot.kind {
        0 => Instr::Imm {
            op: ImmOp::Addi,
            rd: register(slot.target),
            rs1: register(slot.source),
            imm: slot.number as i32 - 1024,
        },
        1 => operation(RegOp::Add, slot),
        2 => operation(RegOp::Mul, slot),
        3 => Instr::Load {
            op: LoadOp::Lw,
            rd: register(slot.target),
            rs1: register(slot.base),
            imm: (slot.number % 8 * 4) as i32,
        },
        4 => store(StoreOp::Sw, slot, (slot.number % 8 * 4) as i32),
        _ => store(StoreOp::Sb, slot, (slot.number % 32) as i32),
    }
}

/// The instruction of a thread's slot. A call stands in slot 7 alone.
pub fn made_instr(seed: u32, thread: u32, slot: u32) -> Instr
    requires thread { thread < 4 }
    requires slot { slot < 15 }
    ensures value { result ≡ made_instr seed thread slot }
    ensures uses { UsesOwn thread result }
    ensures range { InRange result }
{
    if slot == 7 {
        return Instr::Ecall;
    }
    instr_of(&draw_slot(seed, thread, slot))
}
