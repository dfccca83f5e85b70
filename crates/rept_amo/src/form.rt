//! Atomic instructions, their addresses, and the words that they give.

ghost use Rattle.std.specs.Prelude.{◌≡◌};
ghost use Rattle.rept_amo.specs.Conclusions.{form_of, word_before, word_after, word_stored};

use crate::number;
use rept_isa::{AmoOp, Instr, Reg};
use rept_reason::When;

/// The operation and the registers of an atomic instruction.
#[derive(Clone, Copy)]
pub struct Form {
    pub op: AmoOp,
    pub rd: Reg,
    pub rs1: Reg,
    pub rs2: Reg,
}

/// An atomic instruction and the address in its first register.
#[derive(Clone, Copy)]
pub struct AtomicAccess {
    pub form: Form,
    pub base: u32,
}

/// A word that a rule gives, at a moment and an address, and the first of the row's places for
/// bytes that it takes.
#[derive(Clone, Copy)]
pub struct WordInferred {
    pub rule: u8,
    pub when: When,
    pub base: u32,
    pub word: u32,
    pub place: u32,
}

/// The form of an atomic instruction.
pub fn form_of(instr: &Instr) -> Option<Form>
    ensures { result ≡ form_of instr.now }
{
    match *instr {
        Instr::Amo { op, rd, rs1, rs2 } => Some(Form { op, rd, rs1, rs2 }),
        _ => None,
    }
}

/// A word before the row.
pub fn word_before(rule: u8, base: u32, word: u32) -> WordInferred
    ensures { result ≡ word_before rule base word }
{
    WordInferred {
        rule,
        when: When::Before,
        base,
        word,
        place: 0,
    }
}

/// The word that an atomic memory operation leaves.
pub fn word_after(base: u32, word: u32) -> WordInferred
    ensures { result ≡ word_after base word }
{
    WordInferred {
        rule: number::WRITTEN,
        when: When::After,
        base,
        word,
        place: 4,
    }
}

/// The word that an SC stored.
pub fn word_stored(base: u32, word: u32) -> WordInferred
    ensures { result ≡ word_stored base word }
{
    WordInferred {
        rule: number::STORED,
        when: When::After,
        base,
        word,
        place: 0,
    }
}
