//! The instruction at an address.

ghost use Rattle.std.specs.Prelude.{◌≡◌, ◌%◌, ◌==◌, Err, if◌then◌else◌};
ghost use Rattle.rept_path.specs.Code.{instruction, expansion, by_instruction, by_word, look, is_branch, calls_there};
ghost use Rattle.rept_path.specs.Program.{code_of};
ghost use Rattle.rept_path.specs.Moves.{position};
ghost use Rattle.rept_path.specs.declared.fault.PathFault.{PathFault};

use crate::fault::PathFault;
use crate::flow::branches;
use crate::program::Program;
use rept_isa::{Instr, decode};
use rept_rvc::expand;

/// The instruction that the word spells.
fn instruction(spelled: u32) -> Option<Instr>
    ensures { result ≡ instruction spelled }
{
    decode(spelled)
}

/// The instruction that the half stands for.
fn expansion(half: u16) -> Option<Instr>
    ensures { result ≡ expansion half }
{
    expand(half)
}

/// The instruction of a word of code at an address, or why none can have run there.
pub fn by_word(address: u32, word: Option<u32>) -> Result<Instr, PathFault>
    ensures { result ≡ by_word address word }
{
    let Some(spelled) = word else {
        return Err(PathFault::NotCode(address));
    };
    let Some(instr) = instruction(spelled) else {
        return Err(PathFault::NotRv32im(address, spelled));
    };
    Ok(instr)
}

/// The instruction that the half of a compressed one at an address stands for, or that it stands
/// for none.
pub fn by_half(address: u32, half: u16) -> Result<Instr, PathFault>
    ensures { result ≡ by_instruction address half (expansion half) }
{
    let Some(instr) = expansion(half) else {
        return Err(PathFault::NotRv32im(address, u32::from(half)));
    };
    Ok(instr)
}

/// The instruction at an address of code that isn't compressed, at which this word stands, if one
/// does; or why none can have run there: the address is no multiple of 4, there is no code, or the
/// word spells no instruction of RV32IMA.
pub fn instruction_at(address: u32, word: Option<u32>) -> Result<Instr, PathFault>
    ensures { result ≡ (if address % 4 == 0 then by_word address word else Err (PathFault.Unaligned address)) }
{
    if address % 4 != 0 {
        return Err(PathFault::Unaligned(address));
    }
    by_word(address, word)
}

/// The instruction at an address of the path.
#[tactic(auto, unfolding(crate::specs::Code::look))]
pub fn look(program: &Program<'_>, address: u32) -> Result<Instr, PathFault>
    ensures { result ≡ look (code_of program.now) address }
{
    if address % program.alignment() != 0 {
        return Err(PathFault::Unaligned(address));
    }
    match program.short_half(address) {
        Some(half) => by_half(address, half),
        None => by_word(address, program.dump.word_of_code(address)),
    }
}

/// The address, which the path must be able to come to.
pub fn position_of(program: &Program<'_>, address: u32) -> Result<u32, PathFault>
    ensures { result ≡ position (code_of program.now) address }
{
    match look(program, address) {
        Ok(_) => Ok(address),
        Err(fault) => Err(fault),
    }
}

/// Whether a branch stands there.
#[tactic(auto, unfolding(crate::specs::Code::is_branch))]
pub fn holds_branch(program: &Program<'_>, address: u32) -> bool
    ensures { result ≡ is_branch (code_of program.now) address }
{
    match look(program, address) {
        Ok(instr) => branches(&instr),
        Err(_) => false,
    }
}

/// Whether a call stands there.
pub fn holds_call(program: &Program<'_>, address: u32) -> bool
    ensures { result ≡ calls_there (look (code_of program.now) address) }
{
    matches!(look(program, address), Ok(Instr::Ecall))
}
