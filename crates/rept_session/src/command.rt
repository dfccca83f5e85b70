//! What a line of a session asks for, and why a line asks for nothing that can be answered.

ghost use Rattle.std.specs.Prelude.{◌≡◌};
ghost use Rattle.rept_session.specs.Commands.{number_of_refusal};

use crate::question::Question;
use rept_isa::Reg;
use thiserror::Error;

/// A command of a session. A cursor is at a point of one thread. Points are counted from 0 before
/// the thread's first step to n after its last one; steps from 0; threads from 0, in the order of
/// the core file's register notes.
#[derive(Clone, Copy, Debug)]
pub enum Command {
    /// `where`: tells the cursor and the address there.
    Where,
    /// `back K`: moves the cursor so many points down, at most to 0, and tells it.
    Back(u32),
    /// `fwd K`: moves the cursor so many points up, at most to the last one, and tells it.
    Fwd(u32),
    /// `goto I`: moves the cursor to this point, and tells it.
    Goto(u32),
    /// `regs`: tells the values of x1 to x31.
    Regs,
    /// `reg R`: tells the value of a register.
    Reg(Reg),
    /// `range R`: tells the lowest and the highest value that a register may have.
    Range(Reg),
    /// `mem A LEN`: tells bytes from an address on.
    Mem {
        /// the address of the first byte
        address: u32,
        /// how many bytes, 1 to 256
        count: u32,
    },
    /// `writer A`: tells which step wrote the byte at an address last.
    Writer(u32),
    /// `why R`: tells why the value of a register is known.
    WhyReg(Reg),
    /// `why A`: tells why the byte at an address is known.
    WhyByte(u32),
    /// `list I K`: tells steps of the cursor's thread, each with its address and instruction.
    List {
        /// the first step
        first: u32,
        /// how many steps, 1 to 256
        count: u32,
    },
    /// `thread T`: moves the cursor to the last point of a thread, and tells the thread's process
    /// and the cursor.
    Thread(u32),
    /// `stack`: tells the address at the cursor and the calls that the thread is in there, the last
    /// one first, at most 256 lines.
    Stack,
    /// `summary`: tells how much is known.
    Summary,
    /// `quit`: ends the session.
    Quit,
    /// A line without words.
    Nothing,
    /// One of the questions that leave the cursor where it is.
    Ask(Question),
}

/// Why a line is no command. The first check that fails is told, in this order: the line's length,
/// its first word, how many words come after that, registers, numbers, limits.
#[derive(Clone, Copy, Debug, Error)]
pub enum BadCommand {
    /// The first word names no command.
    #[error("the first word is no command")]
    Unknown,
    /// A word that has to be a number is none.
    #[error("a word is no number")]
    Number,
    /// This many words come after the first one, and the command takes another count of them.
    #[error("the command doesn't take {0} words")]
    Words(usize),
    /// A word that has to be a register is none.
    #[error("a word is no register")]
    Register,
    /// A number is over its limit, or is 0 where at least 1 is asked for.
    #[error("a number is past its limit")]
    Limit,
    /// The line has more than 256 bytes.
    #[error("the line is too long")]
    LongLine,
}

impl BadCommand {
    /// The number by which a session tells the refusal, 1 to 6.
    pub fn number(self) -> u32
        ensures { result ≡ number_of_refusal self }
    {
        match self {
            BadCommand::Unknown => 1,
            BadCommand::Number => 2,
            BadCommand::Words(_) => 3,
            BadCommand::Register => 4,
            BadCommand::Limit => 5,
            BadCommand::LongLine => 6,
        }
    }
}
