//! What kinds of instructions and ways of branches there are.

/// What an instruction does to the path.
#[derive(Clone, Copy, Debug)]
pub enum Kind {
    /// The next instruction follows.
    Plain,
    Branch,
    /// JAL, and JALR from x0: the word alone gives the target.
    Jump,
    /// JALR from any other register.
    FarJump,
    Load,
    Store,
    /// ECALL.
    Call,
    /// EBREAK.
    Stop,
    /// A read of a counter.
    Counter,
}

/// Which way the row of a branch went.
#[derive(Clone, Copy, Debug)]
pub enum Turn {
    Taken,
    NotTaken,
    /// The target is the next instruction.
    Either,
    /// No branch, or one that leads to another place.
    NoBranch,
}
