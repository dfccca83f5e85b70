//! What a packet asks for.

/// A thread, as a packet names it. The number of a thread is that of its process.
#[derive(Clone, Copy, Debug)]
pub enum ThreadName {
    /// The one that was selected for moves, by a packet that can name none.
    Selected,
    /// Any one: `0`; or all: `-1`; or a packet that could name one, and doesn't.
    Any,
    /// The one of this number.
    One(u32),
    /// What is no number of a thread.
    Unreadable,
}

/// Addresses of instructions: `first` and those after it, up to `end`, which is none of them.
#[derive(Clone, Copy, Debug)]
pub struct CodeRange {
    /// the first address
    pub first: u32,
    /// the address after the last one
    pub end: u32,
}

/// What is told of bytes that are watched.
#[derive(Clone, Copy, Debug)]
pub enum WatchKind {
    /// `Z2`: a write, of which gdb then looks whether it changed them.
    Writes,
    /// `Z4`: each write. That they are read isn't told.
    Accesses,
}

/// A move.
#[derive(Clone, Copy, Debug)]
pub enum Movement {
    /// One step forward.
    Step,
    /// Forward out of a range: one step, and on as long as the address is one of these.
    StepWithin(CodeRange),
    /// Forward to the next stop.
    Continue,
    /// One step back.
    StepBack,
    /// Back to the last stop.
    ContinueBack,
}

/// A text that a debugger reads in parts.
#[derive(Clone, Copy, Debug)]
pub enum TargetObject {
    /// `features:read:target.xml`: the description of the registers.
    Description,
    /// `auxv:read:`: the auxiliary vector, which the system gave to the process.
    AuxiliaryVector,
    /// `siginfo:read:`: what the system told of the signal that ended the process.
    SignalInfo,
}

/// A request of a debugger. Addresses and counts are in bytes.
#[derive(Clone, Copy, Debug)]
pub enum GdbRequest {
    /// `qSupported`: what this side can do.
    Features,
    /// `QStartNoAckMode`: packets are no longer to be acknowledged.
    NoAcknowledgments,
    /// `?`: why it stands where it does.
    Reason,
    /// `g`: all registers.
    Registers,
    /// `p N`: one register, by its number.
    Register(u32),
    /// `m A,LEN`: bytes from an address on, as digits.
    Memory(u32, u32),
    /// `x A,LEN`: the same, as they are.
    Bytes(u32, u32),
    /// `s`, `vCont;s`, `vCont;S`: one step forward; `vCont;rFIRST,END`: forward out of a range;
    /// `c`, `vCont;c`, `vCont;C`: forward to the next stop; `bs` and `bc`: one step back, and back
    /// to the last stop. `vCont;` may name a thread in its first action, and further actions are
    /// for other threads.
    Move(Movement, ThreadName),
    /// `vCont?`: which moves are known.
    Moves,
    /// `Z0 A`, `Z1 A`: a breakpoint is set at an address.
    Break(u32),
    /// `z0 A`, `z1 A`: it is taken away.
    Unbreak(u32),
    /// `Z2 A,LEN`, `Z4 A,LEN`: writes of so many bytes from an address on are watched.
    Watch(WatchKind, u32, u32),
    /// `z2 A,LEN`, `z4 A,LEN`: they are no longer.
    Unwatch(WatchKind, u32, u32),
    /// `qXfer:features:read:target.xml:OFFSET,LEN`, `qXfer:auxv:read::OFFSET,LEN`,
    /// `qXfer:siginfo:read::OFFSET,LEN`: a part of a text, so many bytes from an offset on.
    Part(TargetObject, u32, u32),
    /// `qOffsets`: where the executable was loaded.
    Offsets,
    /// `qRcmd,`: a line of a session, in pairs of digits.
    Monitor,
    /// `Hg`: a thread is selected for all that isn't a move.
    SelectThread(ThreadName),
    /// `Hc`: a thread is selected for moves.
    SelectMoving(ThreadName),
    /// `T`: whether a thread is alive.
    IsAlive(ThreadName),
    /// `qC`: the thread.
    Thread,
    /// `qfThreadInfo`: the threads.
    Threads,
    /// `qsThreadInfo`: further threads.
    MoreThreads,
    /// `qThreadExtraInfo`: a text about a thread.
    ThreadText(ThreadName),
    /// `qAttached`: whether the process was there before.
    Attached,
    /// `G`, `P`, `M`, `X`: a register or memory is to be changed.
    Change,
    /// `D`: the debugger leaves.
    Detach,
    /// `k`: the debugger ends what it debugs.
    Kill,
    /// Any other packet.
    Unknown,
}
