//! Why a trace has no path.

use rept_trace::TraceFault;
use std::alloc::{AllocError, AllocFailed};
use thiserror::Error;

/// Why a trace has no path over the program. Packets are numbered from 0. What comes first along
/// the trace is the fault, but for `Packet` and `NoStart`, which come before all others.
#[derive(Clone, Copy, Debug, Error)]
pub enum PathFault {
    /// No start packet may begin the path: the count of all packets. Or this packet comes where
    /// only a start packet may.
    #[error("no start packet before packet {0}")]
    NoStart(u32),
    /// No code is at this address.
    #[error("no code at {0:#010x}")]
    NotCode(u32),
    /// The word at this address, the second number, spells no instruction; or the half there, which
    /// is one of a compressed instruction.
    #[error("no instruction at {0:#010x}: {1:#010x}")]
    NotRv32im(u32, u32),
    /// The address is no multiple of 4. It doesn't come where code may be compressed.
    #[error("a path to {0:#010x}, which is no multiple of 4")]
    Unaligned(u32),
    /// On the way of this packet there is no bit for the branch at this address.
    #[error("packet {0} has no bit for the branch at {1:#010x}")]
    NoBranchBit(u32, u32),
    /// So many branch bits are not used where an uninferable jump ends the way of this packet. With
    /// 0 that for the branch at the jump's target is missing.
    #[error("packet {0} leaves {1} branch bits")]
    BranchesLeft(u32, u32),
    /// This packet tells branches alone, and its way meets the uninferable jump at this address.
    #[error("packet {0} doesn't say where the jump at {1:#010x} goes")]
    JumpInMap(u32, u32),
    /// This start packet doesn't go on from the last address before it, the second number, at its
    /// own, the third.
    #[error("packet {0} doesn't go on from {1:#010x} at {2:#010x}")]
    Gap(u32, u32, u32),
    /// The path doesn't go on from its last address, the first number, to the dump's program
    /// counter, the second.
    #[error("the path ends at {0:#010x} and not before {1:#010x}")]
    End(u32, u32),
    /// On the way of this packet, or after the last of so many packets, there are more than 65,536
    /// steps.
    #[error("more than 65536 steps at packet {0}")]
    TooLong(u32),
    /// A packet is refused.
    #[error("{0}")]
    Packet(TraceFault),
    /// The way of this packet meets the ECALL or EBREAK at this address.
    #[error("packet {0} goes on from the trap at {1:#010x}")]
    Trapped(u32, u32),
    /// No memory was left.
    #[error("out of memory")]
    OutOfMemory,
    /// The time of this packet is less than one before it in its stream. Of several streams alone,
    /// as are those that follow.
    #[error("packet {0} is of an earlier time than one before it")]
    TimeBack(u32),
    /// Two harts tell of one thread, that of this process, at the same time, the second number.
    #[error("process {0} runs in two streams at time {1}")]
    SliceOverlap(u32, u64),
    /// This start packet is of a thread without a note, that of the process of the second number.
    #[error("packet {0} is of process {1}, which has no note")]
    UnknownThread(u32, u32),
    /// This start packet comes while another thread runs than its own, that of the process of the
    /// second number.
    #[error("packet {0} of process {1} comes while another thread runs")]
    OtherThread(u32, u32),
}

impl From<AllocError> for PathFault {
    ghost use Rattle.std.specs.Prelude.{◌≡◌};
    ghost use Rattle.rept_path.specs.declared.fault.PathFault.TheVariants.{OutOfMemory};

    ghost from_gives = { λ _ e. e ≡ OutOfMemory };

    fn from(_e: AllocError) -> PathFault {
        PathFault::OutOfMemory
    }
}

impl<T: Drop> From<AllocFailed<T>> for PathFault {
    ghost use Rattle.std.specs.Prelude.{◌≡◌};
    ghost use Rattle.rept_path.specs.declared.fault.PathFault.TheVariants.{OutOfMemory};

    ghost from_gives = { λ _ e. e ≡ OutOfMemory };

    fn from(_e: AllocFailed<T>) -> PathFault {
        PathFault::OutOfMemory
    }
}
