//! What arrives from a debugger.

use thiserror::Error;

/// The most bytes that are taken of a source.
pub const MOST_INPUT: u64 = 1_099_511_627_776;

/// The most bytes of a packet between `$` and `#`.
pub const MOST_BODY: usize = 4096;

/// What arrived.
#[derive(Clone, Copy, Debug, PartialEq, Eq)]
pub enum Arrival {
    /// A packet; the reader keeps the bytes that it carries.
    Packet,
    /// A packet whose two digits aren't its sum, or which ends within a pair of bytes that stands
    /// for one.
    Broken,
    /// A packet of more than 4096 bytes, which were passed over.
    Large,
    /// `-`: the last reply is wished for again.
    Again,
    /// The byte by which a debugger interrupts what it debugs.
    Interrupt,
}

/// Why nothing arrives any more.
#[derive(Clone, Copy, Debug, PartialEq, Eq, Error)]
pub enum Ending {
    /// The input ended between packets.
    #[error("the input has ended")]
    AtEnd,
    /// The input ended within a packet.
    #[error("the input ends within a packet")]
    InPacket,
    /// The source failed.
    #[error("the source failed")]
    ReadFault,
    /// The source has more than 1,099,511,627,776 bytes.
    #[error("too much input")]
    TooMuchInput,
}
