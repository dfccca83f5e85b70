//! Why bytes are no trace.

use thiserror::Error;

/// Why the bytes are no trace. Packets are numbered from 0, and a length of 0 is no packet and
/// isn't counted.
#[derive(Clone, Copy, Debug, PartialEq, Eq, Error)]
pub enum TraceFault {
    /// There are fewer than 8 bytes, or the first four aren't `RTR1`, or `RTR2` where several
    /// streams are wanted.
    #[error("the trace doesn't begin with RTR1 or RTR2")]
    BadMagic,
    /// The byte of this number, 4 to 7, is the first that isn't the header's.
    #[error("byte {0} of the trace's header is wrong")]
    BadHeader(u32),
    /// The length of the packet of this number passes the end of the bytes.
    #[error("packet {0} is cut short")]
    Truncated(u64),
    /// The packet of this number has format 0, which the fixed parameters leave out.
    #[error("packet {0} has format 0")]
    Optional(u64),
    /// The packet of this number has format 3 and subformat 1, a trap, which the path of one
    /// process doesn't take.
    #[error("packet {0} is a trap")]
    Trap(u64),
    /// The support packet of this number has an encoder mode or options other than 0.
    #[error("packet {0} changes the encoder's mode or options")]
    BadSupport(u64),
    /// The length of the stream of this number, or its bytes, pass the end of the file.
    #[error("stream {0} is cut short")]
    StreamPastEnd(u32),
    /// Bytes follow the last stream, from this offset of the file on.
    #[error("bytes from {0} on follow the last stream")]
    Rest(u64),
}
