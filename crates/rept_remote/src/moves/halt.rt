//! Where a move leads to.

/// Why a move stops.
#[derive(Clone, Copy)]
pub enum StopReason {
    /// After the step, or at a breakpoint, or where rows of several threads may have written a
    /// watched byte and none is named.
    Step,
    /// Past a row that writes the byte at this address, or may, where gdb couldn't see by itself
    /// whether it changed.
    Unseen(u32),
    /// Short of a row that writes the byte at this address, or of such a row of another thread: gdb
    /// makes the step over it by itself.
    Write(u32),
    /// Short of a row that writes the byte at this address, or may, each of which is to be told:
    /// gdb makes the step over it by itself.
    Access(u32),
    /// Nothing is known of what came before.
    Begin,
    /// Nothing comes after.
    End,
}

/// The point of its thread at which a move stops, and why.
#[derive(Clone, Copy)]
pub struct MoveEnd {
    /// the point, 0 to n
    pub point: u32,
    /// why it stops there
    pub stop: StopReason,
}

/// A write of a byte, or one that may be.
#[derive(Clone, Copy)]
pub struct LastWrite {
    /// the last point of a thread before it
    pub point: u32,
    /// the address of the byte
    pub address: u32,
}
