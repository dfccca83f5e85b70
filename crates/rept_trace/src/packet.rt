//! The packets, and their fields.

/// The address that formats 1 and 2 report, with its flags (Efficient Trace for RISC-V 2.0, formats
/// 1 and 2).
#[derive(Clone, Copy)]
pub struct Report {
    /// The reported address less the one before, modulo 2^32, in bytes. It is a multiple of 4, or
    /// of 2 where code may be compressed.
    pub difference: u32,
    /// Whether the bit `notify` differs from the highest bit of the difference: the address is
    /// reported because a notification was asked for there.
    pub notify: bool,
    /// Whether the bit `updiscon` differs from `notify`: the address is where an uninferable jump
    /// led, and a packet of format 3 follows.
    pub updiscon: bool,
    /// Whether the bit `irreport` differs from `updiscon`. It concerns implicit returns, which the
    /// fixed parameters leave out.
    pub irreport: bool,
}

/// What a support packet says of the trace before it (field `qual_status`).
#[derive(Clone, Copy)]
pub enum Qual {
    /// Number 0: nothing changed.
    NoChange,
    /// Number 1: the trace ended, and the packet before was sent to report the last instruction.
    EndedRep,
    /// Number 2: packets were lost.
    TraceLost,
    /// Number 3: the trace ended, and the packet before would have been sent anyway.
    EndedNtr,
}

/// A packet. Addresses are byte addresses.
#[derive(Clone, Copy)]
pub enum Packet {
    /// Format 3, subformat 0: the path begins, or is synchronised, at this address. `branch` is
    /// false only where a branch stands there that is taken. The steps before the address happened
    /// not after the time, those from it on not before; the context is the process of the thread.
    /// Both are 0 where the trace has none.
    Start {
        branch: bool,
        privilege: u8,
        address: u32,
        time: u64,
        context: u32,
    },
    /// Format 3, subformat 2: the privilege level or the context changed. The steps before the
    /// packet happened not after the time. Time and context are 0 where the trace has none.
    Context {
        privilege: u8,
        time: u64,
        context: u32,
    },
    /// Format 3, subformat 3: whether the encoder is on, and what became of the trace.
    Support {
        enabled: bool,
        status: Qual,
    },
    /// Format 2: an address, with no branch before it.
    Address {
        report: Report,
    },
    /// Format 1 with no branch count: 31 branches and no address. Bit 0 of the map is the oldest,
    /// and 0 says taken.
    Map {
        map: u32,
    },
    /// Format 1 with a count from 1 to 31: the low `count` bits of the map are branches, bit 0 the
    /// oldest, and 0 says taken.
    MapAddress {
        count: u8,
        map: u32,
        report: Report,
    },
}
