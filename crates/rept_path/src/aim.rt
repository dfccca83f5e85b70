//! Where the moves of a packet stop.

/// Where the moves of a packet stop.
#[derive(Clone, Copy)]
pub enum Aim {
    /// The target of an uninferable jump.
    Jumped,
    /// The start packet's address, or the target of an uninferable jump.
    Start {
        address: u32,
    },
    /// The reported address, or the target of an uninferable jump.
    Report {
        address: u32,
        notify: bool,
        updiscon: bool,
    },
    /// A branch that takes the last bit.
    LastBit,
}
