//! A byte and the points at which it has one value.

/// The byte at an address has a value at each point from one to another, both included.
#[derive(Clone, Copy)]
pub struct ByteSpan {
    /// the address
    pub address: u32,
    /// the first point
    pub from: u32,
    /// the last point
    pub to: u32,
    /// the value
    pub value: u8,
}
