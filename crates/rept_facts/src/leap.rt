//! How far a byte's value goes at once.

/// A byte, the numbers of moments from the first to the last of which its value is known, and one
/// to which it goes from them.
#[derive(Clone, Copy)]
pub struct ByteLeap {
    /// the address
    pub address: u32,
    /// the first number
    pub first: u32,
    /// the last number
    pub last: u32,
    /// the number to which it goes
    pub to: u32,
}
