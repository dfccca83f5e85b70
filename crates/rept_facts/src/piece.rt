//! A piece of a strip over which a byte is carried.

/// Numbers one after the other over which a byte is carried, and numbers before or after them from
/// which it isn't known whether it is carried on.
#[derive(Clone, Copy)]
pub struct Piece {
    /// The first number.
    pub from: u32,
    /// The last number.
    pub to: u32,
    /// The number before them, if it isn't known of it.
    pub before: Option<u32>,
    /// The last number, if it isn't known of it.
    pub after: Option<u32>,
}
