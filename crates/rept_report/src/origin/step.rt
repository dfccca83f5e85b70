//! Steps by which a byte is carried.

/// Which way a byte is carried between a moment and a next one.
#[derive(Clone, Copy)]
pub enum Direction {
    /// to the next one
    Onward,
    /// from the next one back
    Back,
}

/// A step by which a byte is carried to a moment.
#[derive(Clone, Copy)]
pub struct Carriage {
    /// the number of the moment from which it is carried
    pub from: u32,
    /// which way
    pub way: Direction,
}
