//! What a search found.

/// A number that has a value, and so many links away.
#[derive(Clone, Copy, PartialEq, Eq, Debug)]
pub struct NearestValue {
    /// the number
    pub number: u32,
    /// its value
    pub value: u8,
    /// how many links lead there, at least
    pub links: u32,
}
