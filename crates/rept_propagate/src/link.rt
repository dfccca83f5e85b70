//! What came of carrying a byte from a number to one that is next to it.

/// Whether the byte's value was new at one of them, and which row kept it from being carried on.
#[derive(Clone, Copy)]
pub struct Link {
    /// whether a value was new
    pub has_news: bool,
    /// the index, in the list of the rows that may write, of one that kept it from being carried.
    /// It is tried first at the next number: no clause rests on it.
    pub blocker: Option<usize>,
}
