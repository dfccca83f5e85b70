//! The numbers of the rules by which a row of an atomic instruction lets facts be applied.

/// the register that takes the word
pub const READ: u8 = 19;
/// the bytes that an atomic memory operation leaves
pub const WRITTEN: u8 = 20;
/// the bytes that were there, from the register that took them
pub const READ_BACK: u8 = 21;
/// the source, from the words before and after the row
pub const SOURCE: u8 = 22;
/// the bytes that were there, from the source and the word after the row
pub const WORD_BACK: u8 = 23;
/// the bytes that an SC stored
pub const STORED: u8 = 24;
