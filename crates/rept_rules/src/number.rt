//! The numbers of the rules by which a row lets facts be applied. Those of whole paths have 1 to 6
//! and 17.

/// the result of an instruction, from its operands
pub const RESULT: u8 = 7;
/// the result of a load, from its bytes
pub const LOAD: u8 = 8;
/// the bytes of a store
pub const STORE: u8 = 9;
/// an operand of ADD or ADDI, from the result
pub const ADD: u8 = 10;
/// an operand of SUB, from the result
pub const SUB: u8 = 11;
/// an operand of XOR or XORI, from the result
pub const XOR: u8 = 12;
/// an operand of MUL, from the result
pub const MUL: u8 = 13;
/// the equal operands of a branch
pub const EQUAL: u8 = 14;
/// the bytes of a load, from its result
pub const LOAD_BACK: u8 = 15;
/// the source of a store of a word, from its bytes
pub const STORE_BACK: u8 = 16;
/// a copy and its source
pub const COPY: u8 = 18;
