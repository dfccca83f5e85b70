//! What is rebuilt of the traces that `rept_encode::weaving` writes.

pub mod laws;
pub mod reading;
