//! What a row of an atomic instruction lets one conclude of the values before and after it, beside
//! the rules of RV32IM.
#![tactic(auto)]

pub mod atomic;
pub mod form;
mod infer;
pub mod laws;
mod number;
mod rest;
mod sure;

pub use atomic::Atomic;
pub use laws::conclusions_are_listed;
