//! What the programs of tests share: tables of cases, and made runs of several threads.
#![tactic(auto)]

pub mod lines;
pub mod threads;

pub use lines::{Numbers, Table, tell};
