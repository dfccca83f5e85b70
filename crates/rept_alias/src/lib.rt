//! Which bytes of memory an access may touch.
#![tactic(auto)]

pub mod addresses;
pub mod based;

pub use addresses::{Access, CallAccess};
pub use based::access;
