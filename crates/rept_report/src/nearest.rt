//! The nearest of many linked numbers that has a value.

pub mod found;
pub mod net;
mod reach;
pub mod search;

pub use found::NearestValue;
pub use net::Net;
pub use search::nearest;
