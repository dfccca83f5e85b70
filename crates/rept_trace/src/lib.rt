//! The packets of an instruction trace, by Efficient Trace for RISC-V 2.0 with one fixed set of
//! encoder parameters.
#![tactic(auto)]

pub mod fault;
pub mod header;
pub mod packet;
pub mod packets;
pub mod parameters;
mod read;
pub mod streams;

pub use fault::TraceFault;
pub use packet::{Packet, Qual, Report};
pub use packets::Packets;
pub use parameters::Parameters;
pub use streams::Streams;
