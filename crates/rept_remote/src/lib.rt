//! GDB's remote serial protocol: the packets that come in, and those that go out.
#![tactic(auto)]

pub mod arrival;
mod bytes;
mod check;
mod frame;
pub mod laws;
pub mod moves;
pub mod reader;
pub mod request;
mod unescape;
pub mod writer;

pub use arrival::{Arrival, Ending};
pub use check::digits_value;
pub use moves::{
    LastWrite, MoveEnd, Region, Spots, StopReason, Watch, before, byte_told, continued,
    continued_back, is_stepped_over, is_unseen, last_point, named_row, point_at, stepped,
    stepped_back, stepped_within, writer_at,
};
pub use reader::GdbPackets;
pub use request::{CodeRange, GdbRequest, Movement, TargetObject, ThreadName, WatchKind, parse};
pub use writer::push_packet;
