//! Where the moves of a debugger along the steps of a thread end, and what it wants to be stopped at.

pub mod halt;
pub mod moves;
pub mod spots;
pub mod told;

pub use halt::{LastWrite, MoveEnd, StopReason};
pub use moves::{
    before, continued, continued_back, is_stepped_over, is_unseen, last_point, named_row, point_at,
    stepped, stepped_back, stepped_within, writer_at,
};
pub use spots::{Region, Spots, Watch};
pub use told::byte_told;
