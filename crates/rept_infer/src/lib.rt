//! Narrowing what is known of a path: sets of values of registers at points, and bytes.
#![tactic(auto)]

mod asked;
mod calls;
pub mod crossing;
pub mod finding;
pub mod first;
pub mod fixed;
mod fresh;
pub mod inferring;
pub mod passing;
pub mod path;
pub mod relating;
pub mod round;
pub mod stop;
pub mod sweeping;

pub use inferring::infer;
pub use path::InferredPath;
pub use relating::relate_registers;
pub use stop::InferStop;
