//! Loading of the files that a crashed process had mapped, by the names that its core file gives.

mod bounds;
mod images;
mod load;
mod names;

pub use bounds::bounds_hold;
pub use images::images_of;
pub use load::{LoadStop, load_names, load_within};
pub use names::asked_names;
