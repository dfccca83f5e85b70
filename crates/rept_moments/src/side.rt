//! Moments of rows by their points.

/// The moment before the row that leads from a point, or the one after it.
#[derive(Clone, Copy)]
pub struct PointSide {
    /// The point.
    pub point: u32,
    /// Whether it is the moment after the row.
    pub is_after: bool,
}

/// A moment, and the time before which it doesn't come.
#[derive(Clone, Copy)]
pub struct Timed {
    /// The time.
    pub time: u64,
    /// The moment.
    pub side: PointSide,
}

/// A point of a thread. The row of this number leads from it; none does from the last one.
#[derive(Clone, Copy)]
pub struct PointOfThread {
    /// The thread.
    pub thread: u32,
    /// The point's number in the thread.
    pub step: u32,
}
