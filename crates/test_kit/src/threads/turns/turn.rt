//! Turns in which threads run.

/// Steps of one thread that one hart runs one after the other, and the times between which they
/// happen. All times of a run are of one clock. In a list of turns each happens before the next
/// one.
#[derive(Clone, Copy)]
pub struct Turn {
    /// The thread.
    pub thread: u32,
    /// The stream of packets that tells of it, counted from 0; each hart has its own.
    pub stream: u32,
    /// How many steps it has.
    pub count: u32,
    /// Its steps happen not before this time.
    pub begin: u64,
    /// Its steps happen not after this time.
    pub end: u64,
}
