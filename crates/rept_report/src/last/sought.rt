//! Which rows are looked for.

/// The rows of which the last one is sought: those that don't lie wholly after a moment, and where
/// an address is named, may write the byte there.
#[derive(Clone, Copy)]
pub struct SoughtRows {
    /// The number of the moment.
    pub moment: u32,
    /// The address.
    pub address: Option<u32>,
    /// A row's number: none of them has this one or a greater one. The search begins below it.
    pub end: u32,
}

/// A byte of which the last writer is sought.
#[derive(Clone, Copy)]
pub struct SoughtByte {
    /// The number of the moment.
    pub moment: u32,
    /// The address.
    pub address: u32,
    /// A row's number: no row that may have written the byte has this one or a greater one.
    pub end: u32,
}
