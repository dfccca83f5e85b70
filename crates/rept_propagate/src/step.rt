//! A step on which the bytes of a word go together.

use rept_report::NumberWindow;

/// What told something new of the first byte of a word, so that the others go the same way.
#[derive(Clone, Copy)]
pub enum WordStep {
    /// down from a number
    Down {
        /// the number
        number: u32,
    },
    /// back to the strip before a number, from those of a window
    Former {
        /// the number
        first: u32,
        /// the window
        known: NumberWindow,
    },
    /// on through the strip around a number
    Later {
        /// the number
        first: u32,
    },
    /// in the strip around a number, up from it, and on to those next to its last one
    Onward {
        /// the number
        number: u32,
    },
}
