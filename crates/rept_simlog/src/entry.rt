//! The lines of a log of one hart, each an address.

ghost use Rattle.rept_simlog.specs.Log.{IsAddressEntry};

use crate::address::address_of;
use crate::lines::LogEntry;

/// A line of a log: its number, from 1 on, and the address that it gives.
#[derive(Clone, Copy)]
pub struct LogLine {
    pub line: u32,
    pub address: u32,
}

impl LogEntry for LogLine {
    ghost tells = { IsAddressEntry };

    fn of_line(line: &[u8], number: u32) -> Option<LogLine> {
        match address_of(line) {
            Some(address) => Some(LogLine {
                line: number,
                address,
            }),
            None => None,
        }
    }
}
