//! Bytes that were taken from an input and wait to be given on.

ghost use Rattle.std.specs.Prelude.{false, ◌≡◌, ◌≤◌, ℕ, [], ◌∷◌, length, MatchOption};
ghost use Rattle.rept_ports.specs.Taken.{IsMore};

use crate::lines::limits::{LineFault, MOST_INPUT};
use crate::traits::Source;
use std::marker::Model;

/// Bytes that were taken from a source and not yet given on, and how many were taken.
#[derive(Drop)]
pub struct Intake {
    buf: [u8; 512],
    start: usize,
    end: usize,
    taken: usize,
    ended: bool,
}

impl Model for Intake {
    ghost use Rattle.std.specs.Prelude.{◌≤◌, ◌-◌, take, drop};
    ghost use Rattle.rept_ports.specs.Taken.{Taken};

    ghost Value = { Taken };

    ghost view = { λ s. record { pending = take (s.end - s.start) (drop s.start s.buf); count = s.taken; ended = s.ended } };

    ghost invariant = { λ s. (s.start ≤ s.end) × (s.end ≤ 512) × (s.taken ≤ 1048576) };
}

impl Intake {
    ghost use Rattle.rept_ports.specs.Taken.{Fills};

    /// Whether the end of the input was seen.
    pub fn has_ended(&self) -> bool
        ensures { result ≡ self.now.ended }
    {
        self.ended
    }

    /// No byte was taken yet.
    pub fn new() -> Intake
        ensures { result ≡ record { pending = []; count = 0; ended = false } }
    {
        Intake {
            buf: [0; 512],
            start: 0,
            end: 0,
            taken: 0,
            ended: false,
        }
    }

    /// The next byte that is here.
    pub fn next(&mut self) -> Option<u8>
        ensures byte { MatchOption result (self.old.pending ≡ []) (λ b. self.old.pending ≡ b ∷ self.new.pending) }
        ensures none { result ≡ None → self.new ≡ self.old }
        ensures count { self.new.count ≡ self.old.count }
        ensures ended { self.new.ended ≡ self.old.ended }
        ensures within { self.new.count ≤ 1048576 }
    {
        if self.start == self.end {
            return None;
        }
        let byte = self.buf[self.start];
        self.start += 1;
        Some(byte)
    }

    /// Takes more bytes, and answers how many. 0 says that the input has ended.
    pub fn fill<S: Source>(&mut self, source: &mut S) -> Result<usize, LineFault>
        requires pending { self.old.pending ≡ [] }
        requires going { self.old.ended ≡ false }
        ensures { Fills self.old self.new (S.port source.old) (S.port source.new) result }
    {
        let room = (MOST_INPUT - self.taken).min(512);
        if room == 0 {
            let more = is_more(source)?;
            self.ended = true;
            return Ok(more);
        }
        match source.read(&mut self.buf[..room]) {
            Ok(count) => {
                self.start = 0;
                self.end = count;
                self.taken += count;
                self.ended = count == 0;
                Ok(count)
            }
            Err(_) => Err(LineFault::ReadFault),
        }
    }
}

impl Intake {
    ghost use Rattle.rept_ports.specs.Taken.{TakesByte};

    /// The next byte of the input, or `None` at its end.
    pub fn take<S: Source>(&mut self, source: &mut S) -> Result<Option<u8>, LineFault>
        requires { self.old.ended ≡ false }
        ensures { TakesByte self.old self.new (S.port source.old) (S.port source.new) result }
    {
        if let Some(byte) = self.next() {
            return Ok(Some(byte));
        }
        match self.fill(source) {
            Ok(0) => Ok(None),
            Ok(_) => Ok(self.next()),
            Err(fault) => Err(fault),
        }
    }
}

/// Whether the source has ended. If it has not, a byte of it is lost.
fn is_more<S: Source>(source: &mut S) -> Result<usize, LineFault>
    ensures { IsMore (S.port source.old) (S.port source.new) result }
{
    let mut probe = [0u8; 1];
    match source.read(&mut probe) {
        Ok(0) => Ok(0),
        Ok(_) => Err(LineFault::TooMuchInput),
        Err(_) => Err(LineFault::ReadFault),
    }
}
