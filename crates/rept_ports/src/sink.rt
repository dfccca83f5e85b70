//! Outputs in memory, and the writing of a whole text.

ghost use Rattle.std.specs.Prelude.{◌≡◌, IfOk, OnOk, OnErr};
ghost use Rattle.std.specs.Io.KnownBytes.{Appends};
ghost use Rattle.rept_ports.specs.Causes.{HasCause, AppendsPrefix};

use crate::traits::{Failed, OutOfMemory, Sink};
use std::alloc::Global;
use std::marker::Model;

/// Writes the whole text.
///
/// `Failed` comes only where the sink counted a fault, and only one is counted. A part of the text
/// that begins it was written then.
pub fn write_all<K: Sink>(sink: &mut K, text: &[u8]) -> Result<(), Failed>
    ensures ok { OnOk result (Appends (K.port sink.old).bytes (K.port sink.new).bytes text.now) }
    ensures err { OnErr result (AppendsPrefix (K.port sink.old).bytes (K.port sink.new).bytes text.now) }
    ensures cause { HasCause (K.port sink.old).faults (K.port sink.new).faults result }
{
    let mut done = 0;
    while done < text.len() {
        let count = sink.write(&text[done..])?;
        done += count;
    }
    Ok(())
}

/// Memory to write to, all of which is taken when it is made. The writes whose numbers are listed
/// fail; the first write has the number 1.
#[derive(Drop)]
pub struct MemSink {
    written: Vec<u8>,
    room: usize,
    fails: Vec<u64>,
    calls: u64,
    faults: u64,
}

impl Model for MemSink {
    ghost use Rattle.std.specs.Prelude.{ℕ, ◌≤◌, vec_len, vec_capacity};
    ghost use Rattle.rept_ports.specs.Memory.{SinkState};

    ghost Value = { SinkState };

    ghost view = { λ s. record { written = s.written.items; room = s.room; fails = s.fails.items; calls = s.calls; faults = s.faults } };

    ghost invariant = { λ s. (vec_len s.written ≤ s.room) × (s.room ≤ vec_capacity s.written) };
}

impl MemSink {
    ghost use Rattle.rept_ports.specs.Memory.{new_sink};

    /// Nothing is written, there is room for so many bytes, and the writes of these numbers are to
    /// fail. Its only refusal is of memory.
    pub fn new(alloc: Global, room: usize, fails: &[u64]) -> Result<MemSink, OutOfMemory>
        ensures { IfOk result (λ s. s ≡ new_sink room fails.now) }
    {
        let written = Vec::with_capacity(alloc, room)?;
        let fails = Vec::from_slice(alloc, fails)?;
        Ok(MemSink {
            written,
            room,
            fails,
            calls: 0,
            faults: 0,
        })
    }

    /// What was written.
    pub fn bytes(&self) -> &[u8]
        ensures { result.now ≡ self.now.written }
    {
        self.written.as_slice()
    }
}

impl Sink for MemSink {
    ghost use Rattle.std.specs.Prelude.{◌≡◌, ◌≤◌, ◌<◌, length, Some, IfOk};
    ghost use Rattle.std.specs.Io.KnownBytes.{WriteAppends};
    ghost use Rattle.rept_ports.specs.Causes.{HasCause};
    ghost use Rattle.rept_ports.specs.Memory.{SinkStep};

    ghost port = { λ s. record { bytes = Some s.written; faults = s.faults } };

    /// Writes as much of the piece as fits in the room that is left. `Failed` comes exactly where
    /// the number of this write is listed, or no room is left for a piece that is not empty.
    fn write(&mut self, piece: &[u8]) -> Result<usize, Failed>
        ensures bound { IfOk result (λ n. n ≤ length piece.now) }
        ensures progress { IfOk result (λ n. 0 < length piece.now → 0 < n) }
        ensures bytes { WriteAppends (Some self.old.written) (Some self.new.written) result piece.now }
        ensures cause { HasCause self.old.faults self.new.faults result }
        ensures step { SinkStep self.old self.new piece.now result }
    {
        self.calls = self.calls.saturating_add(1);
        let left = self.room - self.written.len();
        let count = left.min(piece.len());
        let listed = self.fails.contains(&self.calls);
        if listed || (count == 0 && !piece.is_empty()) {
            self.faults = self.faults.saturating_add(1);
            return Err(Failed);
        }
        self.written.extend_from_slice(&piece[..count]).unwrap();
        Ok(count)
    }
}
