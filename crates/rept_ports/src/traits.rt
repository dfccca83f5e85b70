//! The three ports to the outside.

ghost use Rattle.std.specs.Prelude.{◌≡◌, ◌≤◌, ◌<◌, length, IfOk, IfErr, IfSome, Some};
ghost use Rattle.std.specs.Io.{ReadsAtMost};
ghost use Rattle.std.specs.Io.KnownBytes.{ReadConsumes, WriteAppends};
ghost use Rattle.rept_ports.specs.Causes.{HasCause};
ghost use Rattle.rept_ports.specs.Port.{Port};
ghost use Rattle.rept_ports.specs.Shelves.{Shelved, Loads, LoadFails};

use std::alloc::{AllocError, Global};
use thiserror::Error;

/// Memory was refused.
pub type OutOfMemory = AllocError;

/// A read or a write failed.
#[derive(Clone, Copy, Debug, Error)]
#[error("the device failed")]
pub struct Failed;

/// Why a file was not loaded.
#[derive(Clone, Copy, Debug, Error)]
pub enum LoadFault {
    /// The file store failed.
    #[error("the shelf failed")]
    Failed,
    /// No file has this name.
    #[error("no such file")]
    Missing,
    /// The file has more bytes than the limit.
    #[error("the file is too large")]
    TooLarge,
    /// Memory was refused.
    #[error("out of memory")]
    OutOfMemory,
}

/// Named files.
///
/// `port` says what each name holds, where the file store tells it, how many loads it was asked
/// for, and how many of them failed. Both counts stay at their greatest value.
pub trait FileStore {
    ghost port: { Self → Shelved };

    /// All bytes of the file of this name, which has at most `limit` bytes. The files stay as they
    /// were, the load is counted, and at most one fault is counted, none where the file is loaded.
    ///
    /// `Failed` comes only where a fault was counted. Where the files are told, `Missing` comes
    /// only where no file has the name, and `TooLarge` only where the file has more than `limit`
    /// bytes, and no fault is counted then; of a file store that does not tell its files both come
    /// only where a fault was counted. `OutOfMemory` may come at any load.
    fn load(&mut self, alloc: Global, name: &str, limit: usize) -> Result<Vec<u8>, LoadFault>
        ensures within { IfOk result (λ v. length v.items ≤ limit) }
        ensures bytes { IfOk result (λ v. IfSome (port self.old).files (λ files. files name.now ≡ Some v.items)) }
        ensures loads { Loads (port self.old) (port self.new) result }
        ensures err { IfErr result (LoadFails (port self.old) (port self.new) name.now limit) };

    /// All bytes of the file of a name that a stranger chose. What has the name and isn't a regular
    /// file is `Missing`, and isn't opened, since opening a pipe or a device may block or do harm.
    /// All files of a file store that tells its files are regular.
    fn load_regular(
        &mut self,
        alloc: Global,
        name: &str,
        limit: usize,
    ) -> Result<Vec<u8>, LoadFault>
        ensures within { IfOk result (λ v. length v.items ≤ limit) }
        ensures bytes { IfOk result (λ v. IfSome (port self.old).files (λ files. files name.now ≡ Some v.items)) }
        ensures loads { Loads (port self.old) (port self.new) result }
        ensures err { IfErr result (LoadFails (port self.old) (port self.new) name.now limit) }
    {
        self.load(alloc, name, limit)
    }
}

/// Bytes that come in.
///
/// `port` says what was not read yet, where the source tells it, and how many reads failed; that
/// count stays at its greatest value.
pub trait Source {
    ghost port: { Self → Port };

    /// Moves the next bytes to the front of `into`, and answers how many. 0 for an `into` that is
    /// not empty comes only at the end of the input.
    ///
    /// `Failed` comes only where a fault was counted, and nothing was taken then. No other fault is
    /// counted.
    fn read(&mut self, into: &mut [u8]) -> Result<usize, Failed>
        ensures bound { ReadsAtMost result into.new }
        ensures bytes { ReadConsumes (port self.old).bytes (port self.new).bytes result into.new }
        ensures cause { HasCause (port self.old).faults (port self.new).faults result };
}

/// Bytes that go out.
///
/// `port` says what was written, where the sink tells it, and how many writes failed; that count
/// stays at its greatest value.
pub trait Sink {
    ghost port: { Self → Port };

    /// Writes a part of the piece that begins it, and answers how many bytes that is: at least one
    /// of a piece that is not empty.
    ///
    /// `Failed` comes only where a fault was counted, and nothing was written then. No other fault
    /// is counted.
    fn write(&mut self, piece: &[u8]) -> Result<usize, Failed>
        ensures bound { IfOk result (λ n. n ≤ length piece.now) }
        ensures progress { IfOk result (λ n. 0 < length piece.now → 0 < n) }
        ensures bytes { WriteAppends (port self.old).bytes (port self.new).bytes result piece.now }
        ensures cause { HasCause (port self.old).faults (port self.new).faults result };
}
