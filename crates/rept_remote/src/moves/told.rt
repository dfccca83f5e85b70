//! The bytes that a debugger is told.

ghost use Rattle.std.specs.Prelude.{◌≡◌, ◌<◌};
ghost use Rattle.rept_remote.specs.Moves.Told.{byte_told};

use rept_findings::Findings;

/// The byte at an address that is told at a moment: the one that is known there, else that of the
/// code.
pub fn byte_told<F: Findings>(findings: &F, moment: u32, address: u32) -> Option<u8>
    requires { moment < (F.shown findings.now).moments }
    ensures { result ≡ byte_told (F.shown findings.now) moment address }
{
    match findings.byte(moment, address) {
        Some(byte) => Some(byte),
        None => findings.code(address),
    }
}
