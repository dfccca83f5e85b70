//! Pairs of bytes that stand for one.

ghost use Rattle.std.specs.Prelude.{◌≡◌, ◌≤◌, ◌<◌, length, None, Some, MatchBool};
ghost use Rattle.rept_ports.specs.Port.{move};
ghost use Rattle.rept_remote.specs.Escapes.{unescaped};
ghost use Rattle.rept_remote.specs.Steps.{UnescapesByte};

use crate::frame::PacketBytes;

/// Whether the bytes end within no pair. Then those that they stand for are in `carried`.
pub fn unescape(bytes: &[u8], carried: &mut PacketBytes) -> bool
    requires { length bytes.now ≤ 4096 }
    ensures { MatchBool result (unescaped bytes.now ≡ Some carried.new.items) (unescaped bytes.now ≡ None) }
{
    carried.clear();
    let mut is_escaped = false;
    for byte in bytes {
        is_escaped = stand(carried, is_escaped, *byte);
    }
    !is_escaped
}

/// One byte more, which is the second one of a pair where the one before it was the first. Whether
/// it is itself the first byte of a pair.
fn stand(carried: &mut PacketBytes, is_escaped: bool, byte: u8) -> bool
    requires { length carried.old.items < 4096 }
    ensures { UnescapesByte is_escaped byte (move carried.old.items carried.new.items) result }
{
    if is_escaped {
        carried.push(byte ^ 0x20);
        return false;
    }
    if byte == b'}' {
        return true;
    }
    carried.push(byte);
    false
}
