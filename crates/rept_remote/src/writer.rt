//! Packets that go out.

ghost use Rattle.std.specs.Prelude.{◌≡◌, ◌++◌, IfOk, OnOk};
ghost use Rattle.rept_remote.specs.Escapes.{checksum, escape, escaped, packet_of};
ghost use Rattle.rept_remote.specs.Frames.{CarriesBytes};

use rept_word::{OutOfMemory, Text};
use std::alloc::Global;

/// Appends a packet that carries these bytes: a reader of packets reads them back. The only refusal
/// is out of memory.
pub fn push_packet(alloc: Global, text: &mut Text, reply: &[u8]) -> Result<(), OutOfMemory>
    ensures text { OnOk result (text.new ≡ text.old ++ packet_of reply.now) }
    ensures reads_back { OnOk result (CarriesBytes (packet_of reply.now) reply.now) }
{
    let body = escaped(alloc, reply)?;
    text.push(b"$")?;
    text.push(body.bytes())?;
    text.push(b"#")?;
    text.push_byte(checksum(body.bytes()))?;
    Ok(())
}

/// The bytes of a packet between `$` and `#`.
fn escaped(alloc: Global, reply: &[u8]) -> Result<Text, OutOfMemory>
    ensures { IfOk result (λ text. text ≡ escaped reply.now) }
{
    let mut text = Text::new(alloc);
    for byte in reply {
        push_escaped(&mut text, *byte)?;
    }
    Ok(text)
}

/// Appends the bytes that stand for this one.
fn push_escaped(text: &mut Text, byte: u8) -> Result<(), OutOfMemory>
    ensures { OnOk result (text.new ≡ text.old ++ escape byte) }
{
    if byte == b'#' || byte == b'$' || byte == b'*' || byte == b'}' {
        text.push(&[b'}', byte ^ 0x20])
    } else {
        text.push(&[byte])
    }
}

/// The sum of the bytes in eight bits.
fn checksum(bytes: &[u8]) -> u8
    ensures { result ≡ checksum bytes.now }
{
    let mut sum: u8 = 0;
    for byte in bytes {
        sum = sum.wrapping_add(*byte);
    }
    sum
}
