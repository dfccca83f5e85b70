//! The first bytes of a trace file.

ghost use Rattle.std.specs.Prelude.{◌≡◌, ◌<◌, IfOk, IfErr, nat_lt, if◌then◌else◌};
ghost use Rattle.rept_trace.specs.Header.{is_header_byte, HasHeader, IsHeaderFault};

use crate::fault::TraceFault;

/// A kind of trace file.
#[derive(Clone, Copy)]
pub struct Container {
    /// The last character of its name.
    pub digit: u8,
    /// The most streams that it may have.
    pub most: u8,
}

/// What the header of a trace file says.
#[derive(Clone, Copy)]
pub struct Heading {
    /// How many streams there are.
    pub count: u32,
    /// Whether code may be compressed, so that addresses are multiples of 2.
    pub halves: bool,
}

/// The file of one stream, which begins with `RTR1`.
pub const ONE: Container = Container {
    digit: b'1',
    most: 1,
};

/// The file of several streams, which begins with `RTR2`.
pub const SEVERAL: Container = Container {
    digit: b'2',
    most: 64,
};

/// The bytes of a header.
pub const SIZE: usize = 8;

/// The bytes of a header that don't differ from file to file, and 0 in the places of the others.
const FIXED: [u8; 8] = [0x52, 0x54, 0x52, 0, 0, 0, 0, 0];

/// Whether this may be a byte of the header.
fn is_header_byte(container: Container, i: usize, byte: u8) -> bool
    requires { i < 8 }
    ensures { result ≡ is_header_byte container i byte }
{
    match i {
        3 => byte == container.digit,
        4 => 0 < byte && byte <= container.most,
        5 => byte <= 1,
        _ => byte == FIXED[i],
    }
}

/// The fault of a header whose first wrong byte is this one.
fn header_fault(i: usize) -> TraceFault
    requires { i < 8 }
    ensures { result ≡ (if nat_lt i 4 then TraceFault.BadMagic else TraceFault.BadHeader i) }
{
    if i < 4 {
        TraceFault::BadMagic
    } else {
        TraceFault::BadHeader(i as u32)
    }
}

/// What the header of a file of this kind says, and the bytes after it.
pub fn read_header(container: Container, bytes: &[u8]) -> Result<(Heading, &[u8]), TraceFault>
    ensures ok { IfOk result (λ header. HasHeader container bytes.now header.0 header.1.now) }
    ensures err { IfErr result (λ fault. IsHeaderFault container bytes.now fault) }
{
    if bytes.len() < SIZE {
        return Err(TraceFault::BadMagic);
    }
    for i in 0..SIZE {
        if !is_header_byte(container, i, bytes[i]) {
            return Err(header_fault(i));
        }
    }
    let heading = Heading {
        count: u32::from(bytes[4]),
        halves: bytes[5] == 1,
    };
    Ok((heading, &bytes[SIZE..]))
}
