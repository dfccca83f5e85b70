//! What is read of sources, and their lines.

use crate::files::ports::two;
use rept_ports::{BoundedLines, Failed, InfallibleSource, MemSource, Source};
use std::alloc::{AllocError, Global};
use std::fmt::Write;
use test_kit::Numbers;

/// What a read answers, and the four bytes that it was to fill, which were 0 before.
type Given = (Result<usize, Failed>, [u8; 4]);

fn read<S: Source>(source: &mut S) -> Given {
    let mut into = [0; 4];
    let count = source.read(&mut into);
    (count, into)
}

/// Five reads.
pub fn reads<S: Source>(source: &mut S) -> [Given; 5] {
    [
        read(source),
        read(source),
        read(source),
        read(source),
        read(source),
    ]
}

/// A source of these bytes of which the reads with the two numbers of the line fail.
fn failing<'a>(alloc: Global, bytes: &'a [u8], n: &Numbers) -> Result<MemSource<'a>, AllocError> {
    MemSource::new(alloc, bytes, &two(n, 0))
}

/// Five reads of the bytes, and five of which some fail.
pub fn sources(alloc: Global, bytes: &[u8], n: &Numbers) -> Result<String, AllocError> {
    let mut failing = failing(alloc, bytes, n)?;
    let calm = reads(&mut InfallibleSource::new(bytes));
    format!(in alloc; "{calm:?}; {:?}", reads(&mut failing))
}

/// Nine lines of the bytes, where some reads fail.
pub fn lines(alloc: Global, bytes: &[u8], n: &Numbers) -> Result<String, AllocError> {
    let mut source = failing(alloc, bytes, n)?;
    let mut reader = BoundedLines::new(&mut source);
    let mut text = String::new(alloc);
    for _ in 0..9u32 {
        write!(text, " {:?};", reader.next_line())?;
    }
    Ok(text)
}
