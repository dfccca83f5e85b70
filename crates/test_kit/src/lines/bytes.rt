//! Files that the lines of a table make: numbers that are appended as bytes and words, and bytes
//! that are changed.
use crate::lines::Numbers;
use std::alloc::{AllocError, Global};

/// Begins another file, makes it longer or changes it, and answers whether it was asked to: `file`,
/// `words` and `bytes` with the numbers that are appended, `zeros COUNT`, `again COUNT LENGTH` (the
/// last bytes, of such a length, so many times more), and `put`, of which [`changed`] tells the
/// numbers.
pub fn make(
    alloc: Global,
    file: &mut Vec<u8>,
    asked: &str,
    n: &Numbers,
) -> Result<bool, AllocError> {
    match asked {
        "file" => file.clear(),
        "words" => append_words(file, n)?,
        "bytes" => append_bytes(file, n)?,
        "zeros" => append_zeros(file, n.word(0))?,
        "again" => append_again(alloc, file, n)?,
        "put" => *file = changed(alloc, file.as_slice(), n)?,
        _ => return Ok(false),
    }
    Ok(true)
}

/// Appends the numbers of a line, each as a word.
fn append_words(file: &mut Vec<u8>, n: &Numbers) -> Result<(), AllocError> {
    for k in 0..n.count() {
        file.extend_from_slice(&n.word(k).to_le_bytes())?;
    }
    Ok(())
}

/// Appends the numbers of a line, each as a byte.
pub fn append_bytes(file: &mut Vec<u8>, n: &Numbers) -> Result<(), AllocError> {
    for k in 0..n.count() {
        file.push(n.byte(k))?;
    }
    Ok(())
}

/// Appends so many zero bytes.
pub fn append_zeros(file: &mut Vec<u8>, count: u32) -> Result<(), AllocError> {
    for _ in 0..count {
        file.push(0)?;
    }
    Ok(())
}

/// Appends the last bytes, of such a length, so many times more.
fn append_again(alloc: Global, file: &mut Vec<u8>, n: &Numbers) -> Result<(), AllocError> {
    let start = file.len().saturating_sub(n.word(1) as usize);
    let part = Vec::from_slice(alloc, file.get(start..).unwrap_or(&[]))?;
    for _ in 0..n.word(0) {
        file.extend_from_slice(part.as_slice())?;
    }
    Ok(())
}

/// A file that is changed by the pairs of numbers after the first one: an offset and the byte that
/// stands there then, or none and the length to which it is cut.
pub fn changed(alloc: Global, file: &[u8], n: &Numbers) -> Result<Vec<u8>, AllocError> {
    let mut file = Vec::from_slice(alloc, file)?;
    for k in 0..9usize {
        match (n.known(2 * k + 1), n.known(2 * k + 2)) {
            (Some(at), Some(_)) => put(file.as_mut_slice(), at as usize, n.byte(2 * k + 2)),
            (None, Some(length)) => file.truncate(length as usize),
            _ => {}
        }
    }
    Ok(file)
}

fn put(file: &mut [u8], at: usize, byte: u8) {
    if at < file.len() {
        file[at] = byte;
    }
}
