//! Ports over files, devices and pipes.

use crate::files::fails::FailsOnce;
use crate::files::ports::{loaded, name};
use crate::files::streams::reads;
use rept_ports::{DiskFileStore, FileStore, Sink, StdSink, StdSource, write_all};
use std::alloc::{AllocError, Global};
use std::cell::Cell;
use std::fs;
use std::io::{self, Read, Write};
use std::os::fd::AsRawFd;
use std::rt::Files;
use test_kit::Numbers;

/// The answer to a line, or the kind of the system's error.
pub fn answer<R: Files>(
    alloc: Global,
    rt: &R,
    asked: &str,
    n: &Numbers,
) -> Result<String, AllocError> {
    let told = match asked {
        "disk" => disk(alloc, rt, n),
        "pipe" => piped(alloc, rt, n),
        "read" => read(alloc, rt, n),
        "written" => written(alloc, rt, n),
        _ => return String::from_str(alloc, "no case"),
    };
    match told {
        Ok(text) => Ok(text),
        Err(error) => format!(in alloc; "{:?}", error.kind()),
    }
}

/// Loads of a file where a call of the system fails.
fn disk<R: Files>(alloc: Global, rt: &R, n: &Numbers) -> io::Result<String> {
    let left = Cell::new(n.word(2));
    let mut file_store = DiskFileStore::new(FailsOnce::new(rt, &left));
    Ok(loaded(alloc, &mut file_store, n)?)
}

/// Loads of a pipe, which the system also names as a file and which holds so many bytes, as a
/// regular file and as any; and how many bytes are left in it.
fn piped<R: Files>(alloc: Global, rt: &R, n: &Numbers) -> io::Result<String> {
    let (mut reader, mut writer) = io::pipe(rt)?;
    let held = writer.write([b'x'; 512].get(..n.word(0) as usize).unwrap_or(&[]))?;
    drop(writer);
    let path = format!(in alloc; "/proc/self/fd/{}", reader.as_raw_fd())?;
    let mut file_store = DiskFileStore::new(rt);
    let regular = file_store.load_regular(alloc, path.as_str(), n.word(1) as usize);
    let any = file_store.load(alloc, path.as_str(), n.word(1) as usize);
    let left = reader.read(&mut [0; 512])?;
    Ok(format!(in alloc; "{regular:?}, {any:?}, {left} of {held}")?)
}

/// Five reads of a file, of which one fails.
fn read<R: Files>(alloc: Global, rt: &R, n: &Numbers) -> io::Result<String> {
    let left = Cell::new(n.word(1));
    let mut source = StdSource::new(FailsOnce::new(fs::open(rt, name(n))?, &left));
    Ok(format!(in alloc; "{:?}", reads(&mut source))?)
}

/// Two bytes that are written to a new file as a whole, and twice one that is, where one write
/// fails; and what a load of at most 9 bytes has then.
fn written<R: Files>(alloc: Global, rt: &R, n: &Numbers) -> io::Result<String> {
    let left = Cell::new(n.word(1));
    let mut sink = StdSink::new(FailsOnce::new(fs::create(rt, name(n))?, &left));
    let whole = write_all(&mut sink, b"ab");
    let parts = [sink.write(b"c"), sink.write(b"d")];
    let has = DiskFileStore::new(rt).load(alloc, name(n), 9);
    Ok(format!(in alloc; "{whole:?}, {parts:?}, {has:?}")?)
}
