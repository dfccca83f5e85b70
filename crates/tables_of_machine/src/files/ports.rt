//! The ports in memory that the lines of the table ask.

use crate::files::{names, streams};
use rept_ports::{FileStore, InfallibleFileStore, MemSink, MemoryFileStore, Sink, write_all};
use std::alloc::{AllocError, Global};
use test_kit::Numbers;

/// The names of files, which the first number of a line tells by their place.
const NAMES: [&str; 10] = [
    "",
    "a",
    "b",
    "three",
    "six",
    "made",
    ".",
    "/dev/zero",
    "/dev/full",
    "c",
];

/// The name that a line tells.
pub fn name(n: &Numbers) -> &'static str {
    match NAMES.get(n.word(0) as usize) {
        None => "",
        Some(name) => name,
    }
}

/// Two numbers of a line, from a place on: the calls of a port that fail. No call has the number 0,
/// which stands for one that is missing.
pub fn two(n: &Numbers, k: usize) -> [u64; 2] {
    [u64::from(n.word(k)), u64::from(n.word(k.wrapping_add(1)))]
}

/// A load of at most so many bytes, and one of a regular file.
pub fn loaded<S: FileStore>(
    alloc: Global,
    file_store: &mut S,
    n: &Numbers,
) -> Result<String, AllocError> {
    let any = file_store.load(alloc, name(n), n.word(1) as usize);
    let regular = file_store.load_regular(alloc, name(n), n.word(1) as usize);
    format!(in alloc; "{any:?}, {regular:?}")
}

/// File stores of which one fails, and a sink.
#[derive(Drop)]
pub struct Ports {
    calm: InfallibleFileStore,
    failing: MemoryFileStore,
    sink: MemSink,
}

impl Ports {
    /// The file stores are empty, and the sink has no room.
    pub fn new(alloc: Global) -> Result<Ports, AllocError> {
        let failing = MemoryFileStore::new(alloc, &[])?;
        let sink = MemSink::new(alloc, 0, &[])?;
        Ok(Ports {
            calm: InfallibleFileStore::new(alloc),
            failing,
            sink,
        })
    }

    /// Begins file stores or a sink, of which two calls fail, or gives the file a name on both file
    /// stores, and answers whether it was asked to.
    pub fn take(
        &mut self,
        alloc: Global,
        file: &[u8],
        asked: &str,
        n: &Numbers,
    ) -> Result<bool, AllocError> {
        match asked {
            "sink" => self.sink = MemSink::new(alloc, n.word(0) as usize, &two(n, 1))?,
            "shelf" => {
                self.calm = InfallibleFileStore::new(alloc);
                self.failing = MemoryFileStore::new(alloc, &two(n, 0))?;
            }
            "shelve" => {
                self.calm.put(name(n), file)?;
                self.failing.put(name(n), file)?;
            }
            _ => return Ok(false),
        }
        Ok(true)
    }

    /// What the file stores load and keep, the sink takes of the file by one write or by as many as
    /// it takes, and sources of it give.
    pub fn answer(
        &mut self,
        alloc: Global,
        file: &[u8],
        asked: &str,
        n: &Numbers,
    ) -> Result<String, AllocError> {
        match asked {
            "load" => self.load(alloc, n),
            "kept" => names::kept(alloc, &mut self.calm, n.known(0)),
            "source" => streams::sources(alloc, file, n),
            "lines" => streams::lines(alloc, file, n),
            _ => self.write(alloc, file, asked == "whole"),
        }
    }

    /// Writes the file to the sink, and tells what the sink has then.
    fn write(&mut self, alloc: Global, file: &[u8], whole: bool) -> Result<String, AllocError> {
        if whole {
            let done = write_all(&mut self.sink, file);
            return format!(in alloc; "{done:?}, {:?}", self.sink.bytes());
        }
        let count = self.sink.write(file);
        format!(in alloc; "{count:?}, {:?}", self.sink.bytes())
    }

    fn load(&mut self, alloc: Global, n: &Numbers) -> Result<String, AllocError> {
        let calm = loaded(alloc, &mut self.calm, n)?;
        let failing = loaded(alloc, &mut self.failing, n)?;
        format!(in alloc; "{calm}; {failing}")
    }
}
