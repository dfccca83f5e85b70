//! An executable, a core file and a trace that lines make.

use rept_dump::{CoreFault, Dump};
use rept_elf::{Image, Want};
use rept_make::make;
use std::alloc::{AllocError, Global};
use std::mem;
use test_kit::Numbers;
use test_kit::lines::bytes::append_bytes;
use test_kit::lines::files::{core_of_threads, executable};
use test_kit::threads::maderuns::make_run;
use test_kit::threads::play::Sizes;

/// An executable, a core file and a trace, or in its place a log.
#[derive(Drop)]
pub struct Files {
    exe: Vec<u8>,
    core: Vec<u8>,
    trace: Vec<u8>,
}

impl Files {
    /// None is made yet.
    pub fn new(alloc: Global) -> Files {
        Files {
            exe: Vec::new(alloc),
            core: Vec::new(alloc),
            trace: Vec::new(alloc),
        }
    }

    /// Makes a file, and answers whether it was asked to: `trace BYTE ..` (of one stream, of these
    /// packets), `code ADDRESS WORD ..`, `ends PROCESS PC ..` (where each of two threads at most
    /// ended), `exe` (the trace is the executable), and what [`test_kit::lines::bytes::make`] makes
    /// of the trace.
    pub fn make(&mut self, alloc: Global, asked: &str, n: &Numbers) -> Result<bool, AllocError> {
        match asked {
            "trace" => {
                self.begin(b"RTR1\x01\0\0\0")?;
                append_bytes(&mut self.trace, n)?;
            }
            "code" => self.exe = code_of(alloc, n)?,
            "ends" => {
                let threads = [(n.word(0), n.word(1)), (n.word(2), n.word(3))];
                let count = (n.count() / 2).min(2);
                self.core = core_of_threads(alloc, &threads[..count])?;
            }
            "exe" => mem::swap(&mut self.exe, &mut self.trace),
            _ => return test_kit::lines::bytes::make(alloc, &mut self.trace, asked, n),
        }
        Ok(true)
    }

    /// Begins another trace with these bytes.
    pub fn begin(&mut self, bytes: &[u8]) -> Result<(), AllocError> {
        self.trace.clear();
        self.trace.extend_from_slice(bytes)?;
        Ok(())
    }

    /// How long the executable, the core file and the trace are.
    pub fn lengths(&self, alloc: Global) -> Result<String, AllocError> {
        let lengths = [self.exe.len(), self.core.len(), self.trace.len()];
        format!(in alloc; "{lengths:?}")
    }

    /// How long the executable and the core file are, and whether the trace has 5000 bytes at most.
    pub fn sizes(&self, alloc: Global) -> Result<String, AllocError> {
        let (exe, core) = (self.exe.len(), self.core.len());
        format!(in alloc; "{exe} {core} {}", self.trace.len() <= 5000)
    }

    pub fn exe(&self) -> &[u8] {
        self.exe.as_slice()
    }

    pub fn core(&self) -> &[u8] {
        self.core.as_slice()
    }

    pub fn trace(&self) -> &[u8] {
        self.trace.as_slice()
    }

    /// The dump of the executable and the core file, of one thread or of several. None where one of
    /// the files isn't whole.
    pub fn dump(&self, many: bool) -> Option<Result<Dump<'_>, CoreFault>> {
        let exe = Image::read(self.exe.as_slice(), Want::Exec);
        let core = Image::read(self.core.as_slice(), Want::Core);
        match (exe, core) {
            (Ok(exe), Ok(core)) if many => Some(Dump::read_many(exe, core)),
            (Ok(exe), Ok(core)) => Some(Dump::read(exe, core)),
            _ => None,
        }
    }
}

/// An executable of these words from an address on.
fn code_of(alloc: Global, n: &Numbers) -> Result<Vec<u8>, AllocError> {
    let mut words = Vec::new(alloc);
    for k in 1..n.count() {
        words.push(n.word(k))?;
    }
    executable(alloc, n.word(0), words.as_slice())
}

/// The files of the crash that is made of a seed after so many steps, or of the made run of a seed,
/// of three threads in twelve turns over two streams.
pub fn made(alloc: Global, asked: &str, n: &Numbers) -> Result<Files, AllocError> {
    if asked == "crash" {
        let made = make(alloc, n.word(0), n.word(1).max(1).min(20000))?;
        return saved(
            alloc,
            made.exe.bytes(),
            made.core.bytes(),
            made.trace.bytes(),
        );
    }
    let sizes = Sizes {
        threads: 3,
        streams: 2,
        turns: 12,
    };
    let made = make_run(alloc, n.word(0), sizes)?;
    saved(
        alloc,
        made.exe.bytes(),
        made.core.bytes(),
        made.trace.bytes(),
    )
}

fn saved(alloc: Global, exe: &[u8], core: &[u8], trace: &[u8]) -> Result<Files, AllocError> {
    let exe = Vec::from_slice(alloc, exe)?;
    let core = Vec::from_slice(alloc, core)?;
    let trace = Vec::from_slice(alloc, trace)?;
    Ok(Files { exe, core, trace })
}
