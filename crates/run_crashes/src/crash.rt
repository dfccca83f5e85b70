//! The files of a crash, an input, and what comes of them.

use crate::fails::Fails;
use rept_app::rept;
use rept_ports::{FileStore, MemSink, MemSource, MemoryFileStore};
use std::alloc::{AllocError, Global};
use test_kit::Numbers;
use test_kit::lines::files::{core_file, core_with_word, executable};

/// Files with their names, a file that is being made, an input that is being made, and the calls
/// that fail.
#[derive(Drop)]
pub struct Crash {
    files: Vec<(String, Vec<u8>)>,
    file: Vec<u8>,
    input: Vec<u8>,
    fails: Fails,
}

impl Crash {
    /// No file and an empty input.
    pub fn new(alloc: Global) -> Crash {
        Crash {
            files: Vec::new(alloc),
            file: Vec::new(alloc),
            input: Vec::new(alloc),
            fails: Fails::new(alloc),
        }
    }

    /// Takes a line that makes a file, an input or a fault.
    pub fn take(&mut self, alloc: Global, line: &str) -> Result<(), AllocError> {
        let mut words = line.split_whitespace();
        let asked = words.next().unwrap_or("");
        match asked {
            ">" => self.take_command(line.strip_prefix("> ").unwrap_or("")),
            "packets" => self
                .input
                .extend_from_slice(words.next().unwrap_or("").as_bytes()),
            "keep" => self.keep(alloc, words.next().unwrap_or("")),
            _ => {
                let mut numbers = Numbers::new();
                for word in words {
                    numbers.take(word);
                }
                self.make(alloc, asked, &numbers)
            }
        }
    }

    /// Appends a line to the input.
    fn take_command(&mut self, text: &str) -> Result<(), AllocError> {
        self.input.extend_from_slice(text.as_bytes())?;
        self.input.push(b'\n')?;
        Ok(())
    }

    /// Gives the file that was made a name: a later one of a name stands in the place of an earlier
    /// one.
    fn keep(&mut self, alloc: Global, name: &str) -> Result<(), AllocError> {
        let name = String::from_str(alloc, name)?;
        let bytes = Vec::from_slice(alloc, self.file.as_slice())?;
        self.files.push((name, bytes))?;
        Ok(())
    }

    fn make(&mut self, alloc: Global, asked: &str, n: &Numbers) -> Result<(), AllocError> {
        let registers = [n.word(1), n.word(2), n.word(3)];
        match asked {
            "exe" => self.file = program(alloc, n)?,
            "core" => self.file = core_file(alloc, n.word(0), registers)?,
            "saved" => {
                self.file = core_with_word(alloc, n.word(0), registers, n.word(4), n.word(5))?
            }
            "input" => self.input.extend_from_slice(self.file.as_slice())?,
            "none" => self.files.clear(),
            _ => {
                let _is_fault = self.fails.take(asked, n)?;
                let _is_file = test_kit::lines::bytes::make(alloc, &mut self.file, asked, n)?;
            }
        }
        Ok(())
    }

    /// The input.
    pub fn input(&self) -> &[u8] {
        self.input.as_slice()
    }

    /// A file store with the files, of which some loads fail.
    pub fn file_store(&self, alloc: Global) -> Result<MemoryFileStore, AllocError> {
        let mut file_store = MemoryFileStore::new(alloc, self.fails.loads.as_slice())?;
        for (name, bytes) in &self.files {
            file_store.put(name.as_str(), bytes.as_slice())?;
        }
        Ok(file_store)
    }

    /// Empties the input, and lets no call fail.
    pub fn end(&mut self, alloc: Global) {
        self.input.clear();
        self.fails = Fails::new(alloc);
    }

    /// The number of the status and what was written, where the program is given these words, the
    /// files and the input.
    pub fn run(&self, alloc: Global, line: &str) -> Result<String, AllocError> {
        let mut file_store = self.file_store(alloc)?;
        self.told(alloc, line, &mut file_store)
    }

    /// The number of the status and what was written, over a given file store.
    pub fn told<H: FileStore>(
        &self,
        alloc: Global,
        line: &str,
        file_store: &mut H,
    ) -> Result<String, AllocError> {
        let words = word_list(alloc, line)?;
        let mut source = MemSource::new(alloc, self.input.as_slice(), self.fails.reads.as_slice())?;
        let mut sink = MemSink::new(alloc, 8000, self.fails.writes.as_slice())?;
        let status = rept(alloc, words.as_slice(), file_store, &mut source, &mut sink);
        let text = String::from_utf8_lossy(alloc, sink.bytes())?;
        format!(in alloc; "{}\n{text}", status.number())
    }
}

/// An executable at the first number of a line, of the words after it.
fn program(alloc: Global, n: &Numbers) -> Result<Vec<u8>, AllocError> {
    let mut code = Vec::new(alloc);
    for k in 1..n.count() {
        code.push(n.word(k))?;
    }
    executable(alloc, n.word(0), code.as_slice())
}

/// The words of a line.
pub fn word_list(alloc: Global, line: &str) -> Result<Vec<String>, AllocError> {
    let mut list = Vec::new(alloc);
    for word in line.split_whitespace() {
        list.push(String::from_str(alloc, word)?)?;
    }
    Ok(list)
}
