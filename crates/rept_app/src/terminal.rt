//! A person at a terminal: a prompt before each line, and words after each refusal.
//!
//! What is read and what is written is the same as without a terminal. Prompts and words go to
//! another output, whose faults are passed over.

ghost use Rattle.std.specs.Prelude.{◌≡◌, false, codes};
ghost use Rattle.rept_ports.specs.Causes.{AppendsPrefix};
ghost use Rattle.rept_app.specs.Terminal.{is_shown};

use rept_ports::{Failed, Sink, Source, write_all};

/// What asks for the next line.
const PROMPT: &[u8] = b"rept> ";

/// Writes the text, or a part that begins it where the output fails.
fn tell<K: Sink>(sink: &mut K, text: &[u8])
    ensures { AppendsPrefix (K.port sink.old).bytes (K.port sink.new).bytes text.now }
{
    match write_all(sink, text) {
        Ok(()) => {}
        Err(_) => {}
    }
}

/// Asks for a line at a terminal.
fn ask<K: Sink>(prompts: &mut K, is_terminal: bool)
    ensures asked { AppendsPrefix (K.port prompts.old).bytes (K.port prompts.new).bytes (codes "rept> ") }
    ensures quiet { is_terminal ≡ false → prompts.new ≡ prompts.old }
{
    if is_terminal {
        tell(prompts, PROMPT);
    }
}

/// An input that asks for each part of it before it reads, where it is a terminal.
#[derive(Drop)]
pub struct PromptingSource<S, E> {
    input: S,
    prompts: E,
    is_terminal: bool,
}

impl<S: Source, E: Sink> PromptingSource<S, E> {
    /// The bytes of this input. Prompts go to `prompts`, where the input is a terminal.
    pub fn new(input: S, prompts: E, is_terminal: bool) -> PromptingSource<S, E>
        ensures input { result.input ≡ input }
        ensures prompts { result.prompts ≡ prompts }
        ensures terminal { result.is_terminal ≡ is_terminal }
    {
        PromptingSource {
            input,
            prompts,
            is_terminal,
        }
    }
}

impl<S: Source, E: Sink> Source for PromptingSource<S, E> {
    ghost use Rattle.std.specs.Prelude.{◌≡◌, false, codes};
    ghost use Rattle.std.specs.Io.{ReadsAtMost};
    ghost use Rattle.std.specs.Io.KnownBytes.{ReadConsumes};
    ghost use Rattle.rept_ports.specs.Causes.{AppendsPrefix, HasCause};

    ghost port = { λ s. S.port s.input };

    /// Reads once from the input. At a terminal it asks before; else nothing but the input changes.
    fn read(&mut self, into: &mut [u8]) -> Result<usize, Failed>
        ensures bound { ReadsAtMost result into.new }
        ensures bytes { ReadConsumes (S.port self.old.input).bytes (S.port self.new.input).bytes result into.new }
        ensures cause { HasCause (S.port self.old.input).faults (S.port self.new.input).faults result }
        ensures asked { AppendsPrefix (E.port self.old.prompts).bytes (E.port self.new.prompts).bytes (codes "rept> ") }
        ensures quiet { self.old.is_terminal ≡ false → self.new.prompts ≡ self.old.prompts }
        ensures stays { self.new.is_terminal ≡ self.old.is_terminal }
    {
        ask(&mut self.prompts, self.is_terminal);
        self.input.read(into)
    }
}

/// Which of the two streams of a session a terminal shows.
#[derive(Clone, Copy, Debug)]
pub struct Terminals {
    /// standard input: `? N` is explained
    pub input: bool,
    /// standard output: the line before a status is explained
    pub output: bool,
}

/// An output that explains each refusal after it.
#[derive(Drop)]
pub struct ExplainingSink<K, E> {
    out: K,
    words: E,
    terminals: Terminals,
}

impl<K: Sink, E: Sink> ExplainingSink<K, E> {
    /// What is written goes to `out`, and what explains it to `words`.
    pub fn new(out: K, words: E, terminals: Terminals) -> ExplainingSink<K, E>
        ensures out { result.out ≡ out }
        ensures words { result.words ≡ words }
        ensures terminals { result.terminals ≡ terminals }
    {
        ExplainingSink {
            out,
            words,
            terminals,
        }
    }
}

impl<K: Sink, E: Sink> Sink for ExplainingSink<K, E> {
    ghost use Rattle.std.specs.Prelude.{◌≡◌, ◌≤◌, ◌<◌, length, false, IfOk};
    ghost use Rattle.std.specs.Io.KnownBytes.{WriteAppends};
    ghost use Rattle.rept_ports.specs.Causes.{HasCause};
    ghost use Rattle.rept_app.specs.Terminal.{is_shown};

    ghost port = { λ s. K.port s.out };

    /// Writes once to the output. What was written as a whole is explained, where a terminal shows
    /// it; else nothing but the output changes.
    fn write(&mut self, piece: &[u8]) -> Result<usize, Failed>
        ensures bound { IfOk result (λ n. n ≤ length piece.now) }
        ensures progress { IfOk result (λ n. 0 < length piece.now → 0 < n) }
        ensures bytes { WriteAppends (K.port self.old.out).bytes (K.port self.new.out).bytes result piece.now }
        ensures cause { HasCause (K.port self.old.out).faults (K.port self.new.out).faults result }
        ensures quiet { is_shown self.old.terminals piece.now ≡ false → self.new.words ≡ self.old.words }
        ensures stays { self.new.terminals ≡ self.old.terminals }
    {
        match self.out.write(piece) {
            Ok(count) => {
                explain(&mut self.words, piece, count, self.terminals);
                Ok(count)
            }
            Err(fault) => Err(fault),
        }
    }
}

/// Explains a piece, of which so many bytes were written.
fn explain<K: Sink>(words: &mut K, piece: &[u8], count: usize, terminals: Terminals)
    ensures { is_shown terminals piece.now ≡ false → words.new ≡ words.old }
{
    if is_shown(terminals, piece) && count == piece.len() {
        tell(words, meaning_of(piece));
    }
}

/// Whether a terminal shows what a line answers: standard input of a line that was no command, and
/// standard output of any other line.
#[tactic(auto, unfolding(crate::specs::Terminal::is_shown))]
fn is_shown(terminals: Terminals, line: &[u8]) -> bool
    ensures { result ≡ is_shown terminals line.now }
{
    if line.starts_with(b"? ") {
        terminals.input
    } else {
        terminals.output
    }
}

/// How a refusal begins, and what it mostly means.
#[derive(Clone, Copy)]
struct Meaning {
    start: &'static [u8],
    words: &'static [u8],
}

/// What a line mostly means that refuses, with a heading of docs/GUIDE.md; nothing of any other
/// line. Of those that begin alike the longer one comes first.
fn meaning_of(line: &[u8]) -> &'static [u8] {
    for meaning in &MEANINGS {
        if line.starts_with(meaning.start) {
            return meaning.words;
        }
    }
    b""
}

const MEANINGS: [Meaning; 26] = [
    Meaning {
        start: b"? 1",
        words: b"no such command; help tells them\n",
    },
    Meaning {
        start: b"? 2",
        words: b"a word is no number, and names no address of the program\n",
    },
    Meaning {
        start: b"? 3",
        words: b"the command takes more words, or fewer\n",
    },
    Meaning {
        start: b"? 4",
        words: b"a word is no register\n",
    },
    Meaning {
        start: b"? 5",
        words: b"a number is past its limit\n",
    },
    Meaning {
        start: b"? 6",
        words: b"the line has more than 256 bytes\n",
    },
    Meaning {
        start: b"no-file ",
        words: b"there is no such file (GUIDE: When it refuses)\n",
    },
    Meaning {
        start: b"load-fault ",
        words: b"the file can't be read (GUIDE: When it refuses)\n",
    },
    Meaning {
        start: b"too-large ",
        words: b"the file is too large (GUIDE: When it refuses)\n",
    },
    Meaning {
        start: b"executable 5 3",
        words: b"not linked to fixed addresses (GUIDE: Shared objects)\n",
    },
    Meaning {
        start: b"executable ",
        words: b"no RV32 executable, or files in another order (GUIDE: When it refuses)\n",
    },
    Meaning {
        start: b"core-image ",
        words: b"no core file of RV32, or files in another order (GUIDE: When it refuses)\n",
    },
    Meaning {
        start: b"core ",
        words: b"not the kernel's own core file (GUIDE: When it refuses)\n",
    },
    Meaning {
        start: b"path 1 ",
        words: b"no packet begins the path (GUIDE: When it refuses)\n",
    },
    Meaning {
        start: b"path 2 ",
        words: b"the program was rebuilt, or a loader or vDSO ran (GUIDE: When it refuses)\n",
    },
    Meaning {
        start: b"path 3 ",
        words: b"another build, or no RV32IMAC code (GUIDE: When it refuses)\n",
    },
    Meaning {
        start: b"path 8 ",
        words: b"packets were lost, or a signal handler ran (GUIDE: When it refuses)\n",
    },
    Meaning {
        start: b"path 9 ",
        words: b"stop the encoder later, or the core's pc isn't the log's last (GUIDE: When it refuses)\n",
    },
    Meaning {
        start: b"path 10 ",
        words: b"over 65,536 steps: begin at a later packet (GUIDE: When it refuses)\n",
    },
    Meaning {
        start: b"path 11 ",
        words: b"the trace is cut, or is none (GUIDE: When it refuses)\n",
    },
    Meaning {
        start: b"path 12 ",
        words: b"files of another run or build (GUIDE: When it refuses)\n",
    },
    Meaning {
        start: b"path ",
        words: b"another build, or another encoder (GUIDE: When it refuses)\n",
    },
    Meaning {
        start: b"inconsistent ",
        words: b"the files contradict each other (GUIDE: What contradicts)\n",
    },
    Meaning {
        start: b"input-fault",
        words: b"standard input failed (GUIDE: When it refuses)\n",
    },
    Meaning {
        start: b"too-much-input",
        words: b"over 1,048,576 bytes of commands (GUIDE: When it refuses)\n",
    },
    Meaning {
        start: b"out-of-memory",
        words: b"the machine's memory ran out (GUIDE: When it refuses)\n",
    },
];
