//! What lines of a session are and how they are answered, what packets of a debugger ask for and
//! which replies they get, and which calls are open; what words of a command line mean, which
//! numbers words spell, bits of a payload, numbers of 32 bits and printed forms. The cases are the
//! lines of `stdin`, and `stdout` has each with its answer.
#![tactic(auto)]

mod bits;
mod fixed;
mod lines;
mod packets;
mod stacks;
mod threads;
mod words;

use fixed::two_steps;
use rept_findings::Findings;
use rept_word::Text;
use std::alloc::{AllocError, Global};
use std::io;
use test_kit::Numbers;
use threads::two_threads;

/// The text that lines make, one with the printed forms of numbers, and whether two threads are
/// asked or one of two steps.
#[derive(Drop)]
struct Sessions {
    text: Vec<u8>,
    printed: Text,
    are_two: bool,
}

impl Sessions {
    /// A line with its answer.
    fn answer(&mut self, alloc: Global, line: &str) -> Result<String, AllocError> {
        let (asked, said) = line.split_once(' ').unwrap_or((line, ""));
        let mut numbers = Numbers::new();
        for word in said.split_whitespace() {
            numbers.take(word);
        }
        let answer = self.answered(alloc, (asked, said), &numbers)?;
        format!(in alloc; "{line}: {}", answer.as_str().trim())
    }

    fn answered(
        &mut self,
        alloc: Global,
        (asked, said): (&str, &str),
        n: &Numbers,
    ) -> Result<String, AllocError> {
        if self.make(alloc, asked, said.as_bytes(), n)? {
            return format!(in alloc; "{} bytes", self.text.len());
        }
        if words::append(&mut self.printed, alloc, asked, said, n)? {
            return format!(in alloc;
                "{:?}",
                String::from_utf8_lossy(alloc, self.printed.bytes())?
            );
        }
        if self.are_two {
            self.told(alloc, &mut two_threads(), (asked, said), n)
        } else {
            self.told(alloc, &mut two_steps(), (asked, said), n)
        }
    }

    /// Makes the text longer or another one, and answers whether it was asked to: `part TEXT`,
    /// `line TEXT` (with its end), `threads COUNT` (so many are asked, and the text is empty), and
    /// what [`test_kit::lines::bytes::make`] makes.
    fn make(
        &mut self,
        alloc: Global,
        asked: &str,
        said: &[u8],
        n: &Numbers,
    ) -> Result<bool, AllocError> {
        match asked {
            "part" => self.text.extend_from_slice(said)?,
            "line" => {
                self.text.extend_from_slice(said)?;
                self.text.push(b'\n')?;
            }
            "threads" => {
                self.are_two = n.word(0) == 2;
                self.text.clear();
            }
            _ => return test_kit::lines::bytes::make(alloc, &mut self.text, asked, n),
        }
        Ok(true)
    }

    /// What findings tell.
    fn told<F: Findings>(
        &mut self,
        alloc: Global,
        findings: &F,
        (asked, said): (&str, &str),
        n: &Numbers,
    ) -> Result<String, AllocError> {
        match asked {
            "serve" => lines::served(alloc, findings, self.text.as_slice(), n),
            "dialog" => packets::dialog(alloc, findings, self.text.as_slice(), n.word(0)),
            "packet" => {
                packets::push(alloc, &mut self.text, said.as_bytes())?;
                packets::reply(alloc, findings, self.text.as_slice())
            }
            _ => self.other(alloc, asked, said, n),
        }
    }

    /// What the text of a line is, or the one that was made where the line has none; or what two
    /// steps or rows tell.
    fn other(
        &self,
        alloc: Global,
        asked: &str,
        said: &str,
        n: &Numbers,
    ) -> Result<String, AllocError> {
        let text = if said.is_empty() {
            self.text.as_slice()
        } else {
            said.as_bytes()
        };
        match asked {
            "command" => format!(in alloc; "{:?}", rept_session::parse(&two_steps(), text, 9, 3)),
            "request" => format!(in alloc; "{:?}", rept_remote::parse(text)),
            "at" => lines::at(alloc, None, said, n),
            "noted" => lines::at(alloc, Some((15, 9)), said, n),
            "frame" => packets::framed(alloc, text),
            "arrival" => packets::arrival(alloc, self.text.as_slice(), n),
            "stack" => stacks::stack(alloc, n),
            _ => words::answer(alloc, asked, said, n),
        }
    }
}

fn main(rt: HostRuntime) -> io::Result<()> {
    let text = Vec::new(rt.alloc());
    let printed = Text::new(rt.alloc());
    let mut sessions = Sessions {
        text,
        printed,
        are_two: false,
    };
    for line in rt.lines(rt.alloc()) {
        let line = line?;
        let line = line.as_str();
        if !line.is_empty() && !line.starts_with('#') {
            rt.println(sessions.answer(rt.alloc(), line)?)?;
        }
    }
    Ok(())
}
