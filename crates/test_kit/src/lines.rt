//! Tables of cases, one a line, for programs whose stored runs are tables. Of a line the first word
//! says what is asked, and the numbers after it are taken in their order; all other words are for
//! the reader. A line that begins with `#` says where the values come from.

pub mod bytes;
pub mod files;
mod numbers;

pub use numbers::Numbers;
use std::alloc::{AllocError, Global};
use std::io;

/// What answers the cases of a table.
pub trait Table {
    /// The text that answers a case: what is asked, and the numbers of its line.
    fn answer(
        &mut self,
        alloc: Global,
        asked: &str,
        numbers: &Numbers,
    ) -> Result<String, AllocError>;
}

/// The answer to a line of a table, after the line itself.
fn told<T: Table>(table: &mut T, alloc: Global, line: &str) -> Result<String, AllocError> {
    let mut words = line.split_whitespace();
    match words.next() {
        None => Ok(String::new(alloc)),
        Some(asked) => {
            let mut numbers = Numbers::new();
            for word in words {
                numbers.take(word);
            }
            let answer = table.answer(alloc, asked, &numbers)?;
            format!(in alloc; "{line}: {}", answer.as_str().trim_start())
        }
    }
}

/// Writes each line of the input that is a case, with its answer.
pub fn tell<R: AllocGlobal + Input + Print, T: Table>(rt: &R, table: &mut T) -> io::Result<()> {
    for line in rt.lines(rt.alloc()) {
        let line = line?;
        let line = line.as_str().trim();
        if !line.is_empty() && !line.starts_with('#') {
            rt.println(told(table, rt.alloc(), line)?)?;
        }
    }
    Ok(())
}
