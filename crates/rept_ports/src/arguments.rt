//! The words of a process.

ghost use Rattle.std.specs.Prelude.{◌≡◌, ◌↔◌, drop, IfOk, IfErr, MatchResult};
ghost use Rattle.std.specs.IoError.{error_kind};
ghost use Rattle.std.specs.Vec.Iter.{into_iter_items};

use std::alloc::Global;
use std::env::Args;
use std::io::{self, ErrorKind};
use thiserror::Error;

/// Why the words of a process can't be read.
#[derive(Clone, Copy, Debug, Error)]
pub enum Unreadable {
    /// One of them isn't text.
    #[error("a word isn't text")]
    NotText,
    /// There is no memory for them.
    #[error("out of memory")]
    OutOfMemory,
}

/// What an error of the system says of the words.
fn why(error: &io::Error) -> Unreadable
    ensures { (result ≡ Unreadable.OutOfMemory) ↔ (error_kind error.now ≡ ErrorKind.OutOfMemory) }
{
    match error.kind() {
        ErrorKind::OutOfMemory => Unreadable::OutOfMemory,
        _ => Unreadable::NotText,
    }
}

/// The words after the program's name, of what `std::env::args` answers.
///
/// `OutOfMemory` comes where the system had no memory for them, or there is none here; `NotText`
/// where one of them isn't text, the program's name among them.
pub fn words_of(alloc: Global, arguments: io::Result<Args>) -> Result<Vec<String>, Unreadable>
    ensures words { IfOk result (λ words. MatchResult arguments (λ given. words.items ≡ drop 1 (into_iter_items given)) (λ error. ⊥)) }
    ensures err { IfErr result (λ why. MatchResult arguments (λ given. why ≡ Unreadable.OutOfMemory) (λ error. (why ≡ Unreadable.OutOfMemory) ↔ (error_kind error ≡ ErrorKind.OutOfMemory))) }
{
    let arguments = match arguments {
        Ok(arguments) => arguments,
        Err(error) => return Err(why(&error)),
    };
    match arguments.skip(1).collect::<Vec<String>>(alloc) {
        Ok(words) => Ok(words),
        Err(_) => Err(Unreadable::OutOfMemory),
    }
}
