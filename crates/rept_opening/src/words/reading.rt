//! Reading the words.

ghost use Rattle.std.specs.Prelude.{◌≡◌, IfOk, map, string_bytes};
ghost use Rattle.std.specs.Option.{option_map, option_and_then};
ghost use Rattle.std.specs.List.{list_all};
ghost use Rattle.clap.specs.Words.{subcommand_rows_of, rows_of, found_of, first_of};
ghost use Rattle.rept_opening.specs.Words.Asked.{asked_by, core_named_by, named_by};
ghost use Rattle.rept_opening.specs.Words.Found.{core_names_by, found_meaning, is_command, is_screened, made_by, maps_by, maps_with, meaning_after, names_by, open_by, open_with};
ghost use Rattle.rept_opening.specs.Words.Words.{asks_maps, is_plain, made_of, meaning_of, opened_by, steps_of};

use crate::words::command::rept_command;
use crate::words::request::{CoreNames, Domain, FileNames, Request};
use clap::ArgMatches;
use clap::error::ErrorKind;
use rept_word::{OutOfMemory, decimal};
use std::alloc::{AllocError, Global};

/// What the words ask for. None exactly where they have no meaning: where a word is empty or begins
/// with a hyphen, where they are none of the forms, or a number is out of form or of range. The
/// only refusal is out of memory.
pub fn meaning<'a>(alloc: Global, words: &'a [String]) -> Result<Option<Request<'a>>, OutOfMemory>
    ensures { IfOk result (λ r. option_map asked_by r ≡ meaning_of (map string_bytes words.entry.now)) }
{
    if !is_screened(words) {
        return Ok(None);
    }
    match rept_command(alloc)?.try_get_matches_from(words) {
        Ok(matches) => Ok(asked(&matches)),
        Err(error) => {
            if error.kind() == ErrorKind::OutOfMemory {
                return Err(AllocError);
            }
            Ok(None)
        }
    }
}

/// Whether the words are plain, and begin with a subcommand and at most five words after it.
fn is_screened(words: &[String]) -> bool
    ensures { result ≡ is_screened (map string_bytes words.now) }
{
    match words {
        [] => false,
        [first, rest @ ..] => is_command(first.as_str()) && rest.len() <= 5 && are_plain(rest),
    }
}

/// Whether the word names a subcommand.
fn is_command(word: &str) -> bool
    ensures { result ≡ is_command word.now }
{
    word == "open" || word == "bits" || word == "infer" || word == "maps" || word == "self"
}

/// Whether each word is plain: not empty, and without a leading hyphen.
fn are_plain(words: &[String]) -> bool
    ensures { result ≡ list_all is_plain (map string_bytes words.now) }
{
    for word in words {
        if !is_plain_word(word.as_bytes()) {
            return false;
        }
    }
    true
}

fn is_plain_word(word: &[u8]) -> bool
    ensures { result ≡ is_plain word.now }
{
    match word {
        [] => false,
        [first, ..] => *first != b'-',
    }
}

/// What the words that were found ask for.
fn asked<'a>(matches: &ArgMatches<'a>) -> Option<Request<'a>>
    ensures { option_map asked_by result ≡ found_meaning (subcommand_rows_of matches.now) }
{
    match matches.subcommand() {
        None => None,
        Some((name, found)) => asked_after(name, found),
    }
}

/// What the words that were found after a subcommand of this name ask for.
fn asked_after<'a>(name: &str, found: &ArgMatches<'a>) -> Option<Request<'a>>
    ensures { option_map asked_by result ≡ meaning_after name.now (rows_of (found_of found.now)) }
{
    match name {
        "open" => opened(Domain::Ranges, found),
        "bits" => opened(Domain::KnownBits, found),
        "infer" => opened(Domain::Inferred, found),
        "maps" => mapped(found),
        _ => made(found),
    }
}

/// The word that was found under a name.
fn word_of<'a>(matches: &ArgMatches<'a>, id: &str) -> Option<&'a str>
    ensures { option_map (λ s. s.now) result ≡ first_of id.now (rows_of (found_of matches.now)) }
{
    matches.get_str(id)
}

fn opened<'a>(domain: Domain, found: &ArgMatches<'a>) -> Option<Request<'a>>
    ensures { option_map asked_by result ≡ open_by domain (rows_of (found_of found.now)) }
{
    let Some(names) = names(found) else {
        return None;
    };
    match word_of(found, "from") {
        None => Some(asked_of(domain, names, None)),
        Some(word) => from_packet(domain, names, word),
    }
}

fn from_packet<'a>(domain: Domain, names: FileNames<'a>, word: &str) -> Option<Request<'a>>
    ensures { option_map asked_by result ≡ open_with domain (named_by names.entry) (Some word.now) }
{
    let Some(from) = decimal(word.as_bytes()) else {
        return None;
    };
    Some(asked_of(domain, names, Some(from)))
}

/// Whether these are the words `infer maps`.
fn asks_maps(domain: Domain, exe: &str) -> bool
    ensures { result ≡ asks_maps domain exe.now }
{
    match domain {
        Domain::Inferred => exe == "maps",
        Domain::Ranges | Domain::KnownBits => false,
    }
}

/// What names that follow the word of a domain ask for.
fn asked_of<'a>(domain: Domain, names: FileNames<'a>, from: Option<u32>) -> Request<'a>
    ensures { asked_by result ≡ opened_by domain (named_by names.entry) from }
{
    if asks_maps(domain, names.exe) {
        let names = CoreNames {
            core: names.core,
            trace: names.trace,
        };
        return Request::Maps {
            domain,
            names,
            from,
        };
    }
    Request::Open {
        domain,
        names,
        from,
    }
}

fn names<'a>(found: &ArgMatches<'a>) -> Option<FileNames<'a>>
    ensures { option_map named_by result ≡ names_by (rows_of (found_of found.now)) }
{
    let Some(exe) = word_of(found, "exe") else {
        return None;
    };
    let Some(core) = word_of(found, "core") else {
        return None;
    };
    let Some(trace) = word_of(found, "trace") else {
        return None;
    };
    Some(FileNames { exe, core, trace })
}

fn core_names<'a>(found: &ArgMatches<'a>) -> Option<CoreNames<'a>>
    ensures { option_map core_named_by result ≡ core_names_by (rows_of (found_of found.now)) }
{
    let Some(core) = word_of(found, "core") else {
        return None;
    };
    let Some(trace) = word_of(found, "trace") else {
        return None;
    };
    Some(CoreNames { core, trace })
}

fn mapped<'a>(found: &ArgMatches<'a>) -> Option<Request<'a>>
    ensures { option_map asked_by result ≡ maps_by (rows_of (found_of found.now)) }
{
    let Some(names) = core_names(found) else {
        return None;
    };
    match word_of(found, "from") {
        None => Some(Request::Maps {
            domain: Domain::Ranges,
            names,
            from: None,
        }),
        Some(word) => mapped_from(names, word),
    }
}

fn mapped_from<'a>(names: CoreNames<'a>, word: &str) -> Option<Request<'a>>
    ensures { option_map asked_by result ≡ maps_with (core_named_by names.entry) (Some word.now) }
{
    let Some(from) = decimal(word.as_bytes()) else {
        return None;
    };
    Some(Request::Maps {
        domain: Domain::Ranges,
        names,
        from: Some(from),
    })
}

fn made<'a>(found: &ArgMatches<'a>) -> Option<Request<'a>>
    ensures { option_map asked_by result ≡ made_by (rows_of (found_of found.now)) }
{
    let Some(seed) = word_of(found, "seed") else {
        return None;
    };
    let Some(steps) = word_of(found, "steps") else {
        return None;
    };
    made_run(seed, steps)
}

fn made_run<'a>(seed: &str, steps: &str) -> Option<Request<'a>>
    ensures { option_map asked_by result ≡ made_of seed.now steps.now }
{
    Some(Request::Made {
        seed: decimal(seed.as_bytes())?,
        steps: step_count(steps.as_bytes())?,
    })
}

/// A count of 1 to 20000 steps.
fn step_count(word: &[u8]) -> Option<u32>
    ensures { result ≡ steps_of word.now }
{
    let count = decimal(word)?;
    if 1 <= count && count <= 20000 {
        Some(count)
    } else {
        None
    }
}
