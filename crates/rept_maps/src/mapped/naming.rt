//! The functions of several addresses, by the files that have them.

ghost use Rattle.std.specs.Prelude.{◌≡◌, ◌<◌, length, map, IfOk};
ghost use Rattle.std.specs.Option.{option_map};
ghost use Rattle.rept_elf.specs.Image.{file_of};
ghost use Rattle.rept_elf.specs.Symbols.{symbol_at, symbol_of};
ghost use Rattle.rept_maps.specs.Mapped.Naming.{asked_in, found_of, is_in, moved_home, or_named, own_of, some_in};
ghost use Rattle.rept_maps.specs.Mapped.Views.{asked_of};

use rept_elf::{Image, Symbol};
use std::alloc::{AllocError, Global};

/// Where the function of an address is sought.
#[derive(Clone, Copy)]
pub struct Home {
    /// The index of the mapping that has the address.
    pub mapping: u32,
    /// The address that the mapping's file gives to it.
    pub own: u32,
    /// The address.
    pub address: u32,
}

/// An address whose function is sought, and what is found.
#[derive(Clone, Copy)]
pub struct FunctionSearch<'a> {
    /// Where it is sought, if a file has the address.
    pub home: Option<Home>,
    /// What is found, as it stands in memory.
    pub found: Option<Symbol<'a>>,
}

/// Whether an address is sought in the file of this mapping.
fn is_in(asked: &FunctionSearch<'_>, mapping: u32) -> bool
    ensures { result ≡ is_in mapping (asked_of asked.now) }
{
    match asked.home {
        Some(home) => home.mapping == mapping,
        None => false,
    }
}

/// Whether one of the addresses is sought in the file of this mapping.
pub fn has_home(asked: &[FunctionSearch<'_>], mapping: u32) -> bool
    ensures { result ≡ some_in mapping (map asked_of asked.now) }
{
    for one in asked {
        if is_in(one, mapping) {
            return true;
        }
    }
    false
}

/// The address at which a file is asked, where it is one of its own.
fn own_of(asked: &FunctionSearch<'_>) -> u32
    ensures { result ≡ own_of (asked_of asked.now) }
{
    match asked.home {
        Some(home) => home.own,
        None => 0,
    }
}

/// The addresses at which a file is asked.
fn own_addresses(alloc: Global, asked: &[FunctionSearch<'_>]) -> Result<Vec<u32>, AllocError>
    ensures { IfOk result (λ owns. owns.items ≡ map own_of (map asked_of asked.now)) }
{
    let mut owns = Vec::new(alloc);
    for one in asked {
        owns.push(own_of(one))?;
    }
    Ok(owns)
}

/// A function of a file, as it stands in memory where the file has the address of this home.
fn moved<'a>(home: &Home, symbol: Symbol<'a>) -> Symbol<'a>
    ensures { symbol_of result ≡ moved_home home.now (symbol_of symbol.entry) }
{
    Symbol {
        name: symbol.name,
        value: symbol
            .value
            .wrapping_add(home.address.wrapping_sub(home.own)),
    }
}

/// What is found with the function that the file of this mapping has at the address.
fn or_named<'a>(
    mapping: u32,
    asked: &FunctionSearch<'a>,
    named: Option<Symbol<'a>>,
) -> FunctionSearch<'a>
    ensures { asked_of result ≡ or_named mapping (asked_of asked.now) (option_map symbol_of named.entry) }
{
    let Some(home) = asked.home else {
        return *asked;
    };
    if home.mapping != mapping || asked.found.is_some() {
        return *asked;
    }
    let Some(symbol) = named else {
        return *asked;
    };
    FunctionSearch {
        home: asked.home,
        found: Some(moved(&home, symbol)),
    }
}

/// What is found with the file of one mapping more, whose image this is.
pub fn ask<'a>(
    alloc: Global,
    image: &Image<'a>,
    mapping: u32,
    asked: &[FunctionSearch<'a>],
) -> Result<Vec<FunctionSearch<'a>>, AllocError>
    ensures { IfOk result (λ more. map asked_of more.items ≡ map (asked_in (file_of image.now) mapping) (map asked_of asked.now)) }
{
    let owns = own_addresses(alloc, asked)?;
    let named = image.symbols(alloc, owns.as_slice())?;
    let mut more = Vec::new(alloc);
    for (i, one) in asked.iter().enumerate() {
        more.push(or_named(mapping, one, named[i]))?;
    }
    Ok(more)
}

/// What is found of each address.
pub fn found_of<'a>(
    alloc: Global,
    asked: &[FunctionSearch<'a>],
) -> Result<Vec<Option<Symbol<'a>>>, AllocError>
    ensures { IfOk result (λ found. map (option_map symbol_of) found.items ≡ map found_of (map asked_of asked.now)) }
{
    let mut found = Vec::new(alloc);
    for one in asked {
        found.push(one.found)?;
    }
    Ok(found)
}
