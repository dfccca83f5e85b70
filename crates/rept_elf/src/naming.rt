//! The functions of several addresses, in one pass over the symbols of a file.

ghost use Rattle.std.specs.Prelude.{◌≡◌, ◌≤◌, [], length, map, None, IfOk};
ghost use Rattle.std.specs.Option.{option_map};
ghost use Rattle.rept_elf.specs.Header.{header_size};
ghost use Rattle.rept_elf.specs.Naming.{answered, asked_among, asked_of, wants};
ghost use Rattle.rept_elf.specs.SectionParts.{entry_of, tables_of};
ghost use Rattle.rept_elf.specs.Symbols.{function_in, symbol_at, symbol_of, symbols};

use crate::symbol::{
    SYMBOL_SIZE, Symbol, SymbolBytes, TableEntry, find_tables, is_function_at, named, table_entry,
};
use std::alloc::{AllocError, Global};

/// An address, and the first symbol of a function that has it, among those that were looked at.
#[derive(Clone, Copy)]
pub struct SymbolSearch {
    /// The address.
    pub address: u32,
    /// The symbol.
    pub found: Option<TableEntry>,
}

/// Addresses of which nothing is found yet.
fn unanswered(alloc: Global, addresses: &[u32]) -> Result<Vec<SymbolSearch>, AllocError>
    ensures { IfOk result (λ asked. map asked_of asked.items ≡ map (asked_among []) addresses.now) }
{
    let mut asked = Vec::new(alloc);
    for address in addresses {
        asked.push(SymbolSearch {
            address: *address,
            found: None,
        })?;
    }
    Ok(asked)
}

/// Whether an address wants a symbol, and this is one of its function.
fn wants(entry: &TableEntry, sought: &SymbolSearch) -> bool
    ensures { result ≡ wants (entry_of entry.now) (asked_of sought.now) }
{
    sought.found.is_none() && is_function_at(entry, sought.address)
}

/// Gives the symbol to an address that wants it.
fn offer(entry: &TableEntry, sought: &mut SymbolSearch)
    ensures { asked_of sought.new ≡ answered (entry_of entry.now) (asked_of sought.old) }
{
    if wants(entry, sought) {
        sought.found = Some(*entry);
    }
}

/// Gives the symbol to all addresses that want it.
fn answer(entry: &TableEntry, asked: &mut [SymbolSearch])
    ensures { map asked_of asked.new ≡ map (answered (entry_of entry.now)) (map asked_of asked.old) }
{
    for sought in asked.iter_mut() {
        offer(entry, sought);
    }
}

/// Of each address the first symbol of a table that is of a function which has it.
fn first_functions(
    alloc: Global,
    table: &[u8],
    addresses: &[u32],
) -> Result<Vec<SymbolSearch>, AllocError>
    ensures { IfOk result (λ asked. map asked_of asked.items ≡ map (asked_among (symbols table.now)) addresses.now) }
{
    let mut asked = unanswered(alloc, addresses)?;
    for index in 0..table.len() / SYMBOL_SIZE {
        let entry = table_entry(table, SYMBOL_SIZE * index);
        answer(&entry, asked.as_mut_slice());
    }
    Ok(asked)
}

/// The functions of these addresses by a symbol table.
fn symbols_in<'a>(
    alloc: Global,
    tables: &SymbolBytes<'a>,
    addresses: &[u32],
) -> Result<Vec<Option<Symbol<'a>>>, AllocError>
    ensures { IfOk result (λ found. map (option_map symbol_of) found.items ≡ map (function_in (tables_of tables.now)) addresses.now) }
{
    let asked = first_functions(alloc, tables.entries, addresses)?;
    let mut found = Vec::new(alloc);
    for sought in &asked {
        found.push(named(tables.names, sought.found))?;
    }
    Ok(found)
}

/// None for each address.
fn no_symbols<'a>(alloc: Global, addresses: &[u32]) -> Result<Vec<Option<Symbol<'a>>>, AllocError>
    ensures { IfOk result (λ found. map (option_map symbol_of) found.items ≡ map (λ _. None) addresses.now) }
{
    let mut found = Vec::new(alloc);
    for _ in addresses {
        found.push(None)?;
    }
    Ok(found)
}

/// The functions of a file that have these addresses, one after the other.
pub fn find_symbols<'a>(
    alloc: Global,
    bytes: &'a [u8],
    addresses: &[u32],
) -> Result<Vec<Option<Symbol<'a>>>, AllocError>
    requires { header_size ≤ length bytes.now }
    ensures { IfOk result (λ found. map (option_map symbol_of) found.items ≡ map (symbol_at bytes.now) addresses.now) }
{
    match find_tables(bytes) {
        Some(tables) => symbols_in(alloc, &tables, addresses),
        None => no_symbols(alloc, addresses),
    }
}
