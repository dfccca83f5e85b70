//! The symbols of a file's functions.

ghost use Rattle.std.specs.Prelude.{◌≡◌, ◌≤◌, ◌+◌, length};
ghost use Rattle.std.specs.List.{find};
ghost use Rattle.std.specs.Option.{option_and_then, option_map};
ghost use Rattle.rept_elf.specs.Header.{header_size};
ghost use Rattle.rept_elf.specs.SectionParts.{entry_of, tables_of};
ghost use Rattle.rept_elf.specs.Symbols.{address_in, address_named, symbol_from, symbols, is_function_at as is_function_of, is_named, is_this, name_at as name_of, named as named_by, symbol_tables, symbol_at, symbol_of};

use crate::fields::{after, first_zero, half, word};
use crate::section::{contents, section_at, section_count, symbol_section};

/// The kind of a symbol that is a function's, the low four bits of `st_info`.
const STT_FUNC: u8 = 2;

/// The kind of a symbol up to which it is named by a program: `STT_NOTYPE`, `STT_OBJECT`,
/// `STT_FUNC`.
const LAST_NAMED: u8 = STT_FUNC;

/// The section of a symbol that the file doesn't define.
const SHN_UNDEF: u16 = 0;

/// The bytes of a symbol.
pub const SYMBOL_SIZE: usize = 16;

/// A function's name, and where it begins.
#[derive(Clone, Copy, Debug)]
pub struct Symbol<'a> {
    /// The name, without the zero byte that ends it in the file. It may be empty, and of any bytes
    /// but zero.
    pub name: &'a [u8],
    /// `st_value`: the address of the function's first byte, as the file gives it.
    pub value: u32,
}

/// A symbol of a table.
#[derive(Clone, Copy)]
pub struct TableEntry {
    /// `st_name`: the offset of its name in the table of names.
    pub name: u32,
    /// `st_value`.
    pub value: u32,
    /// `st_size`.
    pub size: u32,
    /// `st_info`, of which the low four bits are its kind.
    pub info: u8,
    /// `st_shndx`: the section that it is defined in.
    pub section: u16,
}

/// The bytes of a symbol table, and those of the table of its names.
#[derive(Clone, Copy)]
pub struct SymbolBytes<'a> {
    /// The symbols.
    pub entries: &'a [u8],
    /// Their names.
    pub names: &'a [u8],
}

/// The symbol at an offset of a symbol table.
pub fn table_entry(table: &[u8], at: usize) -> TableEntry
    requires { at + 16 ≤ length table.now }
    ensures { entry_of result ≡ symbol_from table.now at }
{
    TableEntry {
        name: word(table, at),
        value: word(table, at + 4),
        size: word(table, at + 8),
        info: table[at + 12],
        section: half(table, at + 14),
    }
}

/// Whether the symbol is that of a function that has this address.
pub fn is_function_at(entry: &TableEntry, a: u32) -> bool
    ensures { result ≡ is_function_of a (entry_of entry.now) }
{
    let end = u64::from(entry.value) + u64::from(entry.size.max(1));
    entry.info % 16 == STT_FUNC && entry.value <= a && u64::from(a) < end
}

/// The first symbol of a function that has this address.
fn function_at(table: &[u8], a: u32) -> Option<TableEntry>
    ensures { option_map entry_of result ≡ find (is_function_of a) (symbols table.now) }
{
    for index in 0..table.len() / SYMBOL_SIZE {
        let entry = table_entry(table, SYMBOL_SIZE * index);
        if is_function_at(&entry, a) {
            return Some(entry);
        }
    }
    None
}

/// The name at an offset of a table of names, where it ends in the table.
fn name_at(names: &[u8], offset: u32) -> Option<&[u8]>
    ensures { option_map (λ b. b.now) result ≡ name_of names.now offset }
{
    let name = after(names, offset as usize);
    let end = first_zero(name)?;
    Some(&name[..end])
}

/// A symbol with its name, where the table of names has it with its end.
pub fn named<'a>(names: &'a [u8], found: Option<TableEntry>) -> Option<Symbol<'a>>
    ensures { option_map symbol_of result ≡ option_and_then (named_by names.now) (option_map entry_of found) }
{
    let entry = found?;
    let name = name_at(names, entry.name)?;
    Some(Symbol {
        name,
        value: entry.value,
    })
}

/// The first symbol table of a file and the table of its names, where the file holds them.
pub fn find_tables(bytes: &[u8]) -> Option<SymbolBytes<'_>>
    requires { header_size ≤ length bytes.now }
    ensures { option_map tables_of result ≡ symbol_tables bytes.now }
{
    let found = symbol_section(bytes)?;
    let entries = contents(bytes, &found)?;
    if found.link >= section_count(bytes) {
        return None;
    }
    let linked = section_at(bytes, found.link);
    let names = contents(bytes, &linked)?;
    Some(SymbolBytes { entries, names })
}

/// The function of a file that has this address.
pub fn find_symbol(bytes: &[u8], a: u32) -> Option<Symbol<'_>>
    requires { header_size ≤ length bytes.now }
    ensures { option_map symbol_of result ≡ symbol_at bytes.now a }
{
    let tables = find_tables(bytes)?;
    named(tables.names, function_at(tables.entries, a))
}

/// Whether a name is the one that is sought.
fn is_this(sought: &[u8], name: Option<&[u8]>) -> bool
    ensures { result ≡ is_this sought.now (option_map (λ b. b.now) name.entry) }
{
    match name {
        Some(name) => name == sought,
        None => false,
    }
}

/// Whether a symbol has this name, and an address of its own.
fn is_named(names: &[u8], sought: &[u8], entry: &TableEntry) -> bool
    ensures { result ≡ is_named names.now sought.now (entry_of entry.now) }
{
    entry.info % 16 <= LAST_NAMED
        && entry.section != SHN_UNDEF
        && is_this(sought, name_at(names, entry.name))
}

/// The first symbol of these tables that has this name.
fn named_entry(tables: &SymbolBytes<'_>, sought: &[u8]) -> Option<TableEntry>
    ensures { option_map entry_of result ≡ find (is_named tables.now.names.now sought.now) (symbols tables.now.entries.now) }
{
    for index in 0..tables.entries.len() / SYMBOL_SIZE {
        let entry = table_entry(tables.entries, SYMBOL_SIZE * index);
        if is_named(tables.names, sought, &entry) {
            return Some(entry);
        }
    }
    None
}

/// The address that these tables give to a name.
fn address_in(tables: &SymbolBytes<'_>, sought: &[u8]) -> Option<u32>
    ensures { result ≡ address_in (tables_of tables.now) sought.now }
{
    match named_entry(tables, sought) {
        Some(entry) => Some(entry.value),
        None => None,
    }
}

/// The address that a file gives to a name.
pub fn find_address(bytes: &[u8], sought: &[u8]) -> Option<u32>
    requires { header_size ≤ length bytes.now }
    ensures { result ≡ address_named bytes.now sought.now }
{
    let tables = find_tables(bytes)?;
    address_in(&tables, sought)
}
