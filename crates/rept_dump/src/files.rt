//! The files of a program, in which its code and constants are looked up.

ghost use Rattle.std.specs.Prelude.{◌≡◌, map, IfOk};
ghost use Rattle.std.specs.Option.{option_map};
ghost use Rattle.rept_elf.specs.Symbols.{symbol_of};

use crate::executable::Executable;
use rept_elf::Symbol;
use rept_maps::Mapped;
use std::alloc::{AllocError, Global};

/// The files of a program.
#[derive(Clone, Copy)]
pub enum Files<'a> {
    /// An executable.
    Executable(Executable<'a>),
    /// The files that the process had mapped.
    Mapped(Mapped<'a>),
}

impl<'a> Files<'a> {
    ghost use Rattle.rept_dump.specs.Files.{program_of};
    ghost use Rattle.rept_dump.specs.Program.{address_named, contents};

    /// Whether these are the files that the process had mapped.
    pub fn are_mapped(&self) -> bool
        ensures { result ≡ (contents (program_of self.now)).mapped }
    {
        match self {
            Files::Executable(_) => false,
            Files::Mapped(_) => true,
        }
    }

    /// The word of code at an address.
    pub fn word(&self, a: u32) -> Option<u32>
        ensures { result ≡ (contents (program_of self.now)).word a }
    {
        match self {
            Files::Executable(executable) => executable.word(a),
            Files::Mapped(mapped) => mapped.word(a),
        }
    }

    /// The half of code at an address.
    pub fn half(&self, a: u32) -> Option<u16>
        ensures { result ≡ (contents (program_of self.now)).half a }
    {
        match self {
            Files::Executable(executable) => executable.half(a),
            Files::Mapped(mapped) => mapped.half(a),
        }
    }

    /// The byte at an address, where the program could not write it.
    pub fn kept(&self, a: u32) -> Option<u8>
        ensures { result ≡ (contents (program_of self.now)).kept a }
    {
        match self {
            Files::Executable(executable) => executable.kept(a),
            Files::Mapped(mapped) => mapped.byte(a),
        }
    }

    /// The function that has an address.
    pub fn symbol(&self, a: u32) -> Option<Symbol<'a>>
        ensures { option_map symbol_of result ≡ (contents (program_of self.now)).symbol a }
    {
        match self {
            Files::Executable(executable) => executable.symbol(a),
            Files::Mapped(mapped) => mapped.symbol(a),
        }
    }

    /// The functions that have these addresses.
    pub fn symbols(
        &self,
        alloc: Global,
        addresses: &[u32],
    ) -> Result<Vec<Option<Symbol<'a>>>, AllocError>
        ensures { IfOk result (λ found. map (option_map symbol_of) found.items ≡ map (contents (program_of self.now)).symbol addresses.now) }
    {
        match self {
            Files::Executable(executable) => executable.symbols(alloc, addresses),
            Files::Mapped(mapped) => mapped.symbols(alloc, addresses),
        }
    }

    /// The address that these files give to a name; mapped files give none.
    pub fn address_named(&self, name: &[u8]) -> Option<u32>
        ensures { result ≡ address_named (program_of self.now) name.now }
    {
        match self {
            Files::Executable(executable) => executable.address_named(name),
            Files::Mapped(_) => None,
        }
    }

    /// The end of the program's image; 0 of mapped files.
    pub fn end(&self) -> u64
        ensures { result ≡ (contents (program_of self.now)).end }
    {
        match self {
            Files::Executable(executable) => executable.end(),
            Files::Mapped(_) => 0,
        }
    }

    /// These files, finding words of code near this address faster.
    pub fn near_code(&self, a: u32) -> Files<'a>
        ensures { program_of result ≡ program_of self.now }
    {
        match self {
            Files::Executable(executable) => Files::Executable(executable.near_code(a)),
            Files::Mapped(mapped) => Files::Mapped(*mapped),
        }
    }

    /// These files, finding halves of code near this address faster.
    pub fn near_half(&self, a: u32) -> Files<'a>
        ensures { program_of result ≡ program_of self.now }
    {
        match self {
            Files::Executable(executable) => Files::Executable(executable.near_half(a)),
            Files::Mapped(mapped) => Files::Mapped(*mapped),
        }
    }

    /// These files, finding bytes near this address faster that the program could not write.
    pub fn near_byte(&self, a: u32) -> Files<'a>
        ensures { program_of result ≡ program_of self.now }
    {
        match self {
            Files::Executable(executable) => Files::Executable(executable.near_byte(a)),
            Files::Mapped(mapped) => Files::Mapped(*mapped),
        }
    }
}
