//! An executable and the core file of its crash, as one.

ghost use Rattle.std.specs.Prelude.{◌≡◌, ◌≤◌, ◌<◌, ℕ, List, Result, Some, length, map, IfOk};
ghost use Rattle.std.specs.Option.{option_map};
ghost use Rattle.rept_elf.specs.Symbols.{symbol_of};
ghost use Rattle.rept_elf.specs.Image.{file_of, segments_of};
ghost use Rattle.rept_dump.specs.Memory.{crash_byte, kept_byte};
ghost use Rattle.rept_dump.specs.Registers.{SaysRegisters, status_size};
ghost use Rattle.rept_dump.specs.Stretch.{AnswersAlike, sought_saved};
ghost use Rattle.rept_dump.specs.Threads.{AreThreadNotes};

use crate::executable::{Executable, byte_in};
use crate::fault::CoreFault;
use crate::files::Files;
use crate::notes::find_registers;
use crate::search::{Allowed, may_be_written};
use crate::status::{Status, read_status};
use crate::stretch::{NOWHERE, SegmentStretch, stretch_near};
use crate::threads::{find_threads, search_core};
use rept_elf::{Image, Symbol};
use rept_maps::{Images, Mapped, Maps};
use std::alloc::{AllocError, Global};

/// An executable and the core file of its crash, whose notes are whole and have the registers of
/// one thread, or of several. Threads are numbered from 0, in the order of their notes.
#[derive(Clone, Copy)]
pub struct Dump<'a> {
    files: Files<'a>,
    core: Image<'a>,
    registers: &'a [u8],
    threads: u32,
    // Where saved bytes were looked for last.
    saved: SegmentStretch<'a>,
    ghost has_registers: { status_size ≤ length registers.now },
    ghost saved_answers: { AnswersAlike (sought_saved (segments_of core)) saved },
    ghost are_threads: { ∥ AreThreadNotes (length (file_of core)) (segments_of core) registers.now threads ∥₁ },
}

impl<'a> Dump<'a> {
    ghost use Rattle.std.specs.Prelude.{Ok, Err, IfErr, MatchBool, slice_get};
    ghost use Rattle.rept_maps.specs.FileMap.{map_count};
    ghost use Rattle.rept_maps.specs.Views.{desc_of};
    ghost use Rattle.rept_maps.specs.Mapped.Mapped.{mappings};
    ghost use Rattle.rept_dump.specs.Files.{program_of};
    ghost use Rattle.rept_dump.specs.Program.{address_named, contents};
    ghost use Rattle.rept_dump.specs.Program.Program.{OneFile, MappedFiles};
    ghost use Rattle.rept_dump.specs.Dump.{exe_of, core_of, registers_of, said_of, threads_of, HasThreads, IsOfOne, AreRead, AreReadOfAll};
    ghost use Rattle.rept_dump.specs.Registers.{SaysOfAll};
    ghost use Rattle.rept_dump.specs.declared.fault.CoreFault.{CoreFault};
    ghost use Rattle.rept_dump.specs.Status.{IsStatus};

    /// The two files together. A fault comes exactly where the core file's notes have it first.
    pub fn read(exe: Image<'a>, core: Image<'a>) -> Result<Dump<'a>, CoreFault>
        ensures said { SaysRegisters (length (file_of core.entry)) (segments_of core.entry) (said_of result) }
        ensures only { (said : Result (List ℕ) CoreFault) → SaysRegisters (length (file_of core.entry)) (segments_of core.entry) said → said ≡ said_of result }
        ensures one { IfOk result IsOfOne }
        ensures exe { IfOk result (λ dump. exe_of dump ≡ OneFile (file_of exe.entry)) }
        ensures core { IfOk result (λ dump. core_of dump ≡ segments_of core.entry) }
    {
        Dump::join(Files::Executable(Executable::new(exe)), core)
    }

    /// The two files together, with one register note of each thread. A fault comes exactly where
    /// the core file's notes have it first: a note that isn't whole, no register note, a short one,
    /// more than 1,024, and two of one process. No memory is taken.
    pub fn read_many(exe: Image<'a>, core: Image<'a>) -> Result<Dump<'a>, CoreFault>
        ensures ok { IfOk result (λ dump. (descs : List (List ℕ)) × SaysOfAll (length (file_of core.entry)) (segments_of core.entry) (Ok descs) × HasThreads dump descs × (slice_get descs 0 ≡ Some (registers_of dump)) × (threads_of dump ≡ length descs)) }
        ensures err { IfErr result (λ fault. SaysOfAll (length (file_of core.entry)) (segments_of core.entry) (Err fault)) }

        // The notes say nothing else.
        ensures only_ok { (descs : List (List ℕ)) → SaysOfAll (length (file_of core.entry)) (segments_of core.entry) (Ok descs) → IfErr result (λ _. ⊥) }
        ensures only_err { (fault : CoreFault) → SaysOfAll (length (file_of core.entry)) (segments_of core.entry) (Err fault) → result ≡ Err fault }
        ensures exe { IfOk result (λ dump. exe_of dump ≡ OneFile (file_of exe.entry)) }
        ensures core { IfOk result (λ dump. core_of dump ≡ segments_of core.entry) }
    {
        Dump::join_many(Files::Executable(Executable::new(exe)), core)
    }

    /// Mapped files with the core file that lists them, as `read` and, of `many` threads,
    /// `read_many` read the notes.
    pub fn mapped(
        maps: Maps<'a>,
        images: &'a Images<'a>,
        core: Image<'a>,
        many: bool,
    ) -> Result<Dump<'a>, CoreFault>
        requires { length images.now ≡ map_count (desc_of maps) }
        ensures notes { MatchBool many (AreReadOfAll (length (file_of core.entry)) (segments_of core.entry) result) (AreRead (length (file_of core.entry)) (segments_of core.entry) result) }
        ensures files { IfOk result (λ dump. exe_of dump ≡ MappedFiles (mappings (desc_of maps.entry) images.now)) }
        ensures core { IfOk result (λ dump. core_of dump ≡ segments_of core.entry) }
    {
        let files = Files::Mapped(Mapped::new(maps, images));
        if many {
            return Dump::join_many(files, core);
        }
        Dump::join(files, core)
    }

    /// Files with the core file, which has the registers of one thread.
    fn join(files: Files<'a>, core: Image<'a>) -> Result<Dump<'a>, CoreFault>
        ensures said { SaysRegisters (length (file_of core.entry)) (segments_of core.entry) (said_of result) }
        ensures only { (said : Result (List ℕ) CoreFault) → SaysRegisters (length (file_of core.entry)) (segments_of core.entry) said → said ≡ said_of result }
        ensures one { IfOk result IsOfOne }
        ensures files { IfOk result (λ dump. exe_of dump ≡ program_of files.entry) }
        ensures core { IfOk result (λ dump. core_of dump ≡ segments_of core.entry) }
    {
        let registers = find_registers(&core)?;
        Ok(Dump {
            files,
            core,
            registers,
            threads: 1,
            saved: NOWHERE,
        })
    }

    /// Files with the core file, with the registers of each thread.
    fn join_many(files: Files<'a>, core: Image<'a>) -> Result<Dump<'a>, CoreFault>
        ensures ok { IfOk result (λ dump. (descs : List (List ℕ)) × SaysOfAll (length (file_of core.entry)) (segments_of core.entry) (Ok descs) × HasThreads dump descs × (slice_get descs 0 ≡ Some (registers_of dump)) × (threads_of dump ≡ length descs)) }
        ensures err { IfErr result (λ fault. SaysOfAll (length (file_of core.entry)) (segments_of core.entry) (Err fault)) }
        ensures only_ok { (descs : List (List ℕ)) → SaysOfAll (length (file_of core.entry)) (segments_of core.entry) (Ok descs) → IfErr result (λ _. ⊥) }
        ensures only_err { (fault : CoreFault) → SaysOfAll (length (file_of core.entry)) (segments_of core.entry) (Err fault) → result ≡ Err fault }
        ensures files { IfOk result (λ dump. exe_of dump ≡ program_of files.entry) }
        ensures core { IfOk result (λ dump. core_of dump ≡ segments_of core.entry) }
    {
        let (registers, threads) = find_threads(&core)?;
        Ok(Dump {
            files,
            core,
            registers,
            threads,
            saved: NOWHERE,
        })
    }

    /// How many threads there are: 1 of a dump that `read` gave.
    pub fn threads(&self) -> u32
        ensures { result ≡ threads_of self.now }
    {
        self.threads
    }

    /// The process, the signal and the registers of the first thread.
    pub fn status(&self) -> Status
        ensures { IsStatus (registers_of self.now) result }
    {
        read_status(self.registers)
    }

    /// Those of the thread of this number. The note of any but the first thread is looked for among
    /// all notes, at each call.
    pub fn status_of(&self, t: u32) -> Status
        requires { t < threads_of self.now }
        ensures { (descs : List (List ℕ)) → HasThreads self.now descs → (desc : List ℕ) × (slice_get descs t ≡ Some desc) × IsStatus desc result }
    {
        if t == 0 {
            return self.status();
        }
        match search_core(&self.core, t) {
            Some(desc) => read_status(desc),
            None => unreachable!(),
        }
    }

    /// The byte that memory had at this address when the core file was written: from the first
    /// `PT_LOAD` segment of the core file whose bytes in the file have it, else from the first of
    /// the executable without `PF_W` whose bytes in the file have it. Mapped files are asked only
    /// where no `PT_LOAD` segment of the core file with `PF_W` has the address in memory. None
    /// exactly where there is neither.
    pub fn byte(&self, a: u32) -> Option<u8>
        ensures { result ≡ crash_byte (contents (exe_of self.now)) (core_of self.now) a }
    {
        match self.saved_near(a).segment {
            Some(segment) => byte_in(&segment, Allowed::All, a),
            None => self.kept(a),
        }
    }

    /// The byte that the program could not write at this address, of its files.
    fn kept(&self, a: u32) -> Option<u8>
        ensures { result ≡ kept_byte (contents (exe_of self.now)) (core_of self.now) a }
    {
        if self.files.are_mapped() && may_be_written(&self.core, a) {
            return None;
        }
        self.files.kept(a)
    }

    /// The word of code at this address: the four bytes in the first `PT_LOAD` segment of the
    /// executable with `PF_X` whose bytes in the file have all four. None exactly where there is
    /// none.
    pub fn word_of_code(&self, a: u32) -> Option<u32>
        ensures { result ≡ (contents (exe_of self.now)).word a }
    {
        self.files.word(a)
    }

    /// The half of code at this address: the two bytes in the first `PT_LOAD` segment of the
    /// executable with `PF_X` whose bytes in the file have both. None exactly where there is none.
    /// It may be of another segment than the word there.
    pub fn half_of_code(&self, a: u32) -> Option<u16>
        ensures { result ≡ (contents (exe_of self.now)).half a }
    {
        self.files.half(a)
    }

    /// The end of the executable's image: the greatest `vaddr + memsz` of a `PT_LOAD` segment of
    /// it, 0 without one.
    pub fn image_end(&self) -> u64
        ensures { result ≡ (contents (exe_of self.now)).end }
    {
        self.files.end()
    }

    /// The function that has this address, as the executable names it (`Image::symbol`), and where
    /// it begins. None exactly where it names none.
    pub fn symbol(&self, a: u32) -> Option<Symbol<'a>>
        ensures { option_map symbol_of result ≡ (contents (exe_of self.now)).symbol a }
    {
        self.files.symbol(a)
    }

    /// The functions that have these addresses, one answer for each, as `symbol` gives it. The
    /// symbol table of an executable is gone over once for all of them, where `symbol` goes over it
    /// at each call. The only refusal is of memory.
    pub fn symbols(
        &self,
        alloc: Global,
        addresses: &[u32],
    ) -> Result<Vec<Option<Symbol<'a>>>, AllocError>
        ensures { IfOk result (λ found. map (option_map symbol_of) found.items ≡ map (contents (exe_of self.now)).symbol addresses.now) }
    {
        self.files.symbols(alloc, addresses)
    }

    /// The address that the executable gives to a name (`Image::address_named`). None exactly where
    /// it gives none, as of files that the process had mapped.
    pub fn address_named(&self, name: &[u8]) -> Option<u32>
        ensures { result ≡ address_named (exe_of self.now) name.now }
    {
        self.files.address_named(name)
    }

    /// This dump, finding words of code near this address without a search among all segments.
    pub fn near_code(&self, a: u32) -> Dump<'a>
        ensures exe { exe_of result ≡ exe_of self.now }
        ensures core { core_of result ≡ core_of self.now }
        ensures registers { registers_of result ≡ registers_of self.now }
    {
        let mut dump = *self;
        dump.files = self.files.near_code(a);
        dump
    }

    /// This dump, finding halves of code near this address without a search among all segments.
    pub fn near_half(&self, a: u32) -> Dump<'a>
        ensures exe { exe_of result ≡ exe_of self.now }
        ensures core { core_of result ≡ core_of self.now }
        ensures registers { registers_of result ≡ registers_of self.now }
    {
        let mut dump = *self;
        dump.files = self.files.near_half(a);
        dump
    }

    /// This dump, finding bytes near this address without a search among all segments.
    pub fn near_byte(&self, a: u32) -> Dump<'a>
        ensures exe { exe_of result ≡ exe_of self.now }
        ensures core { core_of result ≡ core_of self.now }
        ensures registers { registers_of result ≡ registers_of self.now }
    {
        let mut dump = *self;
        dump.saved = self.saved_near(a);
        dump.files = self.files.near_byte(a);
        dump
    }

    /// The stretch of an address among saved bytes.
    fn saved_near(&self, a: u32) -> SegmentStretch<'a>
        ensures within { (result.from ≤ a) × (a < result.to) }
        ensures alike { AnswersAlike (sought_saved (core_of self.now)) result }
    {
        stretch_near(self.saved, &self.core, Allowed::All, a, 1)
    }
}
