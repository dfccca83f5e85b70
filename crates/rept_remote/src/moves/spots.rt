//! Breakpoints and watchpoints.

ghost use Rattle.std.specs.Prelude.{◌≡◌, ◌++◌, [], length, map, nat_lt, IfOk, OnOk, OnErr};
ghost use Rattle.std.specs.List.{position, range_with_len};
ghost use Rattle.rept_remote.specs.Moves.Spots.{accessed, accesses_of, address_in, addresses_of, has_break, has_region, is_address, is_kind, is_same, removed, watch_of, watched, with_break, with_region, without_break, without_region};

use crate::WatchKind;
use rept_word::OutOfMemory;
use std::alloc::Global;
use std::marker::Model;

/// Bytes from an address on.
#[derive(Clone, Copy)]
pub struct Region {
    /// what is told of them
    pub kind: WatchKind,
    /// the address of the first byte
    pub address: u32,
    /// how many bytes
    pub length: u32,
}

/// The addresses of the bytes whose writes are watched.
#[derive(Drop)]
pub struct Watch {
    addresses: Vec<u32>,
    accesses: Vec<u32>,
    is_stale: bool,
}

impl Model for Watch {
    ghost use Rattle.rept_remote.specs.Moves.Spots.{Watch};

    ghost Value = { Watch };

    ghost view = { λ w. record { addresses = w.addresses.items; accesses = w.accesses.items; is_stale = w.is_stale } };
}

impl Watch {
    /// Those of all bytes, in the order in which they were set.
    pub fn addresses(&self) -> &[u32]
        ensures { result.now ≡ self.now.addresses }
    {
        self.addresses.as_slice()
    }

    /// Those of the bytes of which each write is to be told.
    pub fn accesses(&self) -> &[u32]
        ensures { result.now ≡ self.now.accesses }
    {
        self.accesses.as_slice()
    }

    /// Whether gdb's own copy of the others may be older than the cursor.
    pub fn is_stale(&self) -> bool
        ensures { result ≡ self.now.is_stale }
    {
        self.is_stale
    }
}

/// The addresses of breakpoints, and the regions whose writes are watched.
#[derive(Drop)]
pub struct Spots {
    breaks: Vec<u32>,
    regions: Vec<Region>,
}

impl Model for Spots {
    ghost use Rattle.rept_remote.specs.Moves.Spots.{Spots};

    ghost Value = { Spots };

    ghost view = { λ s. record { breaks = s.breaks.items; regions = s.regions.items } };
}

impl Spots {
    /// None.
    pub fn new(alloc: Global) -> Spots
        ensures { result ≡ record { breaks = []; regions = [] } }
    {
        Spots {
            breaks: Vec::new(alloc),
            regions: Vec::new(alloc),
        }
    }

    /// Whether there is a breakpoint at this address.
    pub fn has_break(&self, address: u32) -> bool
        ensures { result ≡ has_break self.now address }
    {
        self.breaks.iter().any(|found| *found == address)
    }

    /// Whether this region is watched.
    fn has_region(&self, wanted: Region) -> bool
        ensures { result ≡ has_region self.now wanted }
    {
        self.regions.iter().any(|region| is_same(wanted, *region))
    }

    /// Sets a breakpoint. The only refusal is out of memory, and changes nothing.
    pub fn set_break(&mut self, address: u32) -> Result<(), OutOfMemory>
        ensures ok { OnOk result (self.new ≡ with_break self.old address) }
        ensures err { OnErr result (self.new ≡ self.old) }
    {
        if self.has_break(address) {
            return Ok(());
        }
        self.breaks.push(address)?;
        Ok(())
    }

    /// Takes a breakpoint away.
    pub fn drop_break(&mut self, address: u32)
        ensures { self.new ≡ without_break self.old address }
    {
        drop_address(&mut self.breaks, address);
    }

    /// Watches a region. The only refusal is out of memory, and changes nothing.
    pub fn set_region(&mut self, region: Region) -> Result<(), OutOfMemory>
        ensures ok { OnOk result (self.new ≡ with_region self.old region) }
        ensures err { OnErr result (self.new ≡ self.old) }
    {
        if self.has_region(region) {
            return Ok(());
        }
        self.regions.push(region)?;
        Ok(())
    }

    /// Watches a region no longer.
    pub fn drop_region(&mut self, region: Region)
        ensures { self.new ≡ without_region self.old region }
    {
        drop_same(&mut self.regions, region);
    }

    /// The addresses of the breakpoints.
    pub fn breaks(&self) -> &[u32]
        ensures { result.now ≡ self.now.breaks }
    {
        self.breaks.as_slice()
    }

    /// Whether something is watched.
    pub fn has_regions(&self) -> bool
        ensures { result ≡ nat_lt 0 (length self.now.regions) }
    {
        !self.regions.is_empty()
    }

    /// The addresses of the bytes that are watched, where gdb's own copy of them may be older than
    /// the cursor, or isn't.
    pub fn watch(&self, alloc: Global, is_stale: bool) -> Result<Watch, OutOfMemory>
        ensures { IfOk result (λ watch. watch ≡ watch_of self.now is_stale) }
    {
        let addresses = self.watched(alloc)?;
        let accesses = self.accessed(alloc)?;
        Ok(Watch {
            addresses,
            accesses,
            is_stale,
        })
    }

    /// The addresses of the bytes of which each write is to be told.
    fn accessed(&self, alloc: Global) -> Result<Vec<u32>, OutOfMemory>
        ensures { IfOk result (λ addresses. addresses.items ≡ accessed self.now) }
    {
        let mut addresses = Vec::new(alloc);
        for region in &self.regions {
            push_accesses(&mut addresses, *region)?;
        }
        Ok(addresses)
    }

    /// The addresses of all bytes that are watched, in the order in which they were set.
    fn watched(&self, alloc: Global) -> Result<Vec<u32>, OutOfMemory>
        ensures { IfOk result (λ addresses. addresses.items ≡ watched self.now) }
    {
        let mut addresses = Vec::new(alloc);
        for region in &self.regions {
            push_addresses(&mut addresses, *region)?;
        }
        Ok(addresses)
    }
}

/// Takes the first such address out of a list.
fn drop_address(addresses: &mut Vec<u32>, address: u32)
    ensures { addresses.new.items ≡ removed addresses.old.items (position (is_address address) addresses.old.items) }
{
    if let Some(i) = place_of(addresses.as_slice(), address) {
        addresses.remove(i);
    }
}

/// Takes the first such region out of a list.
fn drop_same(regions: &mut Vec<Region>, region: Region)
    ensures { regions.new.items ≡ removed regions.old.items (position (is_same region) regions.old.items) }
{
    if let Some(i) = place_of_region(regions.as_slice(), region) {
        regions.remove(i);
    }
}

/// Where an address stands first.
fn place_of(addresses: &[u32], address: u32) -> Option<usize>
    ensures { result ≡ position (is_address address) addresses.now }
{
    addresses.iter().position(|found| *found == address)
}

/// Where a region stands first.
fn place_of_region(regions: &[Region], wanted: Region) -> Option<usize>
    ensures { result ≡ position (is_same wanted) regions.now }
{
    regions.iter().position(|region| is_same(wanted, *region))
}

/// Whether a region is the one that is wanted.
fn is_same(wanted: Region, region: Region) -> bool
    ensures { result ≡ is_same wanted region }
{
    region.address == wanted.address
        && region.length == wanted.length
        && is_kind(wanted.kind, region.kind)
}

/// Whether a kind is the one that is wanted.
fn is_kind(wanted: WatchKind, kind: WatchKind) -> bool
    ensures { result ≡ is_kind wanted kind }
{
    match wanted {
        WatchKind::Writes => matches!(kind, WatchKind::Writes),
        WatchKind::Accesses => matches!(kind, WatchKind::Accesses),
    }
}

/// Appends the addresses of a region of which each write is to be told.
fn push_accesses(addresses: &mut Vec<u32>, region: Region) -> Result<(), OutOfMemory>
    ensures { OnOk result (addresses.new.items ≡ addresses.old.items ++ accesses_of region) }
{
    match region.kind {
        WatchKind::Writes => Ok(()),
        WatchKind::Accesses => push_addresses(addresses, region),
    }
}

/// Appends the addresses of a region.
fn push_addresses(addresses: &mut Vec<u32>, region: Region) -> Result<(), OutOfMemory>
    ensures { OnOk result (addresses.new.items ≡ addresses.old.items ++ addresses_of region) }
{
    for i in 0..region.length {
        addresses.push(region.address.wrapping_add(i))?;
    }
    Ok(())
}
