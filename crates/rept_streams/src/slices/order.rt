//! Slices in the order of time.

ghost use Rattle.std.specs.Prelude.{◌≡◌, ◌==◌, ℕ, List, OnOk, IfErr};
ghost use Rattle.std.specs.List.{filter};
ghost use Rattle.std.specs.List.Sorted.{IsPermutation, IsNonDecreasingBy};
ghost use Rattle.rept_path.specs.declared.fault.PathFault.TheVariants.{OutOfMemory};
ghost use Rattle.rept_streams.specs.Slices.Stamps.{clock_of, context_of};
ghost use Rattle.rept_streams.specs.Slices.Order.{by_time};
ghost use Rattle.rept_streams.specs.declared.slices.telling.StreamSlice.{StreamSlice};

use crate::slices::keeping::clock_of;
use crate::slices::strangers::context_of;
use crate::slices::telling::StreamSlice;
use rept_path::PathFault;

/// The time at which a slice begins.
pub fn begin_of(slice: &StreamSlice<'_>) -> u64
    ensures { result ≡ clock_of slice.now.start }
{
    clock_of(slice.start)
}

/// The process of the thread of a slice.
pub fn process_of(slice: &StreamSlice<'_>) -> u32
    ensures { result ≡ context_of slice.now.start }
{
    context_of(slice.start)
}

/// Puts slices in order: by the processes of their threads, those of one thread by their begins,
/// and those of one begin as they stood.
pub fn put_in_order(slices: &mut Vec<StreamSlice<'_>>) -> Result<(), PathFault>
    ensures permutation { IsPermutation slices.old.items slices.new.items }
    ensures processes { OnOk result (IsNonDecreasingBy (λ (e : StreamSlice). context_of e.start) slices.new.items) }
    ensures times { (process : ℕ) → OnOk result (filter (λ (e : StreamSlice). context_of e.start == process) slices.new.items ≡ by_time (λ (e : StreamSlice). clock_of e.start) (filter (λ (e : StreamSlice). context_of e.start == process) slices.old.items)) }
    ensures err { IfErr result (λ e. e ≡ OutOfMemory) }
{
    if let Err(_) = slices.sort_by_key(|slice| begin_of(slice)) {
        return Err(PathFault::OutOfMemory);
    }
    if let Err(_) = slices.sort_by_key(|slice| process_of(slice)) {
        return Err(PathFault::OutOfMemory);
    }
    Ok(())
}
