ghost use Rattle.std.specs.Prelude.{◌≡◌};
ghost use Rattle.tb_memory.specs.Heap.{access_stop, tree_stop, alloc_stop, free_stop, value_stop};
ghost use Rattle.tb_memory.specs.Answers.{told, told_made, offset_told};

use tb_alloc::{AccessFault, AllocError, FreeFault, OffsetFault, Ptr};
use tb_perm::{AllocId, Report, TreeError};
use tb_value::ValueFault;

/// Why a call on memory is undefined behaviour (Rust Reference, "Behavior considered undefined"), or why it could not be
/// made.
#[derive(Clone, Copy, Debug, PartialEq, Eq)]
pub enum Stop {
    /// The pointer has no provenance, or its allocation is not live.
    Dangling,
    /// A byte of the access lies outside the allocation.
    OutOfBounds,
    /// The address is not a multiple of the alignment.
    Misaligned,
    /// A tag of this allocation refuses.
    Borrow(AllocId, Report),
    /// A byte that the type needs is uninitialised.
    Uninit,
    /// A value is not valid.
    InvalidValue,
    /// What is freed is no block of the heap with this base, size and alignment.
    BadFree,
    /// The live bytes would pass 16,777,216.
    LiveLimit,
    /// There was no memory.
    Memory,
}

/// Why an access was not made.
pub fn access_stop(fault: AccessFault) -> Stop
    ensures { result ≡ access_stop fault }
{
    match fault {
        AccessFault::Dangling => Stop::Dangling,
        AccessFault::OutOfBounds => Stop::OutOfBounds,
        AccessFault::Misaligned => Stop::Misaligned,
    }
}

/// Why an event on the tree of this allocation did not happen.
fn tree_stop(alloc: AllocId, error: TreeError) -> Stop
    ensures { result ≡ tree_stop alloc error }
{
    match error {
        TreeError::Borrow(report) => Stop::Borrow(alloc, report),
        TreeError::Memory => Stop::Memory,
    }
}

/// Why an allocation was not made.
fn alloc_stop(error: AllocError) -> Stop
    ensures { result ≡ alloc_stop error }
{
    match error {
        AllocError::LiveLimit => Stop::LiveLimit,
        AllocError::Memory => Stop::Memory,
    }
}

/// Why a block was not freed.
pub fn free_stop(fault: FreeFault) -> Stop
    ensures { result ≡ free_stop fault }
{
    match fault {
        FreeFault::Dangling => Stop::Dangling,
        FreeFault::BadFree => Stop::BadFree,
    }
}

/// Why bytes are no value.
pub fn value_stop(fault: ValueFault) -> Stop
    ensures { result ≡ value_stop fault }
{
    match fault {
        ValueFault::Uninit(_) => Stop::Uninit,
        ValueFault::Invalid(_) => Stop::InvalidValue,
        ValueFault::Memory => Stop::Memory,
    }
}

/// The place of an access that a tree was asked for, or the stop.
pub fn place_or_stop(alloc: AllocId, offset: u32, done: Result<(), TreeError>) -> Result<u32, Stop>
    ensures { result ≡ told alloc offset done }
{
    match done {
        Ok(()) => Ok(offset),
        Err(error) => Err(tree_stop(alloc, error)),
    }
}

/// That an event was done, or the stop.
pub fn done_or_stop(alloc: AllocId, done: Result<(), TreeError>) -> Result<(), Stop>
    ensures { result ≡ told alloc tt done }
{
    match done {
        Ok(()) => Ok(()),
        Err(error) => Err(tree_stop(alloc, error)),
    }
}

/// The pointer to what was made, or the stop.
pub fn pointer_or_stop(made: Result<Ptr, AllocError>) -> Result<Ptr, Stop>
    ensures { result ≡ told_made made }
{
    match made {
        Ok(ptr) => Ok(ptr),
        Err(error) => Err(alloc_stop(error)),
    }
}

/// The pointer that was moved, or the stop.
pub fn offset_or_stop(moved: Result<Ptr, OffsetFault>) -> Result<Ptr, Stop>
    ensures { result ≡ offset_told moved }
{
    match moved {
        Ok(ptr) => Ok(ptr),
        Err(OffsetFault::Dangling) => Err(Stop::Dangling),
        Err(OffsetFault::OutOfBounds) => Err(Stop::OutOfBounds),
    }
}

/// The pointer with the tag that a tree was asked to make, or the stop.
pub fn reborrow_or_stop(alloc: AllocId, ptr: Ptr, done: Result<(), TreeError>) -> Result<Ptr, Stop>
    ensures { result ≡ told alloc ptr done }
{
    match done {
        Ok(()) => Ok(ptr),
        Err(error) => Err(tree_stop(alloc, error)),
    }
}
