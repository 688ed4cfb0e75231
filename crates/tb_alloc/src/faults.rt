/// Why an allocation was not made.
#[derive(Clone, Copy, Debug, PartialEq, Eq)]
pub enum AllocError {
    /// The live bytes would pass 16,777,216.
    LiveLimit,
    /// There was no memory for its entry, or no address below 2^64 is left for it.
    Memory,
}

/// Why an access is undefined behaviour before the borrow rules are asked (Rust Reference,
/// "Behavior considered undefined": dangling, out of bounds and misaligned pointers).
#[derive(Clone, Copy, Debug, PartialEq, Eq)]
pub enum AccessFault {
    /// The pointer has no provenance, or its allocation is not live.
    Dangling,
    /// A byte of the access lies outside the allocation.
    OutOfBounds,
    /// The address is not a multiple of the alignment.
    Misaligned,
}

/// Why a pointer may not be moved (Rust Reference, "Behavior considered undefined": pointer arithmetic
/// out of bounds).
#[derive(Clone, Copy, Debug, PartialEq, Eq)]
pub enum OffsetFault {
    /// The pointer has no provenance, or its allocation is not live.
    Dangling,
    /// The address or the result lies outside the allocation, and not at its end.
    OutOfBounds,
}

/// Why a block may not be freed, before the borrow rules are asked.
#[derive(Clone, Copy, Debug, PartialEq, Eq)]
pub enum FreeFault {
    /// The pointer has no provenance, or its allocation is not live.
    Dangling,
    /// The allocation is not of the heap, or has another base, size or alignment.
    BadFree,
}
