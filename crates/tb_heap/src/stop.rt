use tb_perm::{AllocId, Report};

/// Why an access is undefined behaviour, or why it could not be made.
#[derive(Clone, Copy, Debug, PartialEq, Eq)]
pub enum Stop {
    /// The pointer has no provenance, or its allocation is not live.
    Dangling,
    /// A tag of this allocation refuses.
    Borrow(AllocId, Report),
    /// A byte that has no value was needed.
    Uninit,
    /// Memory ran out.
    Memory,
}
