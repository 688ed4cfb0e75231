use thiserror::Error;

/// Why a source has no tree.
#[derive(Debug, Drop, Error)]
pub enum SmallError {
    /// The text is none of the sources that are read so far.
    #[error("not built yet")]
    NotBuilt,
    /// Out of memory.
    #[error("out of memory")]
    Memory,
}
