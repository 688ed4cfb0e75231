/// Why bytes are no value of a type, or why no value was made of them.
#[derive(Clone, Copy, Debug, PartialEq, Eq)]
pub enum ValueFault {
    /// A byte that the type needs is uninitialised: the first such byte.
    Uninit(u32),
    /// A value is not valid: the first byte of the first such value.
    Invalid(u32),
    /// There was no memory for the copy.
    Memory,
}
