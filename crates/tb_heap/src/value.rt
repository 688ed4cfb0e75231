use tb_perm::Prov;

/// A value of a type that is built so far.
#[derive(Clone, Copy, Debug, PartialEq, Eq)]
pub enum Value {
    Unit,
    /// Of type `i32`.
    Int(i32),
    /// A reference or a raw pointer to the whole of an allocation; without a provenance it points
    /// to no memory.
    Pointer(Option<Prov>),
}
