//! Types that are made around one other.

ghost use Rattle.std.specs.Prelude.{◌≡◌};
ghost use Rattle.tb_written.specs.Written.{wrap_shape};

use tb_types::{Ty, TyShape};

/// How a type is made around another.
#[derive(Clone, Copy, Debug)]
pub enum Wrap {
    /// `[T]`
    Slice,
    /// `[T; n]`
    Array(u64),
    /// `&T`, or `&mut T` where it is true.
    Ref(bool),
    /// `*const T`, or `*mut T` where it is true.
    Raw(bool),
    /// `Box<T>`
    Boxed,
    /// `Cell<T>`
    Cell,
    /// `UnsafeCell<T>`
    UnsafeCell,
}

impl Wrap {
    /// The shape around this type.
    pub fn shape(self, part: Ty) -> TyShape
        ensures { result ≡ wrap_shape self part }
    {
        match self {
            Wrap::Slice => TyShape::Slice(part),
            Wrap::Array(length) => TyShape::Array(part, length),
            Wrap::Ref(mutable) => TyShape::Ref(mutable, part),
            Wrap::Raw(mutable) => TyShape::Raw(mutable, part),
            Wrap::Boxed => TyShape::Boxed(part),
            Wrap::Cell => TyShape::Cell(part),
            Wrap::UnsafeCell => TyShape::UnsafeCell(part),
        }
    }
}
