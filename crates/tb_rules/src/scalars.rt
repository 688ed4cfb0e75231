//! The types of scalars and `()`, which rules name without making them.

ghost use Rattle.std.specs.Prelude.{◌≡◌, Some, IfOk, OnOk};
ghost use Rattle.tb_types.specs.declared.shape.TyShape.TheVariants.{Int};
ghost use Rattle.tb_types.specs.Pieces.{find};
ghost use Rattle.tb_types.specs.Table.{with_shape};
ghost use Rattle.tb_rules.specs.Scalars.{integers, with_integers, with_scalars, integer_type, AreScalars};

use crate::made::intern;
use std::alloc::AllocError;
use tb_types::{IntKind, Ty, TyShape, Types};

/// The types of scalars and `()` in a table.
#[derive(Clone, Copy, Debug)]
pub struct Scalars {
    pub unit: Ty,
    pub boolean: Ty,
    pub character: Ty,
    pub i8: Ty,
    pub i16: Ty,
    pub i32: Ty,
    pub i64: Ty,
    pub isize: Ty,
    pub u8: Ty,
    pub u16: Ty,
    pub u32: Ty,
    pub u64: Ty,
    pub usize: Ty,
}

/// The integer types, in the order of their kinds.
const INTEGERS: [IntKind; 10] = [
    IntKind::I8,
    IntKind::I16,
    IntKind::I32,
    IntKind::I64,
    IntKind::Isize,
    IntKind::U8,
    IntKind::U16,
    IntKind::U32,
    IntKind::U64,
    IntKind::Usize,
];

fn add_integer(types: &mut Types, kind: IntKind) -> Result<(), AllocError>
    ensures { OnOk result (types.new ≡ with_shape types.old (Int kind)) }
{
    intern(types, TyShape::Int(kind))?;
    Ok(())
}

fn add_integers(types: &mut Types, kinds: &[IntKind]) -> Result<(), AllocError>
    ensures { OnOk result (types.new ≡ with_integers types.old kinds.now) }
{
    for kind in kinds {
        add_integer(types, *kind)?;
    }
    Ok(())
}

fn add_scalars(types: &mut Types, kinds: &[IntKind]) -> Result<(), AllocError>
    ensures { OnOk result (types.new ≡ with_scalars types.old kinds.now) }
{
    intern(types, TyShape::Unit)?;
    intern(types, TyShape::Bool)?;
    intern(types, TyShape::Char)?;
    add_integers(types, kinds)
}

/// The type of a shape that the table has.
fn found(types: &Types, shape: TyShape) -> Result<Ty, AllocError>
    ensures { IfOk result (λ ty. find types.now shape ≡ Some ty) }
{
    match types.find(&shape) {
        Some(ty) => Ok(ty),
        None => Err(AllocError),
    }
}

impl Scalars {
    /// The types of scalars and `()` in a table, which has them afterwards.
    pub fn of(types: &mut Types) -> Result<Scalars, AllocError>
        ensures types { OnOk result (types.new ≡ with_scalars types.old integers) }
        ensures scalars { IfOk result (λ scalars. AreScalars types.new scalars) }
    {
        add_scalars(types, &INTEGERS)?;
        Scalars::among(types)
    }

    fn among(types: &Types) -> Result<Scalars, AllocError>
        ensures { IfOk result (λ scalars. AreScalars types.now scalars) }
    {
        Ok(Scalars {
            unit: found(types, TyShape::Unit)?,
            boolean: found(types, TyShape::Bool)?,
            character: found(types, TyShape::Char)?,
            i8: found(types, TyShape::Int(IntKind::I8))?,
            i16: found(types, TyShape::Int(IntKind::I16))?,
            i32: found(types, TyShape::Int(IntKind::I32))?,
            i64: found(types, TyShape::Int(IntKind::I64))?,
            isize: found(types, TyShape::Int(IntKind::Isize))?,
            u8: found(types, TyShape::Int(IntKind::U8))?,
            u16: found(types, TyShape::Int(IntKind::U16))?,
            u32: found(types, TyShape::Int(IntKind::U32))?,
            u64: found(types, TyShape::Int(IntKind::U64))?,
            usize: found(types, TyShape::Int(IntKind::Usize))?,
        })
    }

    /// The type of an integer kind.
    pub fn integer(&self, kind: IntKind) -> Ty
        ensures integer { result ≡ integer_type self.now kind }
    {
        match kind {
            IntKind::I8 => self.i8,
            IntKind::I16 => self.i16,
            IntKind::I32 => self.i32,
            IntKind::I64 => self.i64,
            IntKind::Isize => self.isize,
            IntKind::U8 => self.u8,
            IntKind::U16 => self.u16,
            IntKind::U32 => self.u32,
            IntKind::U64 => self.u64,
            IntKind::Usize => self.usize,
        }
    }
}
