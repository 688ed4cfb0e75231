//! The bytes of values of scalar types.
ghost use Rattle.std.specs.Prelude.{◌≡◌, Some, IfOk, OnOk};
ghost use Rattle.tb_value.specs.declared.kind.ScalarKind.{ScalarKind};
ghost use Rattle.tb_value.specs.Kinds.{kind_at};
ghost use Rattle.tb_value.specs.Scalars.{IsOf, encoded};

use crate::kind::ScalarKind;
use crate::number::{number_in, put_number};
use crate::scalar::Scalar;
use std::alloc::{AllocError, Global};
use tb_bytes::ByteVal;
use tb_types::{Ty, Types};

/// The bytes of a value of a kind.
fn encode_as(alloc: Global, kind: ScalarKind, scalar: &Scalar) -> Result<Vec<ByteVal>, AllocError>
    requires { IsOf kind scalar.now }
    ensures { IfOk result (λ bytes. bytes.items ≡ encoded kind scalar.now) }
{
    let mut bytes = Vec::with_capacity(alloc, kind.width() as usize)?;
    match (kind, *scalar) {
        (ScalarKind::Int(kind), Scalar::Int(int)) => {
            let number = number_in(kind, int);
            put_number(&mut bytes, ScalarKind::Int(kind).width(), number, None)?;
        }
        (ScalarKind::Bool, Scalar::Bool(truth)) => put_number(&mut bytes, 1, truth as u64, None)?,
        (ScalarKind::Char, Scalar::Char(character)) => {
            put_number(&mut bytes, 4, character as u64, None)?;
        }
        (ScalarKind::Thin(_), Scalar::Thin(ptr)) => {
            put_number(&mut bytes, 8, ptr.addr, ptr.prov)?;
        }
        (ScalarKind::Wide(_), Scalar::Wide(ptr, length)) => {
            put_number(&mut bytes, 8, ptr.addr, ptr.prov)?;
            put_number(&mut bytes, 8, length, None)?;
        }
        _ => unreachable!(),
    }
    Ok(bytes)
}

/// The bytes of a value of a scalar type, as many as the type has. All eight bytes of an address carry the
/// pointer's provenance; nothing else has one.
///
/// The value is one of the type: `Int` in the range of an integer type, `Wide` for a pointer to a slice, `Thin`
/// for any other pointer and for a box.
pub fn encode(
    alloc: Global,
    types: &Types,
    ty: Ty,
    scalar: &Scalar,
) -> Result<Vec<ByteVal>, AllocError>
    requires { (kind : ScalarKind) × (kind_at types.now ty ≡ Some kind) × IsOf kind scalar.now }
    ensures { IfOk result (λ bytes. (kind : ScalarKind) → kind_at types.now ty ≡ Some kind → bytes.items ≡ encoded kind scalar.now) }
{
    match ScalarKind::of_type(types, ty) {
        Some(kind) => encode_as(alloc, kind, scalar),
        None => unreachable!(),
    }
}
