//! Types, variables and places.

ghost use Rattle.std.specs.Prelude.{◌≡◌, ◌≤◌, length};
ghost use Rattle.tb_small.specs.Grammar.{is_raw, may_deref, is_writable, is_assigned, is_mutable_spot, spot_type};
ghost use Rattle.tb_small.specs.Reading.{Gives, variable_at, type_number, same_type, int_variable_at, deref_at, spot_at, assigned_at, written_at, target_at};

use crate::error::SmallError;
use crate::scope::{Known, is_mutable, number_of, type_of};
use crate::tree::{Deref, RefKind, Spot, Ty, Variable};
use crate::words::{eat, has_byte, name_at, span_of};

fn type_number(ty: Ty) -> u8
    ensures { result ≡ type_number ty }
{
    match ty {
        Ty::Int32 => 0,
        Ty::Pointer(RefKind::Shared) => 1,
        Ty::Pointer(RefKind::Mut) => 2,
        Ty::Pointer(RefKind::RawConst) => 3,
        Ty::Pointer(RefKind::RawMut) => 4,
    }
}

/// Whether two types are one.
pub fn same_type(left: Ty, right: Ty) -> bool
    ensures { result ≡ same_type left right }
{
    type_number(left) == type_number(right)
}

/// Whether this is the type of raw pointers.
pub fn is_raw(ty: Ty) -> bool
    ensures { result ≡ is_raw ty }
{
    matches!(ty, Ty::Pointer(RefKind::RawConst | RefKind::RawMut))
}

/// Whether `*` may stand before a variable of this type, inside `unsafe` or not.
fn may_deref(inside: bool, ty: Ty) -> bool
    ensures { result ≡ may_deref inside ty }
{
    match ty {
        Ty::Int32 => false,
        Ty::Pointer(RefKind::Shared | RefKind::Mut) => true,
        Ty::Pointer(RefKind::RawConst | RefKind::RawMut) => inside,
    }
}

/// Whether a pointer of this type may change what it points to.
fn is_writable(ty: Ty) -> bool
    ensures { result ≡ is_writable ty }
{
    matches!(ty, Ty::Pointer(RefKind::Mut | RefKind::RawMut))
}

/// Whether variables of this type are assigned.
fn is_assigned(ty: Ty) -> bool
    ensures { result ≡ is_assigned ty }
{
    matches!(
        ty,
        Ty::Int32 | Ty::Pointer(RefKind::RawConst | RefKind::RawMut)
    )
}

/// Whether a place may be changed.
pub fn is_mutable_spot(scope: &[Known], spot: Spot) -> bool
    ensures { result ≡ is_mutable_spot scope.now spot }
{
    match spot {
        Spot::Variable(variable) => is_mutable(scope, variable.number),
        Spot::Deref(deref) => is_writable(type_of(scope, deref.variable.number)),
    }
}

/// The type of a place.
pub fn spot_type(scope: &[Known], spot: Spot) -> Ty
    ensures { result ≡ spot_type scope.now spot }
{
    match spot {
        Spot::Variable(variable) => type_of(scope, variable.number),
        Spot::Deref(_) => Ty::Int32,
    }
}

/// The variable that comes next, and what follows it.
#[tactic(auto, unfolding(crate::specs::Reading::variable_at))]
pub fn variable_at<'a>(
    scope: &[Known],
    size: usize,
    text: &'a [u8],
) -> Result<(Variable, &'a [u8]), SmallError>
    requires size { size ≤ 1048576 }
    requires room { length scope.now ≤ 4096 }
    ensures { Gives (λ x. (x.0, x.1.now)) result (variable_at scope.now size text.now) }
{
    let (name, rest) = name_at(text)?;
    let Some(number) = number_of(scope, name) else {
        return Err(SmallError::NotBuilt);
    };
    let span = span_of(size, text, rest);
    Ok((Variable { span, number }, rest))
}

/// The `i32` variable that comes next, and what follows it.
#[tactic(auto, unfolding(crate::specs::Reading::int_variable_at))]
pub fn int_variable_at<'a>(
    scope: &[Known],
    size: usize,
    text: &'a [u8],
) -> Result<(Variable, &'a [u8]), SmallError>
    requires size { size ≤ 1048576 }
    requires room { length scope.now ≤ 4096 }
    ensures { Gives (λ x. (x.0, x.1.now)) result (int_variable_at scope.now size text.now) }
{
    let (variable, rest) = variable_at(scope, size, text)?;
    if same_type(type_of(scope, variable.number), Ty::Int32) {
        Ok((variable, rest))
    } else {
        Err(SmallError::NotBuilt)
    }
}

/// The `*` and the pointer that come next, and what follows them.
#[tactic(auto, unfolding(crate::specs::Reading::deref_at))]
pub fn deref_at<'a>(
    scope: &[Known],
    inside: bool,
    size: usize,
    text: &'a [u8],
) -> Result<(Deref, &'a [u8]), SmallError>
    requires size { size ≤ 1048576 }
    requires room { length scope.now ≤ 4096 }
    ensures { Gives (λ x. (x.0, x.1.now)) result (deref_at scope.now inside size text.now) }
{
    let star = eat(b"*", text)?;
    let (variable, rest) = variable_at(scope, size, star)?;
    if !may_deref(inside, type_of(scope, variable.number)) {
        return Err(SmallError::NotBuilt);
    }
    let span = span_of(size, text, rest);
    Ok((Deref { span, variable }, rest))
}

/// The `i32` place that comes next, and what follows it.
#[tactic(auto, unfolding(crate::specs::Reading::spot_at))]
pub fn spot_at<'a>(
    scope: &[Known],
    inside: bool,
    size: usize,
    text: &'a [u8],
) -> Result<(Spot, &'a [u8]), SmallError>
    requires size { size ≤ 1048576 }
    requires room { length scope.now ≤ 4096 }
    ensures { Gives (λ x. (x.0, x.1.now)) result (spot_at scope.now inside size text.now) }
{
    if has_byte(b'*', text) {
        let (deref, rest) = deref_at(scope, inside, size, text)?;
        Ok((Spot::Deref(deref), rest))
    } else {
        let (variable, rest) = int_variable_at(scope, size, text)?;
        Ok((Spot::Variable(variable), rest))
    }
}

/// The variable that comes next and may be assigned, and what follows it.
#[tactic(auto, unfolding(crate::specs::Reading::assigned_at))]
fn assigned_at<'a>(
    scope: &[Known],
    size: usize,
    text: &'a [u8],
) -> Result<(Variable, &'a [u8]), SmallError>
    requires size { size ≤ 1048576 }
    requires room { length scope.now ≤ 4096 }
    ensures { Gives (λ x. (x.0, x.1.now)) result (assigned_at scope.now size text.now) }
{
    let (variable, rest) = variable_at(scope, size, text)?;
    if is_assigned(type_of(scope, variable.number)) && is_mutable(scope, variable.number) {
        Ok((variable, rest))
    } else {
        Err(SmallError::NotBuilt)
    }
}

/// The `*` and the pointer that come next, if it may be written through, and what follows them.
#[tactic(auto, unfolding(crate::specs::Reading::written_at))]
fn written_at<'a>(
    scope: &[Known],
    inside: bool,
    size: usize,
    text: &'a [u8],
) -> Result<(Deref, &'a [u8]), SmallError>
    requires size { size ≤ 1048576 }
    requires room { length scope.now ≤ 4096 }
    ensures { Gives (λ x. (x.0, x.1.now)) result (written_at scope.now inside size text.now) }
{
    let (deref, rest) = deref_at(scope, inside, size, text)?;
    if is_writable(type_of(scope, deref.variable.number)) {
        Ok((deref, rest))
    } else {
        Err(SmallError::NotBuilt)
    }
}

/// The place that comes next and may be assigned, and what follows it.
#[tactic(auto, unfolding(crate::specs::Reading::target_at))]
pub fn target_at<'a>(
    scope: &[Known],
    inside: bool,
    size: usize,
    text: &'a [u8],
) -> Result<(Spot, &'a [u8]), SmallError>
    requires size { size ≤ 1048576 }
    requires room { length scope.now ≤ 4096 }
    ensures { Gives (λ x. (x.0, x.1.now)) result (target_at scope.now inside size text.now) }
{
    if has_byte(b'*', text) {
        let (deref, rest) = written_at(scope, inside, size, text)?;
        Ok((Spot::Deref(deref), rest))
    } else {
        let (variable, rest) = assigned_at(scope, size, text)?;
        Ok((Spot::Variable(variable), rest))
    }
}
