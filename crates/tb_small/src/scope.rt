//! What a name means.

ghost use Rattle.std.specs.Prelude.{◌≡◌, ◌++◌, ◌<◌, ◌≤◌, length, OnOk, IfErr, IfSome};
ghost use Rattle.tb_small.specs.Grammar.{bindings, is_mutable, type_of};
ghost use Rattle.tb_small.specs.Reading.{last_named};

use crate::error::SmallError;
use crate::tree::{Statement, Ty};
use sqlite_items::Items;
use std::alloc::Global;
use std::marker::Model;

/// A name that is in scope, whether its variable may be assigned, and its type.
#[derive(Debug, Drop)]
pub struct Known {
    name: Items<u8>,
    mutable: bool,
    ty: Ty,
}

impl Model for Known {
    ghost use Rattle.tb_small.specs.Scope.{Binding};

    ghost Value = { Binding };

    ghost view = { λ known. record { name = known.name; mutable = known.mutable; ty = known.ty } };
}

/// The number of the last variable of this name, if there is one.
pub fn number_of(scope: &[Known], name: &[u8]) -> Option<u32>
    requires { length scope.now ≤ 4096 }
    ensures { result ≡ last_named scope.now name.now }
{
    for number in (0..scope.len()).rev() {
        let known = &scope[number];
        if known.name.as_slice() == name {
            return Some(number as u32);
        }
    }
    None
}

/// Whether the variable of this number may be assigned.
pub fn is_mutable(scope: &[Known], number: u32) -> bool
    ensures { result ≡ is_mutable scope.now number }
{
    match scope.get(number as usize) {
        Some(known) => known.mutable,
        None => false,
    }
}

/// The type of the variable of this number, or `i32` where there is none.
pub fn type_of(scope: &[Known], number: u32) -> Ty
    ensures { result ≡ type_of scope.now number }
{
    match scope.get(number as usize) {
        Some(known) => known.ty,
        None => Ty::Int32,
    }
}

/// Brings what a statement declares into scope.
pub fn bind(alloc: Global, scope: &mut Vec<Known>, statement: &Statement) -> Result<(), SmallError>
    ensures bound { OnOk result (scope.new.items ≡ scope.old.items ++ bindings statement.now) }
    ensures memory { IfErr result (λ error. error ≡ SmallError.Memory) }
{
    if let Statement::Let(binding) = statement {
        let name = Items::from_slice(alloc, binding.name.bytes.as_slice()).map_err(
            |_| SmallError::Memory,
        )?;
        let mutable = binding.mutable;
        let ty = binding.ty;
        scope
            .push(Known { name, mutable, ty })
            .map_err(|_| SmallError::Memory)?;
    }
    Ok(())
}
