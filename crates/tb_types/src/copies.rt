ghost use Rattle.std.specs.Prelude.{◌≡◌, false, ◌++◌, ◌∷◌, [], IfOk, OnOk};
ghost use Rattle.std.specs.List.{list_any, IsDistinct};
ghost use Rattle.tb_types.specs.Shapes.{shape_eq};

use crate::item::{Field, Item};
use crate::name::Name;
use crate::parts::Parts;
use crate::shape::TyShape;
use indexmap::IndexSet;
use sqlite_items::Items;
use std::alloc::{AllocError, Global};

/// The same shape once more.
fn copy_shape(alloc: Global, shape: &TyShape) -> Result<TyShape, AllocError>
    ensures { IfOk result (λ copy. copy ≡ shape.now) }
{
    match shape {
        TyShape::Int(kind) => Ok(TyShape::Int(*kind)),
        TyShape::Bool => Ok(TyShape::Bool),
        TyShape::Char => Ok(TyShape::Char),
        TyShape::Unit => Ok(TyShape::Unit),
        TyShape::Tuple(parts) => match Vec::from_slice(alloc, parts.as_slice()) {
            Ok(types) => Ok(TyShape::Tuple(Parts::from_vec(types))),
            Err(_) => Err(AllocError),
        },
        TyShape::Array(part, n) => Ok(TyShape::Array(*part, *n)),
        TyShape::Struct(item) => Ok(TyShape::Struct(*item)),
        TyShape::Ref(mutable, to) => Ok(TyShape::Ref(*mutable, *to)),
        TyShape::Raw(mutable, to) => Ok(TyShape::Raw(*mutable, *to)),
        TyShape::Boxed(part) => Ok(TyShape::Boxed(*part)),
        TyShape::Cell(part) => Ok(TyShape::Cell(*part)),
        TyShape::UnsafeCell(part) => Ok(TyShape::UnsafeCell(*part)),
        TyShape::Slice(part) => Ok(TyShape::Slice(*part)),
    }
}

/// The same shapes once more.
pub fn copy_shapes(alloc: Global, shapes: &[TyShape]) -> Result<IndexSet<TyShape>, AllocError>
    requires { IsDistinct shape_eq shapes.now }
    ensures { IfOk result (λ copies. copies.keys ≡ shapes.now) }
{
    let mut copies = IndexSet::new(alloc);
    for shape in shapes {
        put_shape(&mut copies, copy_shape(alloc, shape)?)?;
    }
    Ok(copies)
}

/// Puts a shape that is not there behind the others.
fn put_shape(shapes: &mut IndexSet<TyShape>, shape: TyShape) -> Result<(), AllocError>
    requires { list_any (shape_eq shape) shapes.old.keys ≡ false }
    ensures { OnOk result (shapes.new.keys ≡ shapes.old.keys ++ shape ∷ []) }
{
    match shapes.insert(shape) {
        Ok(_) => Ok(()),
        Err(_) => Err(AllocError),
    }
}

/// The same fields once more.
fn copy_fields(alloc: Global, fields: &[Field]) -> Result<Items<Field>, AllocError>
    ensures { IfOk result (λ copies. copies ≡ fields.now) }
{
    let mut copies = Items::new(alloc);
    for field in fields {
        let copy = Field {
            name: copy_name(alloc, &field.name)?,
            ty: field.ty,
        };
        put(&mut copies, copy)?;
    }
    Ok(copies)
}

fn copy_name(alloc: Global, name: &Name) -> Result<Name, AllocError>
    ensures { IfOk result (λ copy. copy ≡ name.now) }
{
    match Name::new(alloc, name.as_str()) {
        Ok(copy) => Ok(copy),
        Err(_) => Err(AllocError),
    }
}

fn put(fields: &mut Items<Field>, field: Field) -> Result<(), AllocError>
    ensures { OnOk result (fields.new ≡ fields.old ++ field ∷ []) }
{
    match fields.push(field) {
        Ok(()) => Ok(()),
        Err(_) => Err(AllocError),
    }
}

/// The same struct once more.
fn copy_item(alloc: Global, item: &Item) -> Result<Item, AllocError>
    ensures { IfOk result (λ copy. copy ≡ item.now) }
{
    let name = copy_name(alloc, &item.name)?;
    let fields = match &item.fields {
        Some(fields) => Some(copy_fields(alloc, fields.as_slice())?),
        None => None,
    };
    Ok(Item {
        name,
        copy: item.copy,
        fields,
    })
}

/// The same structs once more.
pub fn copy_items(alloc: Global, items: &[Item]) -> Result<Vec<Item>, AllocError>
    ensures { IfOk result (λ copies. copies.items ≡ items.now) }
{
    let mut copies = Vec::new(alloc);
    for item in items {
        put_item(&mut copies, copy_item(alloc, item)?)?;
    }
    Ok(copies)
}

fn put_item(items: &mut Vec<Item>, item: Item) -> Result<(), AllocError>
    ensures { OnOk result (items.new.items ≡ items.old.items ++ item ∷ []) }
{
    match items.push(item) {
        Ok(()) => Ok(()),
        Err(_) => Err(AllocError),
    }
}
