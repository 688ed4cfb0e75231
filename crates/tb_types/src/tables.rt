ghost use Rattle.std.specs.Prelude.{◌≡◌, ℕ, ◌<◌, ◌^◌, List, IfSome, ◌++◌, ◌∷◌, [], length, None, Some, true, slice_get, slice_set, IfOk, OnOk, OnErr, if◌then◌else◌};
ghost use Rattle.std.specs.List.{AllByRecursion, list_any, position_or_len, IsDistinct};
ghost use Rattle.tb_types.specs.declared.shape.Ty.{Ty};
ghost use Rattle.tb_types.specs.declared.shape.TyShape.{TyShape};
ghost use Rattle.tb_types.specs.declared.item.Item.{Item};
ghost use Rattle.tb_types.specs.declared.item.Field.{Field};
ghost use Rattle.tb_types.specs.Shapes.{shape_eq};
ghost use Rattle.tb_types.specs.Table.{IsType, IsDeclared, shape_at, fields_at, named_in, item_named, place_of, with_fields, Extends};
ghost use Rattle.tb_types.specs.Capped.{IsSmall};
ghost use Rattle.tb_types.specs.Known.{known_of, fact_at, renewed, ArePlain, AreSmall};
ghost use Rattle.tb_types.specs.Sound.{IsField, AreTypes};
ghost use Rattle.tb_types.specs.Kept.{IsKeptSound, table_of};

use crate::item::{Field, Item};
use crate::known::{Known, known_of_shape};
use crate::name::Name;
use crate::shape::{Ty, TyShape};
use indexmap::IndexSet;
use sqlite_items::Items;
use std::alloc::AllocError;

/// Puts a shape behind the others unless it is there, and then its facts too. Answers its place.
pub fn add_shape(
    shapes: &mut IndexSet<TyShape>,
    known: &mut Vec<Known>,
    shape: TyShape,
    own: Known,
) -> Result<usize, AllocError>
    ensures shapes { OnOk result (shapes.new.keys ≡ (if list_any (shape_eq shape) shapes.old.keys then shapes.old.keys else shapes.old.keys ++ shape ∷ [])) }
    ensures known { OnOk result (known.new.items ≡ (if list_any (shape_eq shape) shapes.old.keys then known.old.items else known.old.items ++ own ∷ [])) }
    ensures place { IfOk result (λ at. at ≡ position_or_len (shape_eq shape) shapes.old.keys) }
    ensures within { IfOk result (λ at. at < length shapes.new.keys) }
    ensures distinct { IsDistinct shape_eq shapes.new.keys }
    ensures shapes_kept { OnErr result (shapes.new.keys ≡ shapes.old.keys) }
    ensures known_kept { OnErr result (known.new.items ≡ known.old.items) }
{
    if known.reserve(1).is_err() {
        let _ = shapes.len();
        return Err(AllocError);
    }
    match shapes.insert_full(shape) {
        Ok((place, added)) => {
            if added {
                known.push_reserved(own);
            }
            Ok(place)
        }
        Err(_) => Err(AllocError),
    }
}

/// The type of a shape, which is put behind the others unless it is there.
pub fn intern_in(
    shapes: &mut IndexSet<TyShape>,
    known: &mut Vec<Known>,
    items: &[Item],
    shape: TyShape,
) -> Result<Ty, AllocError>
    requires kept { IsKeptSound shapes.old.keys items.now known.old.items }
    requires room { length shapes.old.keys < 2 ^ 31 }
    requires named { AllByRecursion (IsType (table_of shapes.old.keys items.now)) (named_in shape) }
    requires declared { IfSome (item_named shape) (IsDeclared (table_of shapes.old.keys items.now)) }
    ensures kept { IsKeptSound shapes.new.keys items.now known.new.items }
    ensures shapes { OnOk result (shapes.new.keys ≡ (if list_any (shape_eq shape) shapes.old.keys then shapes.old.keys else shapes.old.keys ++ shape ∷ [])) }
    ensures number { IfOk result (λ ty. ty ≡ place_of (table_of shapes.old.keys items.now) shape) }
    ensures shape { IfOk result (λ ty. slice_get shapes.new.keys ty.0 ≡ Some shape) }
    ensures one { IfOk result (λ ty. (other : Ty) → shape_at (table_of shapes.new.keys items.now) other ≡ Some shape → other ≡ ty) }
    ensures extends { Extends (table_of shapes.old.keys items.now) (table_of shapes.new.keys items.now) }
    ensures err { OnErr result (shapes.new.keys ≡ shapes.old.keys) }
{
    let own = known_of_shape(&shape, shapes.as_slice(), items, known);
    let place = add_shape(shapes, known, shape, own)?;
    Ok(Ty(place as u32))
}

/// Declares a struct.
pub fn add_item(
    shapes: &IndexSet<TyShape>,
    known: &[Known],
    items: &mut Vec<Item>,
    name: &str,
    copy: bool,
) -> Result<u32, AllocError>
    requires kept { IsKeptSound shapes.now.keys items.old.items known.now }
    requires room { length items.old.items < 2 ^ 31 }
    ensures kept { IsKeptSound shapes.now.keys items.new.items known.now }
    ensures items { OnOk result (items.new.items ≡ items.old.items ++ record { name = name.now; copy = copy; fields = None } ∷ []) }
    ensures number { IfOk result (λ item. item ≡ length items.old.items) }
    ensures extends { Extends (table_of shapes.now.keys items.old.items) (table_of shapes.now.keys items.new.items) }
    ensures err { OnErr result (items.new.items ≡ items.old.items) }
{
    let Ok(name) = Name::new(*items.allocator(), name) else {
        return Err(AllocError);
    };
    let item = Item {
        name,
        copy,
        fields: None,
    };
    push_item(items, item)
}

/// Puts a struct behind the others, and answers its number.
fn push_item(items: &mut Vec<Item>, item: Item) -> Result<u32, AllocError>
    requires { length items.old.items < 2 ^ 31 }
    ensures items { OnOk result (items.new.items ≡ items.old.items ++ item ∷ []) }
    ensures number { IfOk result (λ number. number ≡ length items.old.items) }
    ensures err { OnErr result (items.new.items ≡ items.old.items) }
{
    let number = items.len() as u32;
    match items.push(item) {
        Ok(()) => Ok(number),
        Err(_) => Err(AllocError),
    }
}

/// Gives a declared struct its fields, and works out anew what is kept of the types that wait for it.
pub fn define_in(
    shapes: &IndexSet<TyShape>,
    known: &mut [Known],
    items: &mut [Item],
    item: u32,
    fields: Items<Field>,
)
    requires kept { IsKeptSound shapes.now.keys items.old known.old }
    requires declared { IsDeclared (table_of shapes.now.keys items.old) item }
    requires once { fields_at (table_of shapes.now.keys items.old) item ≡ None }
    requires fields { AllByRecursion (IsField (table_of shapes.now.keys items.old)) fields }
    ensures kept { IsKeptSound shapes.now.keys items.new known.new }
    ensures types { table_of shapes.now.keys items.new ≡ with_fields (table_of shapes.now.keys items.old) item fields }
    ensures extends { Extends (table_of shapes.now.keys items.old) (table_of shapes.now.keys items.new) }
{
    set_fields(items, item as usize, fields);
    refresh(known, shapes.as_slice(), items);
}

/// Gives a struct its fields.
pub fn set_fields(items: &mut [Item], at: usize, fields: Items<Field>)
    requires { at < length items.old }
    ensures { (item : Item) → slice_get items.old at ≡ Some item → items.new ≡ slice_set items.old at (record item { fields = Some fields }) }
{
    items[at].fields = Some(fields);
}

/// Works out anew what is kept of the types in which a struct was not defined. What is kept of the others,
/// those of all fields among them, is there already.
pub fn refresh(known: &mut [Known], shapes: &[TyShape], items: &[Item])
    requires len { length known.old ≡ length shapes.now }
    requires sound { AreTypes (table_of shapes.now items.now) }
    requires plain { ArePlain (table_of shapes.now items.now) known.old }
    requires small { AreSmall known.old }
    requires ready { (ty : Ty) → IsType (table_of shapes.now items.now) ty → (fact_at known.old ty).complete ≡ true → slice_get known.old ty.0 ≡ Some (known_of (table_of shapes.now items.now) ty) }
    requires fields { (item : ℕ) (fields : List Field) → fields_at (table_of shapes.now items.now) item ≡ Some fields
        → AllByRecursion (λ (field : Field). slice_get known.old field.ty.0 ≡ Some (known_of (table_of shapes.now items.now) field.ty)) fields }
    ensures { (ty : Ty) → IsType (table_of shapes.now items.now) ty → slice_get known.new ty.0 ≡ Some (known_of (table_of shapes.now items.now) ty) }
{
    for at in 0..shapes.len() {
        known[at] = renewed(at, shapes, items, known);
    }
}

/// What is to be kept of a type: what is kept where each struct in it was defined, else anew from its parts.
fn renewed(at: usize, shapes: &[TyShape], items: &[Item], known: &[Known]) -> Known
    requires at { at < length shapes.now }
    requires len { length known.now ≡ length shapes.now }
    requires sound { AreTypes (table_of shapes.now items.now) }
    requires plain { ArePlain (table_of shapes.now items.now) known.now }
    requires small { AreSmall known.now }
    ensures known { (shape : TyShape) → slice_get shapes.now at ≡ Some shape → result ≡ renewed (table_of shapes.now items.now) known.now at shape }
    ensures small { IsSmall result.extent }
{
    let own = known[at];
    if own.facts.complete {
        return own;
    }
    known_of_shape(&shapes[at], shapes, items, known)
}
