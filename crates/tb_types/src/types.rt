ghost use Rattle.std.specs.Prelude.{◌≡◌, ℕ, ◌<◌, ◌≤◌, ◌^◌, [], length, map, true, IsTrue, ◌↔◌, Some, None, IfOk, IfSome, OnOk, OnErr};
ghost use Rattle.std.specs.List.{AllByRecursion};
ghost use Rattle.tb_types.specs.declared.shape.Ty.{Ty};
ghost use Rattle.tb_types.specs.declared.shape.TyShape.{TyShape};
ghost use Rattle.tb_types.specs.Table.{TypeTable, IsType, IsDeclared, shape_at, item_at, fields_at, named_in, item_named, is_defined, with_shape, place_of, with_item, with_fields, Extends};
ghost use Rattle.tb_types.specs.Trees.{tree_in, tree_of, IsSameType};
ghost use Rattle.tb_types.specs.Folded.{node_of};
ghost use Rattle.tb_types.specs.Facts.{facts_by, facts_of, is_copy, is_freeze, holds_retag, owns_box, is_complete, is_sized};
ghost use Rattle.tb_types.specs.Extent.{extent_by, extent_of, fits};
ghost use Rattle.tb_types.specs.Capped.{capped, IsAlign};
ghost use Rattle.tb_types.specs.Pieces.{content, side_by_side, part, find};
ghost use Rattle.tb_types.specs.Heads.{has_head, is_sized_type};
ghost use Rattle.tb_types.specs.Sound.{IsField, AreTypes};

use crate::builtin::Builtin;
use crate::copies::{copy_items, copy_shapes};
use crate::extent::is_within;
use crate::head::{fits_head, head_of};
use crate::item::{Field, Item};
use crate::known::Known;
use crate::name::Name;
use crate::pieces::{content, find, part, part_count};
use crate::shape::{Ty, TyShape};
use crate::tables::{add_item, define_in, intern_in};
use indexmap::IndexSet;
use sqlite_items::Items;
use std::alloc::{AllocError, Global};
use std::marker::Model;

/// The types of a program, and its structs. Contracts see the list of the shapes, each at the number
/// of its type, and the list of the declared structs, each at its number.
#[derive(Drop)]
pub struct Types {
    shapes: IndexSet<TyShape>,
    known: Vec<Known>,
    items: Vec<Item>,
}

impl Model for Types {
    ghost use Rattle.tb_types.specs.Table.{TypeTable};
    ghost use Rattle.tb_types.specs.Kept.{IsKeptSound};

    ghost Value = { TypeTable };

    ghost view = { λ t. record { shapes = t.shapes.keys; items = t.items.items } };

    ghost invariant = { λ t. IsKeptSound t.shapes.keys t.items.items t.known.items };
}

impl Types {
    /// No types and no structs.
    pub fn new(alloc: Global) -> Types
        ensures shapes { result.shapes ≡ [] }
        ensures items { result.items ≡ [] }
    {
        Types {
            shapes: IndexSet::new(alloc),
            known: Vec::new(alloc),
            items: Vec::new(alloc),
        }
    }

    /// The number of the type of a shape: the one that it has, or else the next. After want of memory
    /// nothing has changed.
    pub fn intern(&mut self, shape: TyShape) -> Result<Ty, AllocError>
        requires room { length self.old.shapes < 2 ^ 31 }
        requires named { AllByRecursion (IsType self.old) (named_in shape) }
        requires declared { IfSome (item_named shape) (IsDeclared self.old) }
        ensures types { OnOk result (self.new ≡ with_shape self.old shape) }
        ensures number { IfOk result (λ ty. ty ≡ place_of self.old shape) }
        ensures shape { IfOk result (λ ty. shape_at self.new ty ≡ Some shape) }
        ensures one { IfOk result (λ ty. (other : Ty) → shape_at self.new other ≡ Some shape → other ≡ ty) }
        ensures extends { Extends self.old self.new }
        ensures err { OnErr result (self.new ≡ self.old) }
    {
        intern_in(&mut self.shapes, &mut self.known, &self.items, shape)
    }

    /// Declares a struct, by the next number, which has no fields yet. `copy` says that it derives
    /// `Copy`. After want of memory nothing has changed.
    pub fn declare(&mut self, name: &str, copy: bool) -> Result<u32, AllocError>
        requires room { length self.old.items < 2 ^ 31 }
        ensures types { OnOk result (self.new ≡ with_item self.old name.now copy) }
        ensures number { IfOk result (λ item. item ≡ length self.old.items) }
        ensures extends { Extends self.old self.new }
        ensures err { OnErr result (self.new ≡ self.old) }
    {
        add_item(&self.shapes, &self.known, &mut self.items, name, copy)
    }

    /// Gives a declared struct its fields, once. The structs that lie in them, other than behind a
    /// reference or raw pointer, are defined. After want of memory nothing has changed.
    pub fn define(&mut self, item: u32, fields: Vec<Field>) -> Result<(), AllocError>
        requires declared { IsDeclared self.old item }
        requires once { fields_at self.old item ≡ None }
        requires fields { AllByRecursion (IsField self.old) fields.items }
        ensures types { OnOk result (self.new ≡ with_fields self.old item fields.items) }
        ensures extends { Extends self.old self.new }
        ensures err { OnErr result (self.new ≡ self.old) }
    {
        define_in(
            &self.shapes,
            &mut self.known,
            &mut self.items,
            item,
            Items::from_vec(fields),
        );
        Ok(())
    }

    /// One with the same types, numbers and structs.
    pub fn copy(&self) -> Result<Types, AllocError>
        ensures { IfOk result (λ copy. copy ≡ self.now) }
    {
        let alloc = *self.items.allocator();
        let shapes = copy_shapes(alloc, self.shapes.as_slice())?;
        let items = copy_items(alloc, &self.items)?;
        let Ok(known) = Vec::from_slice(alloc, &self.known) else {
            return Err(AllocError);
        };
        Ok(Types {
            shapes,
            known,
            items,
        })
    }

    /// How many types there are.
    pub fn count(&self) -> u32
        ensures { result ≡ length self.now.shapes }
    {
        self.shapes.len() as u32
    }

    /// Whether there is a struct of this number that has its fields.
    pub fn defined(&self, item: u32) -> bool
        ensures { result ≡ is_defined self.now item }
    {
        match self.items.get(item as usize) {
            Some(item) => item.fields.is_some(),
            None => false,
        }
    }

    /// The shape of a type.
    pub fn shape(&self, ty: Ty) -> &TyShape
        requires { IsType self.now ty }
        ensures { shape_at self.now ty ≡ Some result.now }
    {
        &self.shapes.as_slice()[ty.0 as usize]
    }

    /// The fields of a struct that is defined.
    pub fn fields(&self, item: u32) -> &[Field]
        requires { IsTrue (is_defined self.now item) }
        ensures { fields_at self.now item ≡ Some result.now }
    {
        match &self.items[item as usize].fields {
            Some(fields) => fields.as_slice(),
            None => &[],
        }
    }

    /// The name of a declared struct.
    pub fn name(&self, item: u32) -> &str
        requires { IsDeclared self.now item }
        ensures { IfSome (item_at self.now item) (λ item. result.now ≡ item.name) }
    {
        self.items[item as usize].name.as_str()
    }

    /// Whether a value of the type is copied when it is read: scalars, `()`, raw pointers, `&T`, tuples
    /// and arrays of such types, and structs that derive `Copy`.
    pub fn is_copy(&self, ty: Ty) -> bool
        requires { IsType self.now ty }
        ensures { result ≡ is_copy self.now ty }
    {
        self.known_of(ty).facts.copy
    }

    /// Whether the type has no interior mutability: no `Cell` or `UnsafeCell` lies in it, other than
    /// behind a pointer.
    pub fn is_freeze(&self, ty: Ty) -> bool
        requires { IsType self.now ty }
        ensures { result ≡ is_freeze self.now ty }
    {
        self.known_of(ty).facts.freeze
    }

    /// Whether the type is a reference or `Box`, or a struct or tuple in which one lies.
    pub fn holds_retag(&self, ty: Ty) -> bool
        requires { IsType self.now ty }
        ensures { result ≡ holds_retag self.now ty }
    {
        self.known_of(ty).facts.retag
    }

    /// Whether the type is a `Box`, or a struct or tuple in which one lies.
    pub fn owns_box(&self, ty: Ty) -> bool
        requires { IsType self.now ty }
        ensures { result ≡ owns_box self.now ty }
    {
        self.known_of(ty).facts.owns_box
    }

    /// Whether each struct that lies in the type, other than behind a reference or raw pointer, is defined:
    /// a field may have the type.
    pub fn is_complete(&self, ty: Ty) -> bool
        requires { IsType self.now ty }
        ensures { result ≡ is_complete self.now ty }
    {
        self.known_of(ty).facts.complete
    }

    /// Whether in the type, the fields that lie in it included, `[T]` stands directly behind a reference or
    /// raw pointer alone.
    pub fn is_sized(&self, ty: Ty) -> bool
        requires { IsType self.now ty }
        ensures { result ≡ is_sized self.now ty }
    {
        self.known_of(ty).facts.sized
    }

    /// Whether the type has at most 1,048,576 bytes, 4,194,304 parts and 1,024 levels.
    pub fn fits(&self, ty: Ty) -> bool
        requires { IsType self.now ty }
        ensures { result ≡ fits self.now ty }
    {
        is_within(self.known_of(ty).extent)
    }

    /// The size and alignment of a type that is not too large.
    pub fn size_align(&self, ty: Ty) -> (u32, u32)
        requires ty { IsType self.now ty }
        requires fits { fits self.now ty ≡ true }
        ensures size { result.0 ≡ (extent_of self.now ty).size }
        ensures align { result.1 ≡ (extent_of self.now ty).align }
        ensures small { result.0 ≤ 1048576 }
        ensures aligned { IsAlign result.1 }
    {
        let extent = self.known_of(ty).extent;
        (extent.size as u32, extent.align as u32)
    }

    /// What is kept of a type.
    fn known_of(&self, ty: Ty) -> Known
        requires { IsType self.now ty }
        ensures facts { result.facts ≡ facts_of self.now ty }
        ensures extent { result.extent ≡ capped (extent_of self.now ty) }
        ensures aligned { IsAlign (extent_of self.now ty).align }
    {
        self.known[ty.0 as usize]
    }

    /// What a box, cell, array, slice, reference or raw pointer is made around.
    pub fn content(&self, ty: Ty) -> Option<Ty>
        ensures { result ≡ content self.now ty }
    {
        content(self.shapes.as_slice(), ty)
    }

    /// How many parts a tuple and how many fields a struct has; 0 for other types and before a struct is defined.
    pub fn part_count(&self, ty: Ty) -> usize
        ensures { result ≡ length (side_by_side self.now (shape_at self.now ty)) }
    {
        part_count(self.shapes.as_slice(), &self.items, ty)
    }

    /// The type of a part of a tuple or of a field of a struct, by its place.
    pub fn part(&self, ty: Ty, at: usize) -> Option<Ty>
        ensures { result ≡ part self.now ty at }
    {
        part(self.shapes.as_slice(), &self.items, ty, at)
    }

    /// The type of a shape, if it has one.
    pub fn find(&self, shape: &TyShape) -> Option<Ty>
        ensures { result ≡ find self.now shape.now }
    {
        find(&self.shapes, shape)
    }

    /// Whether these are the types of the operands and of the answer of the row of a built-in call. `ty` is
    /// what the row calls T, a sized type: the type in its `::<T>`, the type of the value, or what the pointer, box, cell,
    /// slice or array holds; for `cast` the type that is cast to; `u8` for `dealloc`, and `()` for a row
    /// with no T.
    pub fn has_head(&self, b: Builtin, args: &[Ty], ty: Ty, answer: Ty) -> bool
        ensures { result ≡ has_head self.now b args.now ty answer }
    {
        let shapes = self.shapes.as_slice();
        self.is_sized_type(ty)
            && (fits_head(shapes, &self.items, head_of(b, false), args, ty, answer)
                || fits_head(shapes, &self.items, head_of(b, true), args, ty, answer))
    }

    /// Whether the number is that of a sized type.
    fn is_sized_type(&self, ty: Ty) -> bool
        ensures { result ≡ is_sized_type self.now ty }
    {
        if ty.0 as usize >= self.shapes.len() {
            return false;
        }
        self.is_sized(ty)
    }

    /// Everything that is true of the types of every `Types`, for proofs.
    pub fn law_types(&self)
        ensures types { AreTypes self.now }
        ensures facts { (ty : Ty) → IsType self.now ty → facts_of self.now ty ≡ facts_by (node_of self.now ty) (map (facts_of self.now) (node_of self.now ty).parts) }
        ensures extents { (ty : Ty) → IsType self.now ty → extent_of self.now ty ≡ extent_by (node_of self.now ty) (map (extent_of self.now) (node_of self.now ty).parts) }
        ensures trees { (ty : Ty) (shape : TyShape) → shape_at self.now ty ≡ Some shape → tree_of self.now ty ≡ tree_in shape (tree_of self.now) }
        ensures numbers { (one other : Ty) → IsType self.now one → IsType self.now other → IsSameType self.now one self.now other → one ≡ other }
    {
        let _ = &self.items;
    }
}
