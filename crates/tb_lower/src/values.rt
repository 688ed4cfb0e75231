//! Places, sums and other values.
ghost use Rattle.std.specs.Prelude.{◌≡◌, ◌≤◌, ◌+◌, ◌++◌, vec_len, OnOk, IfOk};
ghost use Rattle.std.specs.List.{AllByRecursion};
ghost use Rattle.tb_small.specs.Grammar.{right_value};
ghost use Rattle.tb_lower.specs.Pieces.{types, names, addition_shape, addition_lines};
ghost use Rattle.tb_lower.specs.Lowering.{kind_of, ty_of, spot_shape, spot_lines, spot_place, load_shape, load_lines, atom_shape, atom_lines, atom_operand, more_shape, more_lines, more_operand, sum_shape, sum_lines, sum_operand, sums_shape, sums_lines, sums_operands, borrow_shape, borrow_lines, value_shape, value_lines, value_operand, right_shape, right_lines, right_operand};
ghost use Rattle.tb_lower.specs.Ready.{IsSpotReady, IsAtomReady, IsSumReady, IsValueReady, IsRightReady};
ghost use Rattle.tb_lower.specs.Ways.{count, brings, own};

use crate::lowering::{Lowering, deref_place, variable_place};
use crate::spans::{span_from_to, span_of_spot};
use sqlite_items::Items;
use std::alloc::AllocError;
use tb_mir::{BinOp, Constant, Line, LocalKind, Operand, Place, RefKind, Rvalue, Ty};
use tb_small::{Atom, Borrow, Right, Spot, Sum, Value};

/// A kind of pointer.
fn lower_kind(kind: tb_small::RefKind) -> RefKind
    ensures { result ≡ kind_of kind }
{
    match kind {
        tb_small::RefKind::Shared => RefKind::Shared,
        tb_small::RefKind::Mut => RefKind::Mut,
        tb_small::RefKind::RawConst => RefKind::RawConst,
        tb_small::RefKind::RawMut => RefKind::RawMut,
    }
}

/// The type of a variable.
pub fn lower_ty(ty: tb_small::Ty) -> Ty
    ensures { result ≡ ty_of ty }
{
    match ty {
        tb_small::Ty::Int32 => Ty::Int32,
        tb_small::Ty::Pointer(kind) => Ty::Pointer(lower_kind(kind)),
    }
}

impl Lowering {
    /// Lowers a place. The pointer of `*x` is loaded into a temporary for the place.
    pub fn spot(&mut self, spot: Spot) -> Result<Place, AllocError>
        requires room { vec_len self.old.locals + count (spot_shape (types self.old) spot) ≤ 4096 }
        requires ready { IsSpotReady (vec_len self.old.variables) spot }
        ensures place { IfOk result (λ place. place ≡ spot_place (names self.old (spot_shape (types self.old) spot)) self.old.variables.items spot) }
        ensures lines { OnOk result (self.new.lines.items ≡ self.old.lines.items ++ spot_lines (names self.old (spot_shape (types self.old) spot)) self.old.variables.items spot) }
        ensures locals { OnOk result (self.new.locals.items ≡ self.old.locals.items ++ brings (spot_shape (types self.old) spot)) }
        ensures count { OnOk result (vec_len self.new.locals ≡ vec_len self.old.locals + count (spot_shape (types self.old) spot)) }
        ensures variables { self.new.variables ≡ self.old.variables }
    {
        match spot {
            Spot::Variable(variable) => Ok(variable_place(self.local(variable.number))),
            Spot::Deref(deref) => {
                let from = variable_place(self.local(deref.variable.number));
                let ty = self.ty(deref.variable.number);
                let pointer = self.bring(LocalKind::PlaceTemp, ty)?;
                self.emit(Line::Load(pointer, from), deref.span)?;
                Ok(deref_place(pointer))
            }
        }
    }

    /// Loads what a place holds, of this type.
    fn load(&mut self, ty: Ty, spot: Spot) -> Result<Operand, AllocError>
        requires room { vec_len self.old.locals + count (load_shape (types self.old) ty spot) ≤ 4096 }
        requires ready { IsSpotReady (vec_len self.old.variables) spot }
        ensures operand { IfOk result (λ operand. operand ≡ Operand.Temp (own (names self.old (load_shape (types self.old) ty spot)) 1)) }
        ensures lines { OnOk result (self.new.lines.items ≡ self.old.lines.items ++ load_lines (names self.old (load_shape (types self.old) ty spot)) self.old.variables.items spot) }
        ensures locals { OnOk result (self.new.locals.items ≡ self.old.locals.items ++ brings (load_shape (types self.old) ty spot)) }
        ensures count { OnOk result (vec_len self.new.locals ≡ vec_len self.old.locals + count (load_shape (types self.old) ty spot)) }
        ensures variables { self.new.variables ≡ self.old.variables }
    {
        let place = self.spot(spot)?;
        let temp = self.bring(LocalKind::Temp, ty)?;
        self.emit(Line::Load(temp, place), span_of_spot(spot))?;
        Ok(Operand::Temp(temp))
    }

    /// Lowers an atom: a place is loaded, and a literal is a constant.
    fn atom(&mut self, atom: Atom) -> Result<Operand, AllocError>
        requires room { vec_len self.old.locals + count (atom_shape (types self.old) atom) ≤ 4096 }
        requires ready { IsAtomReady (vec_len self.old.variables) atom }
        ensures operand { IfOk result (λ operand. operand ≡ atom_operand (names self.old (atom_shape (types self.old) atom)) atom) }
        ensures lines { OnOk result (self.new.lines.items ≡ self.old.lines.items ++ atom_lines (names self.old (atom_shape (types self.old) atom)) self.old.variables.items atom) }
        ensures locals { OnOk result (self.new.locals.items ≡ self.old.locals.items ++ brings (atom_shape (types self.old) atom)) }
        ensures count { OnOk result (vec_len self.new.locals ≡ vec_len self.old.locals + count (atom_shape (types self.old) atom)) }
        ensures variables { self.new.variables ≡ self.old.variables }
    {
        match atom {
            Atom::Int(int) => Ok(Operand::Const(Constant::Int(int.value as i32))),
            Atom::Variable(variable) => self.load(Ty::Int32, Spot::Variable(variable)),
            Atom::Deref(deref) => self.load(Ty::Int32, Spot::Deref(deref)),
        }
    }

    /// Adds a further atom to what stands to the left of it in a sum.
    fn add(&mut self, first: Atom, left: Operand, atom: Atom) -> Result<Operand, AllocError>
        requires room { vec_len self.old.locals + count (addition_shape (types self.old) atom) ≤ 4096 }
        requires ready { IsAtomReady (vec_len self.old.variables) atom }
        ensures operand { IfOk result (λ operand. operand ≡ Operand.Temp (own (names self.old (addition_shape (types self.old) atom)) 1)) }
        ensures lines { OnOk result (self.new.lines.items ≡ self.old.lines.items ++ addition_lines (names self.old (addition_shape (types self.old) atom)) self.old.variables.items first left atom) }
        ensures locals { OnOk result (self.new.locals.items ≡ self.old.locals.items ++ brings (addition_shape (types self.old) atom)) }
        ensures count { OnOk result (vec_len self.new.locals ≡ vec_len self.old.locals + count (addition_shape (types self.old) atom)) }
        ensures variables { self.new.variables ≡ self.old.variables }
    {
        let right = self.atom(atom)?;
        let sum = self.bring(LocalKind::Temp, Ty::Int32)?;
        let value = Rvalue::Binary(BinOp::Add, left, right);
        self.emit(Line::Set(sum, value), span_from_to(first, atom))?;
        Ok(Operand::Temp(sum))
    }

    /// Adds further atoms, one after another.
    fn more(&mut self, first: Atom, left: Operand, atoms: &[Atom]) -> Result<Operand, AllocError>
        requires room { vec_len self.old.locals + count (more_shape (types self.old) atoms.now) ≤ 4096 }
        requires ready { AllByRecursion (IsAtomReady (vec_len self.old.variables)) atoms.now }
        ensures operand { IfOk result (λ operand. operand ≡ more_operand (names self.old (more_shape (types self.old) atoms.now)) left atoms.now) }
        ensures lines { OnOk result (self.new.lines.items ≡ self.old.lines.items ++ more_lines (names self.old (more_shape (types self.old) atoms.now)) self.old.variables.items first left atoms.now) }
        ensures locals { OnOk result (self.new.locals.items ≡ self.old.locals.items ++ brings (more_shape (types self.old) atoms.now)) }
        ensures count { OnOk result (vec_len self.new.locals ≡ vec_len self.old.locals + count (more_shape (types self.old) atoms.now)) }
        ensures variables { self.new.variables ≡ self.old.variables }
    {
        let mut left = left;
        for atom in atoms {
            left = self.add(first, left, *atom)?;
        }
        Ok(left)
    }

    /// Lowers a sum, from left to right.
    fn sum(&mut self, sum: &Sum) -> Result<Operand, AllocError>
        requires room { vec_len self.old.locals + count (sum_shape (types self.old) sum.now) ≤ 4096 }
        requires ready { IsSumReady (vec_len self.old.variables) sum.now }
        ensures operand { IfOk result (λ operand. operand ≡ sum_operand (names self.old (sum_shape (types self.old) sum.now)) sum.now) }
        ensures lines { OnOk result (self.new.lines.items ≡ self.old.lines.items ++ sum_lines (names self.old (sum_shape (types self.old) sum.now)) self.old.variables.items sum.now) }
        ensures locals { OnOk result (self.new.locals.items ≡ self.old.locals.items ++ brings (sum_shape (types self.old) sum.now)) }
        ensures count { OnOk result (vec_len self.new.locals ≡ vec_len self.old.locals + count (sum_shape (types self.old) sum.now)) }
        ensures variables { self.new.variables ≡ self.old.variables }
    {
        let left = self.atom(sum.first)?;
        self.more(sum.first, left, sum.rest.as_slice())
    }

    /// Lowers the sums of a print, and returns their values.
    pub fn sums(&mut self, sums: &[Sum]) -> Result<Items<Operand>, AllocError>
        requires room { vec_len self.old.locals + count (sums_shape (types self.old) sums.now) ≤ 4096 }
        requires ready { AllByRecursion (IsSumReady (vec_len self.old.variables)) sums.now }
        ensures operands { IfOk result (λ operands. operands ≡ sums_operands (names self.old (sums_shape (types self.old) sums.now)) sums.now) }
        ensures lines { OnOk result (self.new.lines.items ≡ self.old.lines.items ++ sums_lines (names self.old (sums_shape (types self.old) sums.now)) self.old.variables.items sums.now) }
        ensures locals { OnOk result (self.new.locals.items ≡ self.old.locals.items ++ brings (sums_shape (types self.old) sums.now)) }
        ensures count { OnOk result (vec_len self.new.locals ≡ vec_len self.old.locals + count (sums_shape (types self.old) sums.now)) }
        ensures variables { self.new.variables ≡ self.old.variables }
    {
        let mut operands = Vec::new(self.alloc);
        for sum in sums {
            operands.push(self.sum(sum)?)?;
        }
        Ok(Items::from_vec(operands))
    }

    /// Makes a pointer to a place.
    fn borrow(&mut self, borrow: Borrow) -> Result<Operand, AllocError>
        requires room { vec_len self.old.locals + count (borrow_shape (types self.old) borrow) ≤ 4096 }
        requires ready { IsSpotReady (vec_len self.old.variables) borrow.operand }
        ensures operand { IfOk result (λ operand. operand ≡ Operand.Temp (own (names self.old (borrow_shape (types self.old) borrow)) 1)) }
        ensures lines { OnOk result (self.new.lines.items ≡ self.old.lines.items ++ borrow_lines (names self.old (borrow_shape (types self.old) borrow)) self.old.variables.items borrow) }
        ensures locals { OnOk result (self.new.locals.items ≡ self.old.locals.items ++ brings (borrow_shape (types self.old) borrow)) }
        ensures count { OnOk result (vec_len self.new.locals ≡ vec_len self.old.locals + count (borrow_shape (types self.old) borrow)) }
        ensures variables { self.new.variables ≡ self.old.variables }
    {
        let kind = lower_kind(borrow.kind);
        let place = self.spot(borrow.operand)?;
        let temp = self.bring(LocalKind::Temp, Ty::Pointer(kind))?;
        self.emit(Line::Set(temp, Rvalue::Ref(kind, place)), borrow.span)?;
        Ok(Operand::Temp(temp))
    }

    /// Lowers a value.
    fn value(&mut self, value: &Value) -> Result<Operand, AllocError>
        requires room { vec_len self.old.locals + count (value_shape (types self.old) value.now) ≤ 4096 }
        requires ready { IsValueReady (vec_len self.old.variables) value.now }
        ensures operand { IfOk result (λ operand. operand ≡ value_operand (names self.old (value_shape (types self.old) value.now)) value.now) }
        ensures lines { OnOk result (self.new.lines.items ≡ self.old.lines.items ++ value_lines (names self.old (value_shape (types self.old) value.now)) self.old.variables.items value.now) }
        ensures locals { OnOk result (self.new.locals.items ≡ self.old.locals.items ++ brings (value_shape (types self.old) value.now)) }
        ensures count { OnOk result (vec_len self.new.locals ≡ vec_len self.old.locals + count (value_shape (types self.old) value.now)) }
        ensures variables { self.new.variables ≡ self.old.variables }
    {
        match value {
            Value::Sum(sum) => self.sum(sum),
            Value::Borrow(borrow) => self.borrow(*borrow),
            Value::Pointer(variable) => {
                let ty = self.ty(variable.number);
                self.load(ty, Spot::Variable(*variable))
            }
        }
    }

    /// Lowers a right side.
    pub fn right(&mut self, right: &Right) -> Result<Operand, AllocError>
        requires room { vec_len self.old.locals + count (right_shape (types self.old) right.now) ≤ 4096 }
        requires ready { IsRightReady (vec_len self.old.variables) right.now }
        ensures operand { IfOk result (λ operand. operand ≡ right_operand (names self.old (right_shape (types self.old) right.now)) right.now) }
        ensures lines { OnOk result (self.new.lines.items ≡ self.old.lines.items ++ right_lines (names self.old (right_shape (types self.old) right.now)) self.old.variables.items right.now) }
        ensures locals { OnOk result (self.new.locals.items ≡ self.old.locals.items ++ brings (right_shape (types self.old) right.now)) }
        ensures count { OnOk result (vec_len self.new.locals ≡ vec_len self.old.locals + count (right_shape (types self.old) right.now)) }
        ensures variables { self.new.variables ≡ self.old.variables }
    {
        match right {
            Right::Plain(value) => self.value(value),
            Right::Unsafe(block) => self.value(&block.value),
        }
    }
}
