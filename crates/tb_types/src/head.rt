ghost use Rattle.std.specs.Prelude.{◌≡◌};
ghost use Rattle.tb_types.specs.Heads.{row, row_for, head_of, are_operands, fits_head};
ghost use Rattle.tb_types.specs.Kept.{table_of};

use crate::builtin::Builtin;
use crate::form::{Around, Form, is_form};
use crate::item::Item;
use crate::shape::{IntKind, Ty, TyShape};

/// The types of the operands of a row.
#[derive(Clone, Copy, Debug, PartialEq, Eq)]
pub enum Operands {
    Zero,
    One(Form),
    Two(Form, Form),
}

/// A row of the table of built-in calls: its T, its operands and its answer.
#[derive(Clone, Copy, Debug, PartialEq, Eq)]
pub struct Head {
    pub of: Form,
    pub operands: Operands,
    pub answer: Form,
}

use Operands::{One, Two, Zero};

const T: Form = Form::T;

const BOX: Form = Form::Of(Around::Boxed);

const CELL: Form = Form::Of(Around::Cell);

const UNSAFE_CELL: Form = Form::Of(Around::UnsafeCell);

const MUT_REF: Form = Form::Of(Around::Ref(true));

const CONST_PTR: Form = Form::Of(Around::Raw(false));

const MUT_PTR: Form = Form::Of(Around::Raw(true));

const CELL_REF: Form = Form::Within(Around::Ref(false), Around::Cell);

const UNSAFE_CELL_REF: Form = Form::Within(Around::Ref(false), Around::UnsafeCell);

const SLICE_REF: Form = Form::Within(Around::Ref(false), Around::Slice);

const MUT_SLICE_REF: Form = Form::Within(Around::Ref(true), Around::Slice);

const ELEMENTS_REF: Form = Form::Within(Around::Ref(false), Around::Elements);

const MUT_ELEMENTS_REF: Form = Form::Within(Around::Ref(true), Around::Elements);

const USIZE: Form = Form::Int(IntKind::Usize);

const ISIZE: Form = Form::Int(IntKind::Isize);

const I32: Form = Form::Int(IntKind::I32);

const BYTE: Form = Form::Int(IntKind::U8);

const UNIT: Form = Form::Unit;

const BOOL: Form = Form::Bool;

const BYTES: Form = Form::BytePointer;

const LAYOUT: Form = Form::Layout;

/// A row with any T.
fn row(operands: Operands, answer: Form) -> Head
    ensures { result ≡ row operands answer }
{
    row_for(Form::T, operands, answer)
}

/// A row whose T is of this form.
fn row_for(of: Form, operands: Operands, answer: Form) -> Head
    ensures { result ≡ row_for of operands answer }
{
    Head {
        of,
        operands,
        answer,
    }
}

/// The row of a call. A row that takes a raw pointer of either kind takes `*mut` where `mutable` is true.
pub fn head_of(b: Builtin, mutable: bool) -> Head
    ensures { result ≡ head_of b mutable }
{
    let pointer = Form::Of(Around::Raw(mutable));
    match b {
        Builtin::BoxNew => row(One(T), BOX),
        Builtin::BoxIntoRaw => row(One(BOX), MUT_PTR),
        Builtin::BoxLeak => row(One(BOX), MUT_REF),
        Builtin::BoxFromRaw => row(One(MUT_PTR), BOX),
        Builtin::CellNew => row(One(T), CELL),
        Builtin::UnsafeCellNew => row(One(T), UNSAFE_CELL),
        Builtin::CellGet => row(One(CELL_REF), T),
        Builtin::CellSet => row(Two(CELL_REF, T), UNIT),
        Builtin::CellAsPtr => row(One(CELL_REF), MUT_PTR),
        Builtin::UnsafeCellGet => row(One(UNSAFE_CELL_REF), MUT_PTR),
        Builtin::Null => row(Zero, CONST_PTR),
        Builtin::NullMut => row(Zero, MUT_PTR),
        Builtin::FromRawParts => row(Two(CONST_PTR, USIZE), SLICE_REF),
        Builtin::FromRawPartsMut => row(Two(MUT_PTR, USIZE), MUT_SLICE_REF),
        Builtin::SizeOf => row(Zero, USIZE),
        Builtin::AlignOf => row(Zero, USIZE),
        Builtin::Add => row(Two(pointer, USIZE), pointer),
        Builtin::Sub => row(Two(pointer, USIZE), pointer),
        Builtin::Offset => row(Two(pointer, ISIZE), pointer),
        Builtin::Read => row(One(pointer), T),
        Builtin::Write => row(Two(MUT_PTR, T), UNIT),
        Builtin::Cast => row(One(Form::Thin(mutable)), pointer),
        Builtin::IsNull => row(One(pointer), BOOL),
        Builtin::Addr => row(One(pointer), USIZE),
        Builtin::SliceAsPtr => row(One(ELEMENTS_REF), CONST_PTR),
        Builtin::SliceAsMutPtr => row(One(MUT_ELEMENTS_REF), MUT_PTR),
        Builtin::Getchar => row_for(UNIT, Zero, I32),
        Builtin::LayoutNew => row(Zero, LAYOUT),
        Builtin::LayoutFromSizeAlignUnchecked => row_for(UNIT, Two(USIZE, USIZE), LAYOUT),
        Builtin::LayoutSize => row_for(UNIT, One(LAYOUT), USIZE),
        Builtin::LayoutAlign => row_for(UNIT, One(LAYOUT), USIZE),
        Builtin::Alloc => row_for(UNIT, One(LAYOUT), BYTES),
        Builtin::Dealloc => row_for(BYTE, Two(BYTES, LAYOUT), UNIT),
    }
}

/// Whether the operands are of these forms, and as many.
fn are_operands(shapes: &[TyShape], items: &[Item], operands: Operands, t: Ty, args: &[Ty]) -> bool
    ensures { result ≡ are_operands (table_of shapes.now items.now) operands t args.now }
{
    match (operands, args) {
        (Operands::Zero, []) => true,
        (Operands::One(first), [a]) => is_form(shapes, items, first, t, *a),
        (Operands::Two(first, second), [a, b]) => {
            is_form(shapes, items, first, t, *a) && is_form(shapes, items, second, t, *b)
        }
        _ => false,
    }
}

/// Whether these are the types of a row, where T is `t`.
pub fn fits_head(
    shapes: &[TyShape],
    items: &[Item],
    head: Head,
    args: &[Ty],
    t: Ty,
    answer: Ty,
) -> bool
    ensures { result ≡ fits_head (table_of shapes.now items.now) head args.now t answer }
{
    is_form(shapes, items, head.of, t, t)
        && are_operands(shapes, items, head.operands, t, args)
        && is_form(shapes, items, head.answer, t, answer)
}
