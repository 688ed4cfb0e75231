//! The rows of the table of built-in calls.

ghost use Rattle.std.specs.Prelude.{◌≡◌};
ghost use Rattle.tb_calls.specs.Rows.{safe, guarded, new_row, slice_row, row_of, operand_at, operand_count, takes_types, call_fault};

use tb_perm::Code;
use tb_types::{Builtin, IntKind};

/// A type that holds one other.
#[derive(Clone, Copy)]
pub enum Holder {
    /// `Box<T>`
    Boxed,
    /// `Cell<T>`
    Cell,
    /// `UnsafeCell<T>`
    UnsafeCell,
}

/// What is expected of an argument.
#[derive(Clone, Copy)]
pub enum Operand {
    /// What the type holds that is expected of the call, if that is such a holder.
    Held(Holder),
    /// Nothing.
    Any,
    /// A raw pointer to any sized type; `*mut` where it is true.
    Pointer(bool),
    /// What the call is about.
    About,
    /// An integer type.
    Int(IntKind),
    /// `*mut u8`
    Bytes,
    /// `Layout`
    Layout,
}

/// What is expected of the arguments in the brackets of a call, and how many there are.
#[derive(Clone, Copy)]
pub enum Operands {
    Zero,
    One(Operand),
    Two(Operand, Operand),
}

/// What a call is about: the T of its row.
#[derive(Clone, Copy)]
pub enum About {
    /// Nothing, so `()`.
    Nothing,
    /// `u8`
    Byte,
    /// The type argument.
    Argument,
    /// The type argument, or else what the raw pointer leads to that is expected of the call.
    Pointee,
    /// The type of the first argument.
    Value,
    /// What the first argument holds, a `Box`.
    Boxed,
    /// What the first argument leads to, a raw pointer; `*mut` where it is true.
    Pointer(bool),
    /// What the receiver holds or leads to.
    Receiver,
}

/// What a call gives.
#[derive(Clone, Copy)]
pub enum Answer {
    /// `()`
    Unit,
    /// `bool`
    Bool,
    /// An integer type.
    Int(IntKind),
    /// What the call is about.
    About,
    /// A holder of it.
    Holder(Holder),
    /// A reference to it; `&mut` where it is true.
    Ref(bool),
    /// A raw pointer to it; `*mut` where it is true.
    Raw(bool),
    /// A reference to a slice of it; `&mut` where it is true.
    Slice(bool),
    /// `*mut u8`
    Bytes,
    /// `Layout`
    Layout,
}

/// A row of the table of built-in calls.
#[derive(Clone, Copy)]
pub struct Row {
    pub needs_unsafe: bool,
    pub operands: Operands,
    pub about: About,
    pub answer: Answer,
}

use Operands::{One, Two, Zero};

const COUNT: Operand = Operand::Int(IntKind::Usize);

const DISTANCE: Operand = Operand::Int(IntKind::Isize);

const SIZES: Operands = Two(COUNT, COUNT);

const FREED: Operands = Two(Operand::Bytes, Operand::Layout);

const USIZE: Answer = Answer::Int(IntKind::Usize);

const I32: Answer = Answer::Int(IntKind::I32);

const BOX: Answer = Answer::Holder(Holder::Boxed);

const MUT_PTR: Answer = Answer::Raw(true);

const NOTHING: About = About::Nothing;

/// A row that may stand anywhere.
pub fn safe(operands: Operands, about: About, answer: Answer) -> Row
    ensures { result ≡ safe operands about answer }
{
    Row {
        needs_unsafe: false,
        operands,
        about,
        answer,
    }
}

/// A row that needs `unsafe`.
fn guarded(operands: Operands, about: About, answer: Answer) -> Row
    ensures { result ≡ guarded operands about answer }
{
    Row {
        needs_unsafe: true,
        operands,
        about,
        answer,
    }
}

/// The row of a holder's `new`.
fn new_row(holder: Holder) -> Row
    ensures { result ≡ new_row holder }
{
    safe(
        One(Operand::Held(holder)),
        About::Value,
        Answer::Holder(holder),
    )
}

/// The row of a slice of raw parts.
fn slice_row(mutable: bool) -> Row
    ensures { result ≡ slice_row mutable }
{
    guarded(
        Two(Operand::Pointer(mutable), COUNT),
        About::Pointer(mutable),
        Answer::Slice(mutable),
    )
}

/// The row of a built-in call. A method of raw pointers is that of `*mut` where `mutable` is true.
pub fn row_of(builtin: Builtin, mutable: bool) -> Row
    ensures row { result ≡ row_of builtin mutable }
{
    let held = About::Receiver;
    let pointer = Answer::Raw(mutable);
    match builtin {
        Builtin::BoxNew => new_row(Holder::Boxed),
        Builtin::CellNew => new_row(Holder::Cell),
        Builtin::UnsafeCellNew => new_row(Holder::UnsafeCell),
        Builtin::BoxIntoRaw => safe(One(Operand::Any), About::Boxed, MUT_PTR),
        Builtin::BoxLeak => safe(One(Operand::Any), About::Boxed, Answer::Ref(true)),
        Builtin::BoxFromRaw => guarded(One(Operand::Pointer(true)), About::Pointer(true), BOX),
        Builtin::FromRawParts => slice_row(false),
        Builtin::FromRawPartsMut => slice_row(true),
        Builtin::CellGet => safe(Zero, held, Answer::About),
        Builtin::CellSet => safe(One(Operand::About), held, Answer::Unit),
        Builtin::CellAsPtr | Builtin::UnsafeCellGet => safe(Zero, held, MUT_PTR),
        Builtin::SliceAsPtr => safe(Zero, held, Answer::Raw(false)),
        Builtin::SliceAsMutPtr => safe(Zero, held, MUT_PTR),
        Builtin::Null => safe(Zero, About::Pointee, Answer::Raw(false)),
        Builtin::NullMut => safe(Zero, About::Pointee, MUT_PTR),
        Builtin::Cast => safe(Zero, About::Pointee, pointer),
        Builtin::SizeOf | Builtin::AlignOf => safe(Zero, About::Argument, USIZE),
        Builtin::LayoutNew => safe(Zero, About::Argument, Answer::Layout),
        Builtin::Add | Builtin::Sub => guarded(One(COUNT), held, pointer),
        Builtin::Offset => guarded(One(DISTANCE), held, pointer),
        Builtin::Read => guarded(Zero, held, Answer::About),
        Builtin::Write => guarded(One(Operand::About), held, Answer::Unit),
        Builtin::IsNull => safe(Zero, held, Answer::Bool),
        Builtin::Addr => safe(Zero, held, USIZE),
        Builtin::LayoutSize | Builtin::LayoutAlign => safe(Zero, NOTHING, USIZE),
        Builtin::Getchar => guarded(Zero, NOTHING, I32),
        Builtin::LayoutFromSizeAlignUnchecked => guarded(SIZES, NOTHING, Answer::Layout),
        Builtin::Alloc => guarded(One(Operand::Layout), NOTHING, Answer::Bytes),
        Builtin::Dealloc => guarded(FREED, About::Byte, Answer::Unit),
    }
}

/// What is expected of the argument at a place, if there is one.
pub fn operand_at(operands: Operands, at: usize) -> Option<Operand>
    ensures { result ≡ operand_at operands at }
{
    match operands {
        Operands::Zero => None,
        Operands::One(first) => if at == 0 { Some(first) } else { None },
        Operands::Two(first, second) => if at == 0 {
            Some(first)
        } else if at == 1 {
            Some(second)
        } else {
            None
        },
    }
}

fn operand_count(operands: Operands) -> usize
    ensures { result ≡ operand_count operands }
{
    match operands {
        Operands::Zero => 0,
        Operands::One(_) => 1,
        Operands::Two(_, _) => 2,
    }
}

/// Whether the call may have so many type arguments.
fn takes_types(about: About, written: usize) -> bool
    ensures { result ≡ takes_types about written }
{
    match about {
        About::Argument => written == 1,
        About::Pointee => written < 2,
        _ => written == 0,
    }
}

/// What forbids a call with so many type arguments and arguments: another number of them is due, or it needs `unsafe`.
pub fn call_fault(row: Row, is_unsafe: bool, written: usize, arguments: usize) -> Option<Code>
    ensures { result ≡ call_fault row is_unsafe written arguments }
{
    if !(arguments == operand_count(row.operands) && takes_types(row.about, written)) {
        Some(Code::WrongNumber)
    } else if row.needs_unsafe && !is_unsafe {
        Some(Code::NeedsUnsafe)
    } else {
        None
    }
}
