//! The calls and types that are built in, by their paths.

ghost use Rattle.std.specs.Prelude.{◌≡◌};
ghost use Rattle.tb_lookup.specs.Builtins.{row_in, calls, alloc_calls, types, told_calls, told_types};

use crate::callee::Callee;
use crate::ty::TypeName;
use tb_types::{Builtin, IntKind};

/// A path, and the call that it names.
#[derive(Clone, Copy)]
pub struct CallRow {
    path: &'static [u8],
    call: Callee,
}

/// A word, and the type that it names.
#[derive(Clone, Copy)]
pub struct TypeRow {
    word: &'static [u8],
    ty: TypeName,
}

/// The calls whose paths may also begin with `std::` or `core::`.
const CALLS: [CallRow; 21] = [
    CallRow {
        path: b"Box::new",
        call: Callee::Builtin(Builtin::BoxNew),
    },
    CallRow {
        path: b"Box::into_raw",
        call: Callee::Builtin(Builtin::BoxIntoRaw),
    },
    CallRow {
        path: b"Box::leak",
        call: Callee::Builtin(Builtin::BoxLeak),
    },
    CallRow {
        path: b"Box::from_raw",
        call: Callee::Builtin(Builtin::BoxFromRaw),
    },
    CallRow {
        path: b"drop",
        call: Callee::DropValue,
    },
    CallRow {
        path: b"mem::drop",
        call: Callee::DropValue,
    },
    CallRow {
        path: b"Cell::new",
        call: Callee::Builtin(Builtin::CellNew),
    },
    CallRow {
        path: b"UnsafeCell::new",
        call: Callee::Builtin(Builtin::UnsafeCellNew),
    },
    CallRow {
        path: b"ptr::null",
        call: Callee::Builtin(Builtin::Null),
    },
    CallRow {
        path: b"ptr::null_mut",
        call: Callee::Builtin(Builtin::NullMut),
    },
    CallRow {
        path: b"slice::from_raw_parts",
        call: Callee::Builtin(Builtin::FromRawParts),
    },
    CallRow {
        path: b"slice::from_raw_parts_mut",
        call: Callee::Builtin(Builtin::FromRawPartsMut),
    },
    CallRow {
        path: b"size_of",
        call: Callee::Builtin(Builtin::SizeOf),
    },
    CallRow {
        path: b"mem::size_of",
        call: Callee::Builtin(Builtin::SizeOf),
    },
    CallRow {
        path: b"align_of",
        call: Callee::Builtin(Builtin::AlignOf),
    },
    CallRow {
        path: b"mem::align_of",
        call: Callee::Builtin(Builtin::AlignOf),
    },
    CallRow {
        path: b"getchar",
        call: Callee::Builtin(Builtin::Getchar),
    },
    CallRow {
        path: b"Layout::new",
        call: Callee::Builtin(Builtin::LayoutNew),
    },
    CallRow {
        path: b"Layout::from_size_align_unchecked",
        call: Callee::Builtin(Builtin::LayoutFromSizeAlignUnchecked),
    },
    CallRow {
        path: b"alloc",
        call: Callee::Builtin(Builtin::Alloc),
    },
    CallRow {
        path: b"dealloc",
        call: Callee::Builtin(Builtin::Dealloc),
    },
];

/// The calls that stand behind `alloc::` and `std::alloc::`, too.
const ALLOC_CALLS: [CallRow; 4] = [
    CallRow {
        path: b"Layout::new",
        call: Callee::Builtin(Builtin::LayoutNew),
    },
    CallRow {
        path: b"Layout::from_size_align_unchecked",
        call: Callee::Builtin(Builtin::LayoutFromSizeAlignUnchecked),
    },
    CallRow {
        path: b"alloc",
        call: Callee::Builtin(Builtin::Alloc),
    },
    CallRow {
        path: b"dealloc",
        call: Callee::Builtin(Builtin::Dealloc),
    },
];

/// The types. `Layout` is the struct of number 0.
const TYPES: [TypeRow; 16] = [
    TypeRow {
        word: b"i8",
        ty: TypeName::Int(IntKind::I8),
    },
    TypeRow {
        word: b"i16",
        ty: TypeName::Int(IntKind::I16),
    },
    TypeRow {
        word: b"i32",
        ty: TypeName::Int(IntKind::I32),
    },
    TypeRow {
        word: b"i64",
        ty: TypeName::Int(IntKind::I64),
    },
    TypeRow {
        word: b"isize",
        ty: TypeName::Int(IntKind::Isize),
    },
    TypeRow {
        word: b"u8",
        ty: TypeName::Int(IntKind::U8),
    },
    TypeRow {
        word: b"u16",
        ty: TypeName::Int(IntKind::U16),
    },
    TypeRow {
        word: b"u32",
        ty: TypeName::Int(IntKind::U32),
    },
    TypeRow {
        word: b"u64",
        ty: TypeName::Int(IntKind::U64),
    },
    TypeRow {
        word: b"usize",
        ty: TypeName::Int(IntKind::Usize),
    },
    TypeRow {
        word: b"bool",
        ty: TypeName::Bool,
    },
    TypeRow {
        word: b"char",
        ty: TypeName::Char,
    },
    TypeRow {
        word: b"Box",
        ty: TypeName::Boxed,
    },
    TypeRow {
        word: b"Cell",
        ty: TypeName::Cell,
    },
    TypeRow {
        word: b"UnsafeCell",
        ty: TypeName::UnsafeCell,
    },
    TypeRow {
        word: b"Layout",
        ty: TypeName::Struct(0),
    },
];

fn call_in(rows: &[CallRow], path: &[u8]) -> Option<Callee>
    ensures { result ≡ row_in (told_calls rows.now) path.now }
{
    for row in rows {
        if path == row.path {
            return Some(row.call);
        }
    }
    None
}

fn type_in(rows: &[TypeRow], word: &[u8]) -> Option<TypeName>
    ensures { result ≡ row_in (told_types rows.now) word.now }
{
    for row in rows {
        if word == row.word {
            return Some(row.ty);
        }
    }
    None
}

/// The call of this path.
pub fn built_in_call(path: &[u8]) -> Option<Callee>
    ensures { result ≡ row_in calls path.now }
{
    call_in(&CALLS, path)
}

/// The call of this path behind `alloc::`.
pub fn call_in_alloc(path: &[u8]) -> Option<Callee>
    ensures { result ≡ row_in alloc_calls path.now }
{
    call_in(&ALLOC_CALLS, path)
}

/// The type of this word.
pub fn built_in_type(word: &[u8]) -> Option<TypeName>
    ensures { result ≡ row_in types word.now }
{
    type_in(&TYPES, word)
}
