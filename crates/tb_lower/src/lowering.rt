//! What the lowering of a function keeps: the lines, the locals and the variables so far.
ghost use Rattle.std.specs.Prelude.{◌≡◌, ◌≤◌, ◌<◌, ◌+◌, ◌-◌, ◌∷◌, ◌++◌, [], vec_len, OnOk, IfOk};
ghost use Rattle.std.specs.List.{range_with_len};
ghost use Rattle.tb_lower.specs.Lowering.{put, local_at, type_at, types_of, clears, variable_place, deref_place};
ghost use Rattle.tb_lower.specs.Ways.{Shape, count, number};

use sqlite_items::Items;
use std::alloc::{AllocError, Global};
use tb_mir::{Base, Line, Local, LocalKind, MirLine, Place, Ty};
use tb_perm::Span;

/// The variable of a `let`.
#[derive(Clone, Copy, Debug, PartialEq, Eq)]
pub struct Declared {
    /// The number of its local.
    pub local: u32,
    pub ty: Ty,
}

/// The memory of a variable.
pub fn variable_place(local: u32) -> Place
    ensures { result ≡ variable_place local }
{
    Place {
        base: Base::Variable(local),
    }
}

/// What the pointer in a temporary points to.
pub fn deref_place(temp: u32) -> Place
    ensures { result ≡ deref_place temp }
{
    Place {
        base: Base::Deref(temp),
    }
}

/// The numbers from `start` on and up to before `end`.
fn numbers(alloc: Global, start: u32, end: u32) -> Result<Vec<u32>, AllocError>
    requires { start ≤ end }
    ensures { IfOk result (λ numbers. numbers.items ≡ range_with_len start (end - start)) }
{
    let mut numbers = Vec::new(alloc);
    for number in start..end {
        numbers.push(number)?;
    }
    Ok(numbers)
}

/// What was lowered so far.
#[derive(Debug, Drop)]
pub struct Lowering {
    pub alloc: Global,
    pub lines: Vec<MirLine>,
    pub locals: Vec<Local>,
    /// One for each `let`, in the order of the text.
    pub variables: Vec<Declared>,
}

impl Lowering {
    /// Nothing.
    pub fn new(alloc: Global) -> Lowering
        ensures lines { result.lines.items ≡ [] }
        ensures locals { result.locals.items ≡ [] }
        ensures count { vec_len result.locals ≡ 0 }
        ensures variables { result.variables.items ≡ [] }
        ensures lets { vec_len result.variables ≡ 0 }
    {
        Lowering {
            alloc,
            lines: Vec::new(alloc),
            locals: Vec::new(alloc),
            variables: Vec::new(alloc),
        }
    }

    /// Adds a line.
    pub fn emit(&mut self, line: Line, span: Span) -> Result<(), AllocError>
        ensures lines { OnOk result (self.new.lines.items ≡ self.old.lines.items ++ put line span ∷ []) }
        ensures locals { self.new.locals ≡ self.old.locals }
        ensures variables { self.new.variables ≡ self.old.variables }
    {
        self.lines.push(MirLine { line, span })?;
        Ok(())
    }

    /// Brings in a local, and returns its number.
    pub fn bring(&mut self, kind: LocalKind, ty: Ty) -> Result<u32, AllocError>
        requires { vec_len self.old.locals < 4096 }
        ensures number { IfOk result (λ local. local ≡ vec_len self.old.locals) }
        ensures locals { OnOk result (self.new.locals.items ≡ self.old.locals.items ++ record { kind = kind; ty = ty } ∷ []) }
        ensures count { OnOk result (vec_len self.new.locals ≡ vec_len self.old.locals + 1) }
        ensures lines { self.new.lines ≡ self.old.lines }
        ensures variables { self.new.variables ≡ self.old.variables }
    {
        let local = self.next();
        self.locals.push(Local { kind, ty })?;
        Ok(local)
    }

    /// How many locals there are so far, which is the number of the next one.
    pub fn next(&self) -> u32
        requires { vec_len self.now.locals ≤ 4096 }
        ensures { result ≡ vec_len self.now.locals }
    {
        self.locals.len() as u32
    }

    /// The local of the variable of this number.
    pub fn local(&self, number: u32) -> u32
        requires { number < vec_len self.now.variables }
        ensures { result ≡ local_at self.now.variables.items number }
    {
        self.variables[number as usize].local
    }

    /// The type of the variable of this number.
    pub fn ty(&self, number: u32) -> Ty
        requires { number < vec_len self.now.variables }
        ensures { result ≡ type_at (types_of self.now.variables.items) number }
    {
        self.variables[number as usize].ty
    }

    /// Takes away the values of the temporaries from `start` on and up to before `end`, if there are
    /// any.
    pub fn clear(&mut self, start: u32, end: u32, span: Span) -> Result<(), AllocError>
        requires { start ≤ end }
        ensures lines { (shape : Shape) → start + count shape ≡ end → OnOk result (self.new.lines.items ≡ self.old.lines.items ++ clears (number start shape) span shape) }
        ensures locals { self.new.locals ≡ self.old.locals }
        ensures variables { self.new.variables ≡ self.old.variables }
    {
        let temps = numbers(self.alloc, start, end)?;
        if temps.is_empty() {
            return Ok(());
        }
        self.emit(Line::Clear(Items::from_vec(temps)), span)
    }
}
