//! The variables that are known at a place of a function.

ghost use Rattle.std.specs.Prelude.{◌≡◌, OnOk};
ghost use Rattle.tb_names.specs.Names.{name_of};
ghost use Rattle.tb_outline.specs.Outlines.{told_step};
ghost use Rattle.tb_mentions.specs.Variables.{told_known, last_named, told_variables, no_variables, opened, closed, declared, after};

use std::alloc::{AllocError, Global};
use tb_ast::Ident;
use tb_outline::Step;

/// A variable, and its number in the function.
#[derive(Clone, Copy)]
pub struct Variable<'a> {
    ident: &'a Ident,
    number: u32,
}

/// The variables that are known at a place, in the order of their declarations.
#[derive(Drop)]
pub struct Variables<'a> {
    known: Vec<Variable<'a>>,
    /// How many were known where each block began that is open.
    marks: Vec<usize>,
    /// How many the function has so far.
    count: u32,
}

/// The number of the last of the variables that has this name.
fn last_named(known: &[Variable<'_>], name: &[u8]) -> Option<u32>
    ensures { result ≡ last_named (told_known known.now) name.now }
{
    for at in (0..known.len()).rev() {
        let variable = known[at];
        if variable.ident.name.bytes.as_slice() == name {
            return Some(variable.number);
        }
    }
    None
}

impl<'a> Variables<'a> {
    pub fn none(alloc: Global) -> Variables<'a>
        ensures { told_variables result ≡ no_variables }
    {
        Variables {
            known: Vec::new(alloc),
            marks: Vec::new(alloc),
            count: 0,
        }
    }

    /// The number of the variable that a name means: the last that was declared, of the blocks that are open.
    pub fn get(&self, name: &[u8]) -> Option<u32>
        ensures { result ≡ last_named (told_variables self.now).known name.now }
    {
        last_named(&self.known, name)
    }

    fn open(&mut self) -> Result<(), AllocError>
        ensures { OnOk result (told_variables self.new ≡ opened (told_variables self.old)) }
    {
        self.marks.push(self.known.len())?;
        Ok(())
    }

    fn close(&mut self)
        ensures { told_variables self.new ≡ closed (told_variables self.old) }
    {
        if let Some(mark) = self.marks.last().copied() {
            self.known.truncate(mark);
            self.marks.pop();
        }
    }

    /// There are fewer than 2^32.
    fn declare(&mut self, ident: &'a Ident) -> Result<(), AllocError>
        ensures { OnOk result (told_variables self.new ≡ declared (told_variables self.old) (name_of ident.now)) }
    {
        let number = self.count;
        match number.checked_add(1) {
            Some(count) => self.count = count,
            None => return Err(AllocError),
        }
        self.known.push(Variable { ident, number })?;
        Ok(())
    }

    /// The variables that are known after a step.
    pub fn pass(&mut self, step: Step<'a>) -> Result<(), AllocError>
        ensures { OnOk result (told_variables self.new ≡ after (told_variables self.old) (told_step step.entry)) }
    {
        match step {
            Step::Open => self.open()?,
            Step::Close => self.close(),
            Step::Declare(ident) => self.declare(ident)?,
            _ => {}
        }
        Ok(())
    }
}
