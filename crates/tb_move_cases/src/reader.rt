//! Typed trees as cases write them.
//!
//! `b7` is variable 7, of a type that is moved, and `n7` variable 7, of one that is copied; `1` is a
//! literal. `(FORM` opens a form, its parts follow, and `)` closes it; the module `build` has the forms. The
//! place of a form is the numbers of its words in the line, and `!` is a word, too.

use crate::build::{Kinds, build, kinds_of};
use sqlite_items::Items;
use std::alloc::{AllocError, Global};
use tb_perm::Span;
use tb_thir::{Function, Node, Parameter, Thir, Variable};
use tb_types::{Name, Types};

/// A program, and where a fault is wanted.
#[derive(Drop)]
pub struct Case {
    pub thir: Thir,
    pub marked: Option<u32>,
}

/// A form that is not closed yet.
#[derive(Drop)]
struct Open<'a> {
    form: &'a str,
    lo: u32,
    parts: Vec<Node>,
}

#[derive(Drop)]
struct Reader<'a> {
    alloc: Global,
    kinds: Kinds,
    open: Vec<Open<'a>>,
    trees: Vec<Node>,
}

impl<'a> Reader<'a> {
    fn new(alloc: Global, kinds: Kinds) -> Reader<'a> {
        Reader {
            alloc,
            kinds,
            open: Vec::new(alloc),
            trees: Vec::new(alloc),
        }
    }

    /// Puts a node into the form that is open, or to the trees.
    fn put(&mut self, node: Node) -> Result<(), AllocError> {
        match self.open.last_mut() {
            Some(open) => open.parts.push(node)?,
            None => self.trees.push(node)?,
        }
        Ok(())
    }

    /// Closes the form that is open. The answer is whether it is one.
    fn close(&mut self, hi: u32) -> Result<bool, AllocError> {
        let Some(open) = self.open.pop() else {
            return Ok(false);
        };
        let span = Span { lo: open.lo, hi };
        match build(self.alloc, &self.kinds, open.form, span, open.parts)? {
            Some(node) => {
                self.put(node)?;
                Ok(true)
            }
            None => Ok(false),
        }
    }

    /// Reads the word of this number. The answer is whether it may stand there.
    fn word(&mut self, at: u32, word: &'a str) -> Result<bool, AllocError> {
        let span = Span {
            lo: at,
            hi: at.saturating_add(1),
        };
        if word == ")" {
            return self.close(span.hi);
        }
        if let Some(form) = word.strip_prefix("(") {
            self.open.push(Open {
                form,
                lo: at,
                parts: Vec::new(self.alloc),
            })?;
            return Ok(true);
        }
        match self.kinds.leaf(word, span) {
            Some(node) => {
                self.put(node)?;
                Ok(true)
            }
            None => Ok(false),
        }
    }
}

/// The function of a tree, whose body it is.
fn function(
    alloc: Global,
    kinds: &Kinds,
    parameters: u32,
    body: Node,
) -> Result<Function, AllocError> {
    let span = Span { lo: 0, hi: 0 };
    let mut list = Vec::new(alloc);
    for _ in 0..parameters {
        list.push(Parameter {
            span,
            ty: kinds.moved,
        })?;
    }
    let mut variables = Vec::new(alloc);
    for _ in 0..kinds.variables {
        variables.push(Variable {
            ty: kinds.moved,
            mutable: true,
        })?;
    }
    Ok(Function {
        name: Name::new(alloc, "f")?,
        name_span: span,
        span,
        parameters: Items::from_vec(list),
        result: kinds.unit,
        variables: Items::from_vec(variables),
        body,
    })
}

/// The words of a line behind the first two, with their numbers. The answer is the trees, and where the mark
/// stands.
fn trees(
    alloc: Global,
    kinds: Kinds,
    line: &str,
) -> Result<Option<(Vec<Node>, Option<u32>)>, AllocError> {
    let mut reader = Reader::new(alloc, kinds);
    let mut marked = None;
    let mut at = 0u32;
    for word in line.split(' ').skip(2) {
        if word == "!" {
            marked = Some(at.saturating_add(1));
        } else if !reader.word(at, word)? {
            return Ok(None);
        }
        at = at.saturating_add(1);
    }
    if !reader.open.is_empty() {
        return Ok(None);
    }
    Ok(Some((reader.trees, marked)))
}

/// The number of variables of a line: one more than the greatest number of one.
fn variables(line: &str) -> u32 {
    let mut most = 0u32;
    for word in line.split(' ') {
        if let Some(number) = number(word) {
            most = most.max(number.saturating_add(1));
        }
    }
    most
}

/// The number of the variable that a word names or declares.
fn number(word: &str) -> Option<u32> {
    let digits = match word.strip_prefix("(let") {
        Some(digits) => digits,
        None => match word.strip_prefix("b") {
            Some(digits) => digits,
            None => word.strip_prefix("n")?,
        },
    };
    digits.parse::<u32>().ok()
}

/// Reads the case of a line.
pub fn read(alloc: Global, line: &str) -> Result<Option<Case>, AllocError> {
    let Some(parameters) = line.split(' ').nth(1) else {
        return Ok(None);
    };
    let Ok(parameters) = parameters.parse::<u32>() else {
        return Ok(None);
    };
    let mut types = Types::new(alloc);
    let Some(kinds) = kinds_of(&mut types, variables(line)) else {
        return Ok(None);
    };
    let Some((trees, marked)) = trees(alloc, kinds, line)? else {
        return Ok(None);
    };
    let mut functions = Vec::new(alloc);
    for tree in trees {
        functions.push(function(alloc, &kinds, parameters, tree)?)?;
    }
    let functions = Items::from_vec(functions);
    Ok(Some(Case {
        thir: Thir { types, functions },
        marked,
    }))
}
