use std::alloc::Global;
use tb_ast::Ident;
use tb_lookup::FileNames;

/// What is known where a type is written: the names of the file, and the type parameters of the function.
#[derive(Clone, Copy)]
pub struct Scope<'a> {
    pub alloc: Global,
    pub file: &'a FileNames,
    pub parameters: &'a [&'a Ident],
}
