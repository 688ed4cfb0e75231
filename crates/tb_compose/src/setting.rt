use tb_rules::Scalars;
use tb_types::Ty;

/// What is known around an expression.
#[derive(Clone, Copy, Debug)]
pub struct Setting {
    pub scalars: Scalars,
    /// The type of the results of the function.
    pub output: Ty,
    /// Whether `unsafe` is around it.
    pub is_unsafe: bool,
    /// Whether a loop is around it.
    pub in_loop: bool,
}
