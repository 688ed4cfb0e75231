//! The rules of typing for literals, operators and casts, over typed parts.
#![tactic(auto)]

mod casts;
mod infix;
mod literal;
mod prefix;
mod side;

pub use casts::cast_to;
pub use infix::{binary, has_operator, logic};
pub use literal::{boolean, byte, character, integer, unit};
pub use prefix::unary;
pub use side::{left_want, operand_want, right_want};
