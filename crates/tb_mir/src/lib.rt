//! The middle representation that a source is lowered to, and that the machine runs: functions of
//! blocks of lines, over numbered locals.
#![tactic(auto)]

mod line;
mod mir;
mod operand;

pub use line::{Line, MirLine};
pub use mir::{Block, Func, Local, LocalKind, Mir, Ty};
pub use operand::{Base, BinOp, Constant, Operand, Place, RefKind, Rvalue};
