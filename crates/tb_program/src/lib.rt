//! The middle representation of programs of the whole language: functions of blocks of lines, over numbered locals, and its text.
#![tactic(auto)]

mod constants;
mod line;
mod lines;
mod operand;
mod pieces;
mod printed;
mod program;
mod rvalues;
mod types;

pub use line::{Line, MirLine};
pub use operand::{Base, BinOp, Constant, Operand, Part, Place, RefKind, Rvalue, UnOp};
pub use printed::text;
pub use program::{Block, Func, Local, LocalKind, Mir};
