//! The rules of typing for calls, over typed arguments: of functions of the program, and of the calls that are built in.
#![tactic(auto)]

mod answers;
mod dropping;
mod functions;
mod methods;
mod names;
mod paths;
mod receivers;
mod rows;

pub use dropping::drop_call;
pub use functions::{Callee, argument_want, call_function};
pub use methods::{method_call, method_want};
pub use paths::{path_call, path_want};
