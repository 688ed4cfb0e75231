//! The forms of expressions, but for the expressions in them.
//!
//! A [`Front`] is what an operand begins with, a [`Step`] how an expression goes on behind it. Each says what
//! it wants to be read next ([`Wanted`]), and [`finish`] and [`finish_step`] make the tree of it and of what
//! was read ([`Got`]). So a form is added here, and who reads expressions in one another need not know it.
#![tactic(auto)]

mod beginning;
mod borrow;
mod closing;
mod continuation;
mod finished;
mod front;
mod laws;
mod levels;
mod macros;
mod operand;
mod path;
mod place;
mod step;
mod tree;
mod wanted;
mod wants;

pub use beginning::begins_blocky;
pub use continuation::read_step;
pub use finished::{finish, finish_step};
pub use front::Front;
pub use laws::{law_fronts, law_steps};
pub use levels::{LOOSEST_LEVEL, OPERAND_ALONE, goes_on};
pub use operand::read_front;
pub use place::Where;
pub use step::Step;
pub use wanted::{Got, Wanted};
