//! What an expression expects of its parts, and what it is with them: the rules of typing by the number of parts that an
//! expression has.
//!
//! What goes through a tree asks here before each part what is expected of it, and hands the typed parts over afterwards.
#![tactic(auto)]

mod many_parts;
mod no_parts;
mod one_part;
mod setting;
mod settling;
mod two_parts;

pub use many_parts::{ListOfParts, list, list_want};
pub use no_parts::{NoParts, leaf};
pub use one_part::{OnePart, one, one_want};
pub use setting::Setting;
pub use settling::settle;
pub use two_parts::{TwoParts, first_want, left_after, right_before, second_want, two};
