//! The program as one call: from the words and the files to the bytes on the output, the report and
//! the status.
#![tactic(auto)]

mod call;
mod halt;
mod laws;
mod read;
mod report;
mod run;
mod words;

pub use call::{Status, tbmiri};
pub use laws::law_one_mir;
