//! A value for each place below a size, kept as runs of equal values. Contracts see it as the plain
//! list of the values.
#![tactic(auto)]

mod pairs;
mod patch;
mod pieces;
mod range;
mod reader;
mod run;
mod runs;

pub use reader::Reader;
pub use run::Run;
pub use runs::Runs;
