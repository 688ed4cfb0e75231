//! Items in the order of their text, as a flat list of steps: what names, limits and scopes are read from.
#![tactic(auto)]

mod noted;
mod step;

pub use noted::outline;
pub use step::Step;
