//! The texts of reports: how a run ended, and where in the source.
#![tactic(auto)]

mod places;
mod reports;

pub use reports::report;
