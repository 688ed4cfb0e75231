//! The walk of an event through a tree of tags: along its way to the root, and off the way only where marks do not
//! say that nothing would change and nothing refuse.
#![tactic(auto)]

mod blame;
mod event_tags;
mod visits;

pub use blame::{Blame, blame_on_way};
pub use event_tags::EventTags;
pub use visits::{Walked, walk};
