//! What typing stands on: what is expected of an expression, the kinds of types, types that are made, and coercions.
//!
//! A rule of typing takes the typed parts of an expression and what is expected of it, and gives the typed node or
//! the first fault. A type is a number of the table that the rules hand on from one to the next.
#![tactic(auto)]

mod allowed;
mod coercion;
mod error;
mod fitting;
mod made;
mod node;
mod scalars;
mod type_kind;
mod want;

pub use allowed::type_fault;
pub use coercion::{Coercion, applied, coerced, weakening};
pub use error::TypeError;
pub use fitting::{diverging_type, expected, fit, into_or_free};
pub use made::intern;
pub use node::{borrow, cast, deref, reborrow};
pub use scalars::Scalars;
pub use type_kind::{TypeKind, is_slice, kind};
pub use want::Want;
