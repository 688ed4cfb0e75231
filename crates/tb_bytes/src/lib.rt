//! The bytes of an allocation, each uninitialised or a value with an optional provenance. Contracts
//! see them as one list.
#![tactic(auto)]

mod byte_val;
mod bytes;
mod marks;
mod origins;

pub use byte_val::ByteVal;
pub use bytes::Bytes;
