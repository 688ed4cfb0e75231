//! Values of types as bytes: which bytes are a value, which value they are, the bytes of a value, and typed copies.
#![tactic(auto)]

mod copies;
mod decoding;
mod encoding;
mod fault;
mod kind;
mod leaves;
mod number;
mod prov;
mod scalar;

pub use copies::{copy, stored};
pub use decoding::decode;
pub use encoding::encode;
pub use fault::ValueFault;
pub use kind::ScalarKind;
pub use scalar::Scalar;
