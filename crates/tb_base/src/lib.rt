//! What the interpreter meets outside itself: files, a source of bytes, and sinks of bytes.
//!
//! The three traits say what such an object may do, the objects in memory do it and tell all of
//! it, and the adapters stand before the real system.
#![tactic(auto)]

mod calls;
mod fault;
mod files;
mod memory_files;
mod memory_sink;
mod memory_source;
mod put;
mod real;
mod sink;
mod source;

pub use fault::{Fault, FileError};
pub use files::Files;
pub use memory_files::MemFiles;
pub use memory_sink::MemSink;
pub use memory_source::MemSource;
pub use put::put_all;
pub use real::{RealError, RealFiles, RealInput, RealOutput};
pub use sink::Sink;
pub use source::Source;
