//! Bytes in and out: sources and sinks that count their faults, and lines read from a source.
#![tactic(auto)]

mod calls;
mod failed;
mod line;
mod lines;
mod memory_sink;
mod memory_source;
mod reading;
mod same_bytes;
mod sink;
mod source;
mod stop;
mod whole;
mod writing;

pub use failed::Failed;
pub use line::{INPUT_LIMIT, LINE_LIMIT, Line, LineSpan};
pub use lines::Lines;
pub use memory_sink::MemorySink;
pub use memory_source::MemorySource;
pub use reading::Reading;
pub use same_bytes::SameBytes;
pub use sink::Sink;
pub use source::Source;
use std::alloc::AllocError;
pub use whole::write_whole;
pub use writing::Writing;

/// Memory was wanting. No contract says when this answer comes.
pub type NoMemory = AllocError;

#[cfg(test)]
mod tests;
