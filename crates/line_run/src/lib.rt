//! Lines in, replies out: what answers lines is run over a source and a sink until one of them ends.
#![tactic(auto)]

mod answering;
mod ending;
mod run;

pub use answering::Answering;
pub use ending::Ending;
pub use run::answer_lines;
use std::alloc::AllocError;

/// Memory was wanting. No contract says when this answer comes.
pub type NoMemory = AllocError;

#[cfg(test)]
mod tests;
