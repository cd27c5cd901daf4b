//! The version of an object at an instant, from its chain or from its history.
//!
//! Promises of this crate:
//! - `version` gives the oldest block of the object's row that has a delta later than the instant, exactly where there is
//!   one, and else the version of the chain.
//! - It undoes no delta of a block, and looks at no more blocks than the logarithm of their number.
#![tactic(auto)]

mod searching;
#[cfg(test)]
mod tests;

pub use searching::version;
use std::alloc::AllocError;

/// Memory was wanting. No contract says when this answer comes.
pub type NoMemory = AllocError;
