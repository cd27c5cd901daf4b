//! What it means to undo changes of an object by deltas, for any kind of object.
//!
//! Promises of this crate:
//! - `Undo` says what a delta does: the object after `apply` is one function of the object and the delta as they are
//!   seen by contracts, a copy equals its source, and `same_object` is equality.
//! - `undone` is the object after a list of deltas, the newest undone first.
//! - `Steps` counts the deltas that were applied through it: each application adds one, a refused one none.
//! - `Dated` is a delta with the timestamp of its commit, `DatedDeltas` a list of them, and `Tail` an object with the
//!   older deltas that lead back from it.
//! - `Digits` is the smallest kind of object, for tests and measurements.
#![tactic(auto)]

mod dated;
mod digits;
mod steps;
mod tail;
#[cfg(test)]
mod tests;
mod undo;

pub use dated::{Dated, DatedDeltas};
pub use digits::Digits;
use std::alloc::AllocError;
pub use steps::Steps;
pub use tail::Tail;
pub use undo::Undo;

/// Memory was wanting. No contract says when this answer comes.
pub type NoMemory = AllocError;
