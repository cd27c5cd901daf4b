//! Blocks of history: an object, and the older deltas that lead back from it, never more than the anchor interval.
//!
//! Promises of this crate:
//! - `build` groups deltas by the interval from the oldest on, and gives each group the object after its newest delta as
//!   its anchor; a block that is smaller than the interval is filled up first.
//! - `Block::rebuild` gives the object at an instant from one block, and counts each delta that it applies: exactly those
//!   that are later than the instant, and so never more than the block has.
//! - `finish` does that for what was found, and applies nothing where the object is ready; `finished` doesn't tell the count.
#![tactic(auto)]

mod block;
mod building;
mod found;
mod group;
pub mod laws;
#[cfg(test)]
mod tests;

pub use block::Block;
pub use building::build;
pub use found::{Found, finish, finished};
use std::alloc::AllocError;

/// Memory was wanting. No contract says when this answer comes.
pub type NoMemory = AllocError;
