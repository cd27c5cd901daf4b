//! The history of all objects: for each a row of blocks, and the cut before which its deltas stand in blocks.
//!
//! Promises of this crate:
//! - A `Keeper` is a list of rows, each with its blocks, the oldest first, and its cut. `add_row` and `extend` are the
//!   exact changes of that list; a refusal changes nothing, and that of `extend` hands the blocks back.
//! - Timestamps don't ascend from the newest delta of a row to its oldest.
//! - `locate` gives the oldest block that has a delta later than an instant, in the logarithm of the number of blocks.
//! - `counts` is the number of deltas and of blocks in all rows. It is kept, and costs the same at any size.
#![tactic(auto)]

mod counts;
mod keeper;
mod row;
#[cfg(test)]
mod tests;

pub use counts::Counts;
pub use keeper::Keeper;
use std::alloc::AllocError;

/// Memory was wanting. No contract says when this answer comes.
pub type NoMemory = AllocError;
