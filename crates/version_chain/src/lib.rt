//! The chain of one object: the deltas that lead from its newest state back to its older ones.
//!
//! Promises of this crate:
//! - A `Chain` is a list of deltas, the newest first, each open or with the timestamp of its commit. Open deltas stand
//!   before committed ones, and timestamps don't ascend from the newest to the oldest. Every chain keeps this order.
//! - `push_open`, `pop_open`, `stamp`, `drop_open` and `cut_below` are the exact changes of that list, and `delta`,
//!   `stamp_of`, `newest_commit`, `count_after` and `len` read it.
//! - `reserve` makes room for deltas, and `push_reserved` pushes into that room, which cannot fail.
//! - `version_at` is the newest state with the open deltas and the later ones undone, and nothing else.
//! - `tail_below` is the deltas that were committed before a mark, and the state after the newest of them.
//! - A refusal for want of memory changes nothing, and gives a delta that was to be pushed back.
#![tactic(auto)]

mod chain;
mod entry;
mod front;
#[cfg(test)]
mod tests;
mod walk;

pub use chain::Chain;
pub use entry::Entry;
use std::alloc::AllocError;

/// Memory was wanting. No contract says when this answer comes.
pub type NoMemory = AllocError;
