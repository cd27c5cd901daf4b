//! The store as one state.
//!
//! Its rooms, from the inside out:
//! - `Row`: one object in its newest form, the chain of deltas that leads back from there, and who is writing it.
//! - `Rows` and `Objects`: the rows of all objects, found by their ids; a write of an edge changes three or none.
//! - `History` and `Histories`: the blocks of all objects, found by their ids.
//! - `Transactions`: the clock and the open transactions, each with the objects that it has written.
//! - `State`: all these as a plain value. Each event is one method, and every write goes one way.
//! - `Core`: the only room that speaks of histories. One step of the state is one step of each world that it keeps.
#![tactic(auto)]

mod collecting;
mod edge_rows;
mod effects;
mod histories;
mod history;
mod law;
mod objects;
mod outline;
mod reading;
mod row;
mod rows;
mod state;
mod store;
mod tally;
mod transactions;
mod turns;
mod writing;

pub use law::histories_are_legal;
use std::alloc::AllocError;
pub use store::Core;

/// Memory was wanting. No contract says when this answer comes.
pub type NoMemory = AllocError;
