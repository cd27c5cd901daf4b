//! The writes on the graph, and the deltas that undo what a write does to an object.
//!
//! Promises of this crate:
//! - `Op` is a write with the ids that it gives out, `Ask` the same as a caller asks for it.
//! - `change` does to one object what a write does to it, and gives the deltas that undo this: undoing the second and
//!   then the first gives the object back. It leaves no delta exactly where it changes nothing, and without memory the
//!   object stays as it was.
//! - `change_edge` and `change_loop` do that for an edge that is made or deleted and for its ends together.
//! - `GraphUndo` is the kind of object whose deltas these are.
//! - A write keeps the form that each object has: its lists in order, and storable values alone.
#![tactic(auto)]

mod ask;
mod changing;
mod delta;
mod edge_change;
mod edit;
mod ends;
mod former;
mod graph_undo;
mod op;
mod same;
mod setting;

pub use ask::Ask;
pub use changing::change;
pub use delta::{Delta, DeltaPair};
pub use edge_change::{EdgeDeltas, LoopDeltas, change_edge, change_loop};
pub use edit::is_kept_value;
pub use former::Former;
pub use graph_undo::GraphUndo;
pub use op::{Joined, Op};
pub use setting::Setting;
use std::alloc::AllocError;

/// Memory was wanting. No contract says when this answer comes.
pub type NoMemory = AllocError;
