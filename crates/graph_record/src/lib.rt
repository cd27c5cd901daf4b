//! The objects of the graph: the records of vertices and edges, and the lists that they are made of.
#![tactic(auto)]

mod edge_ids;
mod kind;
mod labels;
mod object;
mod properties;
mod shared;

pub use edge_ids::EdgeIds;
pub use kind::Kind;
pub use labels::Labels;
pub use object::{EdgeRecord, Object, VertexRecord};
pub use properties::Properties;
use std::alloc::AllocError;

/// Memory was wanting. No contract says when this answer comes.
pub type NoMemory = AllocError;
