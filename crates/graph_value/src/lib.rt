//! The values of the store: ids, texts, names and property values, and how they compare.
#![tactic(auto)]

mod equality;
mod hashing;
mod id;
mod less_than;
mod sameness;
mod size;
mod sorting;
mod storage;
#[cfg(test)]
mod tests;
mod text;
mod tri;
mod value;

pub use equality::equals;
pub use id::{EdgeId, Oid, VertexId};
pub use less_than::less;
pub use size::{depth, weight};
pub use sorting::{order, order_is_total, order_tells_apart};
use std::alloc::AllocError;
pub use storage::storable;
pub use text::{Name, Text};
pub use tri::Tri;
pub use value::{List, Value};

/// Memory was wanting. No contract says when this answer comes.
pub type NoMemory = AllocError;
