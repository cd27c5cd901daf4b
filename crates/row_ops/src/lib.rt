//! Tables between two clauses: UNWIND, WITH and RETURN.
#![tactic(auto)]

mod aggregates;
mod columns;
mod compiling;
mod filter;
mod grouping;
mod made;
mod names;
mod nodes;
mod once;
mod projection;
mod queues;
mod rows;
mod sorting;
mod unwinding;

pub use made::item_values;
pub use projection::project;
pub use unwinding::unwind;
