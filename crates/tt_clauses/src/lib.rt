//! TT BETWEEN: what a MATCH gives at each instant of a span, as maximal runs.
//!
//! Promises of this crate:
//! - `range_fault` tells exactly the spans whose first instant is greater than the last. It takes no memory.
//! - `between` refuses a span that ends behind the start of its transaction, before it reads anything.
//! - Else its rows are, for each tuple that matches at some instant, ascending, the maximal runs of instants at which its
//!   shown values are printed alike, on the graphs of every history that the store stands for. A refusal is that of the
//!   maps, or of the first tuple that has one at its first instant, or the limit of rows.
//! - The caller has only read meanwhile.
#![tactic(auto)]

mod access;
mod answering;
mod evaluated;
mod instants;
mod joined;
mod parts;
mod rows;
mod tuples;
mod values;

pub use answering::between;
pub use parts::range_fault;
