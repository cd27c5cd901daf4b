//! Spans of instants, and maximal runs of values over them.
//!
//! Promises of this crate:
//! - A `Span` is the instants from a first one to a last one, both in it. No span is empty.
//! - `meet` is exactly the instants that two spans share.
//! - `Same` says what it is to mean the same.
//! - `runs` is the maximal runs of pieces: at each instant there is what there was, up to sameness, and where two runs
//!   touch they don't mean the same. It takes no memory.
//! - No other list of runs is so, up to sameness: `runs_are_unique`.
#![tactic(auto)]

mod law;
mod maximal;
mod meeting;
mod same;
mod span;
#[cfg(test)]
mod tests;

pub use law::runs_are_unique;
pub use maximal::runs;
pub use meeting::meet;
pub use same::Same;
pub use span::Span;
