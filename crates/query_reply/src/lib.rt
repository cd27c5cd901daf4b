//! The texts that answer a query: its rows, its first fault, what refuses it, and why it stopped on a store.
#![tactic(auto)]

mod fault;
mod push_faults;
mod push_rows;
mod push_stops;
#[cfg(test)]
mod tests;

pub use fault::{Fault, examine};
pub use push_faults::push_fault;
pub use push_rows::{ShownRow, push_lines, push_refused};
pub use push_stops::push_stop;
