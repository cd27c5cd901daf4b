//! A second reader of graphs, and the rows that expressions are tried on.
#![tactic(auto)]

mod counting;
#[cfg(test)]
mod tests;

pub use counting::CountingReader;
