//! Patterns on small graphs, and the tuples and rows that match them.
#![tactic(auto)]

#[cfg(test)]
mod tests;
