//! Statements without MATCH and writes, and the rows that they come to.
#![tactic(auto)]

#[cfg(test)]
mod tests;
