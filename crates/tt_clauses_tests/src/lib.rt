//! Tests of queries with TT BETWEEN on a store, in a crate of their own.
#![tactic(auto)]

#[cfg(test)]
mod tests;
