//! Tests of sessions over a store that they have for themselves.
#![tactic(auto)]

#[cfg(test)]
mod tests;
