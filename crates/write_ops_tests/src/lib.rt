//! Clauses that write on a small graph, and their plans.
#![tactic(auto)]

#[cfg(test)]
mod tests;
