//! Tests of scripts of many sessions.
#![tactic(auto)]

#[cfg(test)]
mod tests;
