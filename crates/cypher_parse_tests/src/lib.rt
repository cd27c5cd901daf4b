//! Tests of cypher_parse, in a crate of their own: a crate that holds tests is proved once more together with them.
#![tactic(auto)]

#[cfg(test)]
mod texts;
