//! A second store for callers, and tests of whole queries on stores, in a crate of their own.
#![tactic(auto)]

#[cfg(test)]
mod tests;
mod wanting;

pub use wanting::Wanting;
