//! Tests of the stores for callers and of what is read through them, in a crate of their own.
#![tactic(auto)]

#[cfg(test)]
mod one_caller;
#[cfg(test)]
mod two_callers;
