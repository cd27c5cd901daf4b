//! Tests of collector, in a crate of their own: a crate that holds tests is proved once more together with them.
#![tactic(auto)]

#[cfg(test)]
mod between;
#[cfg(test)]
mod graph;
#[cfg(test)]
mod looks;
#[cfg(test)]
mod sweeps;
