//! Tests of undo_delta, in a crate of their own: a crate that holds tests is proved once more together with them.
#![tactic(auto)]

#[cfg(test)]
mod changes;
#[cfg(test)]
mod edges;
#[cfg(test)]
mod premises;
#[cfg(test)]
mod shape;
#[cfg(test)]
mod table;
