//! Tests of graph_record, in a crate of their own: a crate that holds tests is proved once more together with them.
#![tactic(auto)]

#[cfg(test)]
mod printing;
#[cfg(test)]
mod records;
#[cfg(test)]
mod showing;
