//! Tests of graph_shell, in a crate of their own: a crate that holds tests is proved once more together with them.
#![tactic(auto)]

#[cfg(test)]
mod programs;
#[cfg(test)]
mod replies;
#[cfg(test)]
mod requests;
#[cfg(test)]
mod told;
