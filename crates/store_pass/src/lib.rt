//! Stores for callers: one core, used by one caller after the other.
#![tactic(auto)]

mod solo;

pub use solo::Solo;
