//! Scripts from bytes to bytes: the statements of many sessions over one store, line by line.
#![tactic(auto)]

mod script;

pub use script::run_script;
