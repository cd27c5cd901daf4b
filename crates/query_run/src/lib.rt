//! Whole queries, run on any store for a caller's open transaction, clause by clause over what the transaction sees.
#![tactic(auto)]

mod access;
mod asking;
mod clauses;
mod instant;
mod named;
mod plain;
mod reading;
mod running;
mod shown;
mod stop;

pub use instant::snapshot;
pub use running::run;
pub use shown::{Rows, value_shown};
pub use stop::Stop;
