//! The sweep: what has expired of each object is lifted out of its chain, built into blocks and installed in its history.
//! A collector is a client of the store like any other, and sends one event a call.
#![tactic(auto)]

mod left;
mod progress;
mod sweep;
mod whole;

pub use progress::{MOST, Progress, Swept};
use std::alloc::AllocError;
pub use sweep::Sweep;
pub use whole::sweep_all;

/// Memory was wanting. No contract says when this answer comes.
pub type NoMemory = AllocError;
