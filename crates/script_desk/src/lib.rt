//! The lines of a script: many sessions over one store that they have for themselves.
//!
//! A line is a session's name, a colon and a statement. Each line of a reply stands behind the session's name.
#![tactic(auto)]

mod desk;
mod naming;
mod roll;

pub use desk::Desk;
use std::alloc::AllocError;

/// Memory was wanting. No contract says when this answer comes.
pub type NoMemory = AllocError;
