//! Sessions: one line in, one reply out, over any store.
//!
//! A line is a word of transactions, a command or a query. The reply is made whole before any of it is told, so no row
//! stands before an error. Each error aborts the transaction that the session has open.
#![tactic(auto)]

mod commands;
mod queries;
mod refusing;
mod reply;
mod session;
mod statement;
mod texts;
mod transactions;

pub use reply::{Reply, ReplyText};
pub use session::Session;
use std::alloc::AllocError;

/// Memory was wanting. No contract says when this answer comes.
pub type NoMemory = AllocError;
