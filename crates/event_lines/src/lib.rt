//! The store in lines of text: which event a line asks for, and what a caller is told of the answer.
#![tactic(auto)]

mod reply;
mod request;
mod spelling;
mod told;

pub use reply::{push_bad_line, push_reply};
pub use request::{Request, Wish, is_skipped, read_request};
pub use spelling::{read_is_spelling, spelling_is_read};
use std::alloc::AllocError;
pub use told::Told;

/// Memory was wanting. No contract says when this answer comes.
pub type NoMemory = AllocError;
