//! The store as it is spoken to in lines: an event list is read, and each line's reply is written.
#![tactic(auto)]

mod answer;
mod command;
mod kept;
mod program;
mod run;
mod shell;

pub use answer::answer_line;
pub use command::{Command, aeong_main, read_words, show_usage};
pub use program::{answer_args, run_program};
pub use run::run_events;
pub use shell::Shell;
use std::alloc::AllocError;

/// Memory was wanting. No contract says when this answer comes.
pub type NoMemory = AllocError;
